// The book of one series and its public calls.
#![tactic(auto)]

mod book_side;
mod cancel;
mod ending;
mod entry;
mod entry_checks;
mod find;
mod keeping;
mod market;
mod resize;
mod returning;
mod state;
mod ticket;
mod trade;

pub use keeping::{Accepted, Book, check_opening};
pub use ticket::{NotReturned, Ticket};
