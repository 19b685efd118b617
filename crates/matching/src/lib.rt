// Matching: one price in five steps, and the walk from price to price, in the places of a side.
#![tactic(auto)]

mod lent;
mod parts;
mod price;
mod prices;
mod step;

pub use lent::Lent;
pub use prices::{Walked, available, walk};
