// The terms of the venue as types, and its rules as small proved functions. What a call does is defined in specs/.
#![tactic(auto)]

mod caps;
mod checks;
mod examples;
mod guarantee;
mod laws;
mod numbers;
mod prices;
mod ranks;
mod tape;
mod terms;

pub use caps::collar_distance;
pub use examples::worked_examples;
pub use guarantee::{for_the_group, least_for_the_group};
pub use laws::{
    every_call_keeps_the_book_sound, nothing_is_lost_from_price_to_price, one_price_is_exhausted,
};
pub use numbers::{Cause, Refusal};
pub use prices::{valid_price, valid_size, valid_tick};
pub use ranks::Class;
pub use tape::{Line, Step};
pub use terms::{Entry, Kind, Order, Routed, Side, Term};
