// A list kept in the order of its elements' ranks, over places that somebody else owns.
#![tactic(auto)]

mod list;
mod places;
mod ranking;

pub use list::{Full, RankedList};
pub use ranking::Ranking;

#[cfg(test)]
mod tests;
