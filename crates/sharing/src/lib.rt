// How an amount of contracts is divided over the claims of those who would trade it.
#![tactic(auto)]

mod by_time;
mod claims;
mod examples;
mod pro_rata;
mod rule;

pub use by_time::ByTime;
pub use claims::{Claim, Earliest, LargestRemaining};
pub use examples::worked_examples;
pub use pro_rata::SizeProRata;
pub use rule::{Rule, share_out};

#[cfg(test)]
mod tests;
