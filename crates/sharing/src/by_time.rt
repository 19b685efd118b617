// The rule by time: each claim in turn gets the lesser of its size and what the earlier ones leave.
ghost use Rattle.sharing.specs.Rules.{by_time};
ghost use Rattle.sharing.specs.InTurn.{by_time_lawful};

use crate::claims::{Claim, total_size};
use crate::rule::Rule;

#[derive(Clone, Copy)]
pub struct ByTime;

impl Rule for ByTime {
    ghost meaning = { λ _. by_time };

    ghost lawful = { λ r. by_time_lawful };

    fn share(&self, amount: u32, claims: &mut [Claim]) {
        let mut left = amount;
        for c in claims {
            c.allotment = c.size.min(left);
            left -= c.allotment;
        }
    }

    fn floor(&self, amount: u32, claims: &[Claim], at: usize) -> u32 {
        let left = amount.saturating_sub(total_size(&claims[..at]));
        claims[at].size.min(left)
    }
}
