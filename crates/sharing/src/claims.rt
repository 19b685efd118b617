// A claim on part of an amount, and the two orders in which claims are ranked.
ghost use Rattle.std.specs.Prelude.{◌≡◌, ℕ, ◌^◌, ◌<◌, nat_lt};
ghost use Rattle.sharing.specs.Claims.{remaining, larger_then_earlier, size_of};
ghost use Rattle.sharing.specs.Totals.{total};
ghost use Rattle.std.proofs.Common.{rules};

use ranked::Ranking;

// What one maker would trade: its size, its working time, and the contracts that a rule allots to it.
#[derive(Clone, Copy, Debug, Default, PartialEq, Eq)]
pub struct Claim {
    pub size: u32,
    pub time: u32,
    pub allotment: u32,
}

impl Claim {
    // A claim with no allotment yet.
    pub fn new(size: u32, time: u32) -> Claim
        ensures { result ≡ record { size = size; time = time; allotment = 0 } }
    {
        Claim {
            size,
            time,
            allotment: 0,
        }
    }

    // The contracts that it would still trade.
    fn left(&self) -> u32
        ensures { result ≡ (remaining self.now).0 }
    {
        self.size.saturating_sub(self.allotment)
    }
}

// The contracts of all claims.
#[tactic(auto, using(crate::proofs::Shared::total_sum))]
pub(crate) fn total_size(claims: &[Claim]) -> u32
    requires { total size_of claims.now < 2 ^ 32 }
    ensures { result ≡ total size_of claims.now }
{
    claims.iter().map(|c| c.size).sum()
}

// The claim that has most left to fill comes first, and of equals the earlier.
#[derive(Clone, Copy)]
pub struct LargestRemaining;

impl Ranking<Claim> for LargestRemaining {
    ghost Ranks = { ℕ × ℕ };

    ghost rank = { λ _. remaining };

    ghost before = { λ _. larger_then_earlier };

    ghost irreflexive = { Prim.search rules };

    ghost transitive = { Prim.search rules };

    ghost total = { Prim.search rules };

    fn precedes(&self, x: &Claim, y: &Claim) -> bool {
        (y.left(), x.time) < (x.left(), y.time)
    }
}

// The earliest claim comes first.
#[derive(Clone, Copy)]
pub struct Earliest;

impl Ranking<Claim> for Earliest {
    ghost Ranks = { ℕ };

    ghost rank = { λ _ c. c.time };

    ghost before = { λ _. nat_lt };

    ghost irreflexive = { Prim.search rules };

    ghost transitive = { Prim.search rules };

    ghost total = { Prim.search rules };

    fn precedes(&self, x: &Claim, y: &Claim) -> bool {
        x.time < y.time
    }
}
