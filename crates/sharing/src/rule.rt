// A sharing rule: how an amount is divided over claims, what that means, and the laws that every rule keeps.
ghost use Rattle.std.specs.Prelude.{◌≡◌, ◌^◌, ◌<◌, min, length, slice_index};
ghost use Rattle.sharing.specs.Claims.{Shareable, allotted, allotment_of, size_of};
ghost use Rattle.sharing.specs.Sharing.{Sharing, Lawful};
ghost use Rattle.sharing.specs.Totals.{total};

use crate::claims::Claim;

// Stays asked of amount and claims side by side: venues write rules by this trait, `share` works on the claims in place, and `floor`
// only reads them, so one struct would not serve both.
pub trait Rule {
    // For an amount and claims, the allotments and the floors.
    ghost meaning: { Self → Sharing };

    // Writes each claim's allotment, and nothing else.
    fn share(&self, amount: u32, claims: &mut [Claim])
        requires { Shareable amount claims.old }
        ensures { claims.new ≡ allotted ((meaning self.now).allotments amount claims.old) claims.old };

    // The floor of the claim at a place: no allotment by this rule is below it.
    fn floor(&self, amount: u32, claims: &[Claim], at: usize) -> u32
        requires shareable { Shareable amount claims.now }
        requires within { at < length claims.now }
        ensures { result ≡ slice_index ((meaning self.now).floors amount claims.now) at };

    ghost lawful: { (r : Self) → Lawful (meaning r) };
}

// Shares an amount by any rule, and answers how many contracts were allotted: all that the amount and the sizes allow.
pub fn share_out<R: Rule>(rule: &R, amount: u32, claims: &mut [Claim]) -> u32
    requires { Shareable amount claims.old }
    ensures after { claims.new ≡ allotted ((R.meaning rule.now).allotments amount claims.old) claims.old }
    ensures value { result ≡ min amount (total size_of claims.old) }
    ensures again { Shareable amount claims.new }
{
    rule.share(amount, claims);
    claims.iter().map(|c| c.allotment).sum()
}
