// The shipped sharing rules as one, which is the rule that a call names.
ghost use Rattle.replay.specs.declared.shipped.Shipped.TheVariants.{ByTime, SizeProRata};
ghost use Rattle.sharing.specs.InTurn.{by_time_lawful};
ghost use Rattle.sharing.specs.ProRata.{size_pro_rata_lawful};
ghost use Rattle.sharing.specs.Rules.{by_time, size_pro_rata};

use sharing::{ByTime, Claim, Rule, SizeProRata};

#[derive(Clone, Copy)]
pub enum Shipped {
    ByTime,
    SizeProRata,
}

// Stays a match at each method. One match that hands a `&dyn Rule` to a closure was tried: what such a closure asks and answers
// cannot be stated yet. Calls generic in the rule would match as often, and nothing would prove which rule shares.
impl Rule for Shipped {
    ghost meaning = { elim [ ByTime ↦ by_time | SizeProRata ↦ size_pro_rata ] };

    ghost lawful = { elim [ ByTime ↦ by_time_lawful | SizeProRata ↦ size_pro_rata_lawful ] };

    fn share(&self, amount: u32, claims: &mut [Claim]) {
        match self {
            Shipped::ByTime => ByTime.share(amount, claims),
            Shipped::SizeProRata => SizeProRata.share(amount, claims),
        }
    }

    fn floor(&self, amount: u32, claims: &[Claim], at: usize) -> u32 {
        match self {
            Shipped::ByTime => ByTime.floor(amount, claims, at),
            Shipped::SizeProRata => SizeProRata.floor(amount, claims, at),
        }
    }
}
