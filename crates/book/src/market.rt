// A market update: an away price, or none.
ghost use Rattle.std.specs.Prelude.{◌≡◌, ◌<◌};
ghost use Rattle.rules.specs.Calls.{market_of};
ghost use Rattle.rules.specs.Outcome.{bad_price};
ghost use Rattle.rules.specs.Sound.{Sound};
ghost use Rattle.book.specs.Answers.{Settles};

use crate::state::State;
use rules::{Refusal, Side, valid_price};

// A price that is given is none.
pub(crate) fn bad_price(tick: u32, price: Option<u32>) -> bool
    requires { 0 < tick }
    ensures { result ≡ bad_price tick price }
{
    price.is_some_and(|p| !valid_price(tick, p))
}

impl State<'_> {
    // Sets the away price on a side.
    #[tactic(auto, unfolding(rules::specs::Calls::market_of))]
    pub(crate) fn market(&mut self, side: Side, price: Option<u32>) -> Result<(), Refusal>
        requires { Sound self.old }
        ensures { Settles (market_of (record { side = side; price = price }) self.old) self.old result self.new (λ d a. Unit {0}) }
    {
        if bad_price(self.tick, price) {
            return Err(Refusal::BadPrice);
        }
        self.set_away(side, price);
        Ok(())
    }
}
