// What an order does at its entry and at its return: it trades with the other side, and what is left comes to an end.
ghost use Rattle.std.specs.Prelude.{◌≡◌, ◌+◌, ◌<◌, true, length};
ghost use Rattle.matching.specs.Tapes.{Room, Writes};
ghost use Rattle.rules.specs.Model.{with_entries};
ghost use Rattle.rules.specs.Outcome.{longer_side};
ghost use Rattle.rules.specs.Sides.{other_side};
ghost use Rattle.rules.specs.Sound.{Sound};
ghost use Rattle.rules.specs.Trade as trading;
ghost use Rattle.rules.specs.Trade.{traded};
ghost use Rattle.book.specs.Entries.{Does};

use crate::ending::Ended;
use crate::state::State;
use matching::Lent;
use rules::{Routed, Side};
use sharing::Rule;

impl State<'_> {
    // Trades an order with the other side, and answers its balance.
    // Stays a match on the side, as the methods that alter a side in state.rt and for their reason.
    #[tactic(auto, unfolding(rules::specs::Trade::traded))]
    fn meet<R: Rule>(&mut self, rule: &R, order: &Routed, lent: &mut Lent<'_>) -> u32
        requires sound { Sound self.old }
        requires size { order.now.size < 100000 }
        requires room { Room (longer_side self.old) (longer_side self.old) lent.old }
        ensures after { self.new ≡ with_entries (other_side order.now.side) (traded (R.meaning rule.now) order.now self.old).run self.old }
        ensures balance { result ≡ (traded (R.meaning rule.now) order.now self.old).balance }
        ensures writes { Writes (traded (R.meaning rule.now) order.now self.old).lines lent.old lent.new }
    {
        match order.side {
            Side::Buy => self.offers.meet(rule, order, lent),
            Side::Sell => self.bids.meet(rule, order, lent),
        }
    }

    // The order trades, and what is left of it is filled, routed, cancelled or rests; each is told on the tape. Answers the id of
    // an order that went out.
    pub(crate) fn trade<R: Rule>(
        &mut self,
        rule: &R,
        order: &Routed,
        may_route: bool,
        lent: &mut Lent<'_>,
    ) -> Option<u64>
        requires sound { Sound self.old }
        requires size { order.now.size < 100000 }
        requires rows { may_route ≡ true → length self.old.out < 16 }
        requires room { Room (longer_side self.old) (longer_side self.old + 1) lent.old }
        ensures { Does (trading.trade (R.meaning rule.now) order.now may_route self.old) self.new result lent.old lent.new }
    {
        let left = Routed {
            size: self.meet(rule, order, lent),
            ..*order
        };
        let end = self.end_of(&left, may_route);
        let ended = Ended { left, end };
        lent.write(ended.line());
        self.settle(&ended);
        ended.gone_out()
    }
}
