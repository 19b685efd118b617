// An entry: its checks, its cap, its least size, and then it trades.
ghost use Rattle.std.specs.Prelude.{◌≡◌, false, Some};
ghost use Rattle.std.specs.List.{AllByRecursion};
ghost use Rattle.rules.specs.Calls.{reference, entry_checks, setting_out, entry_of};
ghost use Rattle.rules.specs.Caps.{cap_of};
ghost use Rattle.rules.specs.Model.{entries, away};
ghost use Rattle.rules.specs.Sides.{other_side};
ghost use Rattle.rules.specs.Sound.{Sound};
ghost use Rattle.rules.specs.Walk as walking;
ghost use Rattle.book.specs.Answers.{Settles};
ghost use Rattle.book.specs.Entries.{entering, carried, Does, Tapes};

use crate::state::State;
use matching::{Lent, available};
use rules::{Cause, Line, Order, Refusal, Routed};
use sharing::Rule;

// The order as it sets out, with its cap.
// Stays field by field, as `resting` in ending.rt: a `From` has no room for the cap, or there for the working time.
fn going(order: &Order, cap: u32) -> Routed
    ensures { result ≡ setting_out order.now cap }
{
    let Order {
        id,
        firm,
        kind,
        side,
        term,
        size,
        directed,
        own_firm_mark,
        ..
    } = *order;
    Routed {
        id,
        firm,
        kind,
        side,
        term,
        market: order.price.is_none(),
        cap,
        size,
        directed,
        own_firm_mark,
    }
}

impl State<'_> {
    // The contracts on the other side that an order could trade.
    fn available_to(&self, order: &Routed) -> u32
        requires { Sound self.now }
        ensures { result ≡ walking.available order.now (away (other_side order.now.side) self.now) (entries (other_side order.now.side) self.now) }
    {
        let other = self.side(order.side.other());
        available(order, other.away(), other.entries())
    }

    // Carries out an entry that no check refuses, and answers the id of an order that went out.
    fn set_out<R: Rule>(
        &mut self,
        rule: &R,
        order: &Order,
        cap: u32,
        lent: &mut Lent<'_>,
    ) -> Option<u64>
        requires sound { Sound self.old }
        requires cap { cap_of order.now self.old.opening.tick (reference order.now self.old) ≡ Some cap }
        requires accepted { AllByRecursion (λ k. k.0 ≡ false) (entry_checks (entering order.now lent.old) self.old) }
        ensures { Does (carried (R.meaning rule.now) order.now self.old) self.new result lent.old lent.new }
    {
        let going = going(order, cap);
        let room = self.available_to(&going);
        self.last_id = order.id;
        if room < order.least {
            lent.write(Line::Cancel {
                id: order.id,
                firm: order.firm,
                size: order.size,
                cause: Cause::LeastSize,
            });
            return None;
        }
        self.trade(rule, &going, order.may_route, lent)
    }

    // An entry is refused by the first check that fits, and else carried out. Answers the id of an order that went out.
    #[tactic(auto, using(crate::proofs::Entered::refused_settles, crate::proofs::Entered::refused_tapes, crate::proofs::Entered::done_settles, crate::proofs::Entered::done_tapes))]
    pub(crate) fn enter<R: Rule>(
        &mut self,
        rule: &R,
        order: &Order,
        lent: &mut Lent<'_>,
    ) -> Result<Option<u64>, Refusal>
        requires { Sound self.old }
        ensures outcome { Settles (entry_of (R.meaning rule.now) (entering order.now lent.old) self.old) self.old result self.new (λ d out. out ≡ d.ticket) }
        ensures tapes { Tapes (entry_of (R.meaning rule.now) (entering order.now lent.old) self.old) lent.old lent.new }
    {
        let cap = self.check_entry(order, lent)?;
        Ok(self.set_out(rule, order, cap, lent))
    }
}
