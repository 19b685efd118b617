// The checks before an entry, in their order.
ghost use Rattle.std.specs.Prelude.{◌≡◌, ◌-◌, ◌<◌, [], not, ◌&&◌, ◌||◌, length, ◌==◌, nat_le};
ghost use Rattle.rules.specs.Calls.{reference};
ghost use Rattle.rules.specs.Caps.{cap_of, is_ioc};
ghost use Rattle.rules.specs.Model.{entries, places};
ghost use Rattle.rules.specs.Outcome.{longer_side, lent_checks, firm_zero};
ghost use Rattle.rules.specs.Sound.{Sound};
ghost use Rattle.book.specs.Entries.{entering, Admits};
ghost use Rattle.book.specs.Refusals.{Passes};

use crate::market::bad_price;
use crate::state::State;
use matching::Lent;
use rules::{Order, Refusal, valid_size};

// The order's firm, or the one that it is directed to, has the number 0.
fn firm_zero(order: &Order) -> bool
    ensures { result ≡ (order.now.firm == 0 || firm_zero order.now.directed) }
{
    order.firm == 0 || order.directed == Some(0)
}

impl State<'_> {
    // The places of the longer side.
    fn longer_side(&self) -> usize
        ensures { result ≡ longer_side self.now }
    {
        self.bids.places().max(self.offers.places())
    }

    // What the host lends for an entry or a return is long enough.
    pub(crate) fn check_lent(&self, lent: &Lent<'_>) -> Result<(), Refusal>
        ensures { Passes (lent_checks (length lent.now.tape.now - lent.now.lines) (length lent.now.sheet.now) self.now []) result }
    {
        let longer = self.longer_side();
        if lent.tape.len().saturating_sub(lent.lines) <= longer {
            return Err(Refusal::TapeTooShort);
        }
        if lent.sheet.len() < longer {
            return Err(Refusal::ClaimSheetTooShort);
        }
        Ok(())
    }

    // The order may route, and sixteen are out.
    fn no_row(&self, order: &Order) -> bool
        ensures { result ≡ (order.now.may_route && nat_le 16 (length self.now.out)) }
    {
        order.may_route && self.out.is_full()
    }

    // An order for the day needs a place on its side, whether it would rest or not.
    fn no_place(&self, order: &Order) -> bool
        ensures { result ≡ (not (is_ioc order.now.term) && nat_le (places order.now.side self.now) (length (entries order.now.side self.now))) }
    {
        !order.term.is_immediate() && self.side(order.side).is_full()
    }

    // The order's cap. A Market Order has none where there is nothing to reckon its collar from.
    fn cap_for(&self, order: &Order) -> Option<u32>
        ensures { result ≡ cap_of order.now self.now.opening.tick (reference order.now self.now) }
    {
        let reference = self.side(order.side.other()).national_best();
        order.cap(self.tick, reference)
    }

    // The cap with which an order sets out, or the first check that refuses its entry.
    pub(crate) fn check_entry(&self, order: &Order, lent: &Lent<'_>) -> Result<u32, Refusal>
        requires { Sound self.now }
        ensures { Admits (entering order.now lent.now) self.now result }
    {
        self.check_lent(lent)?;
        if order.id <= self.last_id {
            return Err(Refusal::IdNotAboveAllBefore);
        }
        if firm_zero(order) {
            return Err(Refusal::FirmZero);
        }
        if !valid_size(order.size) {
            return Err(Refusal::BadSize);
        }
        if bad_price(self.tick, order.price) {
            return Err(Refusal::BadPrice);
        }
        if order.terms_clash() {
            return Err(Refusal::TermsClash);
        }
        if self.last_time_reached() {
            return Err(Refusal::LastTimeReached);
        }
        if self.no_row(order) {
            return Err(Refusal::SixteenOut);
        }
        if self.no_place(order) {
            return Err(Refusal::SideFull);
        }
        self.cap_for(order).ok_or(Refusal::NoReference)
    }
}
