// The Trading Collar, Rule 900.3NYP(a)(4), and the cap of an order: the worst price that it may trade, route or rest at.
ghost use Rattle.std.specs.Prelude.{◌≡◌, true};
ghost use Rattle.rules.specs.Caps.{collar_amount, collar_of, tighter, cap_of};
ghost use Rattle.rules.specs.Prices.{is_tick, is_price};
ghost use Rattle.rules.specs.Rulebook.{rulebook_collar};

use crate::prices::HIGHEST_PRICE;
use crate::terms::{Order, Side};

// How far in cents the collar lies from the reference.
pub fn collar_distance(reference: u32) -> u32
    ensures { result ≡ collar_amount reference }
{
    match reference {
        ..=200 => 20,
        ..=500 => 30,
        ..=1000 => 40,
        ..=2000 => 70,
        ..=5000 => 90,
        ..=10000 => 140,
        _ => 190,
    }
}

impl Side {
    // The collar of an order of this side. It is the one that the rulebook's bands, its 25% and its rounding give.
    pub fn collar(self, tick: u32, limit: Option<u32>, reference: u32) -> u32
        ensures value { result ≡ collar_of self tick limit reference }
        ensures rulebook { is_tick tick ≡ true → is_price tick reference ≡ true → result ≡ rulebook_collar self tick limit reference }
    {
        let distance = collar_distance(reference);
        match self {
            Side::Buy => reference.saturating_add(distance).min(HIGHEST_PRICE),
            Side::Sell => reference
                .checked_sub(distance)
                .filter(|&below| tick <= below)
                .or(limit)
                .unwrap_or(tick),
        }
    }

    // Of two prices the one that pays less, or takes more.
    pub fn tighter(self, p: u32, q: u32) -> u32
        ensures { result ≡ tighter self p q }
    {
        if self.better(p, q) { q } else { p }
    }
}

impl Order {
    // The order's cap, from the national best price on the other side; a Market Order without one has none.
    pub fn cap(&self, tick: u32, reference: Option<u32>) -> Option<u32>
        ensures { result ≡ cap_of self.now tick reference }
    {
        if self.term.is_immediate() || self.kind.is_quote() {
            return self.price;
        }
        let Some(reference) = reference else {
            return self.price;
        };
        let collar = self.side.collar(tick, self.price, reference);
        Some(
            self.price
                .map_or(collar, |limit| self.side.tighter(limit, collar)),
        )
    }
}
