// Ticks, prices and sizes, the national best price, and which prices an order reaches.
ghost use Rattle.std.specs.Prelude.{◌≡◌, ◌<◌};
ghost use Rattle.rules.specs.Prices.{is_tick, is_price, is_size, national, in_cap, not_better_away, in_reach};

use crate::terms::Side;

// In cents.
pub(crate) const HIGHEST_PRICE: u32 = 1_000_000;

// 1, 5 or 10 cents.
pub fn valid_tick(tick: u32) -> bool
    ensures { result ≡ is_tick tick }
{
    matches!(tick, 1 | 5 | 10)
}

// 1 to 1,000,000 cents and a multiple of the tick.
pub fn valid_price(tick: u32, price: u32) -> bool
    requires { 0 < tick }
    ensures { result ≡ is_price tick price }
{
    (1..=HIGHEST_PRICE).contains(&price) && price % tick == 0
}

// 1 to 99,999 contracts.
pub fn valid_size(size: u32) -> bool
    ensures { result ≡ is_size size }
{
    (1..=99_999).contains(&size)
}

impl Side {
    // The national best price on this side, from the book's best and the away price.
    pub fn national_best(self, book: Option<u32>, away: Option<u32>) -> Option<u32>
        ensures { result ≡ national self book away }
    {
        match (book, away) {
            (Some(p), Some(q)) if self.better(q, p) => away,
            _ => book.or(away),
        }
    }

    // An order of this side with this cap pays no more, or takes no less.
    pub fn within_cap(self, cap: u32, price: u32) -> bool
        ensures { result ≡ in_cap self cap price }
    {
        !self.better(price, cap)
    }

    // A price on the other side is within reach of an order of this side: within its cap, and no away price is better.
    pub fn within_reach(self, cap: u32, away: Option<u32>, price: u32) -> bool
        ensures { result ≡ in_reach self cap away price }
    {
        let beaten = away.is_some_and(|q| self.other().better(q, price));
        self.within_cap(cap, price) && !beaten
    }
}
