// The rank of entries on a side: better price, Market Orders first, customers first, earlier time.
ghost use Rattle.std.specs.Prelude.{◌≡◌, ℕ};
ghost use Rattle.rules.specs.Ranks.{is_customer, class_number, class_of, rank_of, rank_before};
ghost use Rattle.rules.specs.TotalRanks.{same_price, same_class, same_time};
ghost use Rattle.std.proofs.Common.{rules};

use crate::terms::{Entry, Kind, Side};
use ranked::Ranking;

impl Kind {
    pub fn is_customer(self) -> bool
        ensures { result ≡ is_customer self }
    {
        matches!(self, Kind::Customer)
    }
}

// Where an entry stands at its price, first to last: Market Orders before Limit Orders and quotes, and in each customers
// before others.
#[derive(Clone, Copy, Debug, PartialEq, Eq, PartialOrd, Ord)]
pub enum Class {
    CustomerMarketOrder = 1,
    OtherMarketOrder = 2,
    CustomerLimitOrder = 3,
    OtherInterest = 4,
}

impl Class {
    pub fn number(self) -> u8
        ensures { result ≡ class_number self }
    {
        self as u8
    }
}

impl Entry {
    pub fn class(&self) -> Class
        ensures { class_number result ≡ class_of self.now }
    {
        match (self.market, self.kind.is_customer()) {
            (true, true) => Class::CustomerMarketOrder,
            (true, false) => Class::OtherMarketOrder,
            (false, true) => Class::CustomerLimitOrder,
            (false, false) => Class::OtherInterest,
        }
    }
}

impl Ranking<Entry> for Side {
    ghost Ranks = { ℕ × ℕ × ℕ };

    ghost rank = { λ _. rank_of };

    ghost before = { rank_before };

    ghost irreflexive = { Prim.search rules };

    ghost transitive = { Prim.search rules };

    ghost total = { λ s r t p q i. (same_price s r t p q i, same_class s r t p q i, same_time s r t p q i) };

    fn precedes(&self, x: &Entry, y: &Entry) -> bool {
        if x.price != y.price {
            return self.better(x.price, y.price);
        }
        (x.class(), x.time) < (y.class(), y.time)
    }
}
