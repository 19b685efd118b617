// One side of the book: its entries in rank, in places that the host lends, and the away price.
ghost use Rattle.std.specs.Prelude.{◌≡◌, ◌<◌, ◌≤◌, [], length, take, slice_index_or, slice_set, nat_le, None};
ghost use Rattle.std.specs.List.{remove};
ghost use Rattle.matching.specs.Tapes.{Writes};
ghost use Rattle.matching.specs.Walks.{walked, MayWalk, Leaves};
ghost use Rattle.rules.specs.Model as book;
ghost use Rattle.rules.specs.Model.{ranked_in};
ghost use Rattle.rules.specs.Ranks.{rank_of};
ghost use Rattle.book.specs.Sides.{nation, with_list};

use matching::{Lent, Walked, walk};
use ranked::RankedList;
use rules::{Entry, Routed, Side};
use sharing::Rule;
use std::marker::Model;

// A side knows which one it is: its ranking is that of the buyers or of the sellers.
#[derive(Drop)]
pub(crate) struct BookSide<'a> {
    list: RankedList<'a, Entry, Side>,
    away: Option<u32>,
}

impl<'a> Model for BookSide<'a> {
    ghost use Rattle.std.specs.Prelude.{length};
    ghost use Rattle.ranked.specs.Elements.{elements};
    ghost use Rattle.book.specs.Sides.{OneSide};

    ghost Value = { OneSide };

    ghost use Rattle.book.specs.Ordering.{Ordered};

    ghost view = { λ s. record { side = s.list.ranking; entries = elements s.list; places = length s.list.places.now; away = s.away } };

    ghost invariant = { Ordered };
}

impl<'a> BookSide<'a> {
    // A side without entries or an away price.
    pub(crate) fn new(side: Side, places: &'a mut [Entry]) -> Self
        ensures { result ≡ record { side = side; entries = []; places = length places.old; away = None } }
    {
        BookSide {
            list: RankedList::new(side, places),
            away: None,
        }
    }
}

// An order of the other side walks over the first places.
// Stays a function of places and a length: where `meet` itself lent the first of its places, from the field, from a local or by
// `split_at_mut`, its proof knew their number afterwards, and not what they hold.
fn walk_first<R: Rule>(
    rule: &R,
    order: &Routed,
    national: Option<u32>,
    away: Option<u32>,
    places: &mut [Entry],
    len: usize,
    lent: &mut Lent<'_>,
) -> Walked
    requires within { len ≤ length places.old }
    requires may_walk { MayWalk order.now (take len places.old) lent.old }
    ensures { Leaves (walked (R.meaning rule.now) order.now national away (take len places.old)) result places.new lent.old lent.new }
{
    walk(rule, order, national, away, &mut places[..len], lent)
}

impl BookSide<'_> {
    pub(crate) fn entries(&self) -> &[Entry]
        ensures { result.now ≡ self.now.entries }
    {
        &self.list.places[..self.list.len]
    }

    pub(crate) fn places(&self) -> usize
        ensures { result ≡ self.now.places }
    {
        self.list.places.len()
    }

    // No place is left.
    pub(crate) fn is_full(&self) -> bool
        ensures { result ≡ nat_le self.now.places (length self.now.entries) }
    {
        self.list.places.len() <= self.list.len
    }

    pub(crate) fn away(&self) -> Option<u32>
        ensures { result ≡ self.now.away }
    {
        self.away
    }

    // The price of the first entry.
    pub(crate) fn best(&self) -> Option<u32>
        ensures { result ≡ book.best self.now.entries }
    {
        self.entries().first().map(|e| e.price)
    }

    // The better of the first entry's price and the away price.
    pub(crate) fn national_best(&self) -> Option<u32>
        ensures { result ≡ nation self.now }
    {
        self.list.ranking.national_best(self.best(), self.away)
    }

    pub(crate) fn set_away(&mut self, price: Option<u32>)
        ensures { self.new ≡ record { side = self.old.side; entries = self.old.entries; places = self.old.places; away = price } }
    {
        self.away = price;
    }

    // An entry comes to its place by rank.
    pub(crate) fn insert(&mut self, e: Entry)
        requires { length self.old.entries < self.old.places }
        ensures { self.new ≡ with_list (ranked_in self.old.side e self.old.entries) self.old }
    {
        let _ = self.list.insert(e);
    }

    pub(crate) fn remove(&mut self, at: usize)
        requires { at < length self.old.entries }
        ensures { self.new ≡ with_list (remove self.old.entries at) self.old }
    {
        self.list.remove(at);
    }

    // Another entry of the same rank stands in the place of one.
    pub(crate) fn replace(&mut self, at: usize, e: Entry)
        requires within { at < length self.old.entries }
        requires rank { rank_of e ≡ rank_of (slice_index_or self.old.entries at e) }
        ensures { self.new ≡ with_list (slice_set self.old.entries at e) self.old }
    {
        // Stays in two lines: where it was written through the field, the check did not find that its offset fits.
        let places = &mut *self.list.places;
        places[at] = e;
    }

    // An order of the other side trades with this one; answers its balance.
    pub(crate) fn meet<R: Rule>(&mut self, rule: &R, order: &Routed, lent: &mut Lent<'_>) -> u32
        requires { MayWalk order.now self.old.entries lent.old }
        ensures after { self.new ≡ with_list (walked (R.meaning rule.now) order.now (nation self.old) self.old.away self.old.entries).run self.old }
        ensures balance { result ≡ (walked (R.meaning rule.now) order.now (nation self.old) self.old.away self.old.entries).balance }
        ensures writes { Writes (walked (R.meaning rule.now) order.now (nation self.old) self.old.away self.old.entries).lines lent.old lent.new }
    {
        let national = self.national_best();
        let away = self.away;
        let len = self.list.len;
        let walked = walk_first(rule, order, national, away, self.list.places, len, lent);
        self.list.len = walked.left;
        walked.balance
    }
}
