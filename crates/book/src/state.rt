// What the book keeps: two sides in places that the host lends, the orders out, the counters, and what it was opened with.
ghost use Rattle.std.specs.Prelude.{◌≡◌, ◌<◌, length, slice_index_or, slice_set, nat_lt};
ghost use Rattle.std.specs.List.{remove};
ghost use Rattle.rules.specs.Calls.{opened};
ghost use Rattle.rules.specs.Model.{entries, places, with_entries, with_away, with_last_time, ranked_in};
ghost use Rattle.rules.specs.Ranks.{rank_of};
ghost use Rattle.book.specs.Books.{opening_call};
ghost use Rattle.book.specs.Sides.{one_side};

use crate::book_side::BookSide;
use arrayvec::ArrayVec;
use rules::{Entry, Routed, Side};
use std::marker::Model;

// Stays apart from `Book`, which is sound at every call: between the steps of a call the book need not be, and a function
// that needs it sound asks for that.
// Stays with a field for each side: of an array of two sides each clause would read an element.
#[derive(Drop)]
pub(crate) struct State<'a> {
    pub bids: BookSide<'a>,
    pub offers: BookSide<'a>,
    pub out: ArrayVec<Routed, 16>,
    pub last_id: u64,
    pub last_time: u32,
    pub tick: u32,
    pub series: u32,
}

impl<'a> Model for State<'a> {
    ghost use Rattle.rules.specs.Model as rulebook;
    ghost use Rattle.book.specs.Books.{model, TwoSides};

    ghost Value = { rulebook.Model };

    ghost view = { model };

    ghost invariant = { TwoSides };
}

impl<'a> State<'a> {
    // Without entries, orders out or away prices.
    pub(crate) fn new(
        bids: &'a mut [Entry],
        offers: &'a mut [Entry],
        tick: u32,
        series: u32,
    ) -> Self
        ensures { result ≡ opened (opening_call bids.old offers.old tick series) }
    {
        State {
            bids: BookSide::new(Side::Buy, bids),
            offers: BookSide::new(Side::Sell, offers),
            out: ArrayVec::new(),
            last_id: 0,
            last_time: 0,
            tick,
            series,
        }
    }

    // No working time is left to give out, but to orders that are out.
    pub(crate) fn last_time_reached(&self) -> bool
        ensures { result ≡ nat_lt 4000000000 self.now.counters.last_time }
    {
        self.last_time > 4_000_000_000
    }

    pub(crate) fn side(&self, side: Side) -> &BookSide<'a>
        ensures { result.now ≡ one_side side self.now }
    {
        match side {
            Side::Buy => &self.bids,
            Side::Sell => &self.offers,
        }
    }
}

// Stays a match on the side in each of these: a function that lent a side as `&mut` would have to leave bids among the bids and
// offers among the offers whatever is written there, and a side of the other kind could be.
impl State<'_> {
    // An entry comes to its place on a side, and its working time is the last.
    // Stays with a clause for the place, as `insert` of a side and `settle` do, and as `remove` and `replace` for the place that they
    // read: how many there are alters from call to call, so no type tells of it.
    pub(crate) fn insert(&mut self, side: Side, e: Entry)
        requires { length (entries side self.old) < places side self.old }
        ensures { self.new ≡ with_last_time e.time (with_entries side (ranked_in side e (entries side self.old)) self.old) }
    {
        self.last_time = e.time;
        match side {
            Side::Buy => self.bids.insert(e),
            Side::Sell => self.offers.insert(e),
        }
    }

    pub(crate) fn remove(&mut self, side: Side, at: usize)
        requires { at < length (entries side self.old) }
        ensures { self.new ≡ with_entries side (remove (entries side self.old) at) self.old }
    {
        match side {
            Side::Buy => self.bids.remove(at),
            Side::Sell => self.offers.remove(at),
        }
    }

    // Another entry of the same rank stands in the place of one.
    pub(crate) fn replace(&mut self, side: Side, at: usize, e: Entry)
        requires within { at < length (entries side self.old) }
        requires rank { rank_of e ≡ rank_of (slice_index_or (entries side self.old) at e) }
        ensures { self.new ≡ with_entries side (slice_set (entries side self.old) at e) self.old }
    {
        match side {
            Side::Buy => self.bids.replace(at, e),
            Side::Sell => self.offers.replace(at, e),
        }
    }

    pub(crate) fn set_away(&mut self, side: Side, price: Option<u32>)
        ensures { self.new ≡ with_away side price self.old }
    {
        match side {
            Side::Buy => self.bids.set_away(price),
            Side::Sell => self.offers.set_away(price),
        }
    }
}
