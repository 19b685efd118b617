// How an order that has traded ends: the line that says so, and what becomes of it in the book.
ghost use Rattle.std.specs.Prelude.{◌≡◌, ◌+◌, ◌^◌, ◌<◌, length};
ghost use Rattle.rules.specs.Model.{entries, places};
ghost use Rattle.rules.specs.Trade.{away_in_cap, ending, end_line, ended, resting_entry, ticket_of};
ghost use Rattle.rules.specs.Trade.Ending.{is_routed, rests};
ghost use Rattle.book.specs.Endings.{meant};

use crate::state::State;
use rules::{Cause, Entry, Line, Routed, Side};

// What becomes of an order that has traded.
#[derive(Clone, Copy)]
pub(crate) enum End {
    Filled,
    Routes,
    Cancelled(Cause),
    Rests,
}

// What is left of an order that has traded, and what becomes of it.
#[derive(Clone, Copy)]
pub(crate) struct Ended {
    pub left: Routed,
    pub end: End,
}

// An away price on the other side is within the cap.
fn away_in_cap(side: Side, cap: u32, away: Option<u32>) -> bool
    ensures { result ≡ away_in_cap side cap away }
{
    away.is_some_and(|q| side.within_cap(cap, q))
}

impl Ended {
    // The one line at the end of the tape.
    pub(crate) fn line(&self) -> Line
        ensures { result ≡ end_line self.now.left self.now.left.size (meant self.now.end) }
    {
        let Routed {
            id,
            firm,
            size,
            cap: price,
            ..
        } = self.left;
        match self.end {
            End::Filled => Line::Filled { id, firm },
            End::Routes => Line::Route { id, firm, size },
            End::Cancelled(cause) => Line::Cancel {
                id,
                firm,
                size,
                cause,
            },
            End::Rests => Line::Rest {
                id,
                firm,
                size,
                price,
            },
        }
    }

    // The id of an order that goes out.
    pub(crate) fn gone_out(&self) -> Option<u64>
        ensures { result ≡ ticket_of self.now.left (meant self.now.end) }
    {
        matches!(self.end, End::Routes).then_some(self.left.id)
    }
}

// The entry that rests: at the cap, with a new working time.
// Stays field by field: a `From` has no room for the time.
fn resting(left: &Routed, time: u32) -> Entry
    ensures { result ≡ resting_entry left.now left.now.size time }
{
    let Routed {
        id,
        firm,
        kind,
        market,
        cap: price,
        size,
        own_firm_mark,
        ..
    } = *left;
    Entry {
        id,
        firm,
        kind,
        market,
        price,
        size,
        time,
        own_firm_mark,
    }
}

impl State<'_> {
    // The first end that fits what is left of an order.
    #[tactic(auto, unfolding(rules::specs::Trade::ending))]
    pub(crate) fn end_of(&self, left: &Routed, may_route: bool) -> End
        ensures { meant result ≡ ending left.now may_route left.now.size self.now }
    {
        if left.size == 0 {
            return End::Filled;
        }
        let away = self.side(left.side.other()).away();
        let near = away_in_cap(left.side, left.cap, away);
        if near && may_route {
            return End::Routes;
        }
        if left.term.is_immediate() {
            return End::Cancelled(Cause::Immediate);
        }
        if near {
            return End::Cancelled(Cause::AwayPrice);
        }
        if self.side(left.side).is_full() {
            return End::Cancelled(Cause::NoPlaceOnReturn);
        }
        End::Rests
    }

    // What becomes of what is left of an order, in the book.
    pub(crate) fn settle(&mut self, order: &Ended)
        requires rows { meant order.now.end ≡ is_routed → length self.old.out < 16 }
        requires room { meant order.now.end ≡ rests → length (entries order.now.left.side self.old) < places order.now.left.side self.old }
        requires time { self.old.counters.last_time + 1 < 2 ^ 32 }
        ensures { self.new ≡ ended order.now.left order.now.left.size (meant order.now.end) self.old }
    {
        let left = &order.left;
        match order.end {
            End::Routes => {
                self.out.push(*left);
            }
            End::Rests => self.insert(left.side, resting(left, self.last_time + 1)),
            End::Filled | End::Cancelled(_) => {}
        }
    }
}
