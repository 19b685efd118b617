// Where an order is: a place among the bids or the offers, or a row of the orders out.
ghost use Rattle.std.specs.Prelude.{◌≡◌, ℕ, ◌==◌};
ghost use Rattle.std.specs.List.{position};
ghost use Rattle.book.specs.Standings.{Stands, Owns};

use crate::state::State;
use rules::{Entry, Refusal, Routed, Side};

// What has an id of its own.
pub(crate) trait Named {
    ghost name: { Self → ℕ };

    fn id(&self) -> u64
        ensures { result ≡ name self.now };
}

impl Named for Entry {
    ghost name = { λ e. e.id };

    fn id(&self) -> u64 {
        self.id
    }
}

impl Named for Routed {
    ghost name = { λ r. r.id };

    fn id(&self) -> u64 {
        self.id
    }
}

// The place of the first with an id.
pub(crate) fn find<T: Named>(items: &[T], id: u64) -> Option<usize>
    ensures { result ≡ position (λ x. T.name x == id) items.now }
{
    items.iter().position(|x| x.id() == id)
}

// Where an order is, by its place.
#[derive(Clone, Copy)]
enum Standing {
    Resting(Side, usize),
    Out(usize),
}

// A firm's resting entry, and where it is.
#[derive(Clone, Copy)]
pub(crate) struct Own {
    pub side: Side,
    pub at: usize,
    pub entry: Entry,
}

impl State<'_> {
    // Where an order is, if anywhere: bids first, then offers, then orders out.
    fn standing(&self, id: u64) -> Option<Standing>
        ensures { Stands id self.now result }
    {
        if let Some(at) = find(self.bids.entries(), id) {
            return Some(Standing::Resting(Side::Buy, at));
        }
        if let Some(at) = find(self.offers.entries(), id) {
            return Some(Standing::Resting(Side::Sell, at));
        }
        let at = find(&self.out, id)?;
        Some(Standing::Out(at))
    }

    // A firm's resting entry with an id, or why the firm may not touch the order.
    pub(crate) fn own_entry(&self, id: u64, firm: u16) -> Result<Own, Refusal>
        ensures { Owns id firm self.now result }
    {
        match self.standing(id) {
            None => Err(Refusal::NeitherRestingNorOut),
            Some(Standing::Out(at)) => {
                if self.out[at].firm != firm {
                    return Err(Refusal::AnotherFirms);
                }
                Err(Refusal::OutOnRoute)
            }
            Some(Standing::Resting(side, at)) => {
                let entry = self.side(side).entries()[at];
                if entry.firm != firm {
                    return Err(Refusal::AnotherFirms);
                }
                Ok(Own { side, at, entry })
            }
        }
    }
}
