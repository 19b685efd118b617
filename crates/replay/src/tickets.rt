// The route tickets that the program holds, each with the id and the side of its order.
use crate::reading::Unreadable;
use book::Ticket;
use rules::Side;
use std::io;
use std::mem::ManuallyDrop;

pub struct Held {
    pub id: u64,
    pub side: Side,
    pub ticket: Ticket,
}

// Why the program stops: an error, a line that cannot be read, or a ticket that found no memory or was not taken back.
#[derive(Debug, Drop)]
pub enum Stop {
    Failed(io::Error),
    Unreadable,
    Left,
}

// Stays two conversions by hand. `#[from]` of `thiserror` was tried: `Unreadable` then holds the other type, to be hidden from
// what `main` prints, and each variant needs a message, which nobody reads.
impl From<io::Error> for Stop {
    fn from(e: io::Error) -> Stop {
        Stop::Failed(e)
    }
}

impl From<Unreadable> for Stop {
    fn from(_: Unreadable) -> Stop {
        Stop::Unreadable
    }
}

// A ticket cannot be let go. Where the program stops before its end, those that it holds go with it, by these two alone.
pub fn leave(ticket: Ticket) {
    let _left = unsafe { ManuallyDrop::new_unchecked(ticket) };
}

pub fn leave_all(held: Vec<Held>) {
    let _left = unsafe { ManuallyDrop::new_unchecked(held) };
}

// Keeps a ticket; one that finds no memory is left.
// Stays a list, and not a map by the id: a ticket that was taken out has its place there still, and a map may need memory for it anew.
pub fn keep(held: &mut Vec<Held>, one: Held) -> Result<(), Stop> {
    let Err(refused) = held.push(one) else {
        return Ok(());
    };
    let Held {
        id: _,
        side: _,
        ticket,
    } = refused.value;
    leave(ticket);
    Err(Stop::Left)
}

// Takes out the ticket of an order. At most sixteen are out, so they are gone over.
pub fn take(held: &mut Vec<Held>, id: u64) -> Option<Held> {
    let at = held.iter().position(|one| one.id == id)?;
    Some(held.swap_remove(at))
}
