// Replays a sheet of calls, read from standard input, on a book.
#![tactic(auto)]

mod desk;
mod printing;
mod reading;
mod shipped;
mod tickets;

use crate::desk::Desk;
use crate::printing::Shown;
use crate::reading::{MOST, Opening};
use crate::tickets::Stop;
use book::{Book, check_opening};
use rules::Entry;
use std::alloc::Global;
use std::io;
use std::str::Lines;

// Replays the calls on a new book, if it can be opened.
fn replay(rt: &impl Print, heap: Global, opening: Opening, lines: Lines<'_>) -> Result<(), Stop> {
    let Opening {
        bids,
        offers,
        tick,
        series,
    } = opening;
    if let Err(why) = check_opening(bids.count, offers.count, tick, series) {
        return Ok(println!(rt; "{}", Shown(why))?);
    }
    let mut bid_places = [Entry::default(); MOST];
    let mut offer_places = [Entry::default(); MOST];
    let book = Book::open(
        bids.lend(&mut bid_places),
        offers.lend(&mut offer_places),
        tick,
        series,
    );
    let mut desk = Desk::new(rt, heap, book);
    let result = desk.run(lines);
    desk.close(result)
}

fn main(rt: HostRuntime) -> Result<(), Stop> {
    let heap = rt.alloc();
    let text = io::read_to_string(heap, rt.stdin())?;
    let mut lines = text.as_str().lines();
    let first = lines.next().ok_or(Stop::Unreadable)?;
    replay(&rt, heap, first.parse::<Opening>()?, lines)
}
