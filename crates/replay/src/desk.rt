// Makes the calls of a sheet on a book, and prints what came of each.
use crate::printing::Shown;
use crate::reading::{Call, MOST, Means};
use crate::tickets::{Held, Stop, keep, leave, leave_all, take};
use book::{Accepted, Book, NotReturned};
use rules::{Line, Order, Refusal, Side};
use sharing::{ByTime, Claim};
use std::alloc::Global;
use std::fmt::Display;
use std::io;
use std::str::Lines;

// An entry that came to rest.
#[derive(Clone, Copy)]
struct Rested {
    id: u64,
    firm: u16,
    side: Side,
}

// A book, the tickets of its orders that are out, and all entries that ever rested there.
pub struct Desk<'a, P: Print> {
    rt: &'a P,
    book: Book<'a>,
    held: Vec<Held>,
    rested: Vec<Rested>,
}

impl<'a, P: Print> Desk<'a, P> {
    pub fn new(rt: &'a P, heap: Global, book: Book<'a>) -> Self {
        Desk {
            rt,
            book,
            held: Vec::new(heap),
            rested: Vec::new(heap),
        }
    }

    // Prints the answer of a call without a tape.
    fn show<N: Display + Drop>(&self, answer: Result<N, Refusal>) -> io::Result<()> {
        match answer {
            Ok(n) => println!(self.rt; "ok {n}"),
            Err(why) => println!(self.rt; "{}", Shown(why)),
        }
    }

    // Prints the lines of the tape, and notes the entry that comes to rest on a side.
    fn show_tape(&mut self, side: Side, tape: &[Line]) -> io::Result<()> {
        println!(self.rt; "ok {}", tape.len())?;
        for line in tape {
            println!(self.rt; "{}", Shown(*line))?;
            if let Line::Rest { id, firm, .. } = *line {
                self.rested.push(Rested { id, firm, side })?;
            }
        }
        Ok(())
    }

    fn enter(&mut self, means: Means, order: Order) -> Result<(), Stop> {
        let Order { id, side, .. } = order;
        let mut sheet = [Claim::default(); MOST];
        let mut tape = [Line::default(); MOST];
        let (sheet, tape) = means.lend(&mut sheet, &mut tape);
        match self.book.enter(&means.rule, &order, sheet, tape) {
            Err(why) => Ok(println!(self.rt; "{}", Shown(why))?),
            Ok(Accepted { lines, ticket }) => {
                if let Some(ticket) = ticket {
                    keep(&mut self.held, Held { id, side, ticket })?;
                }
                Ok(self.show_tape(side, &tape[..lines.min(tape.len())])?)
            }
        }
    }

    fn give_back(&mut self, means: Means, id: u64, executed: u32) -> Result<(), Stop> {
        let mut sheet = [Claim::default(); MOST];
        let mut tape = [Line::default(); MOST];
        let (sheet, tape) = means.lend(&mut sheet, &mut tape);
        let Some(Held { id, side, ticket }) = take(&mut self.held, id) else {
            return Ok(println!(self.rt; "noticket")?);
        };
        match self
            .book
            .give_back(&means.rule, ticket, executed, sheet, tape)
        {
            Err(NotReturned { refusal, ticket }) => {
                keep(&mut self.held, Held { id, side, ticket })?;
                Ok(println!(self.rt; "{}", Shown(refusal))?)
            }
            Ok(lines) => Ok(self.show_tape(side, &tape[..lines.min(tape.len())])?),
        }
    }

    fn make(&mut self, call: Call) -> Result<(), Stop> {
        match call {
            Call::Enter { means, order } => self.enter(means, order),
            Call::Return {
                means,
                id,
                executed,
            } => self.give_back(means, id, executed),
            Call::Size { id, firm, size } => {
                let answer = self.book.resize(id, firm, size);
                Ok(self.show(answer)?)
            }
            Call::Cancel { id, firm } => {
                let answer = self.book.cancel(id, firm);
                Ok(self.show(answer)?)
            }
            Call::Market { side, price } => {
                let answer = self.book.market(side, price);
                Ok(self.show(answer.map(|()| 0u32))?)
            }
        }
    }

    // Cancels all that rests, and answers how many entries that were on a side.
    fn cancel_all(&mut self, side: Side) -> usize {
        let book = &mut self.book;
        self.rested
            .iter()
            .filter(|one| one.side == side)
            .filter(|one| book.cancel(one.id, one.firm).is_ok())
            .count()
    }

    // Cancels all that rests, and prints how many entries that were on each side, and how many orders are out.
    fn show_end(&mut self) -> io::Result<()> {
        let bids = self.cancel_all(Side::Buy);
        let offers = self.cancel_all(Side::Sell);
        let out = self.held.len();
        println!(self.rt; "end {bids} {offers} {out}")
    }

    // Makes the calls of the lines.
    pub fn run(&mut self, lines: Lines<'_>) -> Result<(), Stop> {
        println!(self.rt; "ok 0")?;
        for line in lines {
            self.make(line.parse::<Call>()?)?;
        }
        Ok(self.show_end()?)
    }

    // Ends the desk after a run: each ticket is given back with nothing executed. Where that fails, or the run did, all are left.
    pub fn close(self, run: Result<(), Stop>) -> Result<(), Stop> {
        let Desk {
            rt: _,
            mut book,
            mut held,
            rested: _,
        } = self;
        if let Err(stop) = run {
            leave_all(held);
            return Err(stop);
        }
        // Lent from the stack, with all the places that a sheet may ask for: no ticket is left for want of memory.
        while let Some(
            Held {
                id: _,
                side: _,
                ticket,
            },
        ) = held.pop()
        {
            if let Err(NotReturned { refusal: _, ticket }) = book.give_back(
                &ByTime,
                ticket,
                0,
                &mut [Claim::default(); MOST],
                &mut [Line::default(); MOST],
            ) {
                leave(ticket);
                leave_all(held);
                return Err(Stop::Left);
            }
        }
        held.destroy_empty();
        Ok(())
    }
}
