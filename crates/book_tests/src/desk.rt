// Calls on a book that compare the answer with what is expected. Sides have at most eight places.
use crate::rows::Row;
use book::{Accepted, Book, NotReturned, Ticket, check_opening};
use rules::{Entry, Line, Order, Refusal, Side};
use sharing::{Claim, Rule, SizeProRata};
use std::mem::ManuallyDrop;
use std::process::Abort;

// What a book is opened with: the places of its sides, its tick and its series.
#[derive(Drop)]
pub struct Opening<const BIDS: usize, const OFFERS: usize> {
    bids: [Entry; BIDS],
    offers: [Entry; OFFERS],
    tick: u32,
    series: u32,
}

impl<const BIDS: usize, const OFFERS: usize> Opening<BIDS, OFFERS> {
    pub fn new(tick: u32, series: u32) -> Self {
        Opening {
            bids: [Entry::default(); BIDS],
            offers: [Entry::default(); OFFERS],
            tick,
            series,
        }
    }

    // A desk with a new book in these places.
    pub fn desk<'a, R: Abort>(&'a mut self, rt: &'a R) -> Desk<'a, R> {
        let Opening {
            bids,
            offers,
            tick,
            series,
        } = self;
        if let Err(why) = check_opening(bids.len(), offers.len(), *tick, *series) {
            panic!(rt; "the opening is refused: {why:?}");
        }
        Desk {
            rt,
            book: Book::open(bids, offers, *tick, *series),
        }
    }
}

// A claim sheet and a tape, of so many places, which a call is lent.
#[derive(Drop)]
pub struct Lent<const CLAIMS: usize, const LINES: usize> {
    sheet: [Claim; CLAIMS],
    tape: [Line; LINES],
}

impl<const CLAIMS: usize, const LINES: usize> Lent<CLAIMS, LINES> {
    pub fn new() -> Self {
        Lent {
            sheet: [Claim::default(); CLAIMS],
            tape: [Line::default(); LINES],
        }
    }
}

// A ticket that a failing test may let go; one that passes gives it back.
#[derive(Drop)]
pub struct Held {
    ticket: ManuallyDrop<Ticket>,
}

impl From<Ticket> for Held {
    fn from(ticket: Ticket) -> Held {
        Held {
            ticket: unsafe { ManuallyDrop::new_unchecked(ticket) },
        }
    }
}

// A book, and the runtime by which a call that answers something else ends the test.
#[derive(Drop)]
pub struct Desk<'a, R: Abort> {
    rt: &'a R,
    book: Book<'a>,
}

impl<'a, R: Abort> Desk<'a, R> {
    // An entry answers the lines of its tape and a ticket.
    fn try_enter<'t, S: Rule, const CLAIMS: usize, const LINES: usize>(
        &mut self,
        rule: &S,
        order: Order,
        lent: &'t mut Lent<CLAIMS, LINES>,
    ) -> Result<(&'t [Line], Option<Held>), Refusal> {
        let Lent { sheet, tape } = lent;
        let Accepted { lines, ticket } = self.book.enter(rule, &order, sheet, tape)?;
        let held = ticket.map(Held::from);
        Ok((tape.get(..lines).expect(self.rt, "so many lines"), held))
    }

    // A return answers the lines of its tape, or the refusal and the ticket.
    fn try_back<'t, const CLAIMS: usize, const LINES: usize>(
        &mut self,
        held: Held,
        executed: u32,
        lent: &'t mut Lent<CLAIMS, LINES>,
    ) -> Result<&'t [Line], (Refusal, Held)> {
        let ticket = ManuallyDrop::into_inner(held.ticket);
        let Lent { sheet, tape } = lent;
        match self
            .book
            .give_back(&SizeProRata, ticket, executed, sheet, tape)
        {
            Err(NotReturned { refusal, ticket }) => Err((refusal, Held::from(ticket))),
            Ok(lines) => Ok(tape.get(..lines).expect(self.rt, "so many lines")),
        }
    }

    // The lines of a tape are these.
    fn compare(&self, lines: &[Line], rows: &[Row]) {
        assert_eq!(self.rt; lines.len(), rows.len());
        for (line, row) in lines.iter().zip(rows) {
            assert_eq!(self.rt; Row::from(*line), *row);
        }
    }

    // The order is accepted by this rule with this tape, and gives this ticket, if one.
    fn accept<S: Rule>(&mut self, rule: &S, order: Order, rows: &[Row]) -> Option<Held> {
        let mut lent = Lent::<8, 9>::new();
        match self.try_enter(rule, order, &mut lent) {
            Err(why) => panic!(self.rt; "the entry is refused: {why:?}"),
            Ok((lines, ticket)) => {
                self.compare(lines, rows);
                ticket
            }
        }
    }

    // The entry is accepted by this rule with this tape, and gives no ticket.
    pub fn enter_by<S: Rule>(&mut self, rule: &S, order: Order, rows: &[Row]) {
        let ticket = self.accept(rule, order, rows);
        assert!(self.rt; ticket.is_none());
    }

    pub fn enter(&mut self, order: Order, rows: &[Row]) {
        self.enter_by(&SizeProRata, order, rows);
    }

    // The order comes to rest as a whole.
    pub fn rest(&mut self, order: Order, price: u32) {
        self.enter(order, &[Row::Rest(order.id, order.firm, order.size, price)]);
    }

    // The order goes out, with this tape.
    pub fn route(&mut self, order: Order, rows: &[Row]) -> Held {
        self.accept(&SizeProRata, order, rows)
            .expect(self.rt, "a ticket")
    }

    // The entry is refused with this number, on this sheet and tape.
    // Stays a number, here and in the calls below: a test gives what the venue tells, whose refusals docs/numbers.md numbers.
    pub fn refuse_lent<const CLAIMS: usize, const LINES: usize>(
        &mut self,
        order: Order,
        mut lent: Lent<CLAIMS, LINES>,
        number: u8,
    ) {
        match self.try_enter(&SizeProRata, order, &mut lent) {
            Err(why) => assert_eq!(self.rt; why.number(), number),
            Ok(_) => panic!(self.rt; "the entry is accepted"),
        }
    }

    // The entry is refused with this number.
    pub fn refuse(&mut self, order: Order, number: u8) {
        self.refuse_lent(order, Lent::<8, 9>::new(), number);
    }

    // The order comes back with so many executed away, and has this tape.
    pub fn back(&mut self, held: Held, executed: u32, rows: &[Row]) {
        let mut lent = Lent::<8, 9>::new();
        match self.try_back(held, executed, &mut lent) {
            Err((why, _)) => panic!(self.rt; "the return is refused: {why:?}"),
            Ok(lines) => self.compare(lines, rows),
        }
    }

    // The return is refused with this number, on this sheet and tape, and the ticket comes back.
    pub fn keep_lent<const CLAIMS: usize, const LINES: usize>(
        &mut self,
        held: Held,
        executed: u32,
        mut lent: Lent<CLAIMS, LINES>,
        number: u8,
    ) -> Held {
        match self.try_back(held, executed, &mut lent) {
            Err((why, held)) => {
                assert_eq!(self.rt; why.number(), number);
                held
            }
            Ok(_) => panic!(self.rt; "the return is accepted"),
        }
    }

    // The return is refused with this number, and the ticket comes back.
    pub fn keep(&mut self, held: Held, executed: u32, number: u8) -> Held {
        self.keep_lent(held, executed, Lent::<8, 9>::new(), number)
    }

    // The away price is set, or refused with this number.
    pub fn market(&mut self, side: Side, price: Option<u32>, wanted: Result<(), u8>) {
        let answer = self.book.market(side, price).map_err(Refusal::number);
        assert_eq!(self.rt; answer, wanted);
    }

    // The size is changed to this, or that is refused with this number.
    pub fn resize(&mut self, id: u64, firm: u16, size: u32, wanted: Result<u32, u8>) {
        let answer = self.book.resize(id, firm, size).map_err(Refusal::number);
        assert_eq!(self.rt; answer, wanted);
    }

    // The cancel answers so many contracts, or is refused with this number.
    pub fn cancel(&mut self, id: u64, firm: u16, wanted: Result<u32, u8>) {
        let answer = self.book.cancel(id, firm).map_err(Refusal::number);
        assert_eq!(self.rt; answer, wanted);
    }
}
