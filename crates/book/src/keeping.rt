// The book: what it keeps, sound at every call, and its public calls.
ghost use Rattle.std.specs.Prelude.{◌≡◌, true, false, ◌||◌, length, is_ok};
ghost use Rattle.sharing.specs.Sharing.{Lawful};
ghost use Rattle.rules.specs.Calls.{entry_of, return_of, resize_of, cancel_of, market_of, bad_places, opened, opening_of};
ghost use Rattle.rules.specs.Model.{entries, best, national_best};
ghost use Rattle.rules.specs.Sound.{Sound};
ghost use Rattle.laws.specs.Histories.{is_accepted};
ghost use Rattle.laws.specs.Histories.Call.{enters, returns, resizes, cancels, updates};
ghost use Rattle.laws.specs.Lawful.{StaysLawful};
ghost use Rattle.book.specs.Answers.{Settles, Checks};
ghost use Rattle.book.specs.Books.{opening_call};
ghost use Rattle.book.specs.Entries.{entry_call, taped};
ghost use Rattle.book.specs.Returns.{return_call};
ghost use Rattle.book.specs.Tickets.{Gives, ReturnsAs};

use crate::state::State;
use crate::ticket::{NotReturned, Ticket};
use matching::Lent;
use rules::{Entry, Line, Order, Refusal, Side, valid_tick};
use sharing::{Claim, Rule};
use std::marker::Model;

// An accepted entry: the lines of its tape, and the ticket of an order that went out.
pub struct Accepted {
    // Stays a number: a slice would keep the tape borrowed for as long as the answer is held.
    pub lines: usize,
    pub ticket: Option<Ticket>,
}

// The ticket of an order that went out.
fn ticket_for(series: u32, out: Option<u64>) -> Option<Ticket>
    ensures { Gives series out result }
{
    let id = out?;
    Some(Ticket { series, id })
}

// A caller sees the book as lists and numbers: its entries on each side, the orders out, away prices and counters.
// It does not see the invariant, so each call below says that the book is sound: as it is asked, or as the call leaves it.
#[derive(Drop)]
pub struct Book<'a> {
    state: State<'a>,
}

impl<'a> Model for Book<'a> {
    ghost use Rattle.rules.specs.Model as rulebook;
    ghost use Rattle.rules.specs.Sound.{Sound};

    ghost Value = { rulebook.Model };

    ghost view = { λ b. b.state };

    ghost invariant = { λ b. Sound b.state };
}

// A side has 1 to 256 places.
fn bad_places(n: usize) -> bool
    ensures { result ≡ bad_places n }
{
    !(1..=256).contains(&n)
}

// What an opening would be refused for: a side with 0 or over 256 places, another tick than 1, 5 or 10, or series 0.
#[tactic(auto, unfolding(rules::specs::Calls::opening_of))]
pub fn check_opening(
    bid_places: usize,
    offer_places: usize,
    tick: u32,
    series: u32,
) -> Result<(), Refusal>
    ensures { Checks (opening_of (record { bid_places = bid_places; offer_places = offer_places; tick = tick; series = series })) result }
{
    if bad_places(bid_places) || bad_places(offer_places) {
        return Err(Refusal::BadPlaces);
    }
    if !valid_tick(tick) || series == 0 {
        return Err(Refusal::BadTickOrSeries);
    }
    Ok(())
}

// Stays with the parameters of these calls, some of which travel together (tick and series, id and firm, ticket and contracts
// executed, claim sheet and tape): gateways that we do not see make the calls. What the host lends is a `Lent` below them; the others
// go on as they are, since a struct of two would be made here only to be taken apart by the checks.
#[tactic(auto, using(crate::proofs::Settled::settled_sound, rules::proofs::CallsKeep::kept))]
impl<'a> Book<'a> {
    // A book without entries, orders out or away prices, in places that the host lends, after `check_opening` let it pass.
    pub fn open(bids: &'a mut [Entry], offers: &'a mut [Entry], tick: u32, series: u32) -> Self
        requires { is_accepted (opening_of (opening_call bids.old offers.old tick series)) ≡ true }
        ensures opened { result ≡ opened (opening_call bids.old offers.old tick series) }
        ensures sound { Sound result }
    {
        Book {
            state: State::new(bids, offers, tick, series),
        }
    }

    // Sets the away price on a side, or none; refused for a price that is none.
    pub fn market(&mut self, side: Side, price: Option<u32>) -> Result<(), Refusal>
        ensures outcome { Settles (market_of (record { side = side; price = price }) self.old) self.old result self.new (λ d a. Unit {0}) }
        ensures lawful { StaysLawful self.old (updates (record { side = side; price = price })) }
        ensures sound { Sound self.new }
    {
        self.state.market(side, price)
    }

    // Enters an order or a quote: it is refused by the first check that fits, or it trades, and what is left of it rests, goes
    // out or is cancelled. The tape has what it did, and the answer how many lines that are. An order that goes out gives a
    // ticket. What the claim sheet holds afterwards is free.
    pub fn enter<R: Rule>(
        &mut self,
        rule: &R,
        order: &Order,
        sheet: &mut [Claim],
        tape: &mut [Line],
    ) -> Result<Accepted, Refusal>
        ensures outcome { Settles (entry_of (R.meaning rule.now) (entry_call order.now tape.old sheet.old) self.old) self.old result self.new (λ d a. (a.lines ≡ d.answer) × Gives self.old.opening.series d.ticket a.ticket) }
        ensures tape { tape.new ≡ taped (entry_of (R.meaning rule.now) (entry_call order.now tape.old sheet.old) self.old) tape.old }
        ensures sheet { is_ok result ≡ false → sheet.new ≡ sheet.old }
        ensures length { length sheet.new ≡ length sheet.old }
        ensures lawful { (keeps : Lawful (R.meaning rule.now)) → StaysLawful self.old (enters (record { shares = R.meaning rule.now; keeps = keeps }) (entry_call order.now tape.old sheet.old)) }
        ensures sound { Sound self.new }
    {
        let series = self.state.series;
        let mut lent = Lent::new(sheet, tape);
        let out = self.state.enter(rule, order, &mut lent)?;
        let ticket = ticket_for(series, out);
        Ok(Accepted {
            lines: lent.lines,
            ticket,
        })
    }

    // Changes the size of a firm's resting order, and answers the new size. A smaller or an equal size keeps the order's time; a
    // larger one gives it a new time.
    pub fn resize(&mut self, id: u64, firm: u16, size: u32) -> Result<u32, Refusal>
        ensures outcome { Settles (resize_of (record { id = id; firm = firm; size = size }) self.old) self.old result self.new (λ d a. a ≡ d.answer) }
        ensures lawful { StaysLawful self.old (resizes (record { id = id; firm = firm; size = size })) }
        ensures sound { Sound self.new }
    {
        self.state.resize(id, firm, size)
    }

    // Takes a firm's resting order off the book, and answers the contracts that it had.
    pub fn cancel(&mut self, id: u64, firm: u16) -> Result<u32, Refusal>
        ensures outcome { Settles (cancel_of (record { id = id; firm = firm }) self.old) self.old result self.new (λ d a. a ≡ d.answer) }
        ensures lawful { StaysLawful self.old (cancels (record { id = id; firm = firm })) }
        ensures sound { Sound self.new }
    {
        self.state.cancel(id, firm)
    }

    // Gives a ticket back with the contracts that were executed away. The rest of the order trades again, with its old cap and
    // terms, and without leave to route. A refusal hands the ticket back.
    pub fn give_back<R: Rule>(
        &mut self,
        rule: &R,
        ticket: Ticket,
        executed: u32,
        sheet: &mut [Claim],
        tape: &mut [Line],
    ) -> Result<usize, NotReturned>
        ensures outcome { ReturnsAs (return_of (R.meaning rule.now) (return_call ticket executed tape.old sheet.old) self.old) self.old ticket result self.new }
        ensures tape { tape.new ≡ taped (return_of (R.meaning rule.now) (return_call ticket executed tape.old sheet.old) self.old) tape.old }
        ensures sheet { is_ok result ≡ false → sheet.new ≡ sheet.old }
        ensures length { length sheet.new ≡ length sheet.old }
        ensures lawful { (keeps : Lawful (R.meaning rule.now)) → StaysLawful self.old (returns (record { shares = R.meaning rule.now; keeps = keeps }) (return_call ticket executed tape.old sheet.old)) }
        ensures sound { Sound self.new }
    {
        let mut lent = Lent::new(sheet, tape);
        if let Err(refusal) = self.state.give_back(rule, &ticket, executed, &mut lent) {
            return Err(NotReturned { refusal, ticket });
        }
        let Ticket { series: _, id: _ } = ticket;
        Ok(lent.lines)
    }

    // The best price on a side of the book.
    pub fn best(&self, side: Side) -> Option<u32>
        ensures best { result ≡ best (entries side self.now) }
        ensures sound { Sound self.now }
    {
        self.state.side(side).best()
    }

    // The national best price on a side: the better of the book's and the away price.
    pub fn national_best(&self, side: Side) -> Option<u32>
        ensures national_best { result ≡ national_best side self.now }
        ensures sound { Sound self.now }
    {
        self.state.side(side).national_best()
    }

    // The number of entries on a side.
    pub fn count(&self, side: Side) -> usize
        ensures count { result ≡ length (entries side self.now) }
        ensures sound { Sound self.now }
    {
        self.state.side(side).entries().len()
    }

    // The number of orders out.
    pub fn count_out(&self) -> usize
        ensures count_out { result ≡ length self.now.out }
        ensures sound { Sound self.now }
    {
        self.state.out.len()
    }
}
