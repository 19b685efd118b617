// Reads the lines of a sheet, word by word.
ghost use Rattle.replay.specs.declared.reading.TheConstants.{MOST};
ghost use Rattle.std.specs.Prelude.{◌≡◌, ◌≤◌, length};

use crate::shipped::Shipped;
use rules::{Kind, Line, Order, Side, Term};
use sharing::Claim;
use std::str::{FromStr, SplitWhitespace};

// The most places that a sheet may ask for: more than a side may have, so that too many can be asked for.
pub const MOST: usize = 300;

// A line that cannot be read.
#[derive(Debug, Drop)]
pub struct Unreadable;

// How many places a side, a tape or a claim sheet has.
#[derive(Clone, Copy)]
pub struct Places {
    pub count: usize,
    ghost within: { count ≤ MOST },
}

impl Places {
    // The first of the places, as many as are asked.
    pub fn lend<T>(self, places: &mut [T; MOST]) -> &mut [T]
        ensures { length result.now ≡ self.count }
    {
        &mut places[..self.count]
    }
}

#[derive(Clone, Copy)]
pub struct Opening {
    pub bids: Places,
    pub offers: Places,
    pub tick: u32,
    pub series: u32,
}

// What goes with an entry and a return: the sharing rule, and the places of the tape and of the claim sheet.
#[derive(Clone, Copy)]
pub struct Means {
    pub rule: Shipped,
    pub tape: Places,
    pub sheet: Places,
}

impl Means {
    // The first places of a claim sheet and of a tape, as many of each as are asked. They are on the stack of the caller: no call
    // fails for want of memory for them.
    pub fn lend<'s>(
        self,
        sheet: &'s mut [Claim; MOST],
        tape: &'s mut [Line; MOST],
    ) -> (&'s mut [Claim], &'s mut [Line])
        ensures sheet { length result.0.now ≡ self.sheet.count }
        ensures tape { length result.1.now ≡ self.tape.count }
    {
        (self.sheet.lend(sheet), self.tape.lend(tape))
    }
}

#[derive(Clone, Copy)]
pub enum Call {
    Enter {
        means: Means,
        order: Order,
    },
    Return {
        means: Means,
        id: u64,
        executed: u32,
    },
    Size {
        id: u64,
        firm: u16,
        size: u32,
    },
    Cancel {
        id: u64,
        firm: u16,
    },
    Market {
        side: Side,
        price: Option<u32>,
    },
}

// What a sheet gives by one word: a count of places, or what has a name there.
trait Word: Sized {
    fn read(word: &str) -> Result<Self, Unreadable>;
}

impl Word for Places {
    fn read(word: &str) -> Result<Places, Unreadable> {
        match word.parse::<usize>() {
            Ok(count) if count <= MOST => Ok(Places { count }),
            _ => Err(Unreadable),
        }
    }
}

// What a word stands for, by a table of pairs.
fn one_of<T: Copy>(word: &str, table: &[(&str, T)]) -> Result<T, Unreadable> {
    table
        .iter()
        .find(|pair| pair.0 == word)
        .map(|pair| pair.1)
        .ok_or(Unreadable)
}

impl Word for bool {
    fn read(word: &str) -> Result<bool, Unreadable> {
        one_of(word, &[("1", true), ("0", false)])
    }
}

impl Word for Shipped {
    fn read(word: &str) -> Result<Shipped, Unreadable> {
        one_of(
            word,
            &[("time", Shipped::ByTime), ("size", Shipped::SizeProRata)],
        )
    }
}

impl Word for Side {
    fn read(word: &str) -> Result<Side, Unreadable> {
        one_of(word, &[("buy", Side::Buy), ("sell", Side::Sell)])
    }
}

impl Word for Term {
    fn read(word: &str) -> Result<Term, Unreadable> {
        one_of(
            word,
            &[("day", Term::Day), ("ioc", Term::ImmediateOrCancel)],
        )
    }
}

impl Word for Kind {
    fn read(word: &str) -> Result<Kind, Unreadable> {
        one_of(
            word,
            &[
                ("customer", Kind::Customer),
                ("other", Kind::Other),
                ("maker", Kind::MakerQuote),
                ("specialist", Kind::SpecialistQuote),
            ],
        )
    }
}

// The words of a line that are still to be read.
#[derive(Drop)]
struct Words<'a>(SplitWhitespace<'a>);

impl<'a> Words<'a> {
    fn text(&mut self) -> Result<&'a str, Unreadable> {
        self.0.next().ok_or(Unreadable)
    }

    fn next<T: Word>(&mut self) -> Result<T, Unreadable> {
        T::read(self.text()?)
    }

    fn number<T: FromStr>(&mut self) -> Result<T, Unreadable>
    where
        T::Err: Drop,
    {
        self.text()?.parse::<T>().map_err(|_| Unreadable)
    }

    // A number, or `-` where there is none.
    fn number_if_any<T: FromStr + Drop>(&mut self) -> Result<Option<T>, Unreadable>
    where
        T::Err: Drop,
    {
        match self.text()? {
            "-" => Ok(None),
            word => word.parse::<T>().map(Some).map_err(|_| Unreadable),
        }
    }

    fn means(&mut self) -> Result<Means, Unreadable> {
        Ok(Means {
            rule: self.next()?,
            tape: self.next()?,
            sheet: self.next()?,
        })
    }

    fn order(&mut self) -> Result<Order, Unreadable> {
        Ok(Order {
            id: self.number()?,
            firm: self.number()?,
            kind: self.next()?,
            side: self.next()?,
            term: self.next()?,
            price: self.number_if_any()?,
            size: self.number()?,
            least: self.number()?,
            directed: self.number_if_any()?,
            own_firm_mark: self.next()?,
            may_route: self.next()?,
        })
    }
}

impl FromStr for Opening {
    type Err = Unreadable;

    fn from_str(line: &str) -> Result<Opening, Unreadable> {
        let mut words = Words(line.split_whitespace());
        match words.text()? {
            "open" => Ok(Opening {
                bids: words.next()?,
                offers: words.next()?,
                tick: words.number()?,
                series: words.number()?,
            }),
            _ => Err(Unreadable),
        }
    }
}

impl FromStr for Call {
    type Err = Unreadable;

    fn from_str(line: &str) -> Result<Call, Unreadable> {
        let mut words = Words(line.split_whitespace());
        match words.text()? {
            "enter" => Ok(Call::Enter {
                means: words.means()?,
                order: words.order()?,
            }),
            "return" => Ok(Call::Return {
                means: words.means()?,
                id: words.number()?,
                executed: words.number()?,
            }),
            "size" => Ok(Call::Size {
                id: words.number()?,
                firm: words.number()?,
                size: words.number()?,
            }),
            "cancel" => Ok(Call::Cancel {
                id: words.number()?,
                firm: words.number()?,
            }),
            "market" => Ok(Call::Market {
                side: words.next()?,
                price: words.number_if_any()?,
            }),
            _ => Err(Unreadable),
        }
    }
}
