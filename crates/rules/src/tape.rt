// The tape: what a call did, line by line.
ghost use Rattle.std.specs.Prelude.{◌≡◌};
ghost use Rattle.rules.specs.Numbers.{step_number};
ghost use Rattle.rules.specs.declared.tape.Line.TheVariants.{Filled};

use crate::numbers::Cause;

// The five steps in which an order's balance is offered at a price.
#[derive(Clone, Copy, Debug, PartialEq, Eq)]
pub enum Step {
    CustomerMarketOrders = 1,
    OtherMarketOrders = 2,
    CustomerLimitOrders = 3,
    GuaranteedQuotes = 4,
    OtherInterest = 5,
}

impl Step {
    pub fn number(self) -> u8
        ensures { result ≡ step_number self }
    {
        self as u8
    }
}

// A line of the tape. Fills, and cancels of barred entries, name the entry; the one line at the end names the call's order.
#[derive(Clone, Copy, Debug, PartialEq, Eq)]
pub enum Line {
    Fill {
        id: u64,
        firm: u16,
        size: u32,
        price: u32,
        step: Step,
    },
    Cancel {
        id: u64,
        firm: u16,
        size: u32,
        cause: Cause,
    },
    Filled {
        id: u64,
        firm: u16,
    },
    Rest {
        id: u64,
        firm: u16,
        size: u32,
        price: u32,
    },
    Route {
        id: u64,
        firm: u16,
        size: u32,
    },
}

// What a host may fill a tape with before a call. Stays written out: `derive` gives only a variant without fields for a default.
impl Default for Line {
    fn default() -> Line
        ensures { result ≡ Filled 0 0 }
    {
        Line::Filled { id: 0, firm: 0 }
    }
}
