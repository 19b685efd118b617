// Refusals and causes of cancels, and the number of each.
ghost use Rattle.std.specs.Prelude.{◌≡◌};
ghost use Rattle.rules.specs.Numbers.{refusal_number, cause_number};

// Why a call is refused, by whom it has to be mended.
#[derive(Clone, Copy, Debug, PartialEq, Eq)]
pub enum Refusal {
    // the host
    TapeTooShort = 11,
    ClaimSheetTooShort = 12,
    BadPlaces = 13,
    BadTickOrSeries = 14,
    // the firm
    IdNotAboveAllBefore = 21,
    FirmZero = 22,
    BadPrice = 23,
    BadSize = 24,
    TermsClash = 25,
    NoReference = 26,
    NeitherRestingNorOut = 27,
    AnotherFirms = 28,
    OutOnRoute = 29,
    // the book
    SideFull = 31,
    SixteenOut = 32,
    LastTimeReached = 33,
    // the holder of a ticket
    NotOutHere = 41,
    MoreThanRouted = 42,
}

impl Refusal {
    // Stays a method of its own, here and in Cause, Step and Class: under a trait, or as `From` for u8, each would still write
    // this body and its own law, and the trait would add a name, or `u8::from` say less than `number` at a call.
    pub fn number(self) -> u8
        ensures { result ≡ refusal_number self }
    {
        self as u8
    }
}

// Why contracts were cancelled.
#[derive(Clone, Copy, Debug, PartialEq, Eq)]
pub enum Cause {
    OwnFirm = 1,
    Immediate = 2,
    LeastSize = 3,
    AwayPrice = 4,
    NoPlaceOnReturn = 5,
    ByTheFirm = 6,
}

impl Cause {
    pub fn number(self) -> u8
        ensures { result ≡ cause_number self }
    {
        self as u8
    }
}
