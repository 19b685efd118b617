// What firms send and what rests: sides, kinds, terms, orders and entries.
ghost use Rattle.std.specs.Prelude.{◌≡◌};
ghost use Rattle.rules.specs.Sides.{other_side, is_better};

#[derive(Clone, Copy, Debug, Default, PartialEq, Eq)]
pub enum Side {
    #[default]
    Buy,
    Sell,
}

impl Side {
    // The side that an order of this side trades with.
    pub fn other(self) -> Side
        ensures { result ≡ other_side self }
    {
        match self {
            Side::Buy => Side::Sell,
            Side::Sell => Side::Buy,
        }
    }

    // Of two prices on this side the first is better: a higher bid, a lower offer.
    pub fn better(self, p: u32, q: u32) -> bool
        ensures { result ≡ is_better self p q }
    {
        match self {
            Side::Buy => q < p,
            Side::Sell => p < q,
        }
    }
}

// Who trades: a customer, another firm's own account, or a maker's quote, which may be a specialist's.
#[derive(Clone, Copy, Debug, Default, PartialEq, Eq)]
pub enum Kind {
    #[default]
    Customer,
    Other,
    MakerQuote,
    SpecialistQuote,
}

// How long an order stands: for the day, or only for the moment of its arrival.
#[derive(Clone, Copy, Debug, Default, PartialEq, Eq)]
pub enum Term {
    #[default]
    Day,
    ImmediateOrCancel,
}

// An order as it is entered. A Market Order has no price; a least size of 0 asks for nothing, as all that the default has.
#[derive(Clone, Copy, Debug, Default, PartialEq, Eq)]
pub struct Order {
    pub id: u64,
    pub firm: u16,
    pub kind: Kind,
    pub side: Side,
    pub term: Term,
    pub price: Option<u32>,
    pub size: u32,
    // Stays a number, where `price` and `directed` are options: 0 is the rules' own word for no least size, and gateways fill it so.
    pub least: u32,
    pub directed: Option<u16>,
    pub own_firm_mark: bool,
    pub may_route: bool,
}

// Resting interest. A Market Order rests at its cap and stays a Market Order. A host may fill free places with the default.
#[derive(Clone, Copy, Debug, Default, PartialEq, Eq)]
pub struct Entry {
    pub id: u64,
    pub firm: u16,
    pub kind: Kind,
    pub market: bool,
    pub price: u32,
    pub size: u32,
    pub time: u32,
    pub own_firm_mark: bool,
}

// An order on its way over prices, at its entry or at its return from a route, and what the book keeps of one that is out.
// An unused row of the orders out holds the default.
#[derive(Clone, Copy, Debug, Default, PartialEq, Eq)]
pub struct Routed {
    pub id: u64,
    pub firm: u16,
    pub kind: Kind,
    pub side: Side,
    pub term: Term,
    pub market: bool,
    pub cap: u32,
    pub size: u32,
    pub directed: Option<u16>,
    pub own_firm_mark: bool,
}
