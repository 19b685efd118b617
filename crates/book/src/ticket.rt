// The ticket of an order that is out on a route.
use rules::Refusal;

// It has to be given back, once: it can be neither dropped nor copied, and only the book makes one.
pub struct Ticket {
    pub(crate) series: u32,
    pub(crate) id: u64,
}

// A return that was refused hands the ticket back.
pub struct NotReturned {
    pub refusal: Refusal,
    pub ticket: Ticket,
}
