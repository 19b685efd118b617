// Which entries at a price take part in a step.
ghost use Rattle.std.specs.Prelude.{◌≡◌};
ghost use Rattle.matching.specs.Parts.{group_test, part_test, step_for, takes_part};

use rules::{Class, Entry, Kind, Step};

// The makers with a guarantee: the quotes of the firm that an order is directed to, or all specialist quotes.
// Stays beside `Option<u16>`, which has its shape: `None` would not say that specialists have it, and `directed`, which has that
// type, is another thing: an order that is directed to a firm without a quote there meets the specialists.
#[derive(Clone, Copy)]
pub enum Group {
    QuotesOf(u16),
    Specialists,
}

// The entries of a class, a group of makers, or all of the fourth class that are not in it.
// Stays an enum that each method matches: contracts compute its test and its step from the value. With a closure for the test
// each of the six functions that take a `Part` would need two clauses on it; a trait would have three impls for two matches.
#[derive(Clone, Copy)]
pub enum Part {
    Class(Class),
    Within(Group),
    Beside(Group),
}

impl Group {
    fn has(self, e: &Entry) -> bool
        ensures { result ≡ group_test self e.now }
    {
        e.class() == Class::OtherInterest
            && match self {
                Group::QuotesOf(firm) => e.kind.is_quote() && e.firm == firm,
                Group::Specialists => e.kind == Kind::SpecialistQuote,
            }
    }
}

impl Part {
    // The step in which they trade.
    pub fn step(self) -> Step
        ensures { result ≡ step_for self }
    {
        match self {
            Part::Class(Class::CustomerMarketOrder) => Step::CustomerMarketOrders,
            Part::Class(Class::OtherMarketOrder) => Step::OtherMarketOrders,
            Part::Class(Class::CustomerLimitOrder) => Step::CustomerLimitOrders,
            Part::Within(_) => Step::GuaranteedQuotes,
            Part::Class(Class::OtherInterest) | Part::Beside(_) => Step::OtherInterest,
        }
    }

    // The entry has contracts left, and is one of them.
    pub fn takes(self, e: &Entry) -> bool
        ensures { result ≡ takes_part (part_test self) e.now }
    {
        e.size > 0
            && match self {
                Part::Class(class) => e.class() == class,
                Part::Within(group) => group.has(e),
                Part::Beside(group) => e.class() == Class::OtherInterest && !group.has(e),
            }
    }
}
