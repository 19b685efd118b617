// What the program prints: answers, and lines of the tape.
use rules::{Line, Refusal};
use std::fmt;

// A value of the book as the program prints it.
#[derive(Clone, Copy)]
pub struct Shown<T>(pub T);

impl fmt::Display for Shown<Refusal> {
    fn fmt<W: fmt::Write>(&self, f: &mut fmt::Formatter<W>) -> fmt::Result {
        write!(f, "refused {}", self.0.number())
    }
}

impl fmt::Display for Shown<Line> {
    fn fmt<W: fmt::Write>(&self, f: &mut fmt::Formatter<W>) -> fmt::Result {
        match self.0 {
            Line::Fill {
                id,
                firm,
                size,
                price,
                step,
            } => write!(f, "fill {id} {firm} {size} {price} {}", step.number()),
            Line::Cancel {
                id,
                firm,
                size,
                cause,
            } => write!(f, "cancel {id} {firm} {size} {}", cause.number()),
            Line::Filled { id, firm } => write!(f, "filled {id} {firm}"),
            Line::Rest {
                id,
                firm,
                size,
                price,
            } => write!(f, "rest {id} {firm} {size} {price}"),
            Line::Route { id, firm, size } => write!(f, "route {id} {firm} {size}"),
        }
    }
}
