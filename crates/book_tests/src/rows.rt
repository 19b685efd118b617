// Lines of a tape as a test expects them.
use rules::Line;

// Stays beside `Line`: a row gives causes and steps by number, as docs/numbers.md does, so their numbers are compared too.
#[derive(Clone, Copy, Debug, PartialEq)]
pub enum Row {
    // id, firm, size, price, step
    Fill(u64, u16, u32, u32, u8),
    // id, firm, size, cause
    Cancel(u64, u16, u32, u8),
    // id, firm
    Filled(u64, u16),
    // id, firm, size, price
    Rest(u64, u16, u32, u32),
    // id, firm, size
    Route(u64, u16, u32),
}

impl From<Line> for Row {
    fn from(line: Line) -> Row {
        match line {
            Line::Fill {
                id,
                firm,
                size,
                price,
                step,
            } => Row::Fill(id, firm, size, price, step.number()),
            Line::Cancel {
                id,
                firm,
                size,
                cause,
            } => Row::Cancel(id, firm, size, cause.number()),
            Line::Filled { id, firm } => Row::Filled(id, firm),
            Line::Rest {
                id,
                firm,
                size,
                price,
            } => Row::Rest(id, firm, size, price),
            Line::Route { id, firm, size } => Row::Route(id, firm, size),
        }
    }
}
