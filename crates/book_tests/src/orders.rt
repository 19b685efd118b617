// Orders in short, of another firm's own account: what they leave out asks for nothing.
use rules::{Kind, Order, Side, Term};

// A Market Order for the day.
pub fn market_order(side: Side, id: u64, firm: u16, size: u32) -> Order {
    Order {
        id,
        firm,
        kind: Kind::Other,
        side,
        size,
        ..Order::default()
    }
}

// A Limit Order for the day.
pub fn day(side: Side, id: u64, firm: u16, price: u32, size: u32) -> Order {
    Order {
        price: Some(price),
        ..market_order(side, id, firm, size)
    }
}

// A Limit Order for the moment.
pub fn now(side: Side, id: u64, firm: u16, price: u32, size: u32) -> Order {
    immediate(day(side, id, firm, price, size))
}

pub fn immediate(order: Order) -> Order {
    Order {
        term: Term::ImmediateOrCancel,
        ..order
    }
}

pub fn of_kind(order: Order, kind: Kind) -> Order {
    Order { kind, ..order }
}

pub fn marked(order: Order) -> Order {
    Order {
        own_firm_mark: true,
        ..order
    }
}

pub fn routable(order: Order) -> Order {
    Order {
        may_route: true,
        ..order
    }
}

pub fn directed(order: Order, firm: u16) -> Order {
    Order {
        directed: Some(firm),
        ..order
    }
}

pub fn with_least(order: Order, least: u32) -> Order {
    Order { least, ..order }
}
