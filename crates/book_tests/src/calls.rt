// Calls one after another: a whole history, size changes, cancels, and returns from a route.
use crate::desk::Opening;
use crate::orders::{day, marked, now, of_kind, routable};
use crate::rows::Row;
use rules::Kind;
use rules::Side::{Buy, Sell};

// The worked history of docs/promises.md.
#[test]
fn worked_history(rt: HostRuntime) {
    let mut opening = Opening::<8, 8>::new(5, 1);
    let mut desk = opening.desk(&rt);
    desk.rest(
        marked(of_kind(day(Sell, 1, 11, 105, 100), Kind::MakerQuote)),
        105,
    );
    desk.rest(
        of_kind(day(Sell, 2, 12, 105, 60), Kind::SpecialistQuote),
        105,
    );
    desk.rest(of_kind(day(Sell, 3, 21, 110, 30), Kind::Customer), 110);
    desk.enter(
        now(Buy, 4, 22, 105, 100),
        &[
            Row::Fill(2, 12, 40, 105, 4),
            Row::Fill(1, 11, 60, 105, 5),
            Row::Filled(4, 22),
        ],
    );
    desk.resize(1, 11, 25, Ok(25));
    desk.resize(2, 12, 50, Ok(50));
    desk.market(Sell, Some(100), Ok(()));
    let out = desk.route(
        routable(of_kind(day(Buy, 5, 23, 105, 40), Kind::Customer)),
        &[Row::Route(5, 23, 40)],
    );
    desk.market(Sell, None, Ok(()));
    desk.back(
        out,
        15,
        &[
            Row::Fill(2, 12, 16, 105, 4),
            Row::Fill(1, 11, 9, 105, 5),
            Row::Filled(5, 23),
        ],
    );
    desk.cancel(2, 12, Ok(34));
    desk.enter(
        marked(now(Buy, 6, 11, 105, 5)),
        &[Row::Cancel(1, 11, 16, 1), Row::Cancel(6, 11, 5, 2)],
    );
    desk.refuse(marked(now(Buy, 6, 11, 105, 5)), 21);
    desk.cancel(3, 21, Ok(30));
}

// Three customers at one price trade by time: a smaller and an equal size keep it, a larger one loses it.
#[test]
fn size_changes(rt: HostRuntime) {
    let mut opening = Opening::<8, 8>::new(5, 1);
    let mut desk = opening.desk(&rt);
    desk.rest(of_kind(day(Sell, 1, 1, 105, 10), Kind::Customer), 105);
    desk.rest(of_kind(day(Sell, 2, 2, 105, 10), Kind::Customer), 105);
    desk.rest(of_kind(day(Sell, 3, 3, 105, 10), Kind::Customer), 105);
    desk.resize(1, 1, 5, Ok(5));
    desk.resize(2, 2, 10, Ok(10));
    desk.enter(
        now(Buy, 4, 4, 105, 6),
        &[
            Row::Fill(1, 1, 5, 105, 3),
            Row::Fill(2, 2, 1, 105, 3),
            Row::Filled(4, 4),
        ],
    );
    desk.resize(2, 2, 20, Ok(20));
    desk.enter(
        now(Buy, 5, 4, 105, 12),
        &[
            Row::Fill(3, 3, 10, 105, 3),
            Row::Fill(2, 2, 2, 105, 3),
            Row::Filled(5, 4),
        ],
    );
    desk.cancel(2, 2, Ok(18));
}

// More executed than was routed is refused, and the ticket is good for less. All executed away fills the order.
#[test]
fn returns(rt: HostRuntime) {
    let mut opening = Opening::<8, 8>::new(5, 1);
    let mut desk = opening.desk(&rt);
    desk.market(Sell, Some(100), Ok(()));
    let out = desk.route(routable(day(Buy, 1, 1, 105, 10)), &[Row::Route(1, 1, 10)]);
    let out = desk.keep(out, 11, 42);
    let out = desk.keep(out, 4294967295, 42);
    desk.back(out, 10, &[Row::Filled(1, 1)]);
    // what comes back may not go out again: the away price is still within its cap
    let out = desk.route(routable(day(Buy, 2, 2, 105, 10)), &[Row::Route(2, 2, 10)]);
    desk.back(out, 3, &[Row::Cancel(2, 2, 7, 4)]);
    // an immediate one is cancelled as such
    let out = desk.route(routable(now(Buy, 3, 3, 105, 10)), &[Row::Route(3, 3, 10)]);
    desk.back(out, 3, &[Row::Cancel(3, 3, 7, 2)]);
    // an away price above the cap lets it rest
    let out = desk.route(routable(day(Buy, 4, 4, 105, 10)), &[Row::Route(4, 4, 10)]);
    desk.market(Sell, Some(110), Ok(()));
    desk.back(out, 3, &[Row::Rest(4, 4, 7, 105)]);
}

// Some trade here at an equal away price, and the rest goes out.
#[test]
fn trades_and_goes_out(rt: HostRuntime) {
    let mut opening = Opening::<8, 8>::new(5, 1);
    let mut desk = opening.desk(&rt);
    desk.rest(day(Sell, 1, 1, 105, 4), 105);
    desk.market(Sell, Some(105), Ok(()));
    let out = desk.route(
        routable(day(Buy, 2, 2, 105, 10)),
        &[Row::Fill(1, 1, 4, 105, 5), Row::Route(2, 2, 6)],
    );
    let out = desk.keep(out, 7, 42);
    desk.back(out, 6, &[Row::Filled(2, 2)]);
}

// The only place was taken while the order was out: what comes back is cancelled with cause 5.
#[test]
fn no_place_on_return(rt: HostRuntime) {
    let mut opening = Opening::<1, 1>::new(5, 1);
    let mut desk = opening.desk(&rt);
    desk.market(Sell, Some(100), Ok(()));
    let out = desk.route(routable(day(Buy, 1, 1, 105, 10)), &[Row::Route(1, 1, 10)]);
    desk.rest(day(Buy, 2, 2, 95, 5), 95);
    desk.market(Sell, None, Ok(()));
    desk.back(out, 4, &[Row::Cancel(1, 1, 6, 5)]);
}

// A ticket is good in its own series only, and while its order is out.
#[test]
fn ticket_of_another_book(rt: HostRuntime) {
    let mut opening = Opening::<1, 1>::new(5, 1);
    let mut desk = opening.desk(&rt);
    let mut other_opening = Opening::<1, 1>::new(5, 2);
    let mut other_desk = other_opening.desk(&rt);
    desk.market(Sell, Some(100), Ok(()));
    other_desk.market(Sell, Some(100), Ok(()));
    let out = desk.route(routable(day(Buy, 1, 1, 105, 10)), &[Row::Route(1, 1, 10)]);
    let out = other_desk.keep(out, 0, 41);
    // the other series has an order of the same number out
    let other = other_desk.route(routable(day(Buy, 1, 1, 105, 20)), &[Row::Route(1, 1, 20)]);
    let out = other_desk.keep(out, 0, 41);
    let other = desk.keep(other, 0, 41);
    desk.back(out, 10, &[Row::Filled(1, 1)]);
    other_desk.back(other, 20, &[Row::Filled(1, 1)]);
}
