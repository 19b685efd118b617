// What is refused, by which number, and in which order the checks come.
use crate::desk::{Lent, Opening};
use crate::orders::{day, directed, immediate, market_order, now, of_kind, routable, with_least};
use crate::rows::Row;
use book::check_opening;
use rules::Side::{Buy, Sell};
use rules::{Kind, Refusal};

// Bid places, offer places, tick and series, and the refusal's number.
// Stays a table of numbers, as the tests below do: docs/numbers.md numbers the refusals, so the numbers are tested too.
#[test]
fn openings(rt: HostRuntime) {
    let table = [
        (1, 1, 1, 1, Ok(())),
        (256, 256, 5, 1, Ok(())),
        (1, 256, 10, 4294967295, Ok(())),
        (0, 1, 1, 1, Err(13)),
        (1, 0, 1, 1, Err(13)),
        (257, 1, 1, 1, Err(13)),
        (1, 257, 1, 1, Err(13)),
        (0, 0, 2, 0, Err(13)),
        (1, 1, 0, 1, Err(14)),
        (1, 1, 2, 1, Err(14)),
        (1, 1, 11, 1, Err(14)),
        (1, 1, 5, 0, Err(14)),
    ];
    for (bids, offers, tick, series, wanted) in table {
        let answer = check_opening(bids, offers, tick, series).map_err(Refusal::number);
        assert_eq!(rt; answer, wanted, "{bids} {offers} {tick} {series}");
    }
}

// An order with every fault; each line mends one, and shows the next.
#[test]
fn checks_of_an_entry(rt: HostRuntime) {
    let mut opening = Opening::<4, 8>::new(5, 1);
    let mut desk = opening.desk(&rt);
    let bad = with_least(directed(day(Sell, 0, 0, 3, 0), 0), 1);
    desk.refuse_lent(bad, Lent::<7, 8>::new(), 11);
    desk.refuse_lent(bad, Lent::<7, 9>::new(), 12);
    desk.refuse(bad, 21);
    desk.refuse(with_least(directed(day(Sell, 1, 0, 3, 0), 9), 1), 22);
    desk.refuse(with_least(directed(day(Sell, 1, 7, 3, 0), 0), 1), 22);
    desk.refuse(with_least(day(Sell, 1, 7, 3, 0), 1), 24);
    desk.refuse(with_least(day(Sell, 1, 7, 3, 100000), 1), 24);
    desk.refuse(with_least(day(Sell, 1, 7, 3, 10), 1), 23);
    desk.refuse(with_least(day(Sell, 1, 7, 0, 10), 1), 23);
    desk.refuse(with_least(day(Sell, 1, 7, 1000005, 10), 1), 23);
    desk.refuse(with_least(day(Sell, 1, 7, 105, 10), 1), 25);
    // none of them used up the id
    desk.rest(day(Sell, 1, 7, 1000000, 99999), 1000000);
    desk.refuse(day(Sell, 1, 7, 105, 10), 21);
    desk.rest(day(Sell, 2, 7, 105, 1), 105);
}

#[test]
fn terms_that_clash(rt: HostRuntime) {
    let mut opening = Opening::<8, 8>::new(5, 1);
    let mut desk = opening.desk(&rt);
    let quote = of_kind(day(Buy, 1, 7, 105, 10), Kind::MakerQuote);
    desk.refuse(immediate(market_order(Buy, 1, 7, 10)), 25);
    desk.refuse(with_least(day(Buy, 1, 7, 105, 10), 1), 25);
    desk.refuse(with_least(now(Buy, 1, 7, 105, 10), 11), 25);
    desk.refuse(routable(with_least(now(Buy, 1, 7, 105, 10), 10)), 25);
    desk.refuse(of_kind(now(Buy, 1, 7, 105, 10), Kind::SpecialistQuote), 25);
    desk.refuse(of_kind(market_order(Buy, 1, 7, 10), Kind::MakerQuote), 25);
    desk.refuse(directed(quote, 9), 25);
    desk.refuse(routable(quote), 25);
    // the terms are fine, but there is no reference
    desk.refuse(of_kind(market_order(Buy, 1, 7, 10), Kind::Customer), 26);
    desk.rest(quote, 105);
    // a least size of all that is asked is fine, and missed
    desk.enter(
        with_least(now(Buy, 2, 7, 105, 10), 10),
        &[Row::Cancel(2, 7, 10, 3)],
    );
}

// A full side is looked at for Day orders only, before the reference.
#[test]
fn full_side(rt: HostRuntime) {
    let mut opening = Opening::<1, 1>::new(5, 1);
    let mut desk = opening.desk(&rt);
    desk.rest(day(Buy, 1, 1, 100, 10), 100);
    desk.refuse(day(Buy, 2, 2, 105, 10), 31);
    desk.refuse(of_kind(market_order(Buy, 2, 2, 10), Kind::Customer), 31);
    desk.enter(now(Buy, 2, 2, 105, 10), &[Row::Cancel(2, 2, 10, 2)]);
    desk.rest(day(Sell, 3, 3, 105, 10), 105);
    // also one that would trade in full
    desk.refuse(day(Buy, 4, 4, 105, 10), 31);
    desk.refuse(day(Sell, 4, 4, 100, 10), 31);
    desk.enter(
        now(Sell, 4, 4, 100, 10),
        &[Row::Fill(1, 1, 10, 100, 5), Row::Filled(4, 4)],
    );
}

#[test]
fn size_changes_refused(rt: HostRuntime) {
    let mut opening = Opening::<8, 8>::new(5, 1);
    let mut desk = opening.desk(&rt);
    desk.rest(day(Buy, 1, 1, 100, 10), 100);
    desk.market(Sell, Some(105), Ok(()));
    let out = desk.route(routable(day(Buy, 2, 2, 105, 10)), &[Row::Route(2, 2, 10)]);
    desk.resize(9, 0, 0, Err(22));
    desk.resize(9, 2, 0, Err(24));
    desk.resize(9, 2, 100000, Err(24));
    desk.resize(9, 2, 10, Err(27));
    desk.resize(1, 2, 10, Err(28));
    desk.resize(2, 1, 10, Err(28));
    desk.resize(2, 2, 10, Err(29));
    desk.resize(1, 1, 99999, Ok(99999));
    desk.back(out, 10, &[Row::Filled(2, 2)]);
    desk.resize(2, 2, 10, Err(27));
}

#[test]
fn cancels_refused(rt: HostRuntime) {
    let mut opening = Opening::<8, 8>::new(5, 1);
    let mut desk = opening.desk(&rt);
    desk.rest(day(Sell, 1, 1, 110, 10), 110);
    desk.market(Buy, Some(105), Ok(()));
    let out = desk.route(routable(day(Sell, 2, 2, 105, 10)), &[Row::Route(2, 2, 10)]);
    desk.cancel(9, 0, Err(22));
    desk.cancel(9, 2, Err(27));
    desk.cancel(1, 2, Err(28));
    desk.cancel(2, 1, Err(28));
    desk.cancel(2, 2, Err(29));
    desk.cancel(1, 1, Ok(10));
    desk.cancel(1, 1, Err(27));
    desk.back(out, 10, &[Row::Filled(2, 2)]);
    desk.cancel(2, 2, Err(27));
}

#[test]
fn market_updates(rt: HostRuntime) {
    let mut opening = Opening::<8, 8>::new(5, 1);
    let mut desk = opening.desk(&rt);
    desk.market(Buy, Some(0), Err(23));
    desk.market(Buy, Some(3), Err(23));
    desk.market(Sell, Some(1000005), Err(23));
    desk.market(Sell, Some(1000000), Ok(()));
    desk.market(Buy, Some(5), Ok(()));
    desk.market(Buy, None, Ok(()));
}

// A tape or a sheet that is too short hands the ticket back.
#[test]
fn returns_on_short_sheets(rt: HostRuntime) {
    let mut opening = Opening::<4, 8>::new(5, 1);
    let mut desk = opening.desk(&rt);
    desk.market(Sell, Some(105), Ok(()));
    let out = desk.route(routable(day(Buy, 2, 2, 105, 10)), &[Row::Route(2, 2, 10)]);
    let out = desk.keep_lent(out, 11, Lent::<7, 8>::new(), 11);
    let out = desk.keep_lent(out, 11, Lent::<7, 9>::new(), 12);
    let out = desk.keep_lent(out, 11, Lent::<8, 9>::new(), 42);
    desk.back(out, 10, &[Row::Filled(2, 2)]);
}

// Sixteen are out: the next with leave to route is refused, before its side is looked at.
#[test]
fn sixteen_out(rt: HostRuntime) {
    let mut opening = Opening::<1, 1>::new(5, 1);
    let mut desk = opening.desk(&rt);
    desk.rest(day(Buy, 1, 1, 95, 10), 95);
    desk.market(Sell, Some(105), Ok(()));
    let first = desk.route(routable(now(Buy, 2, 2, 105, 10)), &[Row::Route(2, 2, 10)]);
    // fifteen more, whose tickets are let go
    for id in 3u64..18 {
        let _out = desk.route(routable(now(Buy, id, 2, 105, 10)), &[Row::Route(id, 2, 10)]);
    }
    desk.refuse(routable(day(Buy, 18, 2, 105, 10)), 32);
    desk.refuse(routable(now(Buy, 18, 2, 105, 10)), 32);
    desk.refuse(day(Buy, 18, 2, 105, 10), 31);
    // one comes back, and there is room again
    desk.back(first, 10, &[Row::Filled(2, 2)]);
    let _out = desk.route(routable(now(Buy, 18, 2, 105, 10)), &[Row::Route(18, 2, 10)]);
    desk.refuse(routable(now(Buy, 19, 2, 105, 10)), 32);
}
