// What entries trade, and what becomes of what is left.
use crate::desk::{Desk, Opening};
use crate::orders::{day, directed, marked, market_order, now, of_kind, routable, with_least};
use crate::rows::Row;
use rules::Side::{Buy, Sell};
use rules::{Kind, Side};
use sharing::ByTime;
use std::process::Abort;

// 200 over 100, 200 and 500 of 800, which rest on a side, are a quarter of each.
fn a_quarter_of_each<R: Abort>(desk: &mut Desk<'_, R>, side: Side) {
    desk.rest(day(side, 1, 1, 105, 100), 105);
    desk.rest(day(side, 2, 2, 105, 200), 105);
    desk.rest(day(side, 3, 3, 105, 500), 105);
    desk.enter(
        now(side.other(), 4, 4, 105, 200),
        &[
            Row::Fill(1, 1, 25, 105, 5),
            Row::Fill(2, 2, 50, 105, 5),
            Row::Fill(3, 3, 125, 105, 5),
            Row::Filled(4, 4),
        ],
    );
}

#[test]
fn shares_by_size(rt: HostRuntime) {
    let mut opening = Opening::<8, 8>::new(5, 1);
    let mut desk = opening.desk(&rt);
    a_quarter_of_each(&mut desk, Sell);
    // 75, 150 and 375 are left: by time, 100 are 75 of the first and 25 of the second
    desk.enter_by(
        &ByTime,
        now(Buy, 5, 4, 105, 100),
        &[
            Row::Fill(1, 1, 75, 105, 5),
            Row::Fill(2, 2, 25, 105, 5),
            Row::Filled(5, 4),
        ],
    );
}

#[test]
fn shares_by_size_with_a_seller(rt: HostRuntime) {
    let mut opening = Opening::<8, 8>::new(5, 1);
    let mut desk = opening.desk(&rt);
    a_quarter_of_each(&mut desk, Buy);
}

// All five steps: Market Orders that came back from a route rest at their cap, 125 less 20.
#[test]
fn five_steps_at_a_price(rt: HostRuntime) {
    let mut opening = Opening::<8, 8>::new(5, 1);
    let mut desk = opening.desk(&rt);
    desk.market(Buy, Some(125), Ok(()));
    let other = desk.route(
        routable(market_order(Sell, 1, 1, 10)),
        &[Row::Route(1, 1, 10)],
    );
    let customer = desk.route(
        routable(of_kind(market_order(Sell, 2, 2, 10), Kind::Customer)),
        &[Row::Route(2, 2, 10)],
    );
    desk.market(Buy, None, Ok(()));
    desk.back(other, 0, &[Row::Rest(1, 1, 10, 105)]);
    desk.back(customer, 0, &[Row::Rest(2, 2, 10, 105)]);
    desk.rest(day(Sell, 3, 3, 105, 20), 105);
    desk.rest(
        of_kind(day(Sell, 4, 4, 105, 20), Kind::SpecialistQuote),
        105,
    );
    desk.rest(of_kind(day(Sell, 5, 5, 105, 10), Kind::Customer), 105);
    // 25 reach the specialist: two fifths are 10, its share of 40 shown is 12
    desk.enter(
        now(Buy, 6, 6, 105, 55),
        &[
            Row::Fill(2, 2, 10, 105, 1),
            Row::Fill(1, 1, 10, 105, 2),
            Row::Fill(5, 5, 10, 105, 3),
            Row::Fill(4, 4, 12, 105, 4),
            Row::Fill(3, 3, 13, 105, 5),
            Row::Filled(6, 6),
        ],
    );
}

#[test]
fn guarantee_by_direction_and_by_specialists(rt: HostRuntime) {
    let mut opening = Opening::<8, 8>::new(5, 1);
    let mut desk = opening.desk(&rt);
    desk.rest(of_kind(day(Sell, 1, 11, 105, 50), Kind::MakerQuote), 105);
    desk.rest(
        of_kind(day(Sell, 2, 12, 105, 60), Kind::SpecialistQuote),
        105,
    );
    desk.rest(day(Sell, 3, 13, 105, 90), 105);
    // directed to 11: two fifths of 100 are 40, its share of 200 shown is 25; then 60 over 60 and 90
    desk.enter(
        directed(now(Buy, 4, 4, 105, 100), 11),
        &[
            Row::Fill(1, 11, 40, 105, 4),
            Row::Fill(2, 12, 24, 105, 5),
            Row::Fill(3, 13, 36, 105, 5),
            Row::Filled(4, 4),
        ],
    );
    // 10, 36 and 54 are left; 13 has no quote, so the specialist has the guarantee: 4 are more than 3.6;
    // then 6 over 10 and 54 are 0 and 5, and the one left over goes to the larger
    desk.enter(
        directed(now(Buy, 5, 4, 105, 10), 13),
        &[
            Row::Fill(2, 12, 4, 105, 4),
            Row::Fill(3, 13, 6, 105, 5),
            Row::Filled(5, 4),
        ],
    );
    // 10, 32 and 48 are left: two fifths of 1 are at least 1
    desk.enter(
        now(Buy, 6, 4, 105, 1),
        &[Row::Fill(2, 12, 1, 105, 4), Row::Filled(6, 4)],
    );
}

// At a second price the specialist has its share alone: 30 over 10 and 90 are 3 and 27.
#[test]
fn no_guarantee_at_a_second_price(rt: HostRuntime) {
    let mut opening = Opening::<8, 8>::new(5, 1);
    let mut desk = opening.desk(&rt);
    desk.rest(
        of_kind(day(Buy, 1, 11, 100, 20), Kind::SpecialistQuote),
        100,
    );
    desk.rest(of_kind(day(Buy, 2, 12, 95, 10), Kind::SpecialistQuote), 95);
    desk.rest(day(Buy, 3, 13, 95, 90), 95);
    desk.enter(
        now(Sell, 4, 4, 95, 50),
        &[
            Row::Fill(1, 11, 20, 100, 4),
            Row::Fill(2, 12, 3, 95, 5),
            Row::Fill(3, 13, 27, 95, 5),
            Row::Filled(4, 4),
        ],
    );
}

// Both carry the mark and have one firm: the entry goes, at a price that the order comes to and at no other.
#[test]
fn barred_entries(rt: HostRuntime) {
    let mut opening = Opening::<8, 8>::new(5, 1);
    let mut desk = opening.desk(&rt);
    desk.rest(marked(day(Sell, 1, 5, 105, 10)), 105);
    desk.rest(marked(day(Sell, 2, 6, 105, 10)), 105);
    desk.rest(day(Sell, 3, 5, 105, 10), 105);
    desk.rest(marked(day(Sell, 4, 5, 110, 10)), 110);
    desk.enter(
        marked(now(Buy, 5, 5, 110, 20)),
        &[
            Row::Cancel(1, 5, 10, 1),
            Row::Fill(2, 6, 10, 105, 5),
            Row::Fill(3, 5, 10, 105, 5),
            Row::Filled(5, 5),
        ],
    );
    // without the mark a firm trades with itself
    desk.enter(
        now(Buy, 6, 5, 110, 4),
        &[Row::Fill(4, 5, 4, 110, 5), Row::Filled(6, 5)],
    );
}

// 15 contracts are within reach and not barred.
#[test]
fn least_size(rt: HostRuntime) {
    let mut opening = Opening::<8, 8>::new(5, 1);
    let mut desk = opening.desk(&rt);
    desk.rest(day(Sell, 1, 1, 105, 10), 105);
    desk.rest(marked(day(Sell, 2, 2, 105, 7)), 105);
    desk.rest(day(Sell, 3, 3, 110, 5), 110);
    desk.rest(day(Sell, 4, 4, 115, 5), 115);
    // missed by one: nothing else happens, and the barred entry stays
    desk.enter(
        with_least(marked(now(Buy, 5, 2, 110, 20)), 16),
        &[Row::Cancel(5, 2, 20, 3)],
    );
    // an away price puts the second price out of reach
    desk.market(Sell, Some(105), Ok(()));
    desk.enter(
        with_least(marked(now(Buy, 6, 2, 110, 20)), 11),
        &[Row::Cancel(6, 2, 20, 3)],
    );
    desk.market(Sell, None, Ok(()));
    // reached exactly
    desk.enter(
        with_least(marked(now(Buy, 7, 2, 110, 20)), 15),
        &[
            Row::Cancel(2, 2, 7, 1),
            Row::Fill(1, 1, 10, 105, 5),
            Row::Fill(3, 3, 5, 110, 5),
            Row::Cancel(7, 2, 5, 2),
        ],
    );
}

// The reference is 100, so a buyer's collar is 120.
#[test]
fn collar_of_a_buyer(rt: HostRuntime) {
    let mut opening = Opening::<8, 8>::new(1, 1);
    let mut desk = opening.desk(&rt);
    desk.rest(day(Sell, 1, 1, 100, 10), 100);
    desk.rest(day(Sell, 2, 2, 120, 10), 120);
    desk.rest(day(Sell, 3, 3, 121, 10), 121);
    desk.enter(
        day(Buy, 4, 4, 300, 40),
        &[
            Row::Fill(1, 1, 10, 100, 5),
            Row::Fill(2, 2, 10, 120, 5),
            Row::Rest(4, 4, 20, 120),
        ],
    );
}

// The reference is 201, so a seller's collar is 171.
#[test]
fn collar_of_a_seller(rt: HostRuntime) {
    let mut opening = Opening::<8, 8>::new(1, 1);
    let mut desk = opening.desk(&rt);
    desk.rest(day(Buy, 1, 1, 201, 10), 201);
    desk.rest(day(Buy, 2, 2, 171, 10), 171);
    desk.rest(day(Buy, 3, 3, 170, 10), 170);
    desk.enter(
        of_kind(market_order(Sell, 4, 4, 40), Kind::Customer),
        &[
            Row::Fill(1, 1, 10, 201, 5),
            Row::Fill(2, 2, 10, 171, 5),
            Row::Rest(4, 4, 20, 171),
        ],
    );
    desk.enter(
        now(Buy, 5, 5, 171, 20),
        &[Row::Fill(4, 4, 20, 171, 1), Row::Filled(5, 5)],
    );
}

// On a side, an away price that is equal to the entry's at 105, better, and worse.
fn away_prices<R: Abort>(rt: &R, side: Side, better: u32, worse: u32) {
    let mut opening = Opening::<8, 8>::new(5, 1);
    let mut desk = opening.desk(rt);
    let other = side.other();
    desk.rest(day(side, 1, 1, 105, 30), 105);
    desk.market(side, Some(105), Ok(()));
    desk.enter(
        day(other, 2, 2, 105, 40),
        &[Row::Fill(1, 1, 30, 105, 5), Row::Cancel(2, 2, 10, 4)],
    );
    desk.market(side, Some(better), Ok(()));
    desk.rest(day(side, 3, 3, 105, 10), 105);
    desk.enter(day(other, 4, 4, 105, 10), &[Row::Cancel(4, 4, 10, 4)]);
    desk.enter(now(other, 5, 5, 105, 10), &[Row::Cancel(5, 5, 10, 2)]);
    desk.market(side, Some(worse), Ok(()));
    desk.enter(
        day(other, 6, 6, 105, 15),
        &[Row::Fill(3, 3, 10, 105, 5), Row::Rest(6, 6, 5, 105)],
    );
}

#[test]
fn away_offers(rt: HostRuntime) {
    away_prices(&rt, Sell, 100, 110);
}

#[test]
fn away_bids(rt: HostRuntime) {
    away_prices(&rt, Buy, 110, 100);
}
