// From price to price, in the places of a side.
ghost use Rattle.std.specs.Prelude.{◌≡◌, ◌^◌, ◌<◌, ◌≤◌, ◌∷◌, length, take, drop};
ghost use Rattle.sharing.specs.Totals.{total};
ghost use Rattle.rules.specs.Level.{size_of};
ghost use Rattle.rules.specs.Walk as walking;
ghost use Rattle.rules.specs.Walk.{runs};
ghost use Rattle.matching.specs.Parts.{live};
ghost use Rattle.matching.specs.Walks.{walked, MayWalk, Leaves};

use crate::lent::Lent;
use crate::price::price;
use rules::{Entry, Routed};
use sharing::Rule;

// What a walk leaves: the order's balance, and how many entries of the side are left.
#[derive(Clone, Copy)]
pub struct Walked {
    pub balance: u32,
    pub left: usize,
}

// The contracts that are not barred at prices within reach.
// Stays a chain of its own beside that of `shown`: one function over a closure was tried, and needed two clauses that name the
// test which the closure computes, longer than both chains.
pub fn available(order: &Routed, away: Option<u32>, entries: &[Entry]) -> u32
    requires { total size_of entries.now < 2 ^ 32 }
    ensures { result ≡ walking.available order.now away entries.now }
{
    entries
        .iter()
        .filter(|e| {
            order.side.within_reach(order.cap, away, e.price)
                && !e.is_barred(order.firm, order.own_firm_mark)
        })
        .map(|e| e.size)
        .sum()
}

// How many entries from the first on have its price.
fn run_length(entries: &[Entry]) -> usize
    requires { 0 < length entries.now }
    ensures some { 0 < result }
    ensures within { result ≤ length entries.now }
    ensures run { runs entries.now ≡ take result entries.now ∷ runs (drop result entries.now) }
{
    let first = entries[0].price;
    entries.iter().take_while(|e| e.price == first).count()
}

// The price is the national best, where makers have their guarantee.
// Stays a comparison of two prices, and not `== Some(price)`: an edit that takes `<=` for it has to be able to name it.
fn is_best(national: Option<u32>, price: u32) -> bool
    ensures { result ≡ walking.is_price_of national price }
{
    matches!(national, Some(n) if n == price)
}

// Closes the gaps that entries with nothing left have; answers how many are left.
fn close_gaps(entries: &mut [Entry]) -> usize
    ensures value { result ≡ length (live entries.old) }
    ensures entries { take result entries.new ≡ live entries.old }
{
    let mut k = 0;
    // Stays: one slice is read at one place and written at another, which no iterator does.
    for i in 0..entries.len() {
        let e = entries[i];
        if e.size > 0 {
            entries[k] = e;
            k += 1;
        }
    }
    k
}

// The order trades from the best price on while it has contracts and the price is within reach.
pub fn walk<R: Rule>(
    rule: &R,
    order: &Routed,
    national: Option<u32>,
    away: Option<u32>,
    entries: &mut [Entry],
    lent: &mut Lent<'_>,
) -> Walked
    requires { MayWalk order.now entries.old lent.old }
    ensures leaves { Leaves (walked (R.meaning rule.now) order.now national away entries.old) result entries.new lent.old lent.new }
    ensures places { length entries.new ≡ length entries.old }
{
    let Routed { side, cap, .. } = *order;
    let mut balance = order.size;
    let mut from = 0;
    // Stays: after a loop over `chunk_by_mut` a proof knows how many entries there are, and not which.
    while from < entries.len() && balance > 0 && side.within_reach(cap, away, entries[from].price) {
        let to = from + run_length(&entries[from..]);
        let at_best = is_best(national, entries[from].price);
        balance = price(rule, order, at_best, balance, &mut entries[from..to], lent);
        from = to;
    }
    let left = close_gaps(entries);
    Walked { balance, left }
}
