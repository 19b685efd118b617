// The trial program: one sharing by each rule, printed claim by claim; the collars and caps of some orders; a guarantee.
#![tactic(auto)]

ghost use Rattle.std.specs.Prelude.{◌≡◌};
ghost use Rattle.sharing.specs.Claims.{Shareable};

use rules::{Kind, Order, Side, Term, for_the_group};
use sharing::{ByTime, Claim, Rule, SizeProRata, share_out};
use std::{fmt, io};

// A price as it is printed, or "none" for a Market Order's.
#[derive(Clone, Copy)]
struct Price(Option<u32>);

impl fmt::Display for Price {
    fn fmt<W: fmt::Write>(&self, f: &mut fmt::Formatter<W>) -> fmt::Result {
        match self.0 {
            Some(price) => write!(f, "{price}"),
            None => f.write_str("none"),
        }
    }
}

// Shares an amount by a rule, and prints what each claim got, with its floor, and what that makes in all.
fn show<R: Rule>(
    rt: &impl Print,
    name: &str,
    rule: &R,
    amount: u32,
    claims: &mut [Claim],
) -> io::Result<()>
    requires { Shareable amount claims.old }
    ensures { Shareable amount claims.new }
{
    println!(rt; "{amount} contracts shared by {name}")?;
    println!(rt; "time,size,floor,allotment")?;
    let shared = share_out(rule, amount, claims);
    let mut sizes = 0u32;
    let mut floors = 0u32;
    for (i, claim) in claims.iter().enumerate() {
        let floor = rule.floor(amount, claims, i);
        println!(rt; "{},{},{floor},{}", claim.time, claim.size, claim.allotment)?;
        sizes = sizes.saturating_add(claim.size);
        floors = floors.saturating_add(floor);
    }
    println!(rt; "all,{sizes},{floors},{shared}")
}

// In cents.
const TICK: u32 = 5;

// Prints the collar and the cap that a Day order gets at a reference.
fn show_cap(rt: &impl Print, side: Side, price: Option<u32>, reference: u32) -> io::Result<()> {
    let order = Order {
        id: 1,
        firm: 1,
        kind: Kind::Other,
        side,
        term: Term::Day,
        price,
        size: 1,
        ..Order::default()
    };
    // Stays a match: a type of its own around a side would only wrap these two arms.
    let name = match side {
        Side::Buy => "buy",
        Side::Sell => "sell",
    };
    let limit = Price(price);
    let collar = side.collar(TICK, price, reference);
    let cap = Price(order.cap(TICK, Some(reference)));
    println!(rt; "{name},{limit},{reference},{collar},{cap}")
}

fn show_caps(rt: &impl Print) -> io::Result<()> {
    println!(rt; "side,limit,reference,collar,cap")?;
    show_cap(rt, Side::Buy, None, 100)?;
    show_cap(rt, Side::Buy, Some(110), 100)?;
    show_cap(rt, Side::Buy, Some(300), 205)?;
    show_cap(rt, Side::Sell, None, 20)?;
    show_cap(rt, Side::Sell, Some(10), 20)?;
    show_cap(rt, Side::Sell, Some(400), 520)
}

fn main(rt: HostRuntime) -> io::Result<()> {
    let mut claims = [
        Claim::new(100, 1),
        Claim::new(200, 2),
        Claim::new(500, 3),
        Claim::new(3, 4),
    ];
    show(&rt, "time", &ByTime, 101, &mut claims)?;
    println!(rt)?;
    show(&rt, "size pro rata", &SizeProRata, 101, &mut claims)?;
    println!(rt)?;
    show_caps(&rt)?;
    println!(rt)?;
    let group = for_the_group(100, 50, 200);
    println!(rt; "of 100 contracts, makers guaranteed 40% who show 50 of 200 get {group}")
}
