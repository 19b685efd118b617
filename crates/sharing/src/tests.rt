// The sharing rules on examples, worked by hand.
ghost use Rattle.std.specs.Prelude.{◌≡◌, ℕ, ◌+◌, ◌<◌, ◌≤◌, length};
ghost use Rattle.sharing.specs.Claims.{Shareable};

use crate::by_time::ByTime;
use crate::claims::Claim;
use crate::examples::worked_examples;
use crate::pro_rata::SizeProRata;
use crate::rule::{Rule, share_out};
use std::process::Abort;
use std::test::Fail;

// A claim that was allotted something before, which no rule may look at.
fn of(size: u32, time: u32) -> Claim
    ensures { result ≡ record { size = size; time = time; allotment = 7 } }
{
    Claim {
        allotment: 7,
        ..Claim::new(size, time)
    }
}

// Shares the amount, and compares allotments, their sum and the floors with what is wanted.
fn expect<R: Rule>(
    rt: &impl Abort,
    rule: &R,
    amount: u32,
    claims: &mut [Claim],
    allotments: &[u32],
    floors: &[u32],
) -> Result<(), Fail>
    requires { Shareable amount claims.old }
{
    let shared = share_out(rule, amount, claims);
    assert!(rt; claims.len() == floors.len());
    assert!(rt;
        claims
            .iter()
            .map(|c| c.allotment)
            .eq(allotments.iter().copied())
    );
    for (at, floor) in floors.iter().enumerate() {
        assert_eq!(rt; rule.floor(amount, claims, at), *floor);
    }
    let sum = allotments
        .iter()
        .fold(0u32, |sum, n| sum.saturating_add(*n));
    assert_eq!(rt; shared, sum);
    Ok(())
}

#[test]
fn size_pro_rata(rt: HostRuntime) -> Result<(), Fail> {
    let r = SizeProRata;
    expect(
        &rt,
        &r,
        200,
        &mut [of(100, 1), of(200, 2), of(500, 3)],
        &[25, 50, 125],
        &[25, 50, 125],
    )?;
    // nothing to share, and nobody to share with
    expect(&rt, &r, 0, &mut [of(100, 1), of(200, 2)], &[0, 0], &[0, 0])?;
    expect(&rt, &r, 9, &mut [], &[], &[])?;
    // one below the total, the total, and above it
    expect(
        &rt,
        &r,
        299,
        &mut [of(100, 1), of(200, 2)],
        &[100, 199],
        &[99, 199],
    )?;
    expect(
        &rt,
        &r,
        300,
        &mut [of(100, 1), of(200, 2)],
        &[100, 200],
        &[100, 200],
    )?;
    expect(
        &rt,
        &r,
        99999,
        &mut [of(100, 1), of(200, 2)],
        &[100, 200],
        &[100, 200],
    )?;
    // of equals the earlier first, whatever the clock shows
    expect(
        &rt,
        &r,
        2,
        &mut [of(5, 3), of(5, 90), of(5, 4000000000)],
        &[1, 1, 0],
        &[0, 0, 0],
    )?;
    // the larger remaining size before the earlier time
    expect(
        &rt,
        &r,
        4,
        &mut [of(2, 1), of(3, 2), of(3, 3)],
        &[1, 2, 1],
        &[1, 1, 1],
    )
}

#[test]
fn by_time(rt: HostRuntime) -> Result<(), Fail> {
    let r = ByTime;
    expect(
        &rt,
        &r,
        200,
        &mut [of(100, 1), of(200, 2), of(500, 3)],
        &[100, 100, 0],
        &[100, 100, 0],
    )?;
    expect(&rt, &r, 0, &mut [of(100, 1), of(200, 2)], &[0, 0], &[0, 0])?;
    expect(&rt, &r, 9, &mut [], &[], &[])?;
    expect(
        &rt,
        &r,
        299,
        &mut [of(100, 1), of(200, 2)],
        &[100, 199],
        &[100, 199],
    )?;
    expect(
        &rt,
        &r,
        300,
        &mut [of(100, 1), of(200, 2)],
        &[100, 200],
        &[100, 200],
    )?;
    expect(
        &rt,
        &r,
        99999,
        &mut [of(100, 1), of(200, 2)],
        &[100, 200],
        &[100, 200],
    )
}

// As many claims as a rule may be given, each of the largest size, at the times from 1 on.
fn fill_largest(claims: &mut [Claim])
    requires { length claims.old ≤ 256 }
    ensures { Shareable 99999 claims.new }
{
    for (i, c) in claims.iter_mut().enumerate() {
        *c = of(99999, i as u32 + 1);
    }
}

#[test]
fn most_and_largest(rt: HostRuntime) -> Result<(), Fail> {
    let mut claims = [of(1, 1); 256];
    fill_largest(&mut claims);
    // 99,999 over 256 equals is 390 each and 159 over, which go to the earliest
    let mut allotments = [390; 256];
    allotments[..159].fill(391);
    expect(
        &rt,
        &SizeProRata,
        99999,
        &mut claims,
        &allotments,
        &[390; 256],
    )?;
    let mut first = [0; 256];
    first[0] = 99999;
    fill_largest(&mut claims);
    expect(&rt, &ByTime, 99999, &mut claims, &first, &first)
}

#[test]
fn worked(rt: HostRuntime) {
    assert_eq!(rt; worked_examples(), ([3, 2, 2], [0, 5]));
}
