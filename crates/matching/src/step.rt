// One step at a price: claims are gathered, a rule shares, fills are written and contracts taken off.
ghost use Rattle.std.specs.Prelude.{◌≡◌, ◌≤◌, min, map, length, take};
ghost use Rattle.std.specs.List.{AllZip};
ghost use Rattle.sharing.specs.Claims as claims;
ghost use Rattle.sharing.specs.Claims.{Shareable, allotted, allotment_of};
ghost use Rattle.sharing.specs.Totals.{total};
ghost use Rattle.rules.specs.Level.{size_of, left_after, in_class};
ghost use Rattle.rules.specs.Level as level;
ghost use Rattle.rules.specs.Ranks.{class_number};
ghost use Rattle.matching.specs.Deals.{bare, Asks, Dealt};
ghost use Rattle.matching.specs.declared.parts.Part.TheVariants.{Class as whole};
ghost use Rattle.matching.specs.Parts.{part_test, step_for, live, taking, claims_at, gives, fills_at};
ghost use Rattle.matching.specs.Tapes.{Room, Writes};

use crate::lent::Lent;
use crate::parts::Part;
use rules::{Class, Entry, Line};
use sharing::{Claim, Rule, share_out};

// Writes the claims of those who take part to the front of the sheet, and answers how many they are.
fn gather(part: Part, run: &[Entry], sheet: &mut [Claim]) -> usize
    requires { length run.now ≤ length sheet.old }
    ensures value { result ≡ length (taking part run.now) }
    ensures claims { take result sheet.new ≡ claims_at part run.now }
{
    let mut n = 0;
    // Stays: after a zip over `iter_mut` a proof knows how many claims the sheet has, and not which.
    for e in run {
        if part.takes(e) {
            sheet[n] = Claim::new(e.size, e.time);
            n += 1;
        }
    }
    n
}

// Has a rule share an amount over the claims of those who take part; answers what was allotted in all.
fn share<R: Rule>(rule: &R, part: Part, amount: u32, run: &[Entry], sheet: &mut [Claim]) -> u32
    requires shareable { Shareable amount (claims_at part run.now) }
    requires within { length run.now ≤ length sheet.old }
    ensures value { result ≡ min amount (total claims.size_of (claims_at part run.now)) }
    ensures shared { take (length (taking part run.now)) sheet.new ≡ allotted ((R.meaning rule.now).allotments amount (claims_at part run.now)) (claims_at part run.now) }
{
    let n = gather(part, run, sheet);
    share_out(rule, amount, &mut sheet[..n])
}

// Writes a fill for each that was allotted something, and takes it off.
fn pay(part: Part, run: &mut [Entry], lent: &mut Lent<'_>)
    requires room { Room (length (taking part run.old)) (length (fills_at part lent.old.sheet.now run.old)) lent.old }
    requires within { AllZip ◌≤◌ (map allotment_of (take (length (taking part run.old)) lent.old.sheet.now)) (map size_of (taking part run.old)) }
    ensures run { live run.new ≡ left_after (gives part lent.old.sheet.now run.old) (live run.old) }
    ensures writes { Writes (fills_at part lent.old.sheet.now run.old) lent.old lent.new }
    ensures claims { lent.new.sheet.now ≡ lent.old.sheet.now }
{
    // Stays: the claims are counted, since only those who take part have one, and a zip over the sheet would need them apart first.
    let mut j = 0;
    // Stays a loop over an index: an entry's fill is written at the entry's own place, and an edit that credits another entry's place
    // has to be able to name that place.
    for i in 0..run.len() {
        let e = run[i];
        if part.takes(&e) {
            let size = lent.sheet[j].allotment;
            j += 1;
            if size > 0 {
                lent.write(Line::Fill {
                    id: e.id,
                    firm: e.firm,
                    size,
                    price: e.price,
                    step: part.step(),
                });
                run[i].size = e.size - size;
            }
        }
    }
}

// One step: those who take part share an amount, which is no more than the balance, by a rule. Answers the balance left.
// Stays, here and in price.rt: balance, run and lent go side by side, since the balance is answered anew by each step, and the run is
// a part of the entries that only `walk` can lend.
pub(crate) fn step<R: Rule>(
    rule: &R,
    part: Part,
    amount: u32,
    balance: u32,
    run: &mut [Entry],
    lent: &mut Lent<'_>,
) -> u32
    requires shareable { Shareable amount (claims_at part run.old) }
    requires amount { amount ≤ balance }
    requires room { Room (length run.old) (length (level.step (step_for part) (part_test part) (R.meaning rule.now) amount (bare balance (live run.old))).lines) lent.old }
    ensures { Dealt (level.step (step_for part) (part_test part) (R.meaning rule.now) amount (bare balance (live run.old))) run.old run.new lent.old lent.new result }
{
    let given = share(rule, part, amount, run, lent.sheet);
    pay(part, run, lent);
    balance - given
}

// The step of a whole class, over the whole balance.
pub(crate) fn class_step<R: Rule>(
    rule: &R,
    class: Class,
    balance: u32,
    run: &mut [Entry],
    lent: &mut Lent<'_>,
) -> u32
    requires { Asks (level.step_all (step_for (whole class)) (in_class (class_number class)) (R.meaning rule.now)) run.old lent.old balance }
    ensures { Dealt (level.step_all (step_for (whole class)) (in_class (class_number class)) (R.meaning rule.now) (bare balance (live run.old))) run.old run.new lent.old lent.new result }
{
    step(rule, Part::Class(class), balance, balance, run, lent)
}
