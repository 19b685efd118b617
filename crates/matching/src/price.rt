// One price: barred entries are cancelled, and then the balance is offered in five steps, Rule 964NYP(j).
ghost use Rattle.std.specs.Prelude.{◌≡◌, ◌^◌, ◌<◌, ◌≤◌, not, map, length, filter};
ghost use Rattle.std.specs.List.{AllByRecursion, list_any};
ghost use Rattle.rules.specs.Checks.{is_barred};
ghost use Rattle.rules.specs.Laws.{Tradable};
ghost use Rattle.rules.specs.Level as level;
ghost use Rattle.rules.specs.Level.{in_group, barred_line};
ghost use Rattle.matching.specs.Deals.{bare, Asks, Dealt};
ghost use Rattle.matching.specs.Parts.{group_test, part_test, live, takes_part, shown_by};
ghost use Rattle.matching.specs.Tapes.{Room, Writes};

use crate::lent::Lent;
use crate::parts::{Group, Part};
use crate::step::{class_step, step};
use rules::{Cause, Class, Entry, Line, Routed, for_the_group};
use sharing::{ByTime, Rule};

// Cancels the entries that are barred to an order, a line for each, with nothing left of them.
fn bar(order: &Routed, run: &mut [Entry], lent: &mut Lent<'_>)
    requires live { AllByRecursion (λ e. 1 ≤ e.size) run.old }
    requires room { Room 0 (length run.old) lent.old }
    ensures run { live run.new ≡ filter (λ e. not (is_barred order.now.firm order.now.own_firm_mark e)) run.old }
    ensures writes { Writes (map barred_line (filter (is_barred order.now.firm order.now.own_firm_mark) run.old)) lent.old lent.new }
    ensures claims { lent.new.sheet.now ≡ lent.old.sheet.now }
{
    for e in run.iter_mut() {
        if e.is_barred(order.firm, order.own_firm_mark) {
            lent.write(Line::Cancel {
                id: e.id,
                firm: e.firm,
                size: e.size,
                cause: Cause::OwnFirm,
            });
            e.size = 0;
        }
    }
}

// The contracts that those who take part show.
fn shown(part: Part, run: &[Entry]) -> u32
    requires { shown_by (part_test part) run.now < 2 ^ 32 }
    ensures { result ≡ shown_by (part_test part) run.now }
{
    run.iter().filter(|e| part.takes(e)).map(|e| e.size).sum()
}

// Somebody there takes part.
fn any(part: Part, run: &[Entry]) -> bool
    ensures { result ≡ list_any (takes_part (part_test part)) run.now }
{
    run.iter().any(|e| part.takes(e))
}

// The guaranteed group: the quotes there of the firm that the order is directed to or, failing those, all specialist quotes.
#[tactic(auto, using(crate::proofs::Shown::any_is))]
fn group_at(directed: Option<u16>, run: &[Entry]) -> Group
    ensures { group_test result ≡ in_group directed (live run.now) }
{
    match directed {
        Some(firm) if any(Part::Within(Group::QuotesOf(firm)), run) => Group::QuotesOf(firm),
        _ => Group::Specialists,
    }
}

// Steps 4 and 5: where the guarantee acts, the group has no part in what is left.
#[tactic(auto, using(crate::proofs::Makers::few_contracts))]
fn makers<R: Rule>(
    rule: &R,
    at_best: bool,
    directed: Option<u16>,
    balance: u32,
    run: &mut [Entry],
    lent: &mut Lent<'_>,
) -> u32
    requires { Asks (level.makers (R.meaning rule.now) at_best directed) run.old lent.old balance }
    ensures { Dealt (level.makers (R.meaning rule.now) at_best directed (bare balance (live run.old))) run.old run.new lent.old lent.new result }
{
    let group = group_at(directed, run);
    let within = Part::Within(group);
    let shows = shown(within, run);
    if at_best && balance > 0 && shows > 0 {
        let all = shown(Part::Class(Class::OtherInterest), run);
        let amount = for_the_group(balance, shows, all);
        let left = step(rule, within, amount, balance, run, lent);
        step(rule, Part::Beside(group), left, left, run, lent)
    } else {
        class_step(rule, Class::OtherInterest, balance, run, lent)
    }
}

// All five steps at one price.
pub(crate) fn price<R: Rule>(
    rule: &R,
    order: &Routed,
    at_best: bool,
    balance: u32,
    run: &mut [Entry],
    lent: &mut Lent<'_>,
) -> u32
    requires tradable { Tradable balance run.old }
    requires room { Room (length run.old) (length run.old) lent.old }
    ensures { Dealt (level.level (R.meaning rule.now) order.now at_best balance run.old) run.old run.new lent.old lent.new result }
{
    bar(order, run, lent);
    let balance = class_step(&ByTime, Class::CustomerMarketOrder, balance, run, lent);
    let balance = class_step(rule, Class::OtherMarketOrder, balance, run, lent);
    let balance = class_step(&ByTime, Class::CustomerLimitOrder, balance, run, lent);
    makers(rule, at_best, order.directed, balance, run, lent)
}
