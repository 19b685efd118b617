// The laws over whole histories of calls, each named by a function so that the gate asks for its proof. The terms are in specs/.
#![tactic(auto)]

ghost use Rattle.laws.specs.Lawful.{EveryHistory, EveryCall};
ghost use Rattle.laws.specs.Worked.{WorkedHistory};

// Every history since an accepted opening keeps priority and price, the makers' guarantee and floors, and accounts that balance.
pub fn every_history_is_lawful() -> bool
    ensures { EveryHistory }
{
    true
}

// The same in the form that a public call carries: of every history that reaches a book, the one longer by a call is lawful.
pub fn every_call_stays_lawful() -> bool
    ensures { EveryCall }
{
    true
}

// A dozen accepted calls and a refused one have the tapes and the accounts that docs/promises.md follows.
pub fn worked_history() -> bool
    ensures { WorkedHistory }
{
    true
}
