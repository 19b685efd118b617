// First laws of the definitions, each named by a function so that the gate asks for its proof.
ghost use Rattle.rules.specs.Laws.{OnePrice, RunsAreWhole, AllPrices};
ghost use Rattle.rules.specs.Sound.{Kept, AlwaysTradable};

// At one price, under every lawful rule, the fills add up, nobody gives more than it has, and the order or the price is
// exhausted.
#[tactic(auto, using(crate::proofs::OnePrice::one_price))]
pub fn one_price_is_exhausted() -> bool
    ensures { OnePrice }
{
    true
}

// From price to price, under every lawful rule, the fills are what the balance lost, each entry lost what its lines say, none
// has two lines, and what stands there afterwards is left of what stood there, in its order.
#[tactic(auto, using(crate::proofs::Leaves::runs_are_whole, crate::proofs::AllPrices::all_prices))]
pub fn nothing_is_lost_from_price_to_price() -> bool
    ensures whole { RunsAreWhole }
    ensures laws { AllPrices }
{
    true
}

// Every accepted call, under whatever rule, leaves the book sound: sides in rank, sizes and prices in range, ids unique, and
// the last working time with the orders out at most 4,000,000,017. In a sound book the laws above can be asked of every price.
pub fn every_call_keeps_the_book_sound() -> bool
    ensures kept { Kept }
    ensures tradable { AlwaysTradable }
{
    true
}
