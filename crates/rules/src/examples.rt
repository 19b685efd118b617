// The worked examples of the venue's rules: proved of the definitions, and reckoned by the code.
ghost use Rattle.std.specs.Prelude.{◌≡◌, [], ◌∷◌};
ghost use Rattle.rules.specs.Examples.{Examples};

use crate::guarantee::for_the_group;
use crate::terms::Side;

// A buyer's collars at 100 and 201, a selling Market Order's at 20 where the tick is 1, and two guarantees.
#[tactic(auto, using(crate::proofs::Worked::worked))]
pub fn worked_examples() -> [u32; 5]
    ensures examples { Examples }
    ensures value { result ≡ 120 ∷ 231 ∷ 1 ∷ 40 ∷ 1 ∷ [] }
{
    [
        Side::Buy.collar(1, None, 100),
        Side::Buy.collar(1, None, 201),
        Side::Sell.collar(1, None, 20),
        for_the_group(100, 50, 200),
        for_the_group(2, 10, 100),
    ]
}
