// The worked examples of size pro rata: proved of the definitions, and carried out by the code.
ghost use Rattle.std.specs.Prelude.{◌≡◌, [], ◌∷◌};
ghost use Rattle.sharing.specs.Examples.{Examples};

use crate::claims::Claim;
use crate::pro_rata::SizeProRata;
use crate::rule::share_out;

// 7 over 10, 10, 10 gives 3, 2, 2, and 5 over 1, 9 gives 0, 5.
pub fn worked_examples() -> ([u32; 3], [u32; 2])
    ensures examples { Examples }
    ensures value { (result.0 ≡ 3 ∷ 2 ∷ 2 ∷ []) × (result.1 ≡ 0 ∷ 5 ∷ []) }
{
    let mut tens = [Claim::new(10, 1), Claim::new(10, 2), Claim::new(10, 3)];
    share_out(&SizeProRata, 7, &mut tens);
    let mut pair = [Claim::new(1, 1), Claim::new(9, 2)];
    share_out(&SizeProRata, 5, &mut pair);
    (tens.map(|c| c.allotment), pair.map(|c| c.allotment))
}
