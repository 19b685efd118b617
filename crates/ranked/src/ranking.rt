// What it is to rank elements: a trait whose three laws make the rank a total order. One element type may have several.
ghost use Rattle.std.specs.Prelude.{◌≡◌, Bool, true, false};
ghost use Rattle.ranked.specs.Ranked.{ahead};

// A total order of ranks, and the rank of each element. Elements of one rank are equals to a list.
pub trait Ranking<T> {
    // The ranks.
    ghost Ranks: { Type 0 };

    // The rank of an element.
    ghost rank: { Self → T → Ranks };

    // The first rank precedes the second.
    ghost before: { Self → Ranks → Ranks → Bool };

    fn precedes(&self, x: &T, y: &T) -> bool
        ensures { result ≡ ahead before rank self.now x.now y.now };

    // Nothing precedes itself.
    ghost irreflexive: { (by : Self) (r : Ranks) → before by r r ≡ false };

    // Precedence carries over from first to third.
    ghost transitive: { (by : Self) (r s t : Ranks) → before by r s ≡ true → before by s t ≡ true → before by r t ≡ true };

    // Of two different ranks one precedes: where neither does, they are one.
    ghost total: { (by : Self) (r s : Ranks) → before by r s ≡ false → before by s r ≡ false → r ≡ s };
}
