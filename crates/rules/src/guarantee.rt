// The makers' guarantee at the national best price.
ghost use Rattle.std.specs.Prelude.{◌≡◌, ◌<◌};
ghost use Rattle.rules.specs.Guarantee.{guaranteed, group_amount};

// 40% of the balance rounded down, at least 1.
pub fn least_for_the_group(balance: u32) -> u32
    ensures { result ≡ guaranteed balance }
{
    // Stays with `as`, here and below: each cast is proved to keep its number, which is all that `From` would say.
    ((balance as u64 * 2 / 5) as u32).max(1)
}

// What the guaranteed group gets of a balance: the greater of that and its share of all shown, but no more than it shows.
pub fn for_the_group(balance: u32, group: u32, all: u32) -> u32
    requires { 0 < all }
    ensures { result ≡ group_amount balance group all }
{
    let share = balance as u64 * group as u64 / all as u64;
    let most = share.max(least_for_the_group(balance) as u64);
    most.min(group as u64) as u32
}
