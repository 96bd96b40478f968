// The root.
#![tactic(auto)]

ghost use Rattle.std.specs.Prelude.{◌≡◌};
ghost use Rattle.root.specs.Root.{root_of};

// The root of x, rounded down: a pair of bits at a time, from the highest.
pub fn root(x: u64) -> u64
    ensures { result ≡ root_of x }
{
    let mut r: u64 = 0;
    for pair in 0..32u32 {
        let left = 31 - pair;
        let odd = 2 * r + 1;
        if odd * odd <= x >> (2 * left) {
            r = odd;
        } else {
            r = 2 * r;
        }
    }
    r
}
