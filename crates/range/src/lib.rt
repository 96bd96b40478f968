// The 24-bit range, and clipping.
#![tactic(auto)]

ghost use Rattle.std.specs.Prelude.{◌≡◌};
ghost use Rattle.range.specs.Range.{in24, held_within, clipped, capped};

// Whether x is in the 24-bit range.
pub fn in_range(x: i32) -> bool
    ensures { result ≡ in24 x }
{
    (-8388608 <= x) & (x <= 8388607)
}

// Whether the 24-bit range holds x, so that clipping leaves it as it is.
pub fn holds(x: i64) -> bool
    ensures { result ≡ in24 x }
{
    (x >= -8388608) & (8388607 >= x)
}

// x held within lo and hi.
pub fn held_within(x: i64, lo: i64, hi: i64) -> i64
    ensures { result ≡ held_within lo hi x }
{
    if x < lo {
        lo
    } else if hi < x {
        hi
    } else {
        x
    }
}

// x, replaced by the nearer end of the 24-bit range.
pub fn clip(x: i64) -> i32
    ensures { result ≡ clipped x }
{
    held_within(x, -8388608, 8388607) as i32
}

// x, at most 8,388,607.
pub fn cap(x: u64) -> u32
    ensures { result ≡ capped x }
{
    x.min(8388607) as u32
}
