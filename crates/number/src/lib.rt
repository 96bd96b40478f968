// The whole-number rules of document 01: sign and size, both roundings, squares and products.
#![tactic(auto)]

ghost use Rattle.std.specs.Prelude.{◌≡◌, ◌^◌, ◌≤◌, nat_abs, ◌*ℤ◌};
ghost use Rattle.number.specs.Sign.{with_sign, lessened, square_of};
ghost use Rattle.number.specs.Rounding.{floor_div, toward_zero};

// The size of x, which even the lowest i64 has as a u64.
pub fn size(x: i64) -> u64
    ensures { result ≡ nat_abs x }
{
    x.unsigned_abs()
}

// The number of size m with the sign of x.
fn with_sign(x: i64, m: u64) -> i64
    requires { m ≤ nat_abs x }
    ensures { result ≡ with_sign x m }
{
    if m == 0 {
        return 0;
    }
    if x < 0 {
        -((m - 1) as i64) - 1
    } else {
        m as i64
    }
}

// x with its size less m, or 0, and its sign kept.
#[tactic(auto, unfolding(crate::specs::Sign::lessened))]
pub fn lessen(x: i64, m: u64) -> i64
    ensures { result ≡ lessened x m }
{
    with_sign(x, size(x).saturating_sub(m))
}

// x / m, rounded toward zero; 0 where m is 0.
pub fn toward_zero(x: i64, m: u64) -> i64
    ensures { result ≡ toward_zero x m }
{
    if m == 0 {
        return 0;
    }
    with_sign(x, size(x) / m)
}

// x / 2^bits, rounded down. Beyond 63 bits only the sign is left.
pub fn floor_div(x: i64, bits: u32) -> i64
    ensures { result ≡ floor_div x (2 ^ bits) }
{
    if bits < 64 {
        return x >> bits;
    }
    x >> 63
}

// The square, which every i32 has as a u64.
pub fn square(x: i32) -> u64
    ensures { result ≡ square_of x }
{
    (x as i64 * x as i64) as u64
}

// The product, which any two i32 have as an i64.
pub fn product(x: i32, y: i32) -> i64
    ensures { result ≡ x *ℤ y }
{
    x as i64 * y as i64
}
