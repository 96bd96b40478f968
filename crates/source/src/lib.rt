// The two current sources of a board, each made of both inputs by its multipliers.
#![tactic(auto)]

ghost use Rattle.std.specs.Prelude.{◌≡◌};
ghost use Rattle.source.specs.Sources.{multipliers_in, uses_both, blended};

// What a source takes of S1 and of S3. (So narrow that no product with an i32 can pass 64 bits.)
#[derive(Clone, Copy, Debug, PartialEq, Eq)]
pub struct Multipliers {
    pub m1: i8,
    pub m3: i8,
}

// The multipliers in four bits of a configuration.
pub fn multipliers_in(bits: u8) -> Multipliers
    ensures { result ≡ multipliers_in bits }
{
    Multipliers {
        m1: (bits % 4) as i8 - 1,
        m3: (bits / 4 % 4) as i8 - 1,
    }
}

// Whether neither multiplier is 0.
fn uses_both(m: Multipliers) -> bool
    ensures { result ≡ uses_both m }
{
    (m.m1 != 0) & (m.m3 != 0)
}

// The current of a source, of both inputs as they are corrected and mixed by PHASE.
pub fn blend(m: Multipliers, s1: i32, s3: i32) -> i32
    ensures { result ≡ blended m s1 s3 }
{
    let sum = m.m1 as i64 * s1 as i64 + m.m3 as i64 * s3 as i64;
    if uses_both(m) {
        return range::clip(number::floor_div(sum, 1));
    }
    range::clip(sum)
}
