// Energy: one direction's count and remainder, advanced here and nowhere else.
#![tactic(auto)]

ghost use Rattle.std.specs.Prelude.{◌≡◌};
ghost use Rattle.energy.specs.Energies.{advanced, amount_of};

#[derive(Clone, Copy)]
pub struct Energy {
    pub count: u32,
    pub remainder: u64,
}

// What an interval of n samples with active power p adds to the record of its sign.
pub fn amount(p: i32, n: u32) -> u64
    ensures { result ≡ amount_of p n }
{
    number::size(p as i64) * n as u64
}

impl Energy {
    // An amount joins the remainder. Both are divided apart, so that no sum of them can wrap; `carry` is the bucket that their remainders fill together.
    fn advanced(self, amount: u64, bucket: u64) -> Energy
        ensures { result ≡ advanced self amount bucket }
    {
        if bucket == 0 {
            return self;
        }
        let had = self.remainder % bucket;
        let more = amount % bucket;
        let whole = self.count as u64 % 16777216
            + self.remainder / bucket % 16777216
            + amount / bucket % 16777216;
        if had < bucket - more {
            let kept = whole % 16777216;
            return Energy {
                count: kept as u32,
                remainder: had + more,
            };
        }
        let kept = (whole + 1) % 16777216;
        Energy {
            count: kept as u32,
            remainder: had - (bucket - more),
        }
    }
}

// The record, lent at an interval's close and advanced where it lies.
pub fn advance(e: &mut Energy, amount: u64, bucket: u64)
    ensures { e.new ≡ advanced e.old amount bucket }
{
    *e = Energy::advanced(*e, amount, bucket);
}
