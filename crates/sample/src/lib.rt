// Samples: what a card makes of a raw one, and what is kept of the running interval's.
#![tactic(auto)]

ghost use Rattle.std.specs.Prelude.{◌≡◌, ◌≤◌};
ghost use Rattle.sample.specs.Sample.{scaled, correction, every24};
ghost use Rattle.sample.specs.Sums.{emptied, no_flow, no_clips, no_sums, flow_within, clips_within, of_at_most, phase_in_range};

use card::Card;
use card::names::PHASE;

// A corrected sample, and whether its value before clipping lay outside the 24-bit range.
#[derive(Clone, Copy, Debug, PartialEq, Eq)]
pub struct Corrected {
    pub value: i32,
    pub clipped: bool,
}

// (raw - offset) times gain / 2^21, rounded down. No i32 makes it overflow.
pub fn scale(raw: i32, offset: i32, gain: i32) -> i64
    ensures { result ≡ scaled raw offset gain }
{
    number::floor_div((raw as i64 - offset as i64) * gain as i64, 21)
}

// The same clipped, and whether clipping changed it.
pub fn correct(raw: i32, offset: i32, gain: i32) -> Corrected
    ensures { result ≡ correction raw offset gain }
{
    let x = scale(raw, offset, gain);
    let value = range::clip(x);
    Corrected {
        value,
        clipped: value as i64 != x,
    }
}

// Whether every sample is in the 24-bit range. No branch a sample: a machine can test several at once.
pub fn all_in_range(a: &[i32]) -> bool
    ensures { result ≡ every24 a.now }
{
    let mut ok = true;
    for x in a {
        ok = ok & range::in_range(*x);
    }
    ok
}

// Whether a card's PHASE, its field 5, is in its range.
pub fn phase_in_range(c: Card) -> bool
    ensures { result ≡ phase_in_range c }
{
    let f = c.fields;
    card::field_in_range(5, f[PHASE] as i64)
}

// A value for each current input.
#[derive(Clone, Copy, Debug, PartialEq, Eq)]
pub struct Inputs {
    pub s1: i32,
    pub s3: i32,
}

// Of one current source: the sum of its squares and of its products with the voltage, and its largest size.
#[derive(Clone, Copy, Debug, PartialEq, Eq)]
pub struct Flow {
    pub ii: u64,
    pub vi: i64,
    pub peak: u32,
}

// How many of an interval's own voltages and inputs were clipped.
#[derive(Clone, Copy, Debug, PartialEq, Eq)]
pub struct Clips {
    pub v: u32,
    pub s1: u32,
    pub s3: u32,
}

// vv is the sum of the voltage squares; a and b are of the sources IA and IB; raw has the last raw inputs, where any were seen.
#[derive(Clone, Copy, Debug, PartialEq, Eq)]
pub struct Sums {
    pub vv: u64,
    pub a: Flow,
    pub b: Flow,
    pub clips: Clips,
    pub seen: bool,
    pub raw: Inputs,
}

impl Flow {
    fn none() -> Flow
        ensures { result ≡ no_flow }
    {
        Flow {
            ii: 0,
            vi: 0,
            peak: 0,
        }
    }

    // Whether these can be the sums of at most n samples, n no more than an interval can have.
    fn within(self, n: u32) -> bool
        requires { n ≤ 4096 }
        ensures { result ≡ flow_within n self }
    {
        let most = n as u64 * 70368744177664;
        let z = number::size(self.vi);
        (self.ii <= most) & (z <= most)
    }
}

impl Clips {
    // No sample was clipped.
    pub fn unclipped() -> Clips
        ensures { result ≡ no_clips }
    {
        Clips { v: 0, s1: 0, s3: 0 }
    }

    fn within(self, n: u32) -> bool
        ensures { result ≡ clips_within n self }
    {
        (self.v <= n) & (self.s1 <= n) & (self.s3 <= n)
    }
}

impl Sums {
    // Before the module's first sample.
    pub fn none() -> Sums
        ensures { result ≡ no_sums }
    {
        let nothing = Flow::none();
        Sums {
            vv: 0,
            a: nothing,
            b: nothing,
            clips: Clips::unclipped(),
            seen: false,
            raw: Inputs { s1: 0, s3: 0 },
        }
    }

    // Between two intervals.
    pub fn emptied(self) -> Sums
        ensures { result ≡ emptied self }
    {
        Sums {
            seen: self.seen,
            raw: self.raw,
            ..Sums::none()
        }
    }

    // Whether these can be the sums of at most n samples: then none can pass 64 bits, and no count 32.
    pub fn of_at_most(self, n: u32) -> bool
        ensures { result ≡ of_at_most n self }
    {
        if n <= 4096 {
            let most = n as u64 * 70368744177664;
            let a = self.a.within(n);
            let b = self.b.within(n);
            let clips = self.clips.within(n);
            return (self.vv <= most) & a & b & clips;
        }
        false
    }
}
