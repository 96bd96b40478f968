// The samples' loop, on the sums alone: what the card and the configuration do to a sample is taken out of them once.
#![tactic(auto)]

ghost use Rattle.std.specs.Prelude.{◌≡◌, ◌+◌, ◌*◌, ◌≤◌, ◌<◌, pos, length, get_or};
ghost use Rattle.std.specs.Int.Signed.{mag};
ghost use Rattle.sample.specs.Sample.{mixed};
ghost use Rattle.sample.specs.Sums.{joined, previous, samples_in, added_all, with_samples};
ghost use Rattle.sample.specs.Inside.{Flowing, Few, Spare, Phased};
ghost use Rattle.summing.specs.Inside.{probe_of, both_of, mixed_both, probed_all, clipped_each, three_of};
ghost use Rattle.summing.specs.Inside.{unpacked, tally_of, tallied, one_more, joined_to, taken_into, Small, Within};

use card::Card;
use card::names::{IGAIN, IOFFS, PHASE, VGAIN, VOFFS};
use sample::{Clips, Flow, Inputs, Sums, correct, phase_in_range, scale};
use source::{Multipliers, blend, multipliers_in};

// The five values that a sample needs of its card, and the multipliers of both sources.
#[derive(Clone, Copy)]
pub struct Probe {
    pub voffs: i32,
    pub ioffs: i32,
    pub vgain: i32,
    pub igain: i32,
    pub phase: u16,
    pub a: Multipliers,
    pub b: Multipliers,
}

// The three values of a sample, corrected, and the counts of clipped ones with it. (The inputs stay as wide as their mix is worked in.)
#[derive(Clone, Copy)]
pub struct Three {
    pub v: i32,
    pub s1: i64,
    pub s3: i64,
    pub clips: u64,
}

fn probe_of(c: Card, config: u8) -> Probe
    requires { Phased c }
    ensures { result ≡ probe_of c config }
{
    let f = c.fields;
    let a = multipliers_in(config);
    let b = multipliers_in(config / 16);
    Probe {
        voffs: f[VOFFS],
        ioffs: f[IOFFS],
        vgain: f[VGAIN],
        igain: f[IGAIN],
        phase: f[PHASE] as u16,
        a,
        b,
    }
}

// ((4,096 - phase) times now + phase times previous) / 4,096, rounded down: now comes out of the division whole, and one product is left.
fn mix(phase: u16, now: i64, previous: i64) -> i64
    requires { (mag now < 8388608) × (mag previous < 8388608) }
    ensures { result ≡ mixed phase now previous }
{
    now + number::floor_div(phase as i64 * (previous - now), 12)
}

// Both inputs, each mixed with its previous one.
fn mix_both(p: Probe, x: Three, old1: i64, old3: i64) -> Inputs
    requires { (p.phase ≤ 4095) × Within x × (mag old1 < 8388608) × (mag old3 < 8388608) }
    ensures { result ≡ mixed_both p (record { s1 = x.s1; s3 = x.s3 }) (record { s1 = old1; s3 = old3 }) }
{
    let s1 = mix(p.phase, x.s1, old1);
    let s3 = mix(p.phase, x.s3, old3);
    Inputs {
        s1: s1 as i32,
        s3: s3 as i32,
    }
}

// A sample of corrected voltage v and of a source's current i joins the source's sums.
fn join(f: Flow, v: i32, i: i32) -> Flow
    requires { Flowing f 4096 × (mag v < 8388608) × (mag i < 8388608) }
    ensures { result ≡ joined f v i }
{
    let z = number::size(i as i64) as u32;
    let k = f.peak;
    let mut peak = k;
    if k < z {
        peak = z;
    }
    Flow {
        ii: f.ii + number::square(i),
        vi: f.vi + number::product(v, i),
        peak,
    }
}

// What the loop adds up: as the sums, but the three counts stand in one number, since the machine has few registers: 16 bits and more for each,
// which is at most 4,096. And the raw inputs are left to the end.
#[derive(Clone, Copy)]
pub struct Tally {
    pub vv: u64,
    pub a: Flow,
    pub b: Flow,
    pub clips: u64,
}

fn tally_of(s: Sums) -> Tally
    requires { Few s.clips 4096 }
    ensures { result ≡ tally_of s }
{
    let a = s.a;
    let b = s.b;
    Tally {
        vv: s.vv,
        a,
        b,
        clips: s.clips.v as u64 + s.clips.s1 as u64 * 65536 + s.clips.s3 as u64 * 4294967296,
    }
}

// The counts of a tally.
fn clips_in(n: u64) -> Clips
    ensures { result ≡ unpacked n }
{
    let v = n % 65536;
    let s1 = n / 65536 % 65536;
    let s3 = n / 4294967296;
    Clips {
        v: v as u32,
        s1: s1 as u32,
        s3: s3 as u32,
    }
}

// The sums s after the loop, which has left its tally; raw has the raw inputs of the last sample. (s is lent its place: the loop's invariant
// speaks of the sums that it began with.)
fn sums_after(mut s: Sums, t: Tally, raw: Inputs) -> Sums
    ensures { result ≡ tallied t raw }
{
    let a = t.a;
    let b = t.b;
    let clips = clips_in(t.clips);
    s.vv = t.vv;
    s.a = a;
    s.b = b;
    s.clips = clips;
    s.seen = true;
    s.raw = raw;
    s
}

// The counts with a sample more; v, s1 and s3 say what of it was clipped.
fn count(n: u64, v: bool, s1: bool, s3: bool) -> u64
    requires { n ≤ 4096 * (1 + 65536 + 4294967296) }
    ensures { result ≡ one_more n v s1 s3 }
{
    n + v as u64 + s1 as u64 * 65536 + s3 as u64 * 4294967296
}

// Each value of a sample clipped, and counted where that changed it.
fn clip_each(n: u64, v: i64, s1: i64, s3: i64) -> Three
    requires { n ≤ 4096 * (1 + 65536 + 4294967296) }
    ensures { result ≡ clipped_each n v s1 s3 }
{
    let clips = count(n, !range::holds(v), !range::holds(s1), !range::holds(s3));
    Three {
        v: range::clip(v),
        s1: range::clip(s1) as i64,
        s3: range::clip(s3) as i64,
        clips,
    }
}

// A sample, corrected; n counts those clipped before it. (Most samples lie within the range: one test tells, and nothing is clipped or counted.)
fn correct_all(n: u64, p: Probe, v: i32, s1: i32, s3: i32) -> Three
    requires { n ≤ 4096 * (1 + 65536 + 4294967296) }
    ensures { result ≡ three_of n p (v, record { s1 = s1; s3 = s3 }) }
{
    let x = scale(v, p.voffs, p.vgain);
    let y = scale(s1, p.ioffs, p.igain);
    let z = scale(s3, p.ioffs, p.igain);
    if range::holds(x) & range::holds(y) & range::holds(z) {
        return Three {
            v: x as i32,
            s1: y,
            s3: z,
            clips: n,
        };
    }
    clip_each(n, x, y, z)
}

// v the corrected voltage, ia and ib the sources' currents, clips the counts with this sample.
fn add(t: Tally, v: i32, ia: i32, ib: i32, clips: u64) -> Tally
    requires { Small t × (mag v < 8388608) × (mag ia < 8388608) × (mag ib < 8388608) }
    ensures { result ≡ joined_to t v ia ib clips }
{
    let a = join(t.a, v, ia);
    let b = join(t.b, v, ib);
    Tally {
        vv: t.vv + number::square(v),
        a,
        b,
        clips,
    }
}

// One sample more; old1 and old3 are the previous inputs, corrected, which were counted with their own sample.
fn take(t: Tally, p: Probe, x: Three, old1: i64, old3: i64) -> Tally
    requires { Small t × (p.phase ≤ 4095) × Within x × (mag old1 < 8388608) × (mag old3 < 8388608) }
    ensures { result ≡ taken_into t p x (record { s1 = old1; s3 = old3 }) }
{
    let y = mix_both(p, x, old1, old3);
    let ia = blend(p.a, y.s1, y.s3);
    let ib = blend(p.b, y.s1, y.s3);
    add(t, x.v, ia, ib, x.clips)
}

// Both inputs corrected.
fn correct_both(p: Probe, s1: i32, s3: i32) -> Inputs
    ensures { result ≡ both_of p (record { s1 = s1; s3 = s3 }) }
{
    let x = correct(s1, p.ioffs, p.igain);
    let y = correct(s3, p.ioffs, p.igain);
    Inputs {
        s1: x.value,
        s3: y.value,
    }
}

// The corrected inputs before a sample whose raw inputs are s1 and s3.
fn corrected_before(s: Sums, p: Probe, s1: i32, s3: i32) -> Inputs
    ensures { result ≡ both_of p (previous s (record { s1 = s1; s3 = s3 })) }
{
    if s.seen {
        let raw = s.raw;
        return correct_both(p, raw.s1, raw.s3);
    }
    correct_both(p, s1, s3)
}

// The samples of three slices, one after another; first has the corrected inputs before the first of them.
fn run_with(s0: Sums, p: Probe, first: Inputs, v: &[i32], s1: &[i32], s3: &[i32]) -> Sums
    requires phase_bound { (p.phase ≤ 4095) × Spare s0 (length v.now) × (0 < length v.now) }
    requires v_len { (length v.now ≡ length s1.now) × (length v.now ≡ length s3.now) }
    requires first_value { first ≡ both_of p (previous s0 (record { s1 = get_or s1.now 0 (pos 0); s3 = get_or s3.now 0 (pos 0) })) }
    ensures { result ≡ probed_all p s0 (samples_in v.now s1.now s3.now) }
{
    let mut old1 = first.s1 as i64;
    let mut old3 = first.s3 as i64;
    let mut t = tally_of(s0);
    for k in 0..v.len() {
        let x = correct_all(t.clips, p, v[k], s1[k], s3[k]);
        t = take(t, p, x, old1, old3);
        old1 = x.s1;
        old3 = x.s3;
    }
    let last = v.len() - 1;
    let raw = Inputs {
        s1: s1[last],
        s3: s3[last],
    };
    sums_after(s0, t, raw)
}

// The samples of three slices, one after another.
fn run(s0: Sums, c: Card, config: u8, v: &[i32], s1: &[i32], s3: &[i32]) -> Sums
    requires { Phased c × Spare s0 (length v.now) × (length v.now ≡ length s1.now) × (length v.now ≡ length s3.now) }
    ensures { result ≡ added_all c config s0 (samples_in v.now s1.now s3.now) }
{
    if v.len() == 0 {
        return s0;
    }
    let p = probe_of(c, config);
    let first = corrected_before(s0, p, s1[0], s3[0]);
    run_with(s0, p, first, v, s1, s3)
}

// The samples of three slices join the sums of n samples; where a sum could pass 64 bits, nothing joins.
pub fn with_samples(s: Sums, n: u32, c: Card, config: u8, v: &[i32], s1: &[i32], s3: &[i32]) -> Sums
    ensures { result ≡ with_samples n c config s v.now s1.now s3.now }
{
    if (v.len() == s1.len()) & (v.len() == s3.len()) {
        if v.len() <= 4096 {
            if (n as usize <= 4096 - v.len()) & s.of_at_most(n) & phase_in_range(c) {
                return run(s, c, config, v, s1, s3);
            }
        }
    }
    s
}
