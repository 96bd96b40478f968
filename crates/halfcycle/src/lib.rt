// The half cycle: the last W corrected voltages with the sum of their squares, and what they make of the alarms.
#![tactic(auto)]

ghost use Rattle.std.specs.Prelude.{◌≡◌, ◌&&◌, ◌+◌, ◌*◌, ◌^◌, ◌≤◌, ◌<◌, min, eqb, length};
ghost use Rattle.std.specs.Int.Signed.{mag};
ghost use Rattle.number.specs.Sign.{square_of};
ghost use Rattle.sample.specs.Sample.{every24};
ghost use Rattle.alarm.specs.Alarms.{both};
ghost use Rattle.halfcycle.specs.Passing.{squares, seen_all, watch_sound, pass_of, volts_after};
ghost use Rattle.halfcycle.specs.Inside.{swing, moved_by, swept, swept_all, levels_of, track_of, Kept, Ranged, Good, Uniform};

use alarm::{Alarms, Limits, Watch};
use card::Card;
use card::names::{VGAIN, VOFFS};
use sample::correct;

// What a voltage of one card is worked with.
#[derive(Clone, Copy, Debug, PartialEq, Eq)]
pub struct Track {
    pub voffs: i32,
    pub vgain: i32,
    pub w: usize,
}

// What the loop keeps beside the voltages: the place of the oldest, the sum, and the least and the greatest that it was after a voltage.
#[derive(Clone, Copy, Debug, PartialEq, Eq)]
pub struct Sweep {
    pub at: usize,
    pub sum: u64,
    pub least: u64,
    pub most: u64,
}

// A voltage has taken the place of the oldest, of w.
fn moved(t: Sweep, w: usize, new: i32, old: i32) -> Sweep
    requires { (t.at < 512) × (t.sum ≤ 512 * 2 ^ 46) × (mag new < 8388608) × (square_of old ≤ t.sum) }
    ensures { result ≡ moved_by w t new old }
{
    let sum = t.sum + number::square(new) - number::square(old);
    let next = t.at + 1;
    Sweep {
        at: if next == w { 0 } else { next },
        sum,
        least: if sum < t.least { sum } else { t.least },
        most: if sum < t.most { t.most } else { sum },
    }
}

// A raw voltage, corrected, takes the place of the oldest.
fn step_on(volts: &mut [i32; 512], t: Sweep, p: Track, raw: i32) -> Sweep
    requires { Kept p.w t.at t.sum volts.old }
    ensures { swing result volts.new ≡ swept p (swing t volts.old) raw }
{
    let x = correct(raw, p.voffs, p.vgain);
    let at = t.at;
    let old = volts[at];
    let new = x.value;
    volts[at] = new;
    moved(t, p.w, new, old)
}

// Voltages, one after another. (Two a turn are quicker than one; with four the compiler would clip by a branch.)
fn slide(volts: &mut [i32; 512], s: Sweep, p: Track, v: &[i32]) -> Sweep
    requires { Kept p.w s.at s.sum volts.old }
    ensures { swing result volts.new ≡ swept_all p (swing s volts.old) v.now }
{
    let mut t = s;
    let mut k: usize = 0;
    while k < v.len() - v.len() % 2 {
        t = step_on(volts, t, p, v[k]);
        t = step_on(volts, t, p, v[k + 1]);
        k += 2;
    }
    if k < v.len() {
        return step_on(volts, t, p, v[k]);
    }
    t
}

// W times a level squared.
fn level_of(w: u32, level: u32) -> u64
    requires { (w ≤ 512) × (level ≤ 8388607) }
    ensures { result ≡ w * (level * level) }
{
    w as u64 * (level as u64 * level as u64)
}

// What the sum is compared with; full: W were seen. Else, and where a level is off, what no sum is below or above.
#[derive(Clone, Copy, Debug, PartialEq, Eq)]
pub struct Levels {
    pub low: u64,
    pub high: u64,
}

fn levels_of(t: Limits, full: bool) -> Levels
    requires { Ranged t }
    ensures { result ≡ levels_of t full }
{
    let low = if full { level_of(t.w, t.vsag) } else { 0 };
    let high = if full & (0 < t.vsurge) {
        level_of(t.w, t.vsurge)
    } else {
        18446744073709551615
    };
    Levels { low, high }
}

fn track_of(c: Card, w: u32) -> Track
    ensures { result ≡ track_of c w }
{
    let f = c.fields;
    Track {
        voffs: f[VOFFS],
        vgain: f[VGAIN],
        w: w as usize,
    }
}

// How many were seen, at most w, after n more.
fn seen_after(w: u32, seen: u32, n: usize) -> u32
    requires { (seen ≤ w) × (w ≤ 512) }
    ensures { result ≡ min w (seen + n) }
{
    if n < (w - seen) as usize {
        seen + n as u32
    } else {
        w
    }
}

// Voltages of one card; full: W were seen after each of them, or else after none.
fn part(a: Watch, volts: &mut [i32; 512], c: Card, full: bool, v: &[i32]) -> Watch
    requires { Good a volts.old × Uniform full a (length v.now) }
    ensures { both result volts.new ≡ seen_all c (both a volts.old) v.now }
{
    if v.len() == 0 {
        return a;
    }
    let limits = a.limits;
    let p = track_of(c, limits.w);
    let s = Sweep {
        at: a.at as usize,
        sum: a.sum,
        least: 18446744073709551615,
        most: 0,
    };
    let t = slide(volts, s, p, v);
    let seen = seen_after(limits.w, a.seen, v.len());
    let l = levels_of(limits, full);
    let alarms = Alarms {
        sag: (limits.sticky.sag & (a.alarms.sag | (t.least < l.low))) | (t.sum < l.low),
        surge: (limits.sticky.surge & (a.alarms.surge | (l.high < t.most))) | (l.high < t.sum),
    };
    Watch {
        limits,
        at: t.at as u32,
        seen,
        sum: t.sum,
        alarms,
    }
}

// Voltages of one card: those before W are seen, and those from there on.
fn see(a: Watch, volts: &mut [i32; 512], c: Card, v: &[i32]) -> Watch
    requires { Good a volts.old }
    ensures { both result volts.new ≡ seen_all c (both a volts.old) v.now }
{
    let left = (a.limits.w - a.seen) as usize;
    if left == 0 {
        return part(a, volts, c, true, v);
    }
    if v.len() < left {
        return part(a, volts, c, false, v);
    }
    let blank = left - 1;
    let b = part(a, volts, c, false, &v[..blank]);
    part(b, volts, c, true, &v[blank..])
}

// Whether the sum is that of the squares of the voltages, all of the 24-bit range: one pass.
fn is_sum(sum: u64, volts: &[i32]) -> bool
    requires { length volts.now ≡ 512 }
    ensures { result ≡ (every24 volts.now && eqb sum (squares volts.now)) }
{
    let mut total: u64 = 0;
    for x in volts {
        if !range::in_range(*x) {
            return false;
        }
        total += number::square(*x);
    }
    sum == total
}

// Whether no number can overflow, and the sum is that of the voltages. What steps make is so.
fn sound(a: Watch, volts: &[i32]) -> bool
    requires { length volts.now ≡ 512 }
    ensures { result ≡ watch_sound (both a volts.now) }
{
    let t = a.limits;
    let kept = is_sum(a.sum, volts);
    (t.w <= 512)
        & (a.at < t.w)
        & (a.seen <= t.w)
        & (t.vsag <= 8388607)
        & (t.vsurge <= 8388607)
        & kept
}

// The watch after the voltages of a block: the first `turn` of them with one card, the others with the next. None where no steps have made it: then
// nothing is seen.
pub fn pass(
    a: Watch,
    volts: &mut [i32; 512],
    c: Card,
    next: Card,
    turn: usize,
    v: &[i32],
) -> Option<Watch>
    ensures value { result ≡ pass_of c next turn (both a volts.old) v.now }
    ensures volts_after { volts.new ≡ volts_after c next turn (both a volts.old) v.now }
{
    if sound(a, volts) {
        if turn < v.len() {
            let b = see(a, volts, c, &v[..turn]);
            let watch = see(b, volts, next, &v[turn..]);
            return Some(watch);
        }
        let watch = see(a, volts, c, v);
        return Some(watch);
    }
    None
}
