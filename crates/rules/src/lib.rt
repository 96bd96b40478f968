// The registers' rules at the close of an interval.
#![tactic(auto)]

ghost use Rattle.std.specs.Prelude.{◌≡◌, ◌≤◌, ◌*◌, nat_abs};
ghost use Rattle.range.specs.Range.{capped};
ghost use Rattle.rules.specs.Rules.{rms, below_squelch, active_of, apparent_of, factor_of, crest_of};
ghost use Rattle.sample.specs.Fields.{squelch, poffs};
ghost use Rattle.rules.specs.Source.{vrms_of, current_root, ipeak_of, six, figures_of};

use card::Card;
use card::names::{IRMSOFFS, POFFS, SQUELCH};
use sample::Flow;

// The place of P among the six figures.
pub const WATT: usize = 2;

// The root of the mean square less a square. No samples have the root 0.
fn root_mean_square(sum: u64, n: u32, less: u64) -> u32
    ensures { result ≡ rms sum n less }
{
    if n == 0 {
        return 0;
    }
    let mean = sum / (n as u64);
    if mean <= less {
        return 0;
    }
    range::cap(root::root(mean - less))
}

fn active(sum: i64, n: u32, poffs: i32) -> i32
    ensures { result ≡ active_of sum n (nat_abs poffs) }
{
    let p = range::clip(number::toward_zero(sum, n as u64 * 8388608));
    number::lessen(p as i64, number::size(poffs as i64)) as i32
}

fn apparent(v: u32, i: u32) -> u64
    ensures { result ≡ apparent_of v i }
{
    (v as u64) * (i as u64) / 8388608
}

fn factor(p: i32, s: u32) -> i32
    ensures { result ≡ factor_of p s }
{
    if s == 0 {
        return 0;
    }
    let q = number::toward_zero(p as i64 * 4194304, s as u64);
    range::held_within(q, -4194304, 4194304) as i32
}

fn crest(peak: u32, irms: u32) -> u32
    ensures { result ≡ crest_of peak irms }
{
    if irms == 0 {
        return 0;
    }
    range::cap((peak as u64) * 65536 / (irms as u64))
}

// VRMS, of the sum of the voltage squares.
pub fn vrms(vv: u64, n: u32) -> u32
    ensures { result ≡ vrms_of vv n }
{
    root_mean_square(vv, n, 0)
}

// The root of the current.
fn current_root(c: Card, f: Flow, n: u32) -> u32
    ensures { result ≡ current_root c f n }
{
    let x = c.fields;
    root_mean_square(f.ii, n, number::square(x[IRMSOFFS]))
}

// Whether that root is below the card's SQUELCH.
fn below_squelch(c: Card, root: u32) -> bool
    ensures { result ≡ below_squelch (squelch c) root }
{
    let x = c.fields;
    (root as u64) < number::size(x[SQUELCH] as i64)
}

// P where the interval is not squelched.
fn active_power(c: Card, f: Flow, n: u32) -> i32
    ensures { result ≡ active_of f.vi n (poffs c) }
{
    let x = c.fields;
    active(f.vi, n, x[POFFS])
}

fn ipeak(f: Flow) -> u32
    ensures { result ≡ ipeak_of f }
{
    range::cap(f.peak as u64)
}

// The six figures in the table's order. What is at most 8,388,607 fits a register.
fn lay(v: u32, i: u32, peak: u32, p: i32) -> [i32; 6]
    requires { (v ≤ 8388607) × (i ≤ 8388607) × (peak ≤ 8388607) }
    ensures { result ≡ six v i peak p }
{
    let s = apparent(v, i) as u32;
    let f = factor(p, s);
    let c = crest(peak, i);
    [i as i32, peak as i32, p, s as i32, f, c as i32]
}

// The figures of one current source; v is VRMS, and a number larger than any VRMS counts as the largest.
pub fn figures(c: Card, v: u32, f: Flow, n: u32) -> [i32; 6]
    ensures { result ≡ figures_of c (capped v) f n }
{
    let volts = range::cap(v as u64);
    let root = current_root(c, f, n);
    let peak = ipeak(f);
    let p = active_power(c, f, n);
    if below_squelch(c, root) {
        return lay(volts, 0, peak, 0);
    }
    lay(volts, root, peak, p)
}
