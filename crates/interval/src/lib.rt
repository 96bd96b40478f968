// The close of an interval.
#![tactic(auto)]

ghost use Rattle.std.specs.Prelude.{◌≡◌};
ghost use Rattle.range.specs.Range.{capped};
ghost use Rattle.energy.specs.Energies.{advanced};
ghost use Rattle.interval.specs.Close.{with_plus, with_minus, source_after, seven_of, registers_after, closed_of, no_source, none_closed};

use address::WordAddr;
use card::Card;
use energy::Energy;
use rules::WATT;
use sample::{Clips, Flow, Sums};
use serial::Serial;
use tracking::Ends;

// n: samples per interval; b: the bucket; track: the words that the six slots track; config: what the sources are made of.
#[derive(Clone, Copy)]
pub struct Settings {
    pub n: u32,
    pub b: u64,
    pub track: [WordAddr; 6],
    pub config: u8,
}

// The results of one current source. figures: RMS, peak, active and apparent power, power factor, crest.
#[derive(Clone, Copy)]
pub struct Source {
    pub figures: [i32; 6],
    pub plus: Energy,
    pub minus: Energy,
}

// vrms is the board's; a and b are the sources IA and IB.
#[derive(Clone, Copy)]
pub struct Registers {
    pub vrms: i32,
    pub a: Source,
    pub b: Source,
    pub ends: Ends,
}

// An interval that has closed; serial is that of the card it was worked with, clips counts of its own samples.
#[derive(Clone, Copy)]
pub struct Closed {
    pub number: u32,
    pub serial: Serial,
    pub clips: Clips,
    pub regs: Registers,
}

impl Source {
    // Before any interval has closed.
    fn none() -> Source
        ensures { result ≡ no_source }
    {
        let nothing = Energy {
            count: 0,
            remainder: 0,
        };
        Source {
            figures: [0; 6],
            plus: nothing,
            minus: nothing,
        }
    }

    // Its record of energy taken in is lent, and advanced where it lies.
    fn join_plus(self, amount: u64, bucket: u64) -> Source
        ensures { result ≡ with_plus self (advanced self.plus amount bucket) }
    {
        let mut x = self;
        energy::advance(&mut x.plus, amount, bucket);
        x
    }

    // Its record of energy given back is lent, and advanced where it lies.
    fn join_minus(self, amount: u64, bucket: u64) -> Source
        ensures { result ≡ with_minus self (advanced self.minus amount bucket) }
    {
        let mut x = self;
        energy::advance(&mut x.minus, amount, bucket);
        x
    }

    // The source after an interval of n samples; v is VRMS. Its energy joins the record of its sign, and none if it is 0.
    pub(crate) fn after(self, c: Card, v: u32, f: Flow, n: u32, b: u64) -> Source
        ensures { result ≡ source_after c (capped v) f n b self }
    {
        let figures = rules::figures(c, v, f, n);
        let p = figures[WATT];
        let plus = self.plus;
        let minus = self.minus;
        let s = Source {
            figures,
            plus,
            minus,
        };
        let more = energy::amount(p, n);
        if 0 < p {
            return s.join_plus(more, b);
        }
        if p < 0 {
            return s.join_minus(more, b);
        }
        s
    }
}

// The seven that can be tracked.
fn seven_of(v: i32, f: [i32; 6]) -> [i32; 7]
    ensures { result ≡ seven_of v f }
{
    [v, f[0], f[1], f[2], f[3], f[4], f[5]]
}

impl Registers {
    // The registers after an interval of n samples.
    pub(crate) fn after(self, first: bool, t: Settings, c: Card, s: Sums, n: u32) -> Registers
        ensures { result ≡ registers_after first t c s n self }
    {
        let volts = rules::vrms(s.vv, n);
        let v = volts as i32;
        let a = self.a.after(c, volts, s.a, n, t.b);
        let b = self.b.after(c, volts, s.b, n, t.b);
        let figures = a.figures;
        let seven = seven_of(v, figures);
        let ends = self.ends;
        let track = t.track;
        let e = ends.follow(first, track, seven);
        Registers {
            vrms: v,
            a,
            b,
            ends: e,
        }
    }
}

impl Closed {
    // Before any interval has closed.
    pub fn none() -> Closed
        ensures { result ≡ none_closed }
    {
        let serial = Serial::none();
        let nothing = Source::none();
        Closed {
            number: 0,
            serial,
            clips: Clips::unclipped(),
            regs: Registers {
                vrms: 0,
                a: nothing,
                b: nothing,
                ends: Ends {
                    low: [0; 6],
                    high: [0; 6],
                },
            },
        }
    }

    // The interval that closes next, of n samples.
    pub fn next(self, first: bool, t: Settings, c: Card, s: Sums, n: u32) -> Closed
        ensures { result ≡ closed_of first t c s n self }
    {
        let old = self.regs;
        let regs = old.after(first, t, c, s, n);
        let serial = c.serial;
        let clips = s.clips;
        Closed {
            number: self.number.wrapping_add(1),
            serial,
            clips,
            regs,
        }
    }
}
