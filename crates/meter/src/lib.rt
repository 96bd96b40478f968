// Samples into intervals: the start, the card that comes into force, and a block.
#![tactic(auto)]

ghost use Rattle.std.specs.Prelude.{◌≡◌, true, ◌&&◌, ◌+◌, ◌-◌, ◌≤◌, ◌<◌, min, length};
ghost use Rattle.sample.specs.Sample.{every24};
ghost use Rattle.sample.specs.Sums.{samples_in, same_length};
ghost use Rattle.meter.specs.Core.{with_sums, closed_work};
ghost use Rattle.steps.specs.Answers.{answer_of};
ghost use Rattle.alarm.specs.Alarms.{both};
ghost use Rattle.meter.specs.Blocks.{sound_of, carded, wait_of, block_of, volts_of};
ghost use Rattle.meter.specs.Inside.{begun_of, end_of, stretch_of, fed_of, card_behind, turn_of, passed_of, volts_passed};
ghost use Rattle.meter.specs.Starting.{fresh_of, lowest_meter, starting};

use address::WordAddr;
use alarm::Watch;
use card::Card;
use interval::{Closed, Settings};
use refusal::Refusal;
use sample::{Sums, phase_in_range};
use serial::Serial;

// What outlives an interval, with the sums of the one that runs. any: whether any interval has; last: the one that closed last.
#[derive(Clone, Copy)]
pub struct Work {
    pub settings: Settings,
    pub sums: Sums,
    pub any: bool,
    pub last: Closed,
}

// waiting counts only while `waits`, force only once `forced`. taken: samples of the running interval.
#[derive(Clone, Copy)]
pub struct Meter {
    pub waits: bool,
    pub waiting: Card,
    pub forced: bool,
    pub force: Card,
    pub taken: u32,
    pub work: Work,
}

// Meter and watch after a block.
#[derive(Clone, Copy)]
pub struct Fed {
    pub meter: Meter,
    pub watch: Watch,
}

impl Work {
    fn with_sums(mut self, s: Sums) -> Work
        ensures { result ≡ with_sums self s }
    {
        self.sums = s;
        self
    }

    // The interval closes, worked with one card.
    fn closed(mut self, c: Card) -> Work
        ensures { result ≡ closed_work c self }
    {
        let sums = self.sums;
        let last = self
            .last
            .next(!self.any, self.settings, c, sums, self.settings.n);
        let none = sums.emptied();
        self.sums = none;
        self.any = true;
        self.last = last;
        self
    }
}

impl Meter {
    // At an interval's first sample a card that waits comes into force.
    fn begun(mut self) -> Meter
        ensures { result ≡ begun_of self }
    {
        if self.taken == 0 {
            if self.waits {
                let c = self.waiting;
                self.waits = false;
                self.forced = true;
                self.force = c;
            }
        }
        self
    }

    // The running interval has n samples, with the sums of w; the last of N closes it.
    fn ended(mut self, n: u32, mut w: Work) -> Meter
        ensures { result ≡ end_of n w self }
    {
        let full = n == w.settings.n;
        self.taken = n;
        if full {
            w = w.closed(self.force);
            self.taken = 0;
        }
        self.work = w;
        self
    }

    // Samples of one interval.
    fn stretch(self, v: &[i32], s1: &[i32], s3: &[i32]) -> Meter
        requires self_value { (sound_of self ≡ true) × (same_length v.now s1.now s3.now ≡ true) }
        requires v_bound { self.taken + length v.now ≤ self.work.settings.n }
        ensures { result ≡ stretch_of self (samples_in v.now s1.now s3.now) }
    {
        let m = self.begun();
        let s = summing::with_samples(
            m.work.sums,
            self.taken,
            m.force,
            m.work.settings.config,
            v,
            s1,
            s3,
        );
        let w = m.work.with_sums(s);
        m.ended(self.taken + v.len() as u32, w)
    }

    // How far the running interval reaches, from `at` and at most to `end`.
    fn reach(self, at: usize, end: usize) -> usize
        requires { (sound_of self ≡ true) × (at < end) }
        ensures { result ≡ min end (at + (self.work.settings.n - self.taken)) }
    {
        let room = (self.work.settings.n - self.taken) as usize;
        if end - at < room { end } else { at + room }
    }

    // The samples of three slices, interval by interval.
    fn feed(mut self, v: &[i32], s1: &[i32], s3: &[i32]) -> Meter
        requires { (sound_of self ≡ true) × (same_length v.now s1.now s3.now ≡ true) }
        ensures { result ≡ fed_of self (samples_in v.now s1.now s3.now) }
    {
        let mut at: usize = 0;
        while at < v.len() {
            let to = self.reach(at, v.len());
            self = self.stretch(&v[at..to], &s1[at..to], &s3[at..to]);
            at = to;
        }
        self
    }

    // Whether no sum of the running interval can overflow.
    fn sound(self) -> bool
        ensures { result ≡ sound_of self }
    {
        let fits = self.work.sums.of_at_most(self.taken);
        let a = phase_in_range(self.waiting);
        let b = phase_in_range(self.force);
        (self.work.settings.n <= 4096) & (self.taken < self.work.settings.n) & fits & a & b
    }

    // Whether a card is in force or waits.
    fn has_card(self) -> bool
        ensures { result ≡ carded self }
    {
        if self.sound() {
            return self.waits | self.forced;
        }
        false
    }

    // The card waits, replacing any that waits.
    pub fn wait(mut self, c: Card) -> Meter
        ensures { result ≡ wait_of c self }
    {
        self.waits = true;
        self.waiting = c;
        self
    }

    // The card of the next interval.
    fn card_behind(self) -> Card
        ensures { result ≡ card_behind self }
    {
        if self.waits { self.waiting } else { self.force }
    }

    // How many samples come before the next interval begins.
    fn turn(self) -> usize
        requires { sound_of self ≡ true }
        ensures { result ≡ turn_of self }
    {
        if 0 < self.taken {
            return (self.work.settings.n - self.taken) as usize;
        }
        0
    }

    // The samples pass the watch, and are fed: 18. The watch is told once where the card changes, so that its voltages are not copied.
    fn pass(
        self,
        a: Watch,
        volts: &mut [i32; 512],
        v: &[i32],
        s1: &[i32],
        s3: &[i32],
    ) -> Result<Fed, Refusal>
        requires { same_length v.now s1.now s3.now ≡ true }
        ensures value { answer_of result ≡ passed_of self (both a volts.old) v.now s1.now s3.now }
        ensures volts_after { volts.new ≡ volts_passed self (both a volts.old) v.now s1.now s3.now }
    {
        if !self.has_card() {
            return Err(Refusal::NoCardYet);
        }
        let next = self.card_behind();
        let Some(watch) = halfcycle::pass(a, volts, self.force, next, self.turn(), v) else {
            return Err(Refusal::NoCardYet);
        };
        let meter = self.feed(v, s1, s3);
        Ok(Fed { meter, watch })
    }

    // A block of samples, voltage and both inputs: 5, 6, 18. volts has the last voltages of the watch.
    pub fn block(
        self,
        a: Watch,
        volts: &mut [i32; 512],
        v: &[i32],
        s1: &[i32],
        s3: &[i32],
    ) -> Result<Fed, Refusal>
        ensures value { answer_of result ≡ block_of self (both a volts.old) v.now s1.now s3.now }
        ensures volts_after { volts.new ≡ volts_of self (both a volts.old) v.now s1.now s3.now }
    {
        let n = v.len();
        let fits = (n == s1.len()) & (n == s3.len()) & (n <= 4096);
        if !fits {
            return Err(Refusal::BlockSize);
        }
        if !all_three(v, s1, s3) {
            return Err(Refusal::SampleRange);
        }
        self.pass(a, volts, v, s1, s3)
    }
}

// Whether every sample of three slices is in the 24-bit range.
fn all_three(v: &[i32], s1: &[i32], s3: &[i32]) -> bool
    ensures { result ≡ every24 v.now && every24 s1.now && every24 s3.now }
{
    let a = sample::all_in_range(v);
    let b = sample::all_in_range(s1);
    let c = sample::all_in_range(s3);
    a & b & c
}

// No card, no interval, counts and remainders 0.
fn fresh(n: u32, b: u64, track: [WordAddr; 6], config: u8) -> Meter
    ensures { result ≡ fresh_of n b track config }
{
    let none = Card {
        serial: Serial::none(),
        fields: [0; 8],
    };
    Meter {
        waits: false,
        waiting: none,
        forced: false,
        force: none,
        taken: 0,
        work: Work {
            settings: Settings {
                n,
                b,
                track,
                config,
            },
            sums: Sums::none(),
            any: false,
            last: Closed::none(),
        },
    }
}

// N 1, B 1, all slots off, configuration 0.
pub fn lowest() -> Meter
    ensures { result ≡ lowest_meter }
{
    fresh(1, 1, [WordAddr(0); 6], 0)
}

// A start with N, B, the six words to track and the configuration: 7.
pub fn start(n: i64, b: i64, track: [WordAddr; 6], config: i64) -> Result<Meter, Refusal>
    ensures { answer_of result ≡ starting n b track config }
{
    let slots = address::all_slots(track);
    let board = (0 <= config) & (config <= 255);
    if (1 <= n) & (n <= 4096) & (1 <= b) & (b <= 281474976710655) & slots & board {
        return Ok(fresh(n as u32, b as u64, track, config as u8));
    }
    Err(Refusal::StartRange)
}
