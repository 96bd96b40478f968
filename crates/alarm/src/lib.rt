// Sag and surge: what a start asks for, the two alarms with what they are worked from, and a reset.
#![tactic(auto)]

ghost use Rattle.std.specs.Prelude.{◌≡◌, true};
ghost use Rattle.steps.specs.Answers.{answer_of};
ghost use Rattle.alarm.specs.Masks.{only_alarms, named_by};
ghost use Rattle.alarm.specs.Alarms.{clearing};
ghost use Rattle.alarm.specs.Starting.{asked_ok, limits_in, fresh_watch, lowest_watch, starting};

use refusal::Refusal;

// A set of the two alarms: those that are set, those that stay set, those that a reset names.
#[derive(Clone, Copy)]
pub struct Alarms {
    pub sag: bool,
    pub surge: bool,
}

// What a start asks for: W, the samples in half a cycle; VSAG and VSURGE, 0 is off; the mask of the alarms that stay set.
#[derive(Clone, Copy)]
pub struct Asked {
    pub w: i64,
    pub vsag: i64,
    pub vsurge: i64,
    pub sticky: i64,
}

// The same, in range.
#[derive(Clone, Copy)]
pub struct Limits {
    pub w: u32,
    pub vsag: u32,
    pub vsurge: u32,
    pub sticky: Alarms,
}

// The last W corrected voltages stand apart, in an array of 512. at: the place of the oldest, where the next one goes; seen: how many came, at
// most W; sum: of their squares.
#[derive(Clone, Copy)]
pub struct Watch {
    pub limits: Limits,
    pub at: u32,
    pub seen: u32,
    pub sum: u64,
    pub alarms: Alarms,
}

// Not below 0, and no bit but 21, VA_SAG, and 9, VA_SURGE.
fn only_alarms(mask: i64) -> bool
    ensures { result ≡ only_alarms mask }
{
    let m = number::size(mask);
    (0 <= mask) & (m == m / 2097152 % 2 * 2097152 + m / 512 % 2 * 512)
}

// The alarms that a mask names.
fn named_by(mask: i64) -> Alarms
    ensures { result ≡ named_by mask }
{
    let m = number::size(mask);
    Alarms {
        sag: m / 2097152 % 2 == 1,
        surge: m / 512 % 2 == 1,
    }
}

// Nothing seen, no alarm.
fn fresh(limits: Limits) -> Watch
    ensures { result ≡ fresh_watch limits }
{
    Watch {
        limits,
        at: 0,
        seen: 0,
        sum: 0,
        alarms: Alarms {
            sag: false,
            surge: false,
        },
    }
}

// W 1, both levels 0, no alarm stays set.
pub fn lowest() -> Watch
    ensures { result ≡ lowest_watch }
{
    fresh(Limits {
        w: 1,
        vsag: 0,
        vsurge: 0,
        sticky: Alarms {
            sag: false,
            surge: false,
        },
    })
}

impl Asked {
    // Whether W and both levels are in range, and the mask names alarms alone.
    fn ok(self) -> bool
        ensures { result ≡ asked_ok self }
    {
        (1 <= self.w)
            & (self.w <= 512)
            & (0 <= self.vsag)
            & (self.vsag <= 8388607)
            & (0 <= self.vsurge)
            & (self.vsurge <= 8388607)
            & only_alarms(self.sticky)
    }

    fn limits(self) -> Limits
        requires { asked_ok self ≡ true }
        ensures { result ≡ limits_in self }
    {
        Limits {
            w: self.w as u32,
            vsag: self.vsag as u32,
            vsurge: self.vsurge as u32,
            sticky: named_by(self.sticky),
        }
    }
}

// A start with what is asked for: 7.
pub fn start(asked: Asked) -> Result<Watch, Refusal>
    ensures { answer_of result ≡ starting asked }
{
    if asked.ok() {
        return Ok(fresh(asked.limits()));
    }
    Err(Refusal::StartRange)
}

impl Watch {
    // Clears the alarms that the mask names: 12.
    pub fn reset(mut self, mask: i64) -> Result<Watch, Refusal>
        ensures { answer_of result ≡ clearing self mask }
    {
        if !only_alarms(mask) {
            return Err(Refusal::ValueRange);
        }
        let named = named_by(mask);
        self.alarms = Alarms {
            sag: self.alarms.sag & !named.sag,
            surge: self.alarms.surge & !named.surge,
        };
        Ok(self)
    }
}
