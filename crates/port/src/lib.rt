// What a hold leaves on its port, and what a read answers from it.
#![tactic(auto)]

ghost use Rattle.std.specs.Prelude.{◌≡◌, ◌<◌, pos, get_or};
ghost use Rattle.steps.specs.Answers.{answer_of};
ghost use Rattle.address.specs.Addresses.{rows};
ghost use Rattle.port.specs.Holds.{nothing_held, copied};
ghost use Rattle.port.specs.Reading.{shown_of, registers, slot_off, look};

use address::{ByteAddr, WordAddr};
use interval::{Closed, Registers, Source};
use refusal::Refusal;

// An interval as it was closed last when the port held, with the words that its slots track. any: whether anything is held; where not, all is
// blank.
#[derive(Clone, Copy)]
pub struct Held {
    pub any: bool,
    pub closed: Closed,
    pub track: [WordAddr; 6],
}

// Where IB_RMS, MIN1 and MAX1 stand in the table.
const IB_RMS: usize = 9;

const MIN1: usize = 17;

const MAX1: usize = 23;

// Whether the register at place k of the table is the MIN or MAX of a slot that is off.
fn slot_off(track: [WordAddr; 6], k: usize) -> bool
    ensures { result ≡ slot_off track k }
{
    if k < MIN1 {
        return false;
    }
    let w = track[(k - MIN1) % 6];
    w.0 == 0
}

// The value at place k of six.
fn of_six(six: [i32; 6], k: usize) -> i64
    requires { k < 6 }
    ensures { result ≡ get_or six k (pos 0) }
{
    six[k] as i64
}

// The register at place k of the eight of a source.
fn shown(s: Source, k: usize) -> i64
    requires { k < 8 }
    ensures { result ≡ get_or (shown_of s) k (pos 0) }
{
    if k < 6 {
        let figures = s.figures;
        return of_six(figures, k);
    }
    if k == 6 {
        return s.plus.count as i64;
    }
    s.minus.count as i64
}

// The register at place k of the table.
fn register(r: Registers, k: usize) -> i64
    requires { k < rows }
    ensures { result ≡ get_or (registers r) k (pos 0) }
{
    if k == 0 {
        return r.vrms as i64;
    }
    if k < IB_RMS {
        return shown(r.a, k - 1);
    }
    if k < MIN1 {
        return shown(r.b, k - IB_RMS);
    }
    if k < MAX1 {
        let low = r.ends.low;
        return of_six(low, k - MIN1);
    }
    let high = r.ends.high;
    of_six(high, k - MAX1)
}

impl Held {
    // Where nothing is held, all is blank.
    pub fn nothing() -> Held
        ensures { result ≡ nothing_held }
    {
        Held {
            any: false,
            closed: Closed::none(),
            track: [WordAddr(0); 6],
        }
    }

    // Hold: 14. All registers as they stood at the last close, and what the slots track; `any`: whether an interval has closed.
    pub fn copy(any: bool, last: Closed, track: [WordAddr; 6]) -> Result<Held, Refusal>
        ensures { answer_of result ≡ copied any last track }
    {
        if any {
            return Ok(Held {
                any: true,
                closed: last,
                track,
            });
        }
        Err(Refusal::NoInterval)
    }

    // Read byte address: 15, 16, 17.
    pub fn look(self, address: ByteAddr) -> Result<i64, Refusal>
        ensures { answer_of result ≡ look self address }
    {
        if !self.any {
            return Err(Refusal::NothingHeld);
        }
        let k = address::register_of(address).ok_or(Refusal::NoRegister)?;
        if slot_off(self.track, k) {
            return Err(Refusal::SlotOff);
        }
        Ok(register(self.closed.regs, k))
    }
}
