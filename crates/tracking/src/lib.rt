// Minima and maxima of the six tracked slots.
#![tactic(auto)]

ghost use Rattle.std.specs.Prelude.{◌≡◌};
ghost use Rattle.tracking.specs.Tracking.{tracked, further, followed};

use address::{WordAddr, place_of};

// What each slot has followed.
#[derive(Clone, Copy, Debug, PartialEq, Eq)]
pub struct Ends {
    pub low: [i32; 6],
    pub high: [i32; 6],
}

// At the first closed interval its value, then the one that lies further out.
fn further(first: bool, beyond: bool, now: i32, old: i32) -> i32
    ensures { result ≡ further first beyond now old }
{
    if first | beyond { now } else { old }
}

// The value that a slot tracks; of a slot that is off, 0.
fn tracked_of(word: WordAddr, seven: [i32; 7]) -> i32
    ensures { result ≡ tracked word seven }
{
    match place_of(word) {
        Some(k) => seven[k],
        None => 0,
    }
}

impl Ends {
    // What the slots have followed after one interval more, of whose seven registers each tracks one; first: whether it is the first that closed.
    pub fn follow(self, first: bool, track: [WordAddr; 6], seven: [i32; 7]) -> Ends
        ensures { result ≡ followed first track seven self }
    {
        let mut low = self.low;
        let mut high = self.high;
        for k in 0..6 {
            let x = tracked_of(track[k], seven);
            let l = low[k];
            let h = high[k];
            low[k] = further(first, x < l, x, l);
            high[k] = further(first, h < x, x, h);
        }
        Ends { low, high }
    }
}
