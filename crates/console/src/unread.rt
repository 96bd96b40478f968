// Why a line is not read.
ghost use Rattle.std.specs.Prelude.{◌≡◌, ◌≤◌, length, drop};
ghost use Rattle.serial.specs.Ascii.{ascii};
ghost use Rattle.console.specs.Unread.{why_words, not_a, stopped_before, slice_stopped, packet_stopped};
ghost use Rattle.console.specs.Words.{items_of};

use super::words::{Kind, Word, arity, kind_at};

#[derive(Clone, Copy)]
pub enum Why {
    TooLong,
    NoStep,
    Missing,
    NotNumber,
    NotField,
    NotRegister,
    More,
    NoBar,
    TooMany,
    NotSample,
    NotRoom,
    NotByte,
    TooManyBytes,
}

impl Why {
    #[tactic(auto, unfolding(crate::specs::Unread::why_words, serial::specs::Ascii::ascii))]
    pub(super) fn words(self) -> &'static [u8]
        ensures { (result.now ≡ ascii (why_words self)) × (length result.now ≤ 48) }
    {
        match self {
            Why::TooLong => b"longer than 131,071 bytes",
            Why::NoStep => b"no such step",
            Why::Missing => b"an item missing",
            Why::NotNumber => b"not a 64-bit number",
            Why::NotField => b"neither a 64-bit number nor a field's name",
            Why::NotRegister => b"neither a 64-bit number nor a register's name",
            Why::More => b"more items than the step has",
            Why::NoBar => b"fewer than two bars",
            Why::TooMany => b"more than 8,192 samples in a slice",
            Why::NotSample => b"not a 32-bit number",
            Why::NotRoom => b"not a number from 0 to 255",
            Why::NotByte => b"not two hexadecimal digits",
            Why::TooManyBytes => b"more than 4,096 bytes",
        }
    }
}

// An item that is not what must stand there.
fn not_a(k: Kind) -> Why
    ensures { result ≡ not_a k }
{
    match k {
        Kind::Number => Why::NotNumber,
        Kind::Field => Why::NotField,
        Kind::Slot => Why::NotRegister,
        Kind::Register => Why::NotRegister,
        Kind::Sample => Why::NotSample,
        Kind::Room => Why::NotRoom,
        Kind::Byte => Why::NotByte,
    }
}

// Behind `count` items of a step the line has `behind`: it ends too early or has something else.
#[tactic(auto, unfolding(crate::specs::Unread::stopped_before))]
pub(super) fn stopped(w: Word, count: usize, behind: &[u8]) -> Why
    ensures { result ≡ stopped_before (drop count (items_of w)) behind.now }
{
    if behind.len() == 0 {
        return Why::Missing;
    }
    if count < arity(w) {
        return not_a(kind_at(w, count));
    }
    Why::More
}

// Behind `count` samples of a slice, which has room for so many, the line has neither a sample nor what ends the slice.
#[tactic(auto, unfolding(crate::specs::Unread::slice_stopped))]
pub(super) fn slice_stopped(room: usize, count: usize, behind: &[u8]) -> Why
    ensures { result ≡ slice_stopped room count behind.now }
{
    if behind.len() == 0 {
        return Why::NoBar;
    }
    if count == room {
        Why::TooMany
    } else {
        Why::NotSample
    }
}

// Behind `count` bytes of a packet the line has another item.
pub(super) fn packet_stopped(count: usize) -> Why
    ensures { result ≡ packet_stopped count }
{
    if count == 4096 {
        Why::TooManyBytes
    } else {
        Why::NotByte
    }
}
