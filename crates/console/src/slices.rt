// A slice of a block: samples, and the bar behind them.
ghost use Rattle.std.specs.Prelude.{length};
ghost use Rattle.console.specs.Inside.{Sliced};

use super::items::take_samples;
use super::unread::{Why, slice_stopped};

// Takes the samples into a lent buffer: how many they are, and the text behind its bar; or why the line is not read.
pub(super) fn take_slice<'a>(text: &'a [u8], into: &mut [i32]) -> Result<(usize, &'a [u8]), Why>
    ensures { Sliced result (length into.old) text.now into.new }
{
    let n = take_samples(text, into);
    let behind = &text[n.taken..];
    match behind.strip_prefix(b" |") {
        Some(rest) => Ok((n.count, rest)),
        None => Err(slice_stopped(into.len(), n.count, behind)),
    }
}
