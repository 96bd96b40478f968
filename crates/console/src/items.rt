// The items of a step: numbers, names, samples and bytes in a row, each behind one space.
ghost use Rattle.std.specs.Prelude.{◌≡◌, ◌≤◌, length};
ghost use Rattle.console.specs.Items.{own_number, byte_address, between, worth_in, next_of, row_of, samples, bytes, Filled, FilledBytes};
ghost use Rattle.console.specs.Words.{most, items_of};

use super::numerals::{pair, value};
use super::texts::length_to;
use super::words::{Kind, Word, arity, kind_at};
use address::{WordAddr, byte_of};

// What an item is worth, and how many bytes it takes with its space.
#[derive(Clone, Copy)]
pub struct Next {
    pub worth: i64,
    pub taken: usize,
}

// How many items a text begins with, and how many bytes they take.
#[derive(Clone, Copy)]
pub struct Row {
    pub count: usize,
    pub taken: usize,
}

// What a name stands for, or else the item's number.
fn own_number(name: Option<u32>, item: &[u8]) -> Option<i64>
    ensures { result ≡ own_number name item.now }
{
    name.map(i64::from).or_else(|| value(item))
}

// The byte address of the register that is named, or else the item's number.
fn byte_address(name: Option<u32>, item: &[u8]) -> Option<i64>
    ensures { result ≡ byte_address name item.now }
{
    match name {
        Some(w) => {
            let b = byte_of(WordAddr(w));
            Some(b.0 as i64)
        }
        None => value(item),
    }
}

// A number from one to another.
fn in_range(low: i64, high: i64, x: Option<i64>) -> Option<i64>
    ensures { result ≡ between low high x }
{
    x.filter(|n| (low <= *n) & (*n <= high))
}

// What an item is worth where an item of this kind must stand.
#[tactic(auto, unfolding(crate::specs::Items::worth_in))]
pub(super) fn worth_in(k: Kind, item: &[u8]) -> Option<i64>
    ensures { result ≡ worth_in k item.now }
{
    match k {
        Kind::Number => value(item),
        Kind::Field => own_number(names::field(item), item),
        Kind::Slot => own_number(names::register(item), item),
        Kind::Register => byte_address(names::register(item), item),
        Kind::Sample => in_range(-2147483648, 2147483647, value(item)),
        Kind::Room => in_range(0, 255, value(item)),
        Kind::Byte => pair(item),
    }
}

// What a text begins with: a space and an item that is worth a number.
pub(super) fn next_item(k: Kind, text: &[u8]) -> Option<Next>
    ensures { result ≡ next_of k text.now }
{
    let item = text.strip_prefix(b" ")?;
    let n = length_to(b' ', item);
    let worth = worth_in(k, &item[..n])?;
    Some(Next {
        worth,
        taken: n + 1,
    })
}

// Takes the items of a step into a lent buffer, until another thing comes or the step has no more.
pub(super) fn take_items(w: Word, text: &[u8], into: &mut [i64]) -> Row
    requires { most ≤ length into.old }
    ensures { Filled result into.old into.new (row_of (items_of w) text.now) }
{
    let most = arity(w);
    let mut at = 0;
    for count in 0..most {
        match next_item(kind_at(w, count), &text[at..]) {
            Some(next) => {
                into[count] = next.worth;
                at += next.taken;
            }
            None => return Row { count, taken: at },
        }
    }
    Row {
        count: most,
        taken: at,
    }
}

// Takes samples into a lent buffer, until another thing comes or the buffer is full.
pub(super) fn take_samples(text: &[u8], into: &mut [i32]) -> Row
    ensures { Filled result into.old into.new (row_of (samples (length into.old)) text.now) }
{
    let most = into.len();
    let mut at = 0;
    for count in 0..most {
        match next_item(Kind::Sample, &text[at..]) {
            Some(next) => {
                into[count] = next.worth as i32;
                at += next.taken;
            }
            None => return Row { count, taken: at },
        }
    }
    Row {
        count: most,
        taken: at,
    }
}

// Takes the bytes of a packet into a lent buffer, until another thing comes or the buffer is full.
pub(super) fn take_bytes(text: &[u8], into: &mut [u8]) -> Row
    requires { length into.old ≡ 4096 }
    ensures { FilledBytes result into.old into.new (row_of bytes text.now) }
{
    let most = into.len();
    let mut at = 0;
    for count in 0..most {
        match next_item(Kind::Byte, &text[at..]) {
            Some(next) => {
                into[count] = next.worth as u8;
                at += next.taken;
            }
            None => return Row { count, taken: at },
        }
    }
    Row {
        count: most,
        taken: at,
    }
}
