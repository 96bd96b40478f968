// Changing the book in a lent buffer: adding a card, and withdrawing a serial.
#![tactic(auto)]

ghost use Rattle.std.specs.Prelude.{◌≡◌, ◌≤◌, ◌+◌, ◌-◌, length, take};
ghost use Rattle.serial.specs.Places.{part, put};
ghost use Rattle.book.specs.Answers.{answer_of};
ghost use Rattle.change.specs.Change.{book_in, with_entry, Takes, room_for, Ready, buffer_after, add_answer, added, withdraw_answer, after_withdraw};

use refusal::Refusal;
use section::Section;
use serial::Serial;

// Moves the bytes between two places up by so many, the last first.
fn move_up(b: &mut [u8], from: usize, to: usize, by: usize)
    requires { (from ≤ to) × (to + by ≤ length b.old) }
    ensures { b.new ≡ put b.old (from + by) (part b.old from (to - from)) }
{
    for i in (from..to).rev() {
        b[i + by] = b[i];
    }
}

// Puts an entry last in a section of the book in the first used bytes: what stands behind the section moves up, and its count goes up by one.
fn insert(b: &mut [u8], used: usize, s: Section, x: &[u8])
    requires { Takes b.old used s x.now }
    ensures { b.new ≡ put b.old 0 (with_entry (take used b.old) s x.now) }
{
    let at = s.base + s.count * s.size;
    let count = (s.count as u16 + 1).to_le_bytes();
    move_up(b, at, used, x.len());
    serial::put_at(b, at, x);
    serial::put_at(b, s.base - 2, &count);
}

// Whether the first used bytes of a buffer are a well-formed book.
fn book_in(buffer: &[u8], used: usize) -> bool
    ensures { result ≡ book_in buffer.now used }
{
    used <= buffer.len() && book::is_book(&buffer[..used])
}

// The length with one entry more in a section, where the buffer has room bytes.
fn room_for(b: &[u8], s: Section, limit: usize, text: &[u8], room: usize) -> Result<usize, Refusal>
    requires { (s.size ≤ 37) × (length b.now ≤ 44548) }
    ensures { answer_of result ≡ room_for b.now s limit text.now room }
{
    if s.has(b, text) {
        return Err(Refusal::Present);
    }
    if limit <= s.count {
        return Err(Refusal::Full);
    }
    let longer = b.len() + s.size;
    if room < longer {
        return Err(Refusal::NoRoom);
    }
    Ok(longer)
}

// Puts an entry with the serial of this text last in a section of the book in the first used bytes, where the section takes it.
fn enter(
    buffer: &mut [u8],
    used: usize,
    s: Section,
    limit: usize,
    text: &[u8],
    x: &[u8],
) -> Result<usize, Refusal>
    requires { Ready buffer.old used s limit x.now }
    ensures { (answer_of result ≡ room_for (take used buffer.old) s limit text.now (length buffer.old))
        × (buffer.new ≡ buffer_after (room_for (take used buffer.old) s limit text.now (length buffer.old))
        buffer.old (with_entry (take used buffer.old) s x.now)) }
{
    let room = buffer.len();
    let longer = room_for(&buffer[..used], s, limit, text, room)?;
    insert(buffer, used, s, x);
    Ok(longer)
}

// Adds the card with a serial and eight values to the book in the first used bytes of a buffer: the new length, or the refusal.
pub fn add(buffer: &mut [u8], used: usize, text: &[u8], values: [i64; 8]) -> Result<usize, Refusal>
    ensures { (answer_of result ≡ add_answer buffer.old used text.now values)
        × (buffer.new ≡ added buffer.old used text.now values) }
{
    if !serial::is_serial(text) {
        return Err(Refusal::NotSerial);
    }
    if !card::values_fit(values) {
        return Err(Refusal::ValueRange);
    }
    if !book_in(&*buffer, used) {
        return Err(Refusal::Malformed);
    }
    let s = book::cards(&buffer[..used]);
    let x = cardbytes::card_bytes(Serial::of(text), values);
    enter(buffer, used, s, book::MOST_CARDS, text, &x)
}

// Withdraws a serial in the book in the first used bytes of a buffer: the new length, or the refusal.
pub fn withdraw(buffer: &mut [u8], used: usize, text: &[u8]) -> Result<usize, Refusal>
    ensures { (answer_of result ≡ withdraw_answer buffer.old used text.now)
        × (buffer.new ≡ after_withdraw buffer.old used text.now) }
{
    if !serial::is_serial(text) {
        return Err(Refusal::NotSerial);
    }
    if !book_in(&*buffer, used) {
        return Err(Refusal::Malformed);
    }
    let s = book::withdrawn(&buffer[..used]);
    let x = Serial::of(text).bytes();
    enter(buffer, used, s, book::MOST_WITHDRAWN, text, &x)
}
