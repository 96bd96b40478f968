// A line as a step of the module, and what it comes to.
ghost use Rattle.std.specs.Prelude.{◌≡◌, ◌≤◌, length};
ghost use Rattle.steps.specs.Answers.{and_then, answer_of};
ghost use Rattle.aberzhan.specs.Module.{stepped};
ghost use Rattle.console.specs.declared.turns.Said.TheVariants as «said»;
ghost use Rattle.console.specs.Inside.{slots_of};
ghost use Rattle.console.specs.Turns.{turned, stepped_turn, polled_turn, packet_turn, with_packet};
ghost use Rattle.console.specs.Turns.{asked_of, start_turn, items_turn, with_items, with_text, s3_turn, s1_turn, with_samples, turn_of};

use super::items::{next_item, take_bytes, take_items, take_samples};
use super::slices::take_slice;
use super::texts::length_to;
use super::unread::{Why, packet_stopped, slice_stopped, stopped};
use super::words::{Kind, MOST, Word, are_enough, first_word};
use aberzhan::{Cards, Holding, Module};
use address::{WordAddr, byte_addr, word_addr};
use alarm::Asked;
use refusal::Refusal;

// A longer line is not read.
const LONGEST: usize = 131071;

// The bytes that answer a packet: so many, at the front.
#[derive(Clone, Copy)]
pub struct Reply {
    pub bytes: [u8; 255],
    pub length: usize,
}

// What is said of a line that is not refused.
#[derive(Clone, Copy)]
pub enum Said {
    Unread(Why),
    Done,
    Value(i64),
    Held(Holding),
    Polled(Reply),
    Cards(Cards),
    Help,
}

// What is said of a step that answers nothing.
fn done(step: Result<(), Refusal>) -> Result<Said, Refusal>
    ensures { answer_of result ≡ and_then (answer_of step) (λ u. «said».Done) }
{
    step?;
    Ok(Said::Done)
}

// A packet, with room for so many bytes of a reply.
fn polled(m: &mut Module, packet: &[u8], room: usize) -> Result<Said, Refusal>
    requires { room ≤ 255 }
    ensures { turned result m.new ≡ polled_turn m.old packet.now room }
{
    let mut bytes = [0u8; 255];
    let length = m.poll(packet, &mut bytes[..room])?;
    Ok(Said::Polled(Reply { bytes, length }))
}

// The words that a start tracks.
fn slots(x: [i64; MOST]) -> [WordAddr; 6]
    ensures { result ≡ slots_of x }
{
    [
        word_addr(x[2]),
        word_addr(x[3]),
        word_addr(x[4]),
        word_addr(x[5]),
        word_addr(x[6]),
        word_addr(x[7]),
    ]
}

// What it asks of its alarms.
fn asked(x: [i64; MOST]) -> Asked
    ensures { result ≡ asked_of x }
{
    Asked {
        w: x[8],
        vsag: x[9],
        vsurge: x[10],
        sticky: x[11],
    }
}

// A refused start keeps the module that runs.
fn start(m: &mut Module, x: [i64; MOST]) -> Result<(), Refusal>
    ensures { stepped_turn (stepped result m.new) ≡ start_turn m.old x }
{
    let s = Module::start(x[0], x[1], slots(x), asked(x), x[12]);
    s.answer?;
    *m = s.module;
    Ok(())
}

// A step whose items are worth these numbers.
fn with_worths(m: &mut Module, w: Word, x: [i64; MOST]) -> Result<Said, Refusal>
    ensures { turned result m.new ≡ items_turn m.old w x }
{
    match w {
        Word::Start => done(start(m, x)),
        Word::Write => done(m.write(x[0], x[1], x[2])),
        Word::Commit => done(m.commit(x[0])),
        Word::Drop => done(m.drop(x[0])),
        Word::Reset => done(m.reset(x[0])),
        Word::Hold => Ok(Said::Held(m.hold(x[0])?)),
        Word::Read => Ok(Said::Value(m.read(x[0], byte_addr(x[1]))?)),
        Word::Cards => Ok(Said::Cards(m.cards())),
        Word::Help => Ok(Said::Help),
        _ => Ok(Said::Unread(Why::NoStep)),
    }
}

// What is left out of a start's numbers is 0, and its W, the ninth, 1.
fn with_items(m: &mut Module, w: Word, rest: &[u8]) -> Result<Said, Refusal>
    ensures { turned result m.new ≡ with_items m.old w rest.now }
{
    let mut x = [0i64; MOST];
    x[8] = 1;
    let n = take_items(w, rest, &mut x);
    let behind = &rest[n.taken..];
    if behind.is_empty() & are_enough(w, n.count) {
        return with_worths(m, w, x);
    }
    Ok(Said::Unread(stopped(w, n.count, behind)))
}

// The text is all that follows the space behind the port.
fn with_text(m: &mut Module, rest: &[u8]) -> Result<Said, Refusal>
    ensures { turned result m.new ≡ with_text m.old rest.now }
{
    let mut x = [0i64; MOST];
    let n = take_items(Word::Open, rest, &mut x);
    let behind = &rest[n.taken..];
    if n.count < 1 {
        return Ok(Said::Unread(stopped(Word::Open, 0, behind)));
    }
    match behind.strip_prefix(b" ") {
        Some(serial) => done(m.open(x[0], serial)),
        None => Ok(Said::Unread(Why::Missing)),
    }
}

// The packet, behind the room for its reply.
fn with_bytes(m: &mut Module, room: usize, text: &[u8]) -> Result<Said, Refusal>
    requires { room ≤ 255 }
    ensures { turned result m.new ≡ packet_turn m.old room text.now }
{
    let mut packet = [0u8; 4096];
    let n = take_bytes(text, &mut packet);
    if n.taken < text.len() {
        return Ok(Said::Unread(packet_stopped(n.count)));
    }
    polled(m, &packet[..n.count], room)
}

// How many bytes are lent for the reply, and the packet.
fn with_packet(m: &mut Module, rest: &[u8]) -> Result<Said, Refusal>
    ensures { turned result m.new ≡ with_packet m.old rest.now }
{
    match next_item(Kind::Room, rest) {
        Some(next) => with_bytes(m, next.worth as usize, &rest[next.taken..]),
        None => Ok(Said::Unread(stopped(Word::Poll, 0, rest))),
    }
}

// S3, behind the second bar.
fn with_s3(
    m: &mut Module,
    v: &[i32],
    s1: &[i32],
    text: &[u8],
    s3: &mut [i32],
) -> Result<Said, Refusal>
    ensures { turned result m.new ≡ s3_turn (length s3.old) m.old v.now s1.now text.now }
{
    let n = take_samples(text, s3);
    if n.taken < text.len() {
        return Ok(Said::Unread(slice_stopped(s3.len(), n.count, &text[n.taken..])));
    }
    done(m.block(v, s1, &s3[..n.count]))
}

// S1, behind the first bar.
fn with_s1(
    m: &mut Module,
    v: &[i32],
    text: &[u8],
    s1: &mut [i32],
    s3: &mut [i32],
) -> Result<Said, Refusal>
    ensures { turned result m.new ≡ s1_turn (length s1.old) (length s3.old) m.old v.now text.now }
{
    match take_slice(text, s1) {
        Ok((count, rest)) => with_s3(m, v, &s1[..count], rest, s3),
        Err(why) => Ok(Said::Unread(why)),
    }
}

// V, a bar, S1, a bar, S3.
fn with_samples(
    m: &mut Module,
    rest: &[u8],
    v: &mut [i32],
    s1: &mut [i32],
    s3: &mut [i32],
) -> Result<Said, Refusal>
    ensures { turned result m.new ≡ with_samples (length v.old) (length s1.old) (length s3.old) m.old rest.now }
{
    match take_slice(rest, v) {
        Ok((count, behind)) => with_s1(m, &v[..count], behind, s1, s3),
        Err(why) => Ok(Said::Unread(why)),
    }
}

// A line that is neither empty nor a comment. Its samples go by way of three lent buffers, which have room for as many as a line may have.
pub(super) fn take_line(
    m: &mut Module,
    line: &[u8],
    v: &mut [i32],
    s1: &mut [i32],
    s3: &mut [i32],
) -> Result<Said, Refusal>
    ensures { turned result m.new ≡ turn_of (length v.old) (length s1.old) (length s3.old) m.old line.now }
{
    if LONGEST < line.len() {
        return Ok(Said::Unread(Why::TooLong));
    }
    let n = length_to(b' ', line);
    let w = first_word(&line[..n]);
    let rest = &line[n..];
    match w {
        Word::Open => with_text(m, rest),
        Word::Poll => with_packet(m, rest),
        Word::Block => with_samples(m, rest, v, s1, s3),
        Word::Other => Ok(Said::Unread(Why::NoStep)),
        _ => with_items(m, w, rest),
    }
}
