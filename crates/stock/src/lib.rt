// What the bench computer's stock program calls, in C by the archive that crate stock_c makes. Each function gives one signed number: the
// place of a card's first byte, the new length, or a refusal's number negated.
#![tactic(auto)]

pub mod read;

ghost use Rattle.std.specs.Prelude.{◌≡◌, [], ◌∷◌, ◌^◌, ◌<◌};
ghost use Rattle.book.specs.Answers.{answer_of};
ghost use Rattle.lookup.specs.Lookup.{lookup_of};
ghost use Rattle.change.specs.Change.{add_answer, added, withdraw_answer, after_withdraw};
ghost use Rattle.stock.specs.Signed.{signed};

use refusal::Refusal;

fn signed_number(answer: Result<usize, Refusal>) -> i64
    requires { (answer_of answer).value < 2 ^ 63 }
    ensures { result ≡ signed (answer_of answer) }
{
    match answer {
        Ok(n) => n as i64,
        Err(refusal) => -i64::from(refusal.number()),
    }
}

// The place of the first byte of the card with a serial.
pub fn stock_lookup(book: &[u8], serial: &[u8]) -> i64
    ensures { result ≡ signed (lookup_of book.now serial.now) }
{
    signed_number(lookup::lookup(book, serial))
}

// Adds the card with a serial and the eight fields; the length of the new book.
pub fn stock_add(
    buffer: &mut [u8],
    used: usize,
    serial: &[u8],
    voffs: i64,
    ioffs: i64,
    vgain: i64,
    igain: i64,
    phase: i64,
    irmsoffs: i64,
    squelch: i64,
    poffs: i64,
) -> i64
    ensures { (result ≡ signed (add_answer buffer.old used serial.now
        (voffs ∷ ioffs ∷ vgain ∷ igain ∷ phase ∷ irmsoffs ∷ squelch ∷ poffs ∷ [])))
        × (buffer.new ≡ added buffer.old used serial.now
        (voffs ∷ ioffs ∷ vgain ∷ igain ∷ phase ∷ irmsoffs ∷ squelch ∷ poffs ∷ [])) }
{
    let values = [voffs, ioffs, vgain, igain, phase, irmsoffs, squelch, poffs];
    signed_number(change::add(buffer, used, serial, values))
}

// Withdraws a serial; the length of the new book.
pub fn stock_withdraw(buffer: &mut [u8], used: usize, serial: &[u8]) -> i64
    ensures { (result ≡ signed (withdraw_answer buffer.old used serial.now))
        × (buffer.new ≡ after_withdraw buffer.old used serial.now) }
{
    signed_number(change::withdraw(buffer, used, serial))
}
