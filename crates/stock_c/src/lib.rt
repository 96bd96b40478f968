// The archive that a C program is linked with, `include/stock.h` in Rattle: each function hands on what the function of crate stock by
// the same name answers, and promises the same.
#![tactic(auto)]

ghost use Rattle.std.specs.Prelude.{◌≡◌, [], ◌∷◌, length};
ghost use Rattle.serial.specs.Places.{put_within};
ghost use Rattle.refusal.specs.Words.{words_of, written_of};
ghost use Rattle.section.specs.Sections.{place_in};
ghost use Rattle.book.specs.Book.{cards, withdrawn};
ghost use Rattle.lookup.specs.Lookup.{lookup_of};
ghost use Rattle.change.specs.Change.{add_answer, added, withdraw_answer, after_withdraw};
ghost use Rattle.stock.specs.Signed.{signed};
ghost use Rattle.stock.specs.Reading.{check_answer, serial_answer, serial_text, fields_answer, fields_after};

// The place of the first byte of the card with a serial.
#[unsafe(no_mangle)]
pub extern "C" fn stock_lookup(book: &[u8], serial: &[u8]) -> i64
    ensures { result ≡ signed (lookup_of book.now serial.now) }
{
    stock::stock_lookup(book, serial)
}

// Adds the card with a serial and the eight fields; the length of the new book.
#[unsafe(no_mangle)]
pub extern "C" fn stock_add(
    buffer: &mut [u8],
    used: usize,
    serial: &[u8],
    voffs: i64,
    ioffs: i64,
    vgain: i64,
    igain: i64,
    phase: i64,
    irmsoffs: i64,
    squelch: i64,
    poffs: i64,
) -> i64
    ensures { (result ≡ signed (add_answer buffer.old used serial.now
        (voffs ∷ ioffs ∷ vgain ∷ igain ∷ phase ∷ irmsoffs ∷ squelch ∷ poffs ∷ [])))
        × (buffer.new ≡ added buffer.old used serial.now
        (voffs ∷ ioffs ∷ vgain ∷ igain ∷ phase ∷ irmsoffs ∷ squelch ∷ poffs ∷ [])) }
{
    stock::stock_add(
        buffer, used, serial, voffs, ioffs, vgain, igain, phase, irmsoffs, squelch, poffs,
    )
}

// Withdraws a serial; the length of the new book.
#[unsafe(no_mangle)]
pub extern "C" fn stock_withdraw(buffer: &mut [u8], used: usize, serial: &[u8]) -> i64
    ensures { (result ≡ signed (withdraw_answer buffer.old used serial.now))
        × (buffer.new ≡ after_withdraw buffer.old used serial.now) }
{
    stock::stock_withdraw(buffer, used, serial)
}

// Whether the bytes are a well-formed book: 0, or the refusal.
#[unsafe(no_mangle)]
pub extern "C" fn stock_check(book: &[u8]) -> i64
    ensures { result ≡ signed (check_answer book.now) }
{
    stock::read::stock_check(book)
}

// The place of card k, from 0; 0 where there is none.
#[unsafe(no_mangle)]
pub extern "C" fn stock_card(book: &[u8], k: usize) -> usize
    ensures { result ≡ place_in book.now (cards book.now) k }
{
    stock::read::stock_card(book, k)
}

// The place of withdrawn serial k, from 0; 0 where there is none.
#[unsafe(no_mangle)]
pub extern "C" fn stock_withdrawn(book: &[u8], k: usize) -> usize
    ensures { result ≡ place_in book.now (withdrawn book.now) k }
{
    stock::read::stock_withdrawn(book, k)
}

// The words of a refusal's number, put at the front of a buffer: how many bytes, 0 where there are none or too little room.
#[unsafe(no_mangle)]
pub extern "C" fn stock_words(number: usize, buffer: &mut [u8]) -> usize
    ensures { (result ≡ written_of (words_of number) (length buffer.old))
        × (buffer.new ≡ put_within buffer.old 0 (words_of number)) }
{
    stock::read::stock_words(number, buffer)
}

// The digits of the serial that an entry begins with, put at the front of a buffer: how many there are, or the refusal.
#[unsafe(no_mangle)]
pub extern "C" fn stock_serial(entry: &[u8], text: &mut [u8]) -> i64
    ensures { (result ≡ signed (serial_answer entry.now (length text.old)))
        × (text.new ≡ serial_text entry.now text.old) }
{
    stock::read::stock_serial(entry, text)
}

// The eight fields of the card in 37 bytes, put at the front: 8, or the refusal.
#[unsafe(no_mangle)]
pub extern "C" fn stock_fields(card: &[u8], fields: &mut [i64]) -> i64
    ensures { (result ≡ signed (fields_answer card.now (length fields.old)))
        × (fields.new ≡ fields_after card.now fields.old) }
{
    stock::read::stock_fields(card, fields)
}
