// What the stock program reads without changing a byte of the book: the check, the walk, and what an entry says.
ghost use Rattle.std.specs.Prelude.{◌≡◌, length};
ghost use Rattle.serial.specs.Places.{put_within};
ghost use Rattle.refusal.specs.Words.{words_of, written_of};
ghost use Rattle.section.specs.Sections.{place_in};
ghost use Rattle.book.specs.Book.{cards, withdrawn};
ghost use Rattle.book.specs.Answers.{answer_of};
ghost use Rattle.stock.specs.Signed.{signed};
ghost use Rattle.stock.specs.Reading.{check_answer, serial_answer, serial_text, fields_answer, fields_after};

use crate::signed_number;
use card::Card;
use refusal::Refusal;

fn check(book: &[u8]) -> Result<usize, Refusal>
    ensures { answer_of result ≡ check_answer book.now }
{
    if book::is_book(book) {
        Ok(0)
    } else {
        Err(Refusal::Malformed)
    }
}

// Whether the bytes are a well-formed book: 0, or the refusal.
pub fn stock_check(book: &[u8]) -> i64
    ensures { result ≡ signed (check_answer book.now) }
{
    signed_number(check(book))
}

// The place of card k, from 0; 0 where there is none.
pub fn stock_card(book: &[u8], k: usize) -> usize
    ensures { result ≡ place_in book.now (cards book.now) k }
{
    book::cards(book).place(book, k).unwrap_or(0)
}

// The place of withdrawn serial k, from 0; 0 where there is none.
pub fn stock_withdrawn(book: &[u8], k: usize) -> usize
    ensures { result ≡ place_in book.now (withdrawn book.now) k }
{
    book::withdrawn(book).place(book, k).unwrap_or(0)
}

// The words of a refusal's number, put at the front of a buffer: how many bytes, 0 where there are none or too little room.
pub fn stock_words(number: usize, buffer: &mut [u8]) -> usize
    ensures { (result ≡ written_of (words_of number) (length buffer.old))
        × (buffer.new ≡ put_within buffer.old 0 (words_of number)) }
{
    refusal::words(number, buffer)
}

fn put_digits(entry: &[u8], text: &mut [u8]) -> Result<usize, Refusal>
    ensures { (answer_of result ≡ serial_answer entry.now (length text.old))
        × (text.new ≡ serial_text entry.now text.old) }
{
    if entry.len() < 13 || !serial::holds_serial(entry) {
        return Err(Refusal::Malformed);
    }
    let n = usize::from(entry[0]);
    if text.len() < n {
        return Err(Refusal::NoRoom);
    }
    serial::put_at(text, 0, &entry[1..n + 1]);
    Ok(n)
}

// The digits of the serial that an entry begins with, put at the front of a buffer: how many there are, or the refusal.
pub fn stock_serial(entry: &[u8], text: &mut [u8]) -> i64
    ensures { (result ≡ signed (serial_answer entry.now (length text.old)))
        × (text.new ≡ serial_text entry.now text.old) }
{
    signed_number(put_digits(entry, text))
}

fn put_fields(card: &[u8], to: &mut [i64]) -> Result<usize, Refusal>
    ensures { (answer_of result ≡ fields_answer card.now (length to.old))
        × (to.new ≡ fields_after card.now to.old) }
{
    if !card::is_card(card) {
        return Err(Refusal::Malformed);
    }
    if to.len() < 8 {
        return Err(Refusal::NoRoom);
    }
    let fields = Card::of(card).fields;
    for k in 0..8 {
        to[k] = i64::from(fields[k]);
    }
    Ok(8)
}

// The eight fields of the card in 37 bytes, put at the front: 8, or the refusal.
pub fn stock_fields(card: &[u8], fields: &mut [i64]) -> i64
    ensures { (result ≡ signed (fields_answer card.now (length fields.old)))
        × (fields.new ≡ fields_after card.now fields.old) }
{
    signed_number(put_fields(card, fields))
}
