// Lookup: the card of a serial in a book.
#![tactic(auto)]

ghost use Rattle.std.specs.Prelude.{◌≡◌, ◌+◌};
ghost use Rattle.book.specs.Answers.{answer_of};
ghost use Rattle.lookup.specs.Lookup.{seek_of, lookup_of, card_part};

use refusal::Refusal;

// The answer of lookup in a well-formed book.
fn seek(b: &[u8], text: &[u8]) -> Result<usize, Refusal>
    ensures { answer_of result ≡ seek_of b.now text.now }
{
    if book::withdrawn(b).has(b, text) {
        return Err(Refusal::Withdrawn);
    }
    let cards = book::cards(b);
    match cards.find(b, text) {
        Some(k) => Ok(cards.base + k * cards.size),
        None => Err(Refusal::NoCard),
    }
}

// Looks a serial up: the place of its card's first byte, or the refusal.
pub fn lookup(book: &[u8], text: &[u8]) -> Result<usize, Refusal>
    ensures { answer_of result ≡ lookup_of book.now text.now }
{
    if !serial::is_serial(text) {
        return Err(Refusal::NotSerial);
    }
    if !book::is_book(book) {
        return Err(Refusal::Malformed);
    }
    seek(book, text)
}

// The 37 bytes of the card that lookup finds, as a part of the book; an empty part where it refuses.
pub fn card_of<'a>(book: &'a [u8], text: &[u8]) -> &'a [u8]
    ensures { (result.now ≡ card_part book.now text.now)
        × (result.ref_ptr.0 ≡ book.entry.ref_ptr.0)
        × (result.ref_ptr.1 ≡ book.entry.ref_ptr.1 + (lookup_of book.now text.now).value) }
{
    match lookup(book, text) {
        Ok(n) => &book[n..n + 37],
        Err(_) => &book[..0],
    }
}
