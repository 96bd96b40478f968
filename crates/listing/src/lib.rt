// The listing of a card book, made whole in a lent buffer: document 01, "The listing".
#![tactic(auto)]

ghost use Rattle.std.specs.Prelude.{◌≡◌, ◌+◌, ◌≤◌, length};
ghost use Rattle.serial.specs.Places.{part, put};
ghost use Rattle.decimal.specs.Decimals.{signed_decimal};
ghost use Rattle.serial.specs.Serials.{text_of};
ghost use Rattle.listing.specs.Lines.{fields_text, card_text, serial_text, first_line, line_at, entries_text, listing};
ghost use Rattle.listing.specs.Buffer.{Made, Open};

use reader::{Entry, Kind, Reader};

// No listing is longer: the first line has at most 28 bytes, and each of at most 1,536 others 134.
pub const ROOM: usize = 205852;

// Puts a text at a place, and gives the place after it.
fn put_text(out: &mut [u8; ROOM], at: usize, text: &[u8]) -> usize
    requires { at + length text.now ≤ 205852 }
    ensures { Made out.old out.new at result text.now × (length out.old ≡ 205852) }
{
    serial::put_at(out, at, text);
    at + text.len()
}

// Puts a number at a place, and gives the place after it.
fn put_number(out: &mut [u8; ROOM], at: usize, v: i64) -> usize
    requires { at + length (signed_decimal v) ≤ 205852 }
    ensures { Made out.old out.new at result (signed_decimal v) × (length out.old ≡ 205852) }
{
    put_text(out, at, decimal::number_text(v).text())
}

// n bytes from a place on, as far as there are.
fn part_of(b: &[u8], at: usize, n: usize) -> &[u8]
    ensures { result.now ≡ part b.now at n }
{
    let len = b.len();
    if len <= at {
        return &b[len..];
    }
    if len - at <= n {
        return &b[at..];
    }
    let end = at + n;
    &b[at..end]
}

// The digits of the serial that an entry begins with.
fn text_of(e: &[u8]) -> &[u8]
    ensures { result.now ≡ text_of e.now }
{
    let n = serial::byte_at(e, 0);
    part_of(e, 1, n as usize)
}

// Puts the fields in decimal, a space before each.
fn put_fields(out: &mut [u8; ROOM], from: usize, fields: [i32; 8]) -> usize
    requires { from + 97 ≤ 205852 }
    ensures { Made out.old out.new from result (fields_text fields) × (result ≤ from + 96) }
{
    let mut at = from;
    for field in fields {
        let place = put_text(out, at, b" ");
        at = put_number(out, place, field as i64);
    }
    at
}

fn put_card(out: &mut [u8; ROOM], from: usize, c: &[u8]) -> usize
    requires { (length c.now ≤ 37) × (from + 134 ≤ 205852) }
    ensures { Made out.old out.new from result (card_text c.now) × (result ≤ from + 134) }
{
    let card = card::Card::of(c);
    let fields = card.fields;
    let at = put_text(out, from, text_of(c));
    let end = put_fields(out, at, fields);
    put_text(out, end, b"\n")
}

fn put_serial(out: &mut [u8; ROOM], from: usize, e: &[u8]) -> usize
    requires { (length e.now ≤ 13) × (from + 134 ≤ 205852) }
    ensures { Made out.old out.new from result (serial_text e.now) × (result ≤ from + 134) }
{
    let at = put_text(out, from, b"W ");
    let end = put_text(out, at, text_of(e));
    put_text(out, end, b"\n")
}

// Puts the first line, with both counts.
fn put_first(out: &mut [u8; ROOM], book: &[u8]) -> usize
    ensures made { Made out.old out.new 0 result (first_line book.now) × (result ≤ 28) }
    ensures out_len { length out.old ≡ 205852 }
{
    let cards = book::cards(book).count;
    let withdrawn = book::withdrawn(book).count;
    let a = put_text(out, 0, b"CARDS ");
    let b = put_number(out, a, cards as i64);
    let c = put_text(out, b, b" WITHDRAWN ");
    let d = put_number(out, c, withdrawn as i64);
    put_text(out, d, b"\n")
}

// Puts the line of an entry.
fn put_entry(book: &[u8], entry: Entry, out: &mut [u8; ROOM], from: usize) -> usize
    requires { from + 134 ≤ 205852 }
    ensures { Made out.old out.new from result (line_at book.now entry.kind entry.at) × (result ≤ from + 134) }
{
    match entry.kind {
        Kind::Card => put_card(out, from, part_of(book, entry.at, 37)),
        Kind::Withdrawn => put_serial(out, from, part_of(book, entry.at, 13)),
    }
}

// Puts a line for each entry, in one walk of a reader.
fn put_entries(book: &[u8], out: &mut [u8; ROOM], from: usize) -> usize
    requires { Open book.now out.old from }
    ensures { Made out.old out.new from result (entries_text book.now) × (result ≤ 205852) }
{
    let mut at = from;
    for entry in Reader::new(book) {
        at = put_entry(book, entry, out, at);
    }
    at
}

// The listing of a book, or the one line for bytes that are no book; gives its length.
pub fn whole(book: &[u8], out: &mut [u8; ROOM]) -> usize
    ensures value { (result ≡ length (listing book.now)) × (out.new ≡ put out.old 0 (listing book.now)) }
    ensures upper_bound { result ≤ 205852 }
{
    if book::is_book(book) {
        let at = put_first(out, book);
        return put_entries(book, out, at);
    }
    put_text(out, 0, b"REFUSED 2\n")
}
