// The card book on lent bytes: its two sections, and the check.
#![tactic(auto)]

ghost use Rattle.std.specs.Prelude.{◌≡◌, ◌≤◌};
ghost use Rattle.book.specs.Book.{count_at, cards, withdrawn, sized, well_formed};

use section::{Kind, Section};

// How many cards and how many withdrawn serials a book holds at most.
pub const MOST_CARDS: usize = 1024;

pub const MOST_WITHDRAWN: usize = 512;

// The count in two bytes at a place.
fn count_at(b: &[u8], at: usize) -> usize
    requires { at ≤ 2424797 }
    ensures { (result ≡ count_at b.now at) × (result ≤ 65535) }
{
    let bytes = [serial::byte_at(b, at), serial::byte_at(b, at + 1)];
    usize::from(u16::from_le_bytes(bytes))
}

// The cards of a book.
pub fn cards(b: &[u8]) -> Section
    ensures { (result ≡ cards b.now) × (result.count ≤ 65535) }
{
    Section {
        kind: Kind::Cards,
        base: 2,
        size: 37,
        count: count_at(b, 0),
    }
}

// The withdrawn serials of a book.
pub fn withdrawn(b: &[u8]) -> Section
    ensures { (result ≡ withdrawn b.now) × (result.count ≤ 65535) }
{
    let cards = cards(b);
    let end = cards.base + cards.count * cards.size;
    Section {
        kind: Kind::Serials,
        base: end + 2,
        size: 13,
        count: count_at(b, end),
    }
}

// Whether the counts are within their limits and the book ends after its last entry.
fn sized(b: &[u8]) -> bool
    ensures { result ≡ sized b.now }
{
    let n = cards(b).count;
    let w = withdrawn(b);
    (n <= MOST_CARDS) & (w.count <= MOST_WITHDRAWN) & (b.len() == w.base + w.count * w.size)
}

// Whether these bytes are a well-formed book.
pub fn is_book(b: &[u8]) -> bool
    ensures { result ≡ well_formed b.now }
{
    sized(b) && cards(b).is_ok(b) && withdrawn(b).is_ok(b)
}
