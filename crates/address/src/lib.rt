// The register table, and its two kinds of address.
#![tactic(auto)]

ghost use Rattle.std.specs.Prelude.{◌≡◌};
ghost use Rattle.address.specs.Addresses.{row_in, rows, byte_of, place_of, register_of, word_addr, byte_addr};
ghost use Rattle.address.specs.Slots.{slot_ok, every_slot};

#[derive(Clone, Copy, Debug, PartialEq, Eq)]
pub struct WordAddr(pub u32);

#[derive(Clone, Copy, Debug, PartialEq, Eq)]
pub struct ByteAddr(pub u64);

// How many registers the table has.
pub const ROWS: usize = 29;

const WORDS: [u32; ROWS] = [
    0x2B, 0x3E, 0x46, 0x4B, 0x4E, 0x65, 0x8B, 0x8F, 0x92, 0x3F, 0x47, 0x4C, 0x4F, 0x66, 0x8C, 0x95,
    0x98, 0x71, 0x72, 0x73, 0x74, 0x75, 0x76, 0x77, 0x78, 0x79, 0x7A, 0x7B, 0x7C,
];

// Byte is three times word.
pub fn byte_of(w: WordAddr) -> ByteAddr
    ensures { result ≡ byte_of w }
{
    ByteAddr(3 * w.0 as u64)
}

// Where a word stands among the seven that can be tracked.
pub fn place_of(w: WordAddr) -> Option<usize>
    ensures { result ≡ row_in 7 (place_of w) }
{
    WORDS[..7].iter().position(|x| *x == w.0)
}

// Where a byte address stands in the table.
pub fn register_of(a: ByteAddr) -> Option<usize>
    ensures { result ≡ row_in rows (register_of a) }
{
    WORDS.iter().position(|x| byte_of(WordAddr(*x)) == a)
}

// A number as a word address.
pub fn word_addr(x: i64) -> WordAddr
    ensures { result ≡ word_addr x }
{
    WordAddr(u32::try_from(x).unwrap_or(u32::MAX))
}

// A number as a byte address.
pub fn byte_addr(x: i64) -> ByteAddr
    ensures { result ≡ byte_addr x }
{
    ByteAddr(u64::try_from(x).unwrap_or(u64::MAX))
}

// Whether a slot is off or names a register that can be tracked.
fn slot_ok(w: WordAddr) -> bool
    ensures { result ≡ slot_ok w }
{
    w == WordAddr(0) || place_of(w).is_some()
}

pub fn all_slots(track: [WordAddr; 6]) -> bool
    ensures { result ≡ every_slot track }
{
    track.iter().all(|w| slot_ok(*w))
}
