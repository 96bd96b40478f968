// What a card is: document 01, "A probe's card".
#![tactic(auto)]

pub mod names;

ghost use Rattle.std.specs.Prelude.{◌≡◌, ◌≤◌, ◌<◌};
ghost use Rattle.card.specs.Fields.{fits_field, field_in_range, values_fit};
ghost use Rattle.card.specs.Cards.{three_at, value_of, field_at, digits_at, fields_at, card_of, fields_ok, is_card};

use serial::Serial;

#[derive(Clone, Copy, Debug, PartialEq, Eq)]
pub struct Card {
    pub serial: Serial,
    pub fields: [i32; 8],
}

// The least and the greatest value of each field, in order.
const RANGES: [(i64, i64); 8] = [
    (-8388608, 8388607), // VOFFS
    (-8388608, 8388607), // IOFFS
    (1, 8388607), // VGAIN
    (1, 8388607), // IGAIN
    (0, 4095), // PHASE
    (0, 8388607), // IRMSOFFS
    (0, 8388607), // SQUELCH
    (0, 8388607), // POFFS
];

fn fits_field(k: usize, value: i64) -> bool
    requires { k < 8 }
    ensures { result ≡ fits_field k value }
{
    let (low, high) = RANGES[k];
    (low <= value) & (value <= high)
}

// Whether a value is in the range of the field with this number; of no field but 1 to 8.
pub fn field_in_range(field: i64, value: i64) -> bool
    ensures { result ≡ field_in_range field value }
{
    if field < 1 {
        return false;
    }
    if 8 < field {
        return false;
    }
    fits_field((field - 1) as usize, value)
}

// Whether each of eight values is in the range of its field.
pub fn values_fit(values: [i64; 8]) -> bool
    ensures { result ≡ values_fit values }
{
    let mut ok = true;
    for k in 0..8 {
        ok &= fits_field(k, values[k]);
    }
    ok
}

// The number in three bytes at a place.
fn three_at(c: &[u8], at: usize) -> u32
    requires { at ≤ 37 }
    ensures { (result ≡ three_at c.now at) × (result ≤ 16777215) }
{
    let low = serial::byte_at(c, at);
    let mid = serial::byte_at(c, at + 1);
    let high = serial::byte_at(c, at + 2);
    low as u32 + 256 * mid as u32 + 65536 * high as u32
}

// What 24 bits say in the field at place k of the eight.
fn value_of(k: usize, n: u32) -> i32
    requires { n ≤ 16777215 }
    ensures { result ≡ value_of k n }
{
    if 2 <= k {
        return n as i32;
    }
    if n < 8388608 {
        return n as i32;
    }
    n as i32 - 16777216
}

// The value of the field at place k of the eight.
fn field_at(c: &[u8], k: usize) -> i32
    requires { k < 8 }
    ensures { result ≡ field_at c.now k }
{
    value_of(k, three_at(c, 13 + 3 * k))
}

fn digits_at(c: &[u8]) -> [u8; 12]
    ensures { result ≡ digits_at c.now }
{
    let mut d = [0u8; 12];
    for k in 0..12 {
        d[k] = serial::byte_at(c, 1 + k);
    }
    d
}

fn fields_at(c: &[u8]) -> [i32; 8]
    ensures { result ≡ fields_at c.now }
{
    let mut f = [0i32; 8];
    for k in 0..8 {
        f[k] = field_at(c, k);
    }
    f
}

impl Card {
    // The card in 37 bytes; a byte past the end counts as zero.
    pub fn of(c: &[u8]) -> Card
        ensures { result ≡ card_of c.now }
    {
        let serial = Serial {
            len: serial::byte_at(c, 0),
            digits: digits_at(c),
        };
        Card {
            serial,
            fields: fields_at(c),
        }
    }
}

fn fields_ok(c: &[u8]) -> bool
    ensures { result ≡ fields_ok c.now }
{
    let mut ok = true;
    for k in 0..8 {
        ok &= fits_field(k, field_at(c, k) as i64);
    }
    ok
}

// Whether these are the 37 bytes of a card.
pub fn is_card(c: &[u8]) -> bool
    ensures { result ≡ is_card c.now }
{
    (c.len() == 37) & serial::holds_serial(c) & fields_ok(c)
}
