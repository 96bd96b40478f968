// A card as its 37 bytes.
#![tactic(auto)]

ghost use Rattle.std.specs.Prelude.{◌≡◌, ◌≤◌};
ghost use Rattle.card.specs.Cards.{bits24, three_bytes, card_bytes};

use serial::Serial;

// The last 24 bits of a number.
fn last_24(v: i64) -> u32
    ensures { (result ≡ bits24 v) × (result ≤ 16777215) }
{
    let size = number::size(v);
    if v < 0 {
        16777215 - ((size - 1) % 16777216) as u32
    } else {
        (size % 16777216) as u32
    }
}

// A number as three bytes, low byte first.
fn three_bytes(n: u32) -> [u8; 3]
    ensures { result ≡ three_bytes n }
{
    [
        (n % 256) as u8,
        (n / 256 % 256) as u8,
        (n / 65536 % 256) as u8,
    ]
}

// The last 24 bits of a number as three bytes: a field of a card, or a register on the serial line.
pub fn field_bytes(v: i64) -> [u8; 3]
    ensures { result ≡ three_bytes (bits24 v) }
{
    three_bytes(last_24(v))
}

// The 37 bytes of the card with a serial and eight values.
pub fn card_bytes(serial: Serial, fields: [i64; 8]) -> [u8; 37]
    ensures { result ≡ card_bytes serial fields }
{
    let head = serial.bytes();
    let mut c = [0u8; 37];
    serial::put_at(&mut c, 0, &head);
    for i in 0..8 {
        let three = field_bytes(fields[i]);
        serial::put_at(&mut c, 13 + 3 * i, &three);
    }
    c
}
