// What a serial is: document 01, "A probe's card". Bytes at a place, and the 13 bytes of a serial.
#![tactic(auto)]

ghost use Rattle.std.specs.Prelude.{◌≡◌, ◌+◌, ◌≤◌, length, get_or};
ghost use Rattle.serial.specs.Texts.{same_text};
ghost use Rattle.serial.specs.Places.{put, put_within};
ghost use Rattle.serial.specs.Serials.{digits_ok, is_serial, no_serial, padded, serial_of, serial_bytes, place_ok, holds_serial};

// The 13 bytes of a serial in a card: the number of digits; the digits, and then zero bytes.
#[derive(Clone, Copy, Debug, PartialEq, Eq)]
pub struct Serial {
    pub len: u8,
    pub digits: [u8; 12],
}

// Whether every byte of a text is an ASCII digit.
pub fn all_digits(text: &[u8]) -> bool
    ensures { result ≡ digits_ok text.now }
{
    let mut ok = true;
    for k in 0..text.len() {
        ok = ok & text[k].is_ascii_digit();
    }
    ok
}

// Whether a text is a serial: 1 to 12 ASCII digits.
pub fn is_serial(text: &[u8]) -> bool
    ensures { result ≡ is_serial text.now }
{
    (1..=12).contains(&text.len()) && all_digits(text)
}

// The byte at a place, or 0 past the end.
pub fn byte_at(b: &[u8], k: usize) -> u8
    ensures { result ≡ get_or b.now k 0 }
{
    b.get(k).copied().unwrap_or(0)
}

// Whether two texts are the same: as long, and byte for byte.
pub fn same_text(a: &[u8], b: &[u8]) -> bool
    ensures { result ≡ same_text a.now b.now }
{
    a == b
}

// Copies xs into b at a place where there is room.
fn copy_in(b: &mut [u8], at: usize, xs: &[u8])
    requires { at + length xs.now ≤ length b.old }
    ensures { b.new ≡ put b.old at xs.now }
{
    for k in 0..xs.len() {
        b[at + k] = xs[k];
    }
}

// Copies xs into b at a place; where it does not fit, nothing is written.
pub fn put_at(b: &mut [u8], at: usize, xs: &[u8])
    ensures { b.new ≡ put_within b.old at xs.now }
{
    let n = xs.len();
    if n <= b.len() && at <= b.len() - n {
        copy_in(b, at, xs);
    }
}

#[tactic(auto, using(crate::proofs::Places::drop_replicate), unfolding(crate::specs::Serials::padded))]
fn digits_of(text: &[u8]) -> [u8; 12]
    requires { length text.now ≤ 12 }
    ensures { result ≡ padded text.now }
{
    let mut d = [0u8; 12];
    d[..text.len()].copy_from_slice(text);
    d
}

impl Serial {
    pub fn none() -> Serial
        ensures { result ≡ no_serial }
    {
        Serial {
            len: 0,
            digits: [0u8; 12],
        }
    }

    // The serial that a text is; none where it is none.
    #[tactic(auto, using(crate::proofs::Serials::serial_short), unfolding(crate::specs::Serials::serial_of))]
    pub fn of(text: &[u8]) -> Serial
        ensures { result ≡ serial_of text.now }
    {
        if is_serial(text) {
            Serial {
                len: text.len() as u8,
                digits: digits_of(text),
            }
        } else {
            Serial::none()
        }
    }

    // Its 13 bytes.
    #[tactic(auto, unfolding(crate::specs::Serials::serial_bytes))]
    pub fn bytes(self) -> [u8; 13]
        ensures { result ≡ serial_bytes self }
    {
        let mut e = [0u8; 13];
        e[0] = self.len;
        e[1..].copy_from_slice(&self.digits);
        e
    }
}

// Whether a byte may stand at place k of the twelve, where there are n digits.
#[tactic(auto, unfolding(crate::specs::Serials::place_ok))]
fn place_ok(n: u8, k: usize, d: u8) -> bool
    ensures { result ≡ place_ok n k d }
{
    if k < n as usize {
        d.is_ascii_digit()
    } else {
        d == 0
    }
}

// Whether the first 13 bytes are those of a serial.
pub fn holds_serial(e: &[u8]) -> bool
    ensures { result ≡ holds_serial e.now }
{
    let n = byte_at(e, 0);
    let mut ok = (1 <= n) & (n <= 12);
    for k in 0..12 {
        ok &= place_ok(n, k, byte_at(e, 1 + k));
    }
    ok
}
