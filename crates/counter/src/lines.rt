// The lines that the counter prints, each made whole.
ghost use Rattle.std.specs.Prelude.{◌≡◌, [], ◌++◌, ◌+◌, ◌≤◌, length};
ghost use Rattle.decimal.specs.Decimals.{signed_decimal};
ghost use Rattle.refusal.specs.Numbers.{number_of};
ghost use Rattle.counter.specs.Lines.{shown, text_line, number_line, refused_line};

use crate::line::Line;
use refusal::Refusal;

impl Line {
    fn new() -> Line
        ensures { (shown result ≡ []) × (result.len ≡ 0) }
    {
        Line {
            bytes: [0u8; 96],
            len: 0,
        }
    }

    // The line with a text behind what it has.
    fn then(self, text: &[u8]) -> Line
        requires { self.len + length text.now ≤ 96 }
        ensures { (shown result ≡ shown self ++ text.now) × (result.len ≡ self.len + length text.now) }
    {
        let mut bytes = self.bytes;
        serial::put_at(&mut bytes, self.len, text);
        Line {
            bytes,
            len: self.len + text.len(),
        }
    }

    // The line with a number behind what it has.
    fn then_number(self, v: i64) -> Line
        requires { self.len + 20 ≤ 96 }
        ensures { (shown result ≡ shown self ++ signed_decimal v) × (result.len ≤ self.len + 20) }
    {
        self.then(decimal::number_text(v).text())
    }

    // What stands in it.
    pub(crate) fn text(&self) -> &[u8]
        ensures { result.now ≡ shown self.now }
    {
        &self.bytes[..self.len]
    }
}

// A name and a text.
pub(crate) fn text_line(name: &[u8], text: &[u8]) -> Line
    requires { (length name.now ≤ 20) × (length text.now ≤ 20) }
    ensures { shown result ≡ text_line name.now text.now }
{
    Line::new().then(name).then(b" ").then(text).then(b"\n")
}

// A name and a number.
pub(crate) fn number_line(name: &[u8], v: i64) -> Line
    requires { length name.now ≤ 20 }
    ensures { shown result ≡ number_line name.now v }
{
    Line::new().then(name).then(b" ").then_number(v).then(b"\n")
}

// A refusal's number and its words.
pub(crate) fn refused_line(refusal: Refusal) -> Line
    ensures { shown result ≡ refused_line (number_of refusal) }
{
    let head = Line::new()
        .then(b"REFUSED")
        .then(b" ")
        .then_number(refusal.number() as i64);
    head.then(b": ")
        .then(refusal.words().as_bytes())
        .then(b"\n")
}
