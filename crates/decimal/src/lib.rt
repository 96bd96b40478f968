// A whole number as decimal text.
#![tactic(auto)]

ghost use Rattle.std.specs.Prelude.{◌≡◌, ◌<◌, ◌+◌, min, drop};
ghost use Rattle.decimal.specs.Decimals.{decimal, at_end, number_text};

// A text at the end of twenty bytes, from a place on; before it are zero bytes.
#[derive(Clone, Copy, Debug, PartialEq, Eq)]
pub struct Text {
    pub bytes: [u8; 20],
    pub from: usize,
}

impl Text {
    // The text alone; none where the place is past the end.
    pub fn text(&self) -> &[u8]
        ensures value { result.now ≡ drop self.now.from self.now.bytes }
        ensures place { (result.ref_ptr.0 ≡ self.entry.ref_ptr.0)
            × (result.ref_ptr.1 ≡ self.entry.ref_ptr.1 + min self.now.from 20) }
    {
        &self.bytes[self.from.min(20)..]
    }
}

// The digits of a number that has at most nineteen, written from the last to the first.
fn digits_of(n: u64) -> Text
    requires { n < 10000000000000000000 }
    ensures { result ≡ at_end (decimal n) }
{
    let mut bytes = [0u8; 20];
    let mut i = 20;
    let mut rest = n;
    while 10 <= rest {
        i -= 1;
        bytes[i] = (48 + rest % 10) as u8;
        rest = rest / 10;
    }
    i -= 1;
    bytes[i] = (48 + rest % 10) as u8;
    Text { bytes, from: i }
}

// The number in decimal, with a minus sign before one below 0.
pub fn number_text(v: i64) -> Text
    ensures { result ≡ number_text v }
{
    let mut t = digits_of(number::size(v));
    if v < 0 {
        let from = t.from - 1;
        t.bytes[from] = 45;
        t.from = from;
    }
    t
}
