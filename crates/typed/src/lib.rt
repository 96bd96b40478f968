// A whole number as it is typed on a command line.
#![tactic(auto)]

ghost use Rattle.std.specs.Prelude.{◌≡◌, ◌-◌, ◌≤◌, length};
ghost use Rattle.typed.specs.Values.{numeral, held, is_numeral, signed_by, sized_value, value_of};

fn digit(d: u8) -> u64
    ensures { (result ≡ d - 48) × (result ≤ 255) }
{
    u64::from(d.saturating_sub(48))
}

fn hold(n: u64) -> u64
    ensures { (result ≡ held n) × (result ≤ 100000000) }
{
    n.min(100000000)
}

fn size_of(text: &[u8]) -> u64
    ensures { (result ≡ held (numeral text.now (length text.now))) × (result ≤ 100000000) }
{
    let mut n = 0;
    for d in text {
        n = hold(10 * n + digit(*d));
    }
    n
}

#[tactic(auto, unfolding(crate::specs::Values::is_numeral))]
fn is_numeral(text: &[u8]) -> bool
    ensures { result ≡ is_numeral text.now }
{
    !text.is_empty() & serial::all_digits(text)
}

fn signed(below: bool, n: u64) -> i64
    requires { n ≤ 100000000 }
    ensures { result ≡ signed_by below n }
{
    if below { 0 - n as i64 } else { n as i64 }
}

fn sized(below: bool, digits: &[u8]) -> Option<i64>
    ensures { result ≡ sized_value below digits.now }
{
    if is_numeral(digits) {
        Some(signed(below, size_of(digits)))
    } else {
        None
    }
}

// The whole decimal number that a word is, if it is one; one beyond every field's range is held at 100,000,000.
pub fn value_of(word: &[u8]) -> Option<i64>
    ensures { result ≡ value_of word.now }
{
    if serial::byte_at(word, 0) == 45 {
        return sized(true, &word[1..]);
    }
    sized(false, word)
}
