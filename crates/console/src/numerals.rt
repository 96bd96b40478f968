// A number as a line has it: decimal with an optional `-`, or `0x` and hexadecimal digits, within the range of i64; and a byte.
ghost use Rattle.std.specs.Prelude.{◌≡◌, ◌≤◌};
ghost use Rattle.console.specs.Numbers.{digit_of, digits_of, positive, negative, value_of, pair_of};

// What a byte is worth as a digit.
#[tactic(auto, unfolding(crate::specs::Numbers::digit_of))]
pub(super) fn digit(c: u8) -> Option<u64>
    ensures { result ≡ digit_of c }
{
    match c {
        b'0'..=b'9' => Some(u64::from(c - b'0')),
        b'A'..=b'F' => Some(u64::from(c - b'A') + 10),
        b'a'..=b'f' => Some(u64::from(c - b'a') + 10),
        _ => None,
    }
}

// What a text of digits in a base is worth, up to 2^63.
fn digits(text: &[u8], base: u64) -> Option<u64>
    requires { (1 ≤ base) × (base ≤ 16) }
    ensures { result ≡ digits_of base text.now }
{
    if text.is_empty() {
        return None;
    }
    let mut worth: u64 = 0;
    for c in text {
        let d = digit(*c)?;
        if base <= d {
            return None;
        }
        worth = worth.checked_mul(base)?.checked_add(d)?;
    }
    (worth <= 1 << 63).then_some(worth)
}

#[tactic(auto, unfolding(crate::specs::Numbers::positive))]
fn plus(worth: Option<u64>) -> Option<i64>
    ensures { result ≡ positive worth }
{
    let x = worth?;
    if x < 1 << 63 { Some(x as i64) } else { None }
}

#[tactic(auto, unfolding(crate::specs::Numbers::negative))]
fn minus(worth: Option<u64>) -> Option<i64>
    ensures { result ≡ negative worth }
{
    let x = worth?;
    if x < 1 << 63 {
        return Some(-(x as i64));
    }
    (x == 1 << 63).then_some(i64::MIN)
}

// What a text is worth as a number.
pub(super) fn value(text: &[u8]) -> Option<i64>
    ensures { result ≡ value_of text.now }
{
    if let Some(rest) = text.strip_prefix(b"0x") {
        return plus(digits(rest, 16));
    }
    if let Some(rest) = text.strip_prefix(b"-") {
        return minus(digits(rest, 10));
    }
    plus(digits(text, 10))
}

// What exactly two hexadecimal digits are worth.
#[tactic(auto, unfolding(crate::specs::Numbers::pair_of))]
pub(super) fn pair(text: &[u8]) -> Option<i64>
    ensures { result ≡ pair_of text.now }
{
    if text.len() == 2 {
        return plus(digits(text, 16));
    }
    None
}
