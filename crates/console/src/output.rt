// Texts put behind the answers that are gathered in a buffer; each function gives the number of bytes that are used then.
ghost use Rattle.std.specs.Prelude.{◌≡◌, ◌++◌, ◌+◌, ◌*◌, ◌≤◌, ◌<◌, length, take};
ghost use Rattle.decimal.specs.Decimals.{signed_decimal};
ghost use Rattle.console.specs.Answers.{digits_text, card_text, hex_digit, bytes_text};

use serial::Serial;

#[tactic(auto, using(serial::proofs::Places::put_fits, serial::proofs::Places::front_put))]
pub(super) fn put(out: &mut [u8], used: usize, text: &[u8]) -> usize
    requires { used + length text.now ≤ length out.old }
    ensures { (take result out.new ≡ take used out.old ++ text.now) × (result ≡ used + length text.now) }
{
    serial::put_at(out, used, text);
    used + text.len()
}

pub(super) fn put_number(out: &mut [u8], used: usize, v: i64) -> usize
    requires { used + 20 ≤ length out.old }
    ensures { (take result out.new ≡ take used out.old ++ signed_decimal v) × (result ≤ used + 20) }
{
    put(out, used, decimal::number_text(v).text())
}

#[tactic(auto, unfolding(crate::specs::Answers::digits_text))]
pub(super) fn put_digits(out: &mut [u8], used: usize, s: Serial) -> usize
    requires { used + 12 ≤ length out.old }
    ensures { (take result out.new ≡ take used out.old ++ digits_text s) × (result ≤ used + 12) }
{
    let digits = s.digits;
    let n = s.len as usize;
    if n <= 12 {
        return put(out, used, &digits[..n]);
    }
    used
}

// A card's serial, or `-` where there is no card.
#[tactic(auto, unfolding(crate::specs::Answers::card_text, serial::specs::Ascii::ascii))]
pub(super) fn put_card(out: &mut [u8], used: usize, s: Serial) -> usize
    requires { used + 12 ≤ length out.old }
    ensures { (take result out.new ≡ take used out.old ++ card_text s) × (result ≤ used + 12) }
{
    if s.len == 0 {
        return put(out, used, b"-");
    }
    put_digits(out, used, s)
}

#[tactic(auto, unfolding(crate::specs::Answers::hex_digit))]
fn hex_digit(d: u8) -> u8
    requires { d < 16 }
    ensures { result ≡ hex_digit d }
{
    if d < 10 { d + 48 } else { d + 55 }
}

// Each byte as a space and two hexadecimal digits.
#[tactic(auto, using(crate::proofs::AnswerLaws::one_byte))]
pub(super) fn put_bytes(out: &mut [u8], used: usize, bytes: &[u8]) -> usize
    requires { used + 3 * length bytes.now ≤ length out.old }
    ensures out_after { take result out.new ≡ take used out.old ++ bytes_text bytes.now }
    ensures value { result ≡ used + 3 * length bytes.now }
{
    let mut at = used;
    for b in bytes {
        let text = [b' ', hex_digit(*b / 16), hex_digit(*b % 16)];
        at = put(out, at, &text);
    }
    at
}
