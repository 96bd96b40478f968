// Words, and the items of a line, which one space parts.
ghost use Rattle.std.specs.Prelude.{◌≡◌, length};
ghost use Rattle.console.specs.Texts.{length_to, without_return};

// How long a line is without the carriage return that may stand before its end.
#[tactic(auto, unfolding(crate::specs::Texts::without_return))]
pub(super) fn line_length(line: &[u8]) -> usize
    ensures { result ≡ length (without_return line.now) }
{
    let n = line.len();
    if n == 0 {
        return 0;
    }
    if line[n - 1] == b'\r' { n - 1 } else { n }
}

// How far it is in a text to a byte: a space that ends an item, a line feed that ends a line. Without one, to the end.
pub(super) fn length_to(stop: u8, text: &[u8]) -> usize
    ensures { result ≡ length_to stop text.now }
{
    text.iter().position(|c| *c == stop).unwrap_or(text.len())
}
