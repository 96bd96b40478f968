// A line that the counter prints, as it is made.
ghost use Rattle.std.specs.Prelude.{◌≤◌};

// Its first len bytes are the line; there is room for 96.
#[derive(Clone, Copy)]
pub(crate) struct Line {
    pub(crate) bytes: [u8; 96],
    pub(crate) len: usize,
    ghost within: { len ≤ 96 },
}
