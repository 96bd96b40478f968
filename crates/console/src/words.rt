// The word that a line begins with, and the items that its step has.
ghost use Rattle.std.specs.Prelude.{◌≡◌, ◌≤◌, ◌<◌, length, get_or};
ghost use Rattle.console.specs.declared.words.Kind.TheVariants as «kind»;
ghost use Rattle.console.specs.Words.{word_of, most, items_of, enough};
ghost use Rattle.console.specs.Inside.{word_in};

use serial::same_text;

#[derive(Clone, Copy)]
pub enum Word {
    Start,
    Open,
    Write,
    Commit,
    Drop,
    Hold,
    Read,
    Poll,
    Block,
    Reset,
    Cards,
    Help,
    Other,
}

// What must stand at an item's place: a number; one or a name beside it; a sample; how many bytes are lent; a byte.
#[derive(Clone, Copy)]
pub enum Kind {
    Number,
    Field,
    Slot,
    Register,
    Sample,
    Room,
    Byte,
}

const WORDS: [(&[u8], Word); 12] = [
    (b"start", Word::Start),
    (b"open", Word::Open),
    (b"write", Word::Write),
    (b"commit", Word::Commit),
    (b"drop", Word::Drop),
    (b"hold", Word::Hold),
    (b"read", Word::Read),
    (b"poll", Word::Poll),
    (b"block", Word::Block),
    (b"reset", Word::Reset),
    (b"cards", Word::Cards),
    (b"help", Word::Help),
];

// The word of the first entry whose letters an item is.
fn word_in(table: &[(&[u8], Word)], item: &[u8]) -> Word
    ensures { result ≡ word_in table.now item.now }
{
    match table.iter().find(|e| same_text(e.0, item)) {
        Some(entry) => entry.1,
        None => Word::Other,
    }
}

pub(super) fn first_word(item: &[u8]) -> Word
    ensures { result ≡ word_of item.now }
{
    word_in(&WORDS, item)
}

// The most items that a step has.
pub(super) const MOST: usize = 13;

// How many items follow it, but for the text of an open, the bytes of a poll and the samples of a block.
#[tactic(auto, unfolding(crate::specs::Words::items_of))]
pub(super) fn arity(w: Word) -> usize
    ensures { (result ≡ length (items_of w)) × (result ≤ most) }
{
    match w {
        Word::Start => MOST,
        Word::Open => 1,
        Word::Write => 3,
        Word::Commit => 1,
        Word::Drop => 1,
        Word::Hold => 1,
        Word::Read => 2,
        Word::Poll => 1,
        Word::Reset => 1,
        Word::Block => 0,
        Word::Cards => 0,
        Word::Help => 0,
        Word::Other => 0,
    }
}

// Whether so many of them are enough: a start's last five may be left out.
pub(super) fn are_enough(w: Word, count: usize) -> bool
    ensures { result ≡ enough w count }
{
    (arity(w) <= count) | (8 <= count)
}

// What must stand as its kth item.
#[tactic(auto, unfolding(crate::specs::Words::items_of))]
pub(super) fn kind_at(w: Word, k: usize) -> Kind
    requires { k < length (items_of w) }
    ensures { result ≡ get_or (items_of w) k «kind».Number }
{
    match w {
        Word::Start => {
            if (2 <= k) & (k < 8) {
                Kind::Slot
            } else {
                Kind::Number
            }
        }
        Word::Write => { if k == 1 { Kind::Field } else { Kind::Number } }
        Word::Read => { if k == 1 { Kind::Register } else { Kind::Number } }
        Word::Poll => Kind::Room,
        _ => Kind::Number,
    }
}
