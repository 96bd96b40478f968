// The refusals: document 01, "Numbers that say no", each with its number and, in short English, its words.
#![tactic(auto)]

ghost use Rattle.std.specs.Prelude.{◌≡◌, length, Some};
ghost use Rattle.serial.specs.Places.{put_within};
ghost use Rattle.refusal.specs.Numbers.{number_of, numbered};
ghost use Rattle.refusal.specs.Words.{words_of, written_of};

use std::fmt;

// Why a step is refused, in the order of the document's numbers.
#[derive(Clone, Copy, Debug, PartialEq, Eq)]
pub enum Refusal {
    NotSerial = 1,
    Malformed,
    Withdrawn,
    NoCard,
    BlockSize,
    SampleRange,
    StartRange,
    NoPort,
    PortOpen,
    PortShut,
    NoField,
    ValueRange,
    FieldMissing,
    NoInterval,
    NothingHeld,
    NoRegister,
    SlotOff,
    NoCardYet,
    Present,
    Full,
    NoRoom,
}

impl Refusal {
    // The document's number.
    pub fn number(self) -> u8
        ensures { result ≡ number_of self }
    {
        self as u8
    }

    // In short English.
    pub fn words(self) -> &'static str
        ensures { result.now ≡ words_of (number_of self) }
    {
        match self {
            Refusal::NotSerial => "not 1 to 12 digits",
            Refusal::Malformed => "the book is not well formed",
            Refusal::Withdrawn => "the serial is withdrawn",
            Refusal::NoCard => "no card with that serial",
            Refusal::BlockSize => "blocks unequal, or over 4,096 samples",
            Refusal::SampleRange => "a sample outside the 24-bit range",
            Refusal::StartRange => "a start setting out of range",
            Refusal::NoPort => "no such port",
            Refusal::PortOpen => "the port is open already",
            Refusal::PortShut => "the port is not open",
            Refusal::NoField => "no such field",
            Refusal::ValueRange => "a value outside its range",
            Refusal::FieldMissing => "a field not written",
            Refusal::NoInterval => "no interval has closed yet",
            Refusal::NothingHeld => "nothing is held on this port",
            Refusal::NoRegister => "no register has this byte address",
            Refusal::SlotOff => "MIN or MAX of a slot that is off",
            Refusal::NoCardYet => "no card in force and none waits",
            Refusal::Present => "the serial is in that section already",
            Refusal::Full => "the section is full",
            Refusal::NoRoom => "the buffer is too short",
        }
    }

    // The refusal with a number; none has any but 1 to 21.
    pub fn of_number(number: usize) -> Option<Refusal>
        ensures { result ≡ numbered number }
    {
        match number {
            1 => Some(Refusal::NotSerial),
            2 => Some(Refusal::Malformed),
            3 => Some(Refusal::Withdrawn),
            4 => Some(Refusal::NoCard),
            5 => Some(Refusal::BlockSize),
            6 => Some(Refusal::SampleRange),
            7 => Some(Refusal::StartRange),
            8 => Some(Refusal::NoPort),
            9 => Some(Refusal::PortOpen),
            10 => Some(Refusal::PortShut),
            11 => Some(Refusal::NoField),
            12 => Some(Refusal::ValueRange),
            13 => Some(Refusal::FieldMissing),
            14 => Some(Refusal::NoInterval),
            15 => Some(Refusal::NothingHeld),
            16 => Some(Refusal::NoRegister),
            17 => Some(Refusal::SlotOff),
            18 => Some(Refusal::NoCardYet),
            19 => Some(Refusal::Present),
            20 => Some(Refusal::Full),
            21 => Some(Refusal::NoRoom),
            _ => None,
        }
    }
}

impl fmt::Display for Refusal {
    ghost output = { λ r. Some (words_of (number_of r)) };

    fn fmt<W: fmt::Write>(&self, f: &mut fmt::Formatter<W>) -> fmt::Result {
        f.write_str(self.words())
    }
}

// Puts a text at the front of a buffer, where it fits, and gives how many bytes are written.
fn put(buffer: &mut [u8], text: &[u8]) -> usize
    ensures { (result ≡ written_of text.now (length buffer.old))
        × (buffer.new ≡ put_within buffer.old 0 text.now) }
{
    if buffer.len() < text.len() {
        return 0;
    }
    serial::put_at(buffer, 0, text);
    text.len()
}

// Puts the words of a refusal's number at the front of a buffer and gives how many bytes they are: 0 where there are none, or too little room.
pub fn words(number: usize, buffer: &mut [u8]) -> usize
    ensures { (result ≡ written_of (words_of number) (length buffer.old))
        × (buffer.new ≡ put_within buffer.old 0 (words_of number)) }
{
    match Refusal::of_number(number) {
        Some(refusal) => put(buffer, refusal.words().as_bytes()),
        None => 0,
    }
}
