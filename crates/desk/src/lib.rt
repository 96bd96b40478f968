// A port's desk: where a card is made.
#![tactic(auto)]

ghost use Rattle.std.specs.Prelude.{◌≡◌, ◌<◌};
ghost use Rattle.steps.specs.Answers.{answer_of};
ghost use Rattle.desk.specs.Desks.{shut_desk, empty_card, with_field, opening, writing, dropping, all_written, card_on, finishing};

use card::Card;
use refusal::Refusal;
use serial::Serial;

// A card in the making: its serial, and for each of the eight fields the value and whether it was written. A shut desk is blank.
#[derive(Clone, Copy)]
pub struct Desk {
    pub opened: bool,
    pub serial: Serial,
    pub fields: [i32; 8],
    pub written: [bool; 8],
}

// Each act takes a desk and returns it as it is then; where one is refused, the caller's is as it was.
impl Desk {
    pub fn shut() -> Desk
        ensures { result ≡ shut_desk }
    {
        Desk {
            opened: false,
            serial: Serial::none(),
            fields: [0; 8],
            written: [false; 8],
        }
    }

    // A card with a serial and nothing written yet.
    fn begun(serial: Serial) -> Desk
        ensures { result ≡ empty_card serial }
    {
        Desk {
            opened: true,
            serial,
            fields: [0; 8],
            written: [false; 8],
        }
    }

    // Open with a serial: 9, 1.
    pub fn open_with(self, serial: &[u8]) -> Result<Desk, Refusal>
        ensures { answer_of result ≡ opening self serial.now }
    {
        if self.opened {
            return Err(Refusal::PortOpen);
        }
        if serial::is_serial(serial) {
            return Ok(Desk::begun(Serial::of(serial)));
        }
        Err(Refusal::NotSerial)
    }

    // The field at place k of the eight, written.
    fn put(mut self, k: usize, value: i32) -> Desk
        requires { k < 8 }
        ensures { result ≡ with_field self k value }
    {
        self.fields[k] = value;
        self.written[k] = true;
        self
    }

    // Write field, value: 10, 11, 12.
    pub fn write_field(self, field: i64, value: i64) -> Result<Desk, Refusal>
        ensures { answer_of result ≡ writing self field value }
    {
        if !self.opened {
            return Err(Refusal::PortShut);
        }
        let numbered = (1 <= field) & (field <= 8);
        if !numbered {
            return Err(Refusal::NoField);
        }
        if card::field_in_range(field, value) {
            return Ok(self.put((field - 1) as usize, value as i32));
        }
        Err(Refusal::ValueRange)
    }

    // Drop: 10.
    pub fn drop_card(self) -> Result<Desk, Refusal>
        ensures { answer_of result ≡ dropping self }
    {
        if self.opened {
            return Ok(Desk::shut());
        }
        Err(Refusal::PortShut)
    }

    // Whether each of the eight fields was written.
    fn all_written(self) -> bool
        ensures { result ≡ all_written self.written }
    {
        self.written.iter().all(|w| *w)
    }

    fn card(self) -> Card
        ensures { result ≡ card_on self }
    {
        let fields = self.fields;
        Card {
            serial: self.serial,
            fields,
        }
    }

    // Commit: 10, 13. The card that was made, and the desk, which is shut.
    pub fn finish(self) -> Result<(Card, Desk), Refusal>
        ensures { answer_of result ≡ finishing self }
    {
        if !self.opened {
            return Err(Refusal::PortShut);
        }
        if self.all_written() {
            return Ok((self.card(), Desk::shut()));
        }
        Err(Refusal::FieldMissing)
    }
}
