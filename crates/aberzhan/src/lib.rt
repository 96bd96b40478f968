// The module: two ports that stage cards and hold readings, before the meter.
#![tactic(auto)]

ghost use Rattle.std.specs.Prelude.{◌≡◌, length};
ghost use Rattle.steps.specs.Answers.{refused, accepted, answer_of, or_as_before};
ghost use Rattle.aberzhan.specs.Module.{stepped, started, at_port, desk_of, held_of, with_desk, with_held};
ghost use Rattle.aberzhan.specs.Module.{open_of, write_of, commit_of, drop_of, hold_of, read_of, block_of, reset_of, fresh_module, start_of};
ghost use Rattle.aberzhan.specs.Module.{port_at as port_in};
ghost use Rattle.aberzhan.specs.Polling.{held_now, poll_of, poll_buffer};
ghost use Rattle.aberzhan.specs.Cards.{serial_if, cards_of};
ghost use Rattle.aberzhan.specs.Inside.{named, side_of, copied_now, begun_of};

use address::{ByteAddr, WordAddr};
use alarm::{Alarms, Asked, Watch};
use card::Card;
use desk::Desk;
use meter::Meter;
use port::Held;
use refusal::Refusal;
use sample::Clips;
use serial::Serial;

// The two ports.
#[derive(Clone, Copy)]
enum Port {
    Zero,
    One,
}

// The module. volts: the last voltages that the watch has seen. Port k has the desk and the hold with its number.
#[derive(Clone, Copy)]
pub struct Module {
    meter: Meter,
    watch: Watch,
    volts: [i32; 512],
    desk0: Desk,
    desk1: Desk,
    hold0: Held,
    hold1: Held,
}

// A start: whether what it asks for is in range, and the module begun, with the lowest settings where it is not.
#[derive(Clone, Copy)]
pub struct Started {
    pub answer: Result<(), Refusal>,
    pub module: Module,
}

// What a hold returns: the interval's number, its serial and how many of its samples were clipped, and the alarms as they are now.
#[derive(Clone, Copy)]
pub struct Holding {
    pub number: u32,
    pub serial: Serial,
    pub clips: Clips,
    pub alarms: Alarms,
}

// The serials of the card in force and of the card that waits; none where there is no such card.
#[derive(Clone, Copy)]
pub struct Cards {
    pub force: Serial,
    pub waiting: Serial,
}

fn serial_if(there: bool, c: Card) -> Serial
    ensures { result ≡ serial_if there c }
{
    if there { c.serial } else { Serial::none() }
}

// Ports are 0 and 1: 8.
fn port_at(port: i64) -> Result<Port, Refusal>
    ensures { answer_of result ≡ at_port (port_in port) (refused 8) (λ p. accepted (named p)) }
{
    if port == 0 {
        return Ok(Port::Zero);
    }
    if port == 1 {
        return Ok(Port::One);
    }
    Err(Refusal::NoPort)
}

// Each step answers, or is refused and leaves the module as it came.
impl Module {
    // No voltage has come, no port is open, nothing is held.
    fn fresh(meter: Meter, watch: Watch) -> Module
        ensures { result ≡ fresh_module meter watch }
    {
        let shut = Desk::shut();
        let nothing = Held::nothing();
        Module {
            meter,
            watch,
            volts: [0; 512],
            desk0: shut,
            desk1: shut,
            hold0: nothing,
            hold1: nothing,
        }
    }

    // A module with these settings: 7.
    fn begun(
        n: i64,
        b: i64,
        track: [WordAddr; 6],
        asked: Asked,
        config: i64,
    ) -> Result<Module, Refusal>
        ensures { answer_of result ≡ begun_of n b track asked config }
    {
        let meter = meter::start(n, b, track, config)?;
        let watch = alarm::start(asked)?;
        Ok(Module::fresh(meter, watch))
    }

    // A start with N, B, the six words to track, what is asked of the watch, and the board's configuration: 7.
    pub fn start(n: i64, b: i64, track: [WordAddr; 6], asked: Asked, config: i64) -> Started
        ensures { started result ≡ start_of n b track asked config }
    {
        match Module::begun(n, b, track, asked, config) {
            Ok(module) => Started {
                answer: Ok(()),
                module,
            },
            Err(refusal) => Started {
                answer: Err(refusal),
                module: Module::fresh(meter::lowest(), alarm::lowest()),
            },
        }
    }

    fn desk(&self, port: Port) -> Desk
        ensures { result ≡ desk_of self.now (side_of port) }
    {
        match port {
            Port::Zero => self.desk0,
            Port::One => self.desk1,
        }
    }

    fn put_desk(&mut self, port: Port, desk: Desk)
        ensures { self.new ≡ with_desk (side_of port) desk self.old }
    {
        match port {
            Port::Zero => self.desk0 = desk,
            Port::One => self.desk1 = desk,
        }
    }

    fn held(&self, port: Port) -> Held
        ensures { result ≡ held_of self.now (side_of port) }
    {
        match port {
            Port::Zero => self.hold0,
            Port::One => self.hold1,
        }
    }

    fn put_held(&mut self, port: Port, held: Held)
        ensures { self.new ≡ with_held (side_of port) held self.old }
    {
        match port {
            Port::Zero => self.hold0 = held,
            Port::One => self.hold1 = held,
        }
    }

    // Open with a serial: 8, 9, 1.
    pub fn open(&mut self, port: i64, serial: &[u8]) -> Result<(), Refusal>
        ensures { stepped result self.new ≡ open_of self.old port serial.now }
    {
        let port = port_at(port)?;
        let desk = self.desk(port).open_with(serial)?;
        self.put_desk(port, desk);
        Ok(())
    }

    // Write field, value: 8, 10, 11, 12.
    pub fn write(&mut self, port: i64, field: i64, value: i64) -> Result<(), Refusal>
        ensures { stepped result self.new ≡ write_of self.old port field value }
    {
        let port = port_at(port)?;
        let desk = self.desk(port).write_field(field, value)?;
        self.put_desk(port, desk);
        Ok(())
    }

    // Commit: 8, 10, 13. The card waits, and the desk is shut.
    pub fn commit(&mut self, port: i64) -> Result<(), Refusal>
        ensures { stepped result self.new ≡ commit_of self.old port }
    {
        let port = port_at(port)?;
        let (card, desk) = self.desk(port).finish()?;
        self.put_desk(port, desk);
        self.meter = self.meter.wait(card);
        Ok(())
    }

    // Drop: 8, 10.
    pub fn drop(&mut self, port: i64) -> Result<(), Refusal>
        ensures { stepped result self.new ≡ drop_of self.old port }
    {
        let port = port_at(port)?;
        let desk = self.desk(port).drop_card()?;
        self.put_desk(port, desk);
        Ok(())
    }

    // All registers as they stood at the last close: 14.
    fn copied(&self) -> Result<Held, Refusal>
        ensures { answer_of result ≡ copied_now self.now }
    {
        let work = self.meter.work;
        Held::copy(work.any, work.last, work.settings.track)
    }

    // Hold: 8, 14. The port has a new hold.
    pub fn hold(&mut self, port: i64) -> Result<Holding, Refusal>
        ensures { stepped result self.new ≡ hold_of self.old port }
    {
        let port = port_at(port)?;
        let held = self.copied()?;
        self.put_held(port, held);
        Ok(Holding {
            number: held.closed.number,
            serial: held.closed.serial,
            clips: held.closed.clips,
            alarms: self.watch.alarms,
        })
    }

    // Read byte address: 8, 15, 16, 17.
    pub fn read(&self, port: i64, address: ByteAddr) -> Result<i64, Refusal>
        ensures { answer_of result ≡ read_of self.now port address }
    {
        let port = port_at(port)?;
        self.held(port).look(address)
    }

    // Poll: 21. A packet of the serial line, answered from a hold of its own; the reply is put at the front of the buffer, and its length is the
    // answer. Where registers were sent, their hold is port 1's.
    pub fn poll(&mut self, packet: &[u8], out: &mut [u8]) -> Result<usize, Refusal>
        ensures { (stepped result self.new ≡ poll_of self.old packet.now (length out.old))
            × (out.new ≡ poll_buffer self.old packet.now out.old) }
    {
        let own = self.copied().unwrap_or(Held::nothing());
        let replied = poll::answer(own, packet, out).ok_or(Refusal::NoRoom)?;
        if replied.sends {
            self.hold1 = own;
        }
        Ok(replied.length)
    }

    // A block of samples, voltage and both inputs: 5, 6, 18.
    pub fn block(&mut self, v: &[i32], s1: &[i32], s3: &[i32]) -> Result<(), Refusal>
        ensures { stepped result self.new ≡ block_of self.old v.now s1.now s3.now }
    {
        let fed = self.meter.block(self.watch, &mut self.volts, v, s1, s3)?;
        self.meter = fed.meter;
        self.watch = fed.watch;
        Ok(())
    }

    // Reset: 12. Clears the alarms that the mask names.
    pub fn reset(&mut self, mask: i64) -> Result<(), Refusal>
        ensures { stepped result self.new ≡ reset_of self.old mask }
    {
        self.watch = self.watch.reset(mask)?;
        Ok(())
    }

    // Which cards it has.
    pub fn cards(&self) -> Cards
        ensures { result ≡ cards_of self.now }
    {
        Cards {
            force: serial_if(self.meter.forced, self.meter.force),
            waiting: serial_if(self.meter.waits, self.meter.waiting),
        }
    }
}
