// A packet of the serial line answered from a hold: its registers are gathered, and the reply put into a lent buffer.
#![tactic(auto)]

ghost use Rattle.std.specs.Prelude.{◌≡◌, ◌+◌, ◌*◌, ◌≤◌, length};
ghost use Rattle.serial.specs.Places.{put, put_within};
ghost use Rattle.card.specs.Cards.{fields_bytes};
ghost use Rattle.packet.specs.Commands.{registers_from, command_of, asked_from, asked_by, at_first};
ghost use Rattle.packet.specs.Replies.{code, values_reply, reply_bytes};
ghost use Rattle.poll.specs.Polls.{read_at, reply_from, replied_in};
ghost use Rattle.poll.specs.Inside.{none_gathered, keeping, read_into, walked, gathers, sending_of, ending_reply};

use address::ByteAddr;
use packet::{Command, Device, Ending};
use port::Held;

// A reply that fits: how long it is, and whether it sends registers.
#[derive(Clone, Copy)]
pub struct Replied {
    pub length: usize,
    pub sends: bool,
}

// The registers read so far. A reply has room for 84 of them; the count stops at 85.
#[derive(Clone, Copy)]
struct Gathered {
    count: usize,
    values: [i64; 84],
}

// What a command leaves for the next.
#[derive(Clone, Copy)]
struct Walked {
    device: Device,
    gathered: Gathered,
}

fn keep(mut g: Gathered, v: i64) -> Gathered
    ensures { result ≡ keeping g v }
{
    let n = g.count;
    if n < 84 {
        g.values[n] = v;
        g.count = n + 1;
        return g;
    }
    g.count = 85;
    g
}

// Reads n registers from a byte address on. A refused one ends the packet: a negative acknowledge.
fn read_on(h: Held, g: Gathered, pointer: u16, n: u8) -> Result<Gathered, Ending>
    ensures { result ≡ read_into (read_at h) (registers_from pointer n) g }
{
    let mut got = g;
    for k in 0..n {
        let at = pointer as u64 + 3 * k as u64;
        let Ok(v) = h.look(ByteAddr(at)) else {
            return Err(Ending::Fails(0xB0));
        };
        got = keep(got, v);
    }
    Ok(got)
}

// One command; or the ending, where it stops the packet.
fn walk(h: Held, d: Device, g: Gathered, c: u8, behind: &[u8]) -> Result<Walked, Ending>
    ensures { result ≡ walked (read_at h) d g (command_of d c behind.now) }
{
    match packet::obey(d, c, behind) {
        Command::Goes(device) => Ok(Walked {
            device,
            gathered: g,
        }),
        Command::Reads(n, device) => {
            let gathered = read_on(h, g, d.pointer, n)?;
            Ok(Walked { device, gathered })
        }
        Command::Stops(e) => Err(e),
    }
}

// The commands of a packet, one after another, up to one that stops it.
fn gather(h: Held, commands: &[u8]) -> Result<Gathered, Ending>
    ensures { result ≡ gathers (read_at h) none_gathered (asked_from commands.now 0 at_first) }
{
    let mut d = Device {
        selected: true,
        pointer: 0,
    };
    let mut g = Gathered {
        count: 0,
        values: [0; 84],
    };
    let mut at = 0;
    while at < commands.len() {
        let c = commands[at];
        let next = at + 1;
        let w = walk(h, d, g, c, &commands[next..])?;
        d = w.device;
        g = w.gathered;
        at = next + packet::parameters(c);
    }
    Ok(g)
}

// A reply of one byte.
fn send_code(c: u8, out: &mut [u8]) -> Option<Replied>
    ensures { (result ≡ replied_in (length out.old) (code c)) × (out.new ≡ put_within out.old 0 (reply_bytes (code c))) }
{
    if out.len() < 1 {
        return None;
    }
    serial::put_at(out, 0, &[c]);
    Some(Replied {
        length: 1,
        sends: false,
    })
}

// Registers behind the code and the count.
fn put_registers(values: &[i64], out: &mut [u8])
    requires { (length values.now ≤ 84) × (2 + 3 * length values.now ≤ length out.old) }
    ensures { out.new ≡ put out.old 2 (fields_bytes values.now) }
{
    for k in 0..values.len() {
        let three = cardbytes::field_bytes(values[k]);
        serial::put_at(out, 2 + 3 * k, &three);
    }
}

// A reply with registers.
fn put_values(values: &[i64], out: &mut [u8])
    requires { (length values.now ≤ 84) × (3 * length values.now + 3 ≤ length out.old) }
    ensures { out.new ≡ put out.old 0 (values_reply values.now) }
{
    let n = values.len();
    let end = 3 * n + 2;
    let head = [0xAA, (3 * n + 3) as u8];
    serial::put_at(out, 0, &head);
    put_registers(values, out);
    let sum = [packet::sum_of(&out[..end])];
    serial::put_at(out, end, &sum);
}

// The registers behind the last command: none, some, or too many for a reply.
fn send_values(g: Gathered, out: &mut [u8]) -> Option<Replied>
    ensures { (result ≡ replied_in (length out.old) (sending_of g))
        × (out.new ≡ put_within out.old 0 (reply_bytes (sending_of g))) }
{
    let n = g.count;
    let values = g.values;
    if 84 < n {
        return send_code(0xBF, out);
    }
    if n == 0 {
        return send_code(0xAD, out);
    }
    let length = 3 * n + 3;
    if out.len() < length {
        return None;
    }
    put_values(&values[..n], out);
    Some(Replied {
        length,
        sends: true,
    })
}

// All that a packet asks for, or how it ends.
fn asked(h: Held, packet: &[u8]) -> Result<Gathered, Ending>
    ensures { result ≡ gathers (read_at h) none_gathered (asked_by packet.now) }
{
    match packet::judge(packet) {
        Ending::Whole => {
            let end = packet.len() - 1;
            gather(h, &packet[2..end])
        }
        ending => Err(ending),
    }
}

// The reply to how a packet ends: a code, or none.
fn send_ending(e: Ending, out: &mut [u8]) -> Option<Replied>
    ensures { (result ≡ replied_in (length out.old) (ending_reply e))
        × (out.new ≡ put_within out.old 0 (reply_bytes (ending_reply e))) }
{
    match e {
        Ending::Fails(c) => send_code(c, out),
        _ => Some(Replied {
            length: 0,
            sends: false,
        }),
    }
}

// Answers a packet from a hold: the reply is put at the front of the buffer, where it fits.
pub fn answer(h: Held, packet: &[u8], out: &mut [u8]) -> Option<Replied>
    ensures { (result ≡ replied_in (length out.old) (reply_from h packet.now))
        × (out.new ≡ put_within out.old 0 (reply_bytes (reply_from h packet.now))) }
{
    match asked(h, packet) {
        Ok(gathered) => send_values(gathered, out),
        Err(ending) => send_ending(ending, out),
    }
}
