// A packet of the serial line: whether it is whole, and its commands one by one.
#![tactic(auto)]

ghost use Rattle.std.specs.Prelude.{◌≡◌, ◌≤◌, length};
ghost use Rattle.packet.specs.Packets.{checksum, no_packet, sum_right, judged};
ghost use Rattle.packet.specs.Commands.{parameters, selects, target_of, selecting, not_used, pointed, bytes_read, reading, while_selected, command_of};

use serial::byte_at;

// How a packet, or the row of its commands, ends: it is whole; it fails, with the code that is the reply; or it has no reply.
#[derive(Clone, Copy, Debug, PartialEq, Eq)]
pub enum Ending {
    Whole,
    Fails(u8),
    Unanswered,
}

// What a command finds: whether this device is selected, and the address pointer.
#[derive(Clone, Copy, Debug, PartialEq, Eq)]
pub struct Device {
    pub selected: bool,
    pub pointer: u16,
}

// What a command comes to: what the next one finds; so many registers read from the pointer on, and what the next one finds; or that it stops the
// packet.
#[derive(Clone, Copy, Debug, PartialEq, Eq)]
pub enum Command {
    Goes(Device),
    Reads(u8, Device),
    Stops(Ending),
}

// The sum of all bytes, modulo 256.
pub fn sum_of(bytes: &[u8]) -> u8
    ensures { result ≡ checksum bytes.now }
{
    let mut sum: u8 = 0;
    for b in bytes {
        sum = sum.wrapping_add(*b);
    }
    sum
}

// What is no packet: too short, another header, a count below 3, or fewer bytes than the count says.
fn no_packet(p: &[u8]) -> bool
    ensures { result ≡ no_packet p.now }
{
    let n = p.len();
    let header = byte_at(p, 0);
    let count = byte_at(p, 1) as usize;
    (n < 2) | (header != 0xAA) | (count < 3) | (n < count)
}

// Whether the last byte is the sum of all before it.
fn sum_right(p: &[u8]) -> bool
    requires { 1 ≤ length p.now }
    ensures { result ≡ sum_right p.now }
{
    let last = p.len() - 1;
    byte_at(p, last) == sum_of(&p[..last])
}

// Whether a packet is whole, before any of its commands is looked at.
pub fn judge(p: &[u8]) -> Ending
    ensures { result ≡ judged p.now }
{
    if no_packet(p) {
        return Ending::Unanswered;
    }
    let n = p.len();
    let count = byte_at(p, 1) as usize;
    if count < n {
        return Ending::Fails(0xBF);
    }
    if sum_right(p) {
        if n == 3 {
            return Ending::Fails(0xB0);
        }
        return Ending::Whole;
    }
    Ending::Fails(0xBD)
}

// How many bytes behind a command are its own.
#[tactic(auto, unfolding(crate::specs::Commands::parameters))]
pub fn parameters(c: u8) -> usize
    ensures { result ≡ parameters c }
{
    match c {
        0xA3 => 2,
        0xA1 | 0xA2 | 0xCF | 0xE0 => 1,
        _ => 0,
    }
}

#[tactic(auto, unfolding(crate::specs::Commands::selects))]
fn selects(c: u8, behind: &[u8]) -> bool
    ensures { result ≡ selects c behind.now }
{
    matches!(c, 0xC0..=0xCE) | (c == 0xCF) & !behind.is_empty()
}

// The target that a command selects.
#[tactic(auto, unfolding(crate::specs::Commands::target_of))]
fn target_of(c: u8, behind: &[u8]) -> u8
    ensures { result ≡ target_of c behind.now }
{
    if c == 0xCF {
        byte_at(behind, 0)
    } else {
        c.saturating_sub(0xC0)
    }
}

// This device is 1; with another's number the packet is another device's.
#[tactic(auto, unfolding(crate::specs::Commands::selecting))]
fn select(d: Device, target: u8) -> Command
    ensures { result ≡ selecting d target }
{
    match target {
        1 => Command::Goes(Device {
            selected: true,
            ..d
        }),
        0 => Command::Goes(Device {
            selected: false,
            ..d
        }),
        _ => Command::Stops(Ending::Unanswered),
    }
}

#[tactic(auto, unfolding(crate::specs::Commands::not_used))]
fn not_used(c: u8) -> bool
    ensures { result ≡ not_used c }
{
    matches!(c, ..0xA0 | 0xA4..=0xBF | 0xF0..)
}

// The pointer that one of A0 to A3 sets.
#[tactic(auto, unfolding(crate::specs::Commands::pointed))]
fn point(c: u8, pointer: u16, behind: &[u8]) -> u16
    ensures { result ≡ pointed c pointer behind.now }
{
    let low = byte_at(behind, 0) as u16;
    let high = byte_at(behind, 1) as u16;
    match c {
        0xA0 => 0,
        0xA1 => pointer / 256 * 256 + low,
        0xA2 => low * 256 + pointer % 256,
        _ => high * 256 + low,
    }
}

// How many bytes one of E0 to EF reads.
#[tactic(auto, unfolding(crate::specs::Commands::bytes_read))]
fn bytes_read(c: u8, behind: &[u8]) -> u8
    ensures { result ≡ bytes_read c behind.now }
{
    if c == 0xE0 {
        byte_at(behind, 0)
    } else {
        c.saturating_sub(0xE0)
    }
}

// Whole registers alone.
#[tactic(auto, unfolding(crate::specs::Commands::reading))]
fn read(d: Device, n: u8) -> Command
    ensures { result ≡ reading d n }
{
    if n % 3 == 0 {
        let pointer = d.pointer.wrapping_add(n as u16);
        return Command::Reads(n / 3, Device { pointer, ..d });
    }
    Command::Stops(Ending::Fails(0xB0))
}

// A command that selects no target, of this device while it is selected.
fn while_selected(d: Device, c: u8, behind: &[u8]) -> Command
    ensures { result ≡ while_selected d c behind.now }
{
    if not_used(c) {
        return Command::Stops(Ending::Fails(0xBC));
    }
    if behind.len() < parameters(c) {
        return Command::Stops(Ending::Fails(0xB0));
    }
    if (0xA0 <= c) & (c <= 0xA3) {
        let pointer = point(c, d.pointer, behind);
        return Command::Goes(Device { pointer, ..d });
    }
    if (0xD0 <= c) & (c <= 0xDF) {
        return Command::Stops(Ending::Fails(0xB0));
    }
    read(d, bytes_read(c, behind))
}

// What the command c, with these bytes behind it, comes to.
#[tactic(auto, unfolding(crate::specs::Commands::command_of))]
pub fn obey(d: Device, c: u8, behind: &[u8]) -> Command
    ensures { result ≡ command_of d c behind.now }
{
    if selects(c, behind) {
        return select(d, target_of(c, behind));
    }
    if d.selected {
        return while_selected(d, c, behind);
    }
    Command::Stops(Ending::Unanswered)
}
