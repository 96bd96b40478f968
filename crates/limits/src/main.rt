// Runs what document 01 lists under "Run by a program", the W of change request A3 and the configuration of A5: each limit, and one past it.
// Prints a line for each with the answer.
#![tactic(auto)]

use aberzhan::Module;
use address::WordAddr;
use alarm::Asked;
use refusal::Refusal;
use serial::Serial;

// An output that takes no more is not told.
fn say(rt: &impl Print, text: &[u8]) {
    let _ = rt.write_all(text);
}

fn say_answer<T: Copy>(rt: &impl Print, answer: Result<T, Refusal>) {
    match answer {
        Ok(_) => say(rt, b"TAKEN\n"),
        Err(refusal) => {
            let _ = println!(rt; "REFUSED {}", refusal.number());
        }
    }
}

fn off() -> [WordAddr; 6] {
    [WordAddr(0); 6]
}

// W samples in half a cycle; the alarms are off.
fn half_cycle(w: i64) -> Asked {
    Asked {
        w,
        vsag: 0,
        vsurge: 0,
        sticky: 0,
    }
}

fn open(rt: &impl Print, serial: &[u8]) {
    let mut m = Module::start(1, 1, off(), half_cycle(1), 0).module;
    say_answer(rt, m.open(0, serial));
}

// 12 digits taken, 13 refused.
fn serials(rt: &impl Print) {
    say(rt, b"SERIAL OF 12 DIGITS ");
    open(rt, b"012345678901");
    say(rt, b"SERIAL OF 13 DIGITS ");
    open(rt, b"0123456789012");
}

fn start(rt: &impl Print, n: i64, w: i64, config: i64) {
    say_answer(rt, Module::start(n, 1, off(), half_cycle(w), config).answer);
}

// N 4,096 taken, 4,097 refused.
fn starts(rt: &impl Print) {
    say(rt, b"N 4096 ");
    start(rt, 4096, 1, 0);
    say(rt, b"N 4097 ");
    start(rt, 4097, 1, 0);
}

// W 512 taken, 513 refused.
fn half_cycles(rt: &impl Print) {
    say(rt, b"W 512 ");
    start(rt, 1, 512, 0);
    say(rt, b"W 513 ");
    start(rt, 1, 513, 0);
}

// Configuration 255 taken, 256 refused.
fn configurations(rt: &impl Print) {
    say(rt, b"CONFIG 255 ");
    start(rt, 1, 1, 255);
    say(rt, b"CONFIG 256 ");
    start(rt, 1, 1, 256);
}

// Gain one and other fields 0.
const PLAIN: [i64; 8] = [0, 0, 2097152, 2097152, 0, 0, 0, 0];

// A module whose card 0417 waits.
fn with_card() -> Result<Module, Refusal> {
    let mut m = Module::start(4096, 1, off(), half_cycle(1), 0).module;
    m.open(0, b"0417")?;
    for k in 0..PLAIN.len() {
        m.write(0, k as i64 + 1, PLAIN[k])?;
    }
    m.commit(0)?;
    Ok(m)
}

fn feed(samples: &[i32]) -> Result<(), Refusal> {
    let mut m = with_card()?;
    m.block(samples, samples, samples)
}

// A block of 4,096 and of 4,097.
fn blocks(rt: &impl Print) {
    let samples = [1i32; 4097];
    say(rt, b"BLOCK OF 4096 ");
    say_answer(rt, feed(&samples[..4096]));
    say(rt, b"BLOCK OF 4097 ");
    say_answer(rt, feed(&samples));
}

// The serial of card k: four digits.
fn serial_text(k: usize) -> [u8; 4] {
    [
        (k / 1000 % 10) as u8 + 48,
        (k / 100 % 10) as u8 + 48,
        (k / 10 % 10) as u8 + 48,
        (k % 10) as u8 + 48,
    ]
}

// Lays 1,023 cards into a buffer, as a book.
fn lay_cards(buffer: &mut [u8]) {
    let count = [255u8, 3];
    serial::put_at(buffer, 0, &count);
    for k in 0..1023 {
        let serial = Serial::of(&serial_text(k));
        let bytes = cardbytes::card_bytes(serial, PLAIN);
        serial::put_at(buffer, 2 + 37 * k, &bytes);
    }
}

// Card 1,024 and 1,025.
fn cards(rt: &impl Print) {
    let mut buffer = [0u8; 65536];
    lay_cards(&mut buffer);
    say(rt, b"CARD 1024 ");
    say_answer(rt, change::add(&mut buffer, 37855, b"1023", PLAIN));
    say(rt, b"CARD 1025 ");
    say_answer(rt, change::add(&mut buffer, 37892, b"1024", PLAIN));
}

fn main(rt: HostRuntime) {
    serials(&rt);
    starts(&rt);
    half_cycles(&rt);
    configurations(&rt);
    blocks(&rt);
    cards(&rt);
}
