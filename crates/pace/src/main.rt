// pace [BLOCKS [W [READS]]]: feeds one block of 4,096 samples so often, with W samples in half a cycle; then holds and reads so often; and prints
// what a last hold tells: VA_RMS, the eight registers of IA and of IB, and the interval's number.
#![tactic(auto)]

ghost use Rattle.std.specs.Prelude.{◌≤◌, IfSome};

use aberzhan::{Module, Started};
use address::{byte_addr, word_addr};
use alarm::Asked;
use refusal::Refusal;
use std::rt::Env;

// VA_RMS; the six figures and both energy counts of IA, and then of IB; by their byte addresses.
const REGISTERS: [i64; 17] = [
    0x81, 0xBA, 0xD2, 0xE1, 0xEA, 0x12F, 0x1A1, 0x1AD, 0x1B6, 0xBD, 0xD5, 0xE4, 0xED, 0x132, 0x1A4,
    0x1BF, 0x1C8,
];

// Fields 1 to 8.
const FIELDS: [i64; 8] = [17, -5, 2097152, 1900000, 1000, 3, 10, 2];

// IA is S1, and IB is S3.
const CONFIG: i64 = 0x96;

// A number of at most nine digits.
fn number_in(text: &[u8]) -> Option<u64>
    ensures { IfSome result (λ n. n ≤ 999999999) }
{
    let mut n: u64 = 0;
    for c in text {
        if !c.is_ascii_digit() | (99999999 < n) {
            return None;
        }
        n = n * 10 + u64::from(*c - b'0');
    }
    Some(n)
}

// An argument, or what is usual where it is left out; what is no number is 0.
fn argument(rt: &impl Env, k: usize, usual: u64) -> u64
    requires { usual ≤ 999999999 }
    ensures { result ≤ 999999999 }
{
    let mut text = [0u8; 16];
    match rt.arg(k, &mut text) {
        Ok(0) | Err(_) => usual,
        Ok(n) => number_in(&text[..n]).unwrap_or(0),
    }
}

// The next number of the row, below 2^32.
fn next(x: u64) -> u64
    requires { x ≤ 4294967295 }
    ensures { result ≤ 4294967295 }
{
    (x * 1664525 + 1013904223) % 4294967296
}

fn sample(x: u64) -> i32
    requires { x ≤ 4294967295 }
{
    (x / 256) as i32 - 8388608
}

// Samples from a row of numbers, for V, S1 and S3 in turn.
fn make_block(v: &mut [i32], s1: &mut [i32], s3: &mut [i32]) {
    let mut x: u64 = 1;
    for k in 0..v.len().min(s1.len()).min(s3.len()) {
        x = next(x);
        v[k] = sample(x);
        x = next(x);
        s1[k] = sample(x);
        x = next(x);
        s3[k] = sample(x);
    }
}

// Started with W samples in half a cycle; sag stays set.
fn started(w: i64) -> Started {
    let off = word_addr(0);
    let asked = Asked {
        w,
        vsag: 4000000,
        vsurge: 6000000,
        sticky: 0x200000,
    };
    Module::start(400, 0x0001AFC8BB4C, [off; 6], asked, CONFIG)
}

// With a card that waits.
fn prepare(m: &mut Module) -> Result<(), Refusal> {
    m.open(0, b"0417")?;
    for k in 0..FIELDS.len() {
        m.write(0, k as i64 + 1, FIELDS[k])?;
    }
    m.commit(0)
}

fn feed(m: &mut Module, n: u64, v: &[i32], s1: &[i32], s3: &[i32]) -> Result<(), Refusal> {
    for _ in 0..n {
        m.block(v, s1, s3)?;
    }
    Ok(())
}

// A register's value of what is held; 0 if the read is refused.
fn told(held: &Module, register: i64) -> i64 {
    held.read(0, byte_addr(register)).unwrap_or(0)
}

// Reads the first nine registers. No value is below 24 bits; that it is looked at keeps the reads in the program that is timed.
fn all_read(held: &Module) -> bool {
    REGISTERS[..9].iter().all(|r| -8388608 <= told(held, *r))
}

// Holds, and reads nine registers, n times.
fn reread(m: &mut Module, n: u64) -> Result<(), Refusal> {
    for _ in 0..n {
        m.hold(0)?;
        if !all_read(m) {
            return Ok(());
        }
    }
    Ok(())
}

// The registers and the interval's number. An output that takes no more is not told.
fn print_held(rt: &impl Print, m: &mut Module) -> Result<(), Refusal> {
    let h = m.hold(0)?;
    for r in &REGISTERS {
        let _ = print!(rt; "{} ", told(m, *r));
    }
    let _ = println!(rt; "{}", h.number);
    Ok(())
}

// All of it; without any block the last hold is refused.
fn run(rt: &impl Print, blocks: u64, w: i64, reads: u64) -> Result<(), Refusal> {
    let s = started(w);
    s.answer?;
    let mut v = [0i32; 4096];
    let mut s1 = [0i32; 4096];
    let mut s3 = [0i32; 4096];
    make_block(&mut v, &mut s1, &mut s3);
    let mut m = s.module;
    prepare(&mut m)?;
    feed(&mut m, blocks, &v, &s1, &s3)?;
    reread(&mut m, reads)?;
    print_held(rt, &mut m)
}

fn main(rt: HostRuntime) {
    let blocks = argument(&rt, 1, 100);
    let w = argument(&rt, 2, 40);
    let reads = argument(&rt, 3, 0);
    if let Err(refusal) = run(&rt, blocks, w as i64, reads) {
        let _ = println!(rt; "REFUSED {}", refusal.number());
    }
}
