// The parts counter: looks labels up in a book that is a file, adds cards, withdraws serials, lists and checks.
//
// A change is written whole to a second file, BOOK.new, and put in place by a rename: a stop at any moment leaves the old book or the
// new one. The second file is made first, and only where it is not there yet, so that no two changes are under way at the same time.
#![tactic(auto)]

mod asked;
mod files;
mod line;
mod lines;
mod list;
mod orders;

ghost use Rattle.std.specs.Prelude.{◌≤◌, length, IfErr};

use files::{beside, create, keep, read_book, remove, rename};
use line::Line;
use orders::Order;
use refusal::Refusal;
use std::env::FillError;
use std::io;
use std::rt::{Env, Files};

// What is changed in a book: a card with these values is added, or a serial withdrawn.
#[derive(Clone, Copy)]
enum Change {
    Add([i64; 8]),
    Withdraw,
}

// Why a change is not made: it is refused, or the system does not do it.
#[derive(Drop)]
enum Failure {
    Refused(Refusal),
    NotDone(io::Error),
}

impl From<Refusal> for Failure {
    fn from(refusal: Refusal) -> Failure {
        Failure::Refused(refusal)
    }
}

impl From<io::Error> for Failure {
    fn from(error: io::Error) -> Failure {
        Failure::NotDone(error)
    }
}

fn say(rt: &(impl Print + Eprint), text: &[u8]) {
    if let Err(error) = rt.write_all(text) {
        let _ = eprintln!(rt; "counter: standard output: {error}");
    }
}

fn print(rt: &(impl Print + Eprint), line: Line) {
    say(rt, line.text());
}

// What the system refused, by its own words on standard error.
fn not_done(rt: &(impl Print + Eprint), path: &[u8], error: io::Error) {
    for part in path.utf8_chunks() {
        let _ = eprint!(rt; "{}", part.valid());
        if !part.invalid().is_empty() {
            let _ = eprint!(rt; "\u{FFFD}");
        }
    }
    let _ = eprintln!(rt; ": {error}");
    say(rt, b"NOT DONE\n");
}

fn usage(rt: &(impl Print + Eprint)) {
    say(
        rt,
        b"UNREAD: counter BOOK find LABEL | add LABEL F1 .. F8 | withdraw LABEL | list | check | new\n",
    );
}

fn refuse(rt: &(impl Print + Eprint), refusal: Refusal) {
    print(rt, lines::refused_line(refusal));
}

// An argument, put in a buffer. A missing one counts as empty, and so does one that is longer than the buffer.
fn argument<'a>(rt: &impl Env, k: usize, buffer: &'a mut [u8]) -> &'a [u8]
    ensures { length result.now ≤ length buffer.old }
{
    match rt.arg(k, buffer) {
        Ok(n) => &buffer[..n],
        Err(_) => &[],
    }
}

// How many words stand on the command line, the program's name among them.
fn argument_count(rt: &impl Env) -> usize {
    for k in 0..usize::MAX {
        let mut byte = [0u8; 1];
        if let Err(FillError::NotPresent) = rt.arg(k, &mut byte) {
            return k;
        }
    }
    usize::MAX
}

// A word longer than the buffer counts as empty: it is no number, and no label either.
fn value_at(rt: &impl Env, k: usize) -> Option<i64> {
    let mut buffer = [0u8; 4096];
    typed::value_of(argument(rt, k, &mut buffer))
}

// The eight values of a new card, or which of them, from 1, is no whole number.
fn read_values(rt: &impl Env) -> Result<[i64; 8], usize>
    ensures { IfErr result (λ k. k ≤ 8) }
{
    let mut values = [0i64; 8];
    for k in 0..8 {
        values[k] = value_at(rt, 4 + k).ok_or(k + 1)?;
    }
    Ok(values)
}

fn print_field(rt: &(impl Print + Eprint), name: &[u8], value: i64)
    requires { length name.now ≤ 20 }
{
    print(rt, lines::number_line(name, value));
}

fn print_card(rt: &(impl Print + Eprint), fields: [i64; 8], label: &[u8]) {
    if label.len() <= 12 {
        print(rt, lines::text_line(b"SERIAL", label));
    }
    let [voffs, ioffs, vgain, igain, phase, irmsoffs, squelch, poffs] = fields;
    print_field(rt, b"VOFFS", voffs);
    print_field(rt, b"IOFFS", ioffs);
    print_field(rt, b"VGAIN", vgain);
    print_field(rt, b"IGAIN", igain);
    print_field(rt, b"PHASE", phase);
    print_field(rt, b"IRMSOFFS", irmsoffs);
    print_field(rt, b"SQUELCH", squelch);
    print_field(rt, b"POFFS", poffs);
}

fn find(rt: &(impl Env + Print + Eprint), book: &[u8]) {
    let mut buffer = [0u8; 4096];
    let label = argument(rt, 3, &mut buffer);
    match asked::find(book, label) {
        Ok(fields) => print_card(rt, fields, label),
        Err(refusal) => refuse(rt, refusal),
    }
}

fn check(rt: &(impl Print + Eprint), book: &[u8]) {
    match asked::check(book) {
        Ok(_) => say(rt, b"WELL FORMED\n"),
        Err(refusal) => refuse(rt, refusal),
    }
}

// An order that only reads the book.
fn look<F: Fn(&[u8])>(rt: &(impl Files + Print + Eprint), path: &[u8], show: F)
    requires { F.IsAlwaysCallable show }
{
    let mut bytes = [0u8; 65536];
    match read_book(rt, path, &mut bytes) {
        Ok(n) => show(&bytes[..n]),
        Err(error) => not_done(rt, path, error),
    }
}

// Makes a change in a buffer of which the book takes so many bytes: the new length, or the refusal.
fn make_change(
    rt: &impl Env,
    order: Change,
    buffer: &mut [u8; 65536],
    used: usize,
) -> Result<usize, Refusal> {
    let mut word = [0u8; 4096];
    let label = argument(rt, 3, &mut word);
    match order {
        Change::Add(values) => asked::add(buffer, used, label, values),
        Change::Withdraw => asked::withdraw(buffer, used, label),
    }
}

// Reads the book, changes it and writes the new one to the second file.
fn write_changed<R: Env + Files>(
    rt: &R,
    order: Change,
    path: &[u8],
    second: &mut R::File,
) -> Result<(), Failure> {
    let mut bytes = [0u8; 65536];
    let n = read_book(rt, path, &mut bytes)?;
    let length = make_change(rt, order, &mut bytes, n)?;
    match bytes.get(..length) {
        Some(book) => Ok(keep(second, book)?),
        None => Err(Failure::NotDone(io::Error::from(io::ErrorKind::InvalidInput))),
    }
}

// Changes the book by way of a second file.
fn alter(rt: &(impl Env + Files + Print + Eprint), order: Change, path: &[u8]) {
    let mut buffer = [0u8; 4096];
    let name = beside(path, &mut buffer);
    let mut second = match create(rt, name) {
        Ok(file) => file,
        Err(error) => {
            not_done(rt, name, error);
            return;
        }
    };
    let written = write_changed(rt, order, path, &mut second);
    drop(second);
    match written {
        Ok(()) => match rename(rt, name, path) {
            Ok(()) => {
                say(rt, b"DONE\n");
                return;
            }
            Err(error) => not_done(rt, path, error),
        },
        Err(Failure::Refused(refusal)) => refuse(rt, refusal),
        Err(Failure::NotDone(error)) => not_done(rt, path, error),
    }
    let _ = remove(rt, name);
}

fn add(rt: &(impl Env + Files + Print + Eprint), path: &[u8]) {
    match read_values(rt) {
        Ok(values) => alter(rt, Change::Add(values), path),
        Err(k) => print(rt, lines::number_line(b"UNREAD: VALUE", k as i64)),
    }
}

// An empty book, where there is no file of this name yet.
fn make(rt: &(impl Files + Print + Eprint), path: &[u8]) {
    let mut file = match create(rt, path) {
        Ok(file) => file,
        Err(error) => {
            not_done(rt, path, error);
            return;
        }
    };
    if let Err(error) = keep(&mut file, &[0u8, 0, 0, 0]) {
        not_done(rt, path, error);
        let _ = remove(rt, path);
        return;
    }
    drop(file);
    say(rt, b"DONE\n");
}

fn main(rt: HostRuntime) {
    let mut path = [0u8; 4096];
    let path = argument(&rt, 1, &mut path);
    let mut word = [0u8; 4096];
    let word = argument(&rt, 2, &mut word);
    match orders::order_of(word, argument_count(&rt)) {
        Order::Find => look(&rt, path, |book| find(&rt, book)),
        Order::List => look(&rt, path, |book| list::print_book(&rt, book)),
        Order::Check => look(&rt, path, |book| check(&rt, book)),
        Order::Add => add(&rt, path),
        Order::Withdraw => alter(&rt, Change::Withdraw, path),
        Order::New => make(&rt, path),
        Order::Unread => usage(&rt),
    }
}
