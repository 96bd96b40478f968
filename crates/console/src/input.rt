// Standard input, taken apart into lines. A line may come in several reads, so its bytes are kept until its end.
ghost use Rattle.std.specs.Prelude.{◌≡◌, ◌++◌, ◌+◌, ◌≤◌, length, take};
ghost use Rattle.console.specs.Session.{Ready, Rooms, fresh, talk_of, ended, talked, written, silent};

use super::answers::put_answer;
use super::texts::{length_to, line_length};
use super::turns::take_line;
use aberzhan::Module;
use address::word_addr;
use alarm::Asked;
use std::io;
use std::io::Read;

// The module, how many bytes of a line are kept, and how many of the answers' are not yet written.
#[derive(Clone, Copy)]
pub struct Session {
    pub module: Module,
    pub kept: usize,
    pub used: usize,
}

// Before any start the module is that of a refused one.
#[tactic(auto, unfolding(crate::specs::Session::fresh))]
fn begun() -> Session
    ensures { result ≡ record { «module» = fresh; kept = 0; used = 0 } }
{
    let off = word_addr(0);
    let lowest = Asked {
        w: 1,
        vsag: 0,
        vsurge: 0,
        sticky: 0,
    };
    let s = Module::start(0, 0, [off; 6], lowest, 0);
    Session {
        module: s.module,
        kept: 0,
        used: 0,
    }
}

// Keeps more bytes of a line, as far as there is room.
fn keep(line: &mut [u8], kept: usize, part: &[u8]) -> usize
    requires { kept ≤ length line.old }
    ensures line_after { take result line.new ≡ take (length line.old) (take kept line.old ++ part.now) }
    ensures upper_bound { result ≤ length line.old }
{
    let n = part.len().min(line.len() - kept);
    serial::put_at(line, kept, &part[..n]);
    kept + n
}

// Whether a line has no answer: an empty one, and a comment.
#[tactic(auto, unfolding(crate::specs::Session::silent))]
fn is_silent(line: &[u8]) -> bool
    ensures { result ≡ silent line.now }
{
    match line {
        [] => true,
        [first, ..] => *first == b'#',
    }
}

// At a line's end.
fn end_line(
    mut s: Session,
    line: &[u8],
    v: &mut [i32],
    s1: &mut [i32],
    s3: &mut [i32],
    out: &mut [u8],
) -> Session
    requires { Ready s line.now out.old v.old s1.old s3.old 1 }
    ensures out_after { talk_of result line.now out.new ≡ ended (talk_of s line.now out.old) }
    ensures kept_value { (result.kept ≡ 0) × (result.used ≤ s.used + 1600) }
{
    let kept = s.kept;
    s.kept = 0;
    let n = line_length(&line[..kept]);
    if is_silent(&line[..n]) {
        return s;
    }
    let answer = take_line(&mut s.module, &line[..n], v, s1, s3);
    s.used = put_answer(out, s.used, answer);
    s
}

// The bytes of one read: lines, and perhaps the beginning of another.
fn take_part(
    mut s: Session,
    part: &[u8],
    line: &mut [u8],
    v: &mut [i32],
    s1: &mut [i32],
    s3: &mut [i32],
    out: &mut [u8],
) -> Session
    requires { Ready s line.old out.old v.old s1.old s3.old (length part.now) }
    ensures out_after { talk_of result line.new out.new ≡ talked (talk_of s line.old out.old) part.now }
    ensures kept_bound { (result.kept ≤ 131073) × (result.used ≤ length out.new) }
{
    let mut at = 0;
    while at < part.len() {
        let n = length_to(b'\n', &part[at..]);
        let e = at + n;
        let kept = keep(line, s.kept, &part[at..e]);
        s.kept = kept;
        at = e;
        if at < part.len() {
            s = end_line(s, line, v, s1, s3, out);
            at += 1;
        }
    }
    s
}

// Writes the answers out, and gives whether the output takes more.
fn write_out(rt: &(impl Print + Eprint), s: &mut Session, out: &[u8]) -> bool
    requires { s.old.used ≤ length out.now }
    ensures { s.new ≡ written s.old }
{
    let used = s.used;
    s.used = 0;
    print(rt, &out[..used])
}

fn print(rt: &(impl Print + Eprint), text: &[u8]) -> bool {
    if text.len() == 0 {
        return true;
    }
    match rt.write_all(text) {
        Ok(()) => true,
        Err(error) => {
            let _ = eprintln!(rt; "console: standard output: {error}");
            false
        }
    }
}

// A read that fails ends the input as its end does, and is told.
fn tell_failure(rt: &impl Eprint, error: io::Error) {
    let _ = eprintln!(rt; "console: standard input: {error}");
}

// How many bytes one read puts at the front of the chunk; 0 at the end of the input.
fn read_chunk(rt: &impl Eprint, input: &mut impl Read, chunk: &mut [u8]) -> usize
    ensures { result ≤ length chunk.new }
{
    match input.read(chunk) {
        Ok(n) => n,
        Err(error) => {
            tell_failure(rt, error);
            0
        }
    }
}

// One read, and whether another may follow. Its answers are written before the next, so that whoever types sees each answer.
fn read_some(
    rt: &(impl Print + Eprint),
    input: &mut impl Read,
    s: &mut Session,
    chunk: &mut [u8],
    line: &mut [u8],
    v: &mut [i32],
    s1: &mut [i32],
    s3: &mut [i32],
    out: &mut [u8],
) -> bool
    requires { Ready s.old line.old out.old v.old s1.old s3.old (length chunk.old) }
    ensures { Ready s.new line.new out.new v.new s1.new s3.new (length chunk.new) }
{
    let n = read_chunk(rt, input, chunk);
    if n == 0 {
        return false;
    }
    *s = take_part(*s, &chunk[..n], line, v, s1, s3, out);
    write_out(rt, s, out)
}

// Reads to the end of the input. Nothing says that there is one, so the reads are counted, up to a number that no run reaches.
fn read_all(
    rt: &(impl Print + Eprint),
    input: &mut impl Read,
    s: &mut Session,
    chunk: &mut [u8],
    line: &mut [u8],
    v: &mut [i32],
    s1: &mut [i32],
    s3: &mut [i32],
    out: &mut [u8],
)
    requires { Ready s.old line.old out.old v.old s1.old s3.old (length chunk.old) }
    ensures { Ready s.new line.new out.new v.new s1.new s3.new (length chunk.new) }
{
    for _ in 0..u64::MAX {
        if !read_some(rt, input, s, chunk, line, v, s1, s3, out) {
            return;
        }
    }
}

// A last line may lack its line feed.
fn end_input(
    rt: &(impl Print + Eprint),
    mut s: Session,
    line: &[u8],
    v: &mut [i32],
    s1: &mut [i32],
    s3: &mut [i32],
    out: &mut [u8],
)
    requires { Ready s line.now out.old v.old s1.old s3.old 1 }
{
    s = end_line(s, line, v, s1, s3, out);
    write_out(rt, &mut s, out);
}

pub(super) fn run(
    rt: &(impl Input + Print + Eprint),
    chunk: &mut [u8],
    line: &mut [u8],
    v: &mut [i32],
    s1: &mut [i32],
    s3: &mut [i32],
    out: &mut [u8],
)
    requires { Rooms chunk.old line.old out.old v.old s1.old s3.old }
{
    let mut input = rt.reader();
    let mut s = begun();
    read_all(rt, &mut input, &mut s, chunk, line, v, s1, s3, out);
    end_input(rt, s, line, v, s1, s3, out);
}
