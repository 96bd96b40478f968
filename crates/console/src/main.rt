// The console: a step a line on standard input, an answer a line on standard output.
#![tactic(auto)]

mod answers;
mod input;
mod items;
mod numerals;
mod output;
mod slices;
mod texts;
mod turns;
mod unread;
mod words;

fn main(rt: HostRuntime) {
    let mut chunk = [0u8; 256];
    let mut line = [0u8; 131073];
    let mut v = [0i32; 8192];
    let mut s1 = [0i32; 8192];
    let mut s3 = [0i32; 8192];
    let mut out = [0u8; 409600];
    input::run(
        &rt, &mut chunk, &mut line, &mut v, &mut s1, &mut s3, &mut out,
    );
}
