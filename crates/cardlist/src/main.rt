// Prints the card book on standard input: document 01, "The listing". The listing is made whole before a byte of it is written.
#![tactic(auto)]

ghost use Rattle.std.specs.Prelude.{◌≡◌, ◌≤◌, length};
ghost use Rattle.listing.specs.Lines.{listing};

use std::io::Read;

// Writes the listing of a book. Whoever calls it has to show that the text is that listing, whole.
fn print(rt: &(impl Print + Eprint), book: &[u8], text: &[u8])
    requires { text.now ≡ listing book.now }
{
    if let Err(error) = rt.write_all(text) {
        let _ = eprintln!(rt; "cardlist: standard output: {error}");
    }
}

// Reads until the buffer is full, the input ends or a read fails: how many bytes it put at the front.
fn read_full(input: &mut impl Read, buffer: &mut [u8]) -> usize
    ensures { result ≤ length buffer.new }
{
    let mut done = 0;
    while done < buffer.len() {
        match input.read(&mut buffer[done..]) {
            Ok(0) | Err(_) => return done,
            Ok(n) => done += n,
        }
    }
    done
}

// Of a longer input, the first 65,536 bytes are read; they are no book either.
fn main(rt: HostRuntime) {
    let mut input = [0u8; 65536];
    let n = read_full(&mut rt.reader(), &mut input);
    let mut text = [0u8; listing::ROOM];
    let length = listing::whole(&input[..n], &mut text);
    print(&rt, &input[..n], &text[..length]);
}
