// The book as a file, and the second file beside it: named, made, read, kept and put in place.
ghost use Rattle.std.specs.Prelude.{◌≤◌, length, IfOk};

use std::fs::{File, OpenFile, OpenOptions};
use std::io::{Read, Write};
use std::rt::Files;
use std::{fs, io};

// A path as text, which is how std takes it: one that is no UTF-8 is refused as a name.
fn path_text(path: &[u8]) -> io::Result<&str> {
    str::from_utf8(path).map_err(|_| io::Error::from(io::ErrorKind::InvalidFilename))
}

// Makes a file and opens it for writing, only where there is none of this name yet.
pub(super) fn create<R: Files>(rt: &R, path: &[u8]) -> io::Result<R::File> {
    OpenOptions::new()
        .write(true)
        .create_new(true)
        .open(rt, path_text(path)?)
}

pub(super) fn rename(rt: &impl Files, from: &[u8], to: &[u8]) -> io::Result<()> {
    fs::rename(rt, path_text(from)?, path_text(to)?)
}

pub(super) fn remove(rt: &impl Files, path: &[u8]) -> io::Result<()> {
    fs::remove_file(rt, path_text(path)?)
}

// The name of the second file, that of the book and .new, put in a buffer; empty where it would be too long for a name.
pub(super) fn beside<'a>(path: &[u8], name: &'a mut [u8; 4096]) -> &'a [u8] {
    let n = path.len();
    if 4000 < n {
        return &[];
    }
    serial::put_at(name, 0, path);
    serial::put_at(name, n, b".new");
    &name[..n + 4]
}

// Reads until the buffer is full, the input ends or a read fails: how many bytes it put at the front.
fn read_full(file: &mut impl Read, buffer: &mut [u8]) -> usize
    ensures { result ≤ length buffer.new }
{
    let mut done = 0;
    while done < buffer.len() {
        match file.read(&mut buffer[done..]) {
            Ok(0) | Err(_) => return done,
            Ok(n) => done += n,
        }
    }
    done
}

// Whether a file's bytes ended, or were more than there was room for, and did not stop at a read that failed: the next read tells.
fn was_read(file: &mut impl Read) -> io::Result<()> {
    let mut byte = [0u8; 1];
    file.read(&mut byte)?;
    Ok(())
}

// Reads the book, or as much of it as there is room for: how many bytes.
pub(super) fn read_book(rt: &impl Files, path: &[u8], bytes: &mut [u8; 65536]) -> io::Result<usize>
    ensures { IfOk result (λ n. n ≤ length bytes.new) }
{
    let mut file = File::open(rt, path_text(path)?)?;
    let n = read_full(&mut file, bytes);
    was_read(&mut file)?;
    Ok(n)
}

// Writes bytes to a file and to its disk.
pub(super) fn keep(file: &mut (impl Write + OpenFile), bytes: &[u8]) -> io::Result<()> {
    file.write_all(bytes)?;
    file.sync_all()
}
