// What the programs take: bytes of a stream or a file, into buffers that the caller lends, and the words of the command line.
#![tactic(auto)]

ghost use Rattle.std.specs.Prelude.{◌≤◌, length, IfOk, IfSome};

use std::env::{Env, FillError};
use std::fs::{File, Files};
use std::io;
use std::io::{Cursor, Error, ErrorKind, Read, Write};

// Fills a buffer, or as much of it as there are bytes until the end; the bytes that there were.
pub fn read_full<'a>(from: &mut impl Read, buffer: &'a mut [u8]) -> io::Result<&'a [u8]>
    ensures { IfOk result (λ bytes. length bytes.now ≤ length buffer.old) }
{
    let mut done = 0;
    while done < buffer.len() {
        let n = from.read(&mut buffer[done..])?;
        if n == 0 {
            break;
        }
        done += n;
    }
    Ok(&buffer[..done])
}

// Whether the command line has a word i; word 0 is the program's name.
pub fn has_word(rt: &impl Env, i: usize) -> bool {
    let mut first = [0u8; 1];
    !matches!(rt.arg(i, &mut first), Err(FillError::NotPresent))
}

// Word i, for which a buffer is lent; none that is missing or longer than the buffer.
pub fn word<'a>(rt: &impl Env, i: usize, buffer: &'a mut [u8]) -> Option<&'a [u8]>
    ensures { IfSome result (λ word. length word.now ≤ length buffer.old) }
{
    let n = rt.arg(i, buffer).ok()?;
    Some(&buffer[..n])
}

// The file that word i names, opened for reading.
pub fn open<R: Env + Files>(rt: &R, i: usize) -> io::Result<R::File> {
    let mut buffer = [0u8; 4096];
    let name = word(rt, i, &mut buffer).unwrap_or(b"");
    let path = str::from_utf8(name).map_err(|_| Error::from(ErrorKind::InvalidFilename))?;
    File::open(rt, path)
}

// Says on standard error what failed, and behind it the system's reason in words.
pub fn say_failed(rt: &impl Eprint, what: &str, error: Error) -> io::Result<()> {
    let mut buffer = [0u8; 256];
    let mut said = Cursor::new(&mut buffer[..]);
    write!(said, "{error}")?;
    let end = said.position();
    let text = str::from_utf8(lent::part(&buffer, 0, end as usize)).unwrap_or("");
    let reason = text.split_once(" (os error ").map_or(text, |parts| parts.0);
    eprintln!(rt; "{what}: {reason}")
}
