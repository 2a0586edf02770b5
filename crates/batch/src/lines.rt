// The answer lines, each written at once.
use answers::ANSWER_BYTES;
use std::io;
use texts::Text;

pub fn print_line(rt: &impl Print, text: Text) -> io::Result<()> {
    text.with(b"\n").print(rt)
}

// What the report program prints, with a slash for the line end between.
pub fn print_report(rt: &impl Print, picture: &[u8]) -> io::Result<()> {
    print_line(rt, reports::report(picture, b'/'))
}

// The number that a call returns, and the 40 bytes that it writes.
pub fn print_call<F: FnOnce(&mut [u8]) -> u32>(rt: &impl Print, call: F) -> io::Result<()>
    requires { F.IsAlwaysCallable call }
{
    let mut bytes = [0u8; ANSWER_BYTES];
    let number = call(&mut bytes);
    let text = Text::new().with_decimal(number as u64).with(b" ");
    print_line(
        rt,
        bytes
            .iter()
            .fold(text, |text, &b| text.with_hex(b as u64, 2)),
    )
}

pub fn print_number(rt: &impl Print, number: u8) -> io::Result<()> {
    print_line(rt, Text::new().with_decimal(number as u64))
}

// What the u32 of a call holds before it.
const UNWRITTEN: u32 = 4294967295;

// The number that a call returns, and what its u32 holds after it: the decoders of a port that claim a target, by their bits; or what
// a port makes of a configuration request for an ID, by its code.
pub fn print_written<F: FnOnce(&mut u32) -> u32>(rt: &impl Print, call: F) -> io::Result<()>
    requires { F.IsAlwaysCallable call }
{
    let mut written = UNWRITTEN;
    let number = call(&mut written);
    print_line(
        rt,
        Text::new()
            .with_decimal(number as u64)
            .with(b" ")
            .with_hex(written as u64, 8),
    )
}

// What the claims program prints, with a slash for each line end but the last.
pub fn print_holders(rt: &impl Print, picture: &[u8], kind: u32, target: u64) -> io::Result<()> {
    reports::print_holders(rt, picture, kind, target, b'/')
}
