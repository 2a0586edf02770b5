// The answer lines of trials.
use crate::lines::{print_line, print_number};
use patches::{Place, Source};
use registers::Mechanism;
use std::io;
use texts::Text;

// What the trial program prints, with a slash for the line end between.
pub fn print_trial<'a>(rt: &impl Print, picture: &'a [u8], patch: &'a [u8]) -> io::Result<()> {
    print_line(rt, reports::trial(picture, patch, b'/'))
}

fn print_place(rt: &impl Print, place: Place) -> io::Result<()> {
    let source: &[u8] = match place.source {
        Source::Picture => b"0 picture ",
        Source::Patch => b"0 patch ",
    };
    print_line(
        rt,
        Text::new()
            .with(source)
            .with_decimal(place.at)
            .with(b" ")
            .with_decimal(place.bytes),
    )
}

// The mechanism of this number in a record.
fn mechanism_of(number: u32) -> Option<Mechanism> {
    match number {
        0 => Some(Mechanism::Rid),
        1 => Some(Mechanism::Low),
        2 => Some(Mechanism::High),
        _ => None,
    }
}

// Where a port's vector lies. What is asked of no mechanism gets the refusal of a port beyond every count.
pub fn print_part<'a>(
    rt: &impl Print,
    picture: &'a [u8],
    patch: &'a [u8],
    port: u32,
    mechanism: u32,
) -> io::Result<()> {
    let answer = match mechanism_of(mechanism) {
        Some(m) => judge::trial_part(picture, patch, port, m),
        None => judge::trial_part(picture, patch, u32::MAX, Mechanism::Rid),
    };
    match answer {
        Err(r) => print_number(rt, r.number()),
        Ok(place) => print_place(rt, place),
    }
}
