// Answers a batch of calls, one line for each, in the form that second/README.md gives: standard input is a stream of records,
// each a letter and its fields, little-endian.
#![tactic(auto)]

mod fields;
mod lines;
mod trials;

use std::io;
use std::io::Read;

// What is kept from record to record: how many bytes of the buffers are the picture and the patch.
#[derive(Clone, Copy)]
struct Lengths {
    picture: usize,
    patch: usize,
}

// The record of a picture or a patch: its bytes, or as many of them as the buffer holds.
fn take_bytes(from: &mut impl Read, buffer: &mut [u8]) -> io::Result<usize> {
    let n = fields::take_u32(from)? as usize;
    if n <= buffer.len() {
        return Ok(inputs::read_full(from, &mut buffer[..n])?.len());
    }
    let taken = inputs::read_full(from, buffer)?.len();
    fields::skip(from, n - buffer.len())?;
    Ok(taken)
}

// Answers the trial call that a letter stands for; false where there is none.
fn answer_trial<'a>(
    rt: &impl Print,
    from: &mut impl Read,
    picture: &'a [u8],
    patch: &'a [u8],
    letter: u8,
) -> io::Result<bool> {
    match letter {
        b'X' => trials::print_trial(rt, picture, patch)?,
        b'T' => lines::print_call(rt, |answer| {
            fiswalend::fpb_trial_check(picture, patch, answer)
        })?,
        b'U' => {
            let kind = fields::take_u32(from)?;
            let start = fields::take_u32(from)?;
            let target = fields::take_u64(from)?;
            lines::print_call(rt, |answer| {
                fiswalend::fpb_trial_walk(picture, patch, answer, kind, start, target)
            })?;
        }
        b'S' => {
            let port = fields::take_u32(from)?;
            let mechanism = fields::take_u32(from)?;
            trials::print_part(rt, picture, patch, port, mechanism)?;
        }
        _ => return Ok(false),
    }
    Ok(true)
}

// Answers the call that a letter stands for; false where there is none.
fn answer<'a>(
    rt: &impl Print,
    from: &mut impl Read,
    picture: &'a [u8],
    patch: &'a [u8],
    letter: u8,
) -> io::Result<bool> {
    match letter {
        b'R' => lines::print_report(rt, picture)?,
        b'C' => lines::print_call(rt, |answer| fiswalend::fpb_check(picture, answer))?,
        b'W' => {
            let kind = fields::take_u32(from)?;
            let start = fields::take_u32(from)?;
            let target = fields::take_u64(from)?;
            lines::print_call(rt, |answer| {
                fiswalend::fpb_walk(picture, answer, kind, start, target)
            })?;
        }
        b'L' => {
            let port = fields::take_u32(from)?;
            let kind = fields::take_u32(from)?;
            let target = fields::take_u64(from)?;
            lines::print_written(rt, |decoders| {
                fiswalend::fpb_claim(picture, port, kind, target, decoders)
            })?;
        }
        b'H' => {
            let kind = fields::take_u32(from)?;
            lines::print_holders(rt, picture, kind, fields::take_u64(from)?)?;
        }
        b'V' => {
            let port = fields::take_u32(from)?;
            let id = fields::take_u64(from)?;
            lines::print_written(rt, |decided| {
                fiswalend::fpb_convert(picture, port, id, decided)
            })?;
        }
        _ => return answer_trial(rt, from, picture, patch, letter),
    }
    Ok(true)
}

// Takes the next record, and answers it if it is a call; what is kept then, and nothing where the batch is over.
fn take_record(
    rt: &impl Print,
    from: &mut impl Read,
    pictures: &mut [u8],
    patches: &mut [u8],
    kept: Lengths,
) -> io::Result<Option<Lengths>> {
    let letter = fields::take_letter(from)?;
    if letter == b'P' {
        let picture = take_bytes(from, pictures)?;
        return Ok(Some(Lengths { picture, ..kept }));
    }
    if letter == b'Q' {
        let patch = take_bytes(from, patches)?;
        return Ok(Some(Lengths { patch, ..kept }));
    }
    let answered = answer(
        rt,
        from,
        lent::part(pictures, 0, kept.picture),
        lent::part(patches, 0, kept.patch),
        letter,
    )?;
    Ok(answered.then_some(kept))
}

fn main(rt: HostRuntime) -> io::Result<()> {
    let mut picture_buffer = [0u8; 65537];
    let mut patch_buffer = [0u8; 131073];
    let pictures: &mut [u8] = &mut picture_buffer;
    let patches: &mut [u8] = &mut patch_buffer;
    let mut from = rt.stdin();
    let mut kept = Lengths {
        picture: 0,
        patch: 0,
    };
    for _ in 0..u64::MAX {
        let Some(next) = take_record(&rt, &mut from, pictures, patches, kept)? else {
            return Ok(());
        };
        kept = next;
    }
    Ok(())
}
