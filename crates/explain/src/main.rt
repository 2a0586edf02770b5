// explain [PATCH]: reads a picture from standard input and prints what the judge says of it, as `report` does, or, with the vectors
// of the file PATCH put in, as `trial` does; and behind that a sentence in plain words.
#![tactic(auto)]

use std::io;
use std::io::Read;

fn print_lines<'a>(rt: &impl Print, picture: &'a [u8], patch: Option<&'a [u8]>) -> io::Result<()> {
    match patch {
        None => {
            reports::report_lines(picture).print(rt)?;
            people::print_sentence(rt, picture)
        }
        Some(patch) => {
            reports::trial_lines(picture, patch).print(rt)?;
            people::print_trial_sentence(rt, picture, patch)
        }
    }
}

// What is said of the picture, which is read so far that one byte more than it may have shows, and of the patch.
fn explain(rt: &HostRuntime, patch: Option<&[u8]>) -> io::Result<()> {
    let mut buffer = [0u8; 65537];
    let picture = inputs::read_full(&mut rt.stdin(), &mut buffer)?;
    print_lines(rt, picture, patch)
}

// The same with a patch; of a longer file the first 131,073 bytes are judged.
fn explain_trial(rt: &HostRuntime, file: &mut impl Read) -> io::Result<()> {
    let mut buffer = [0u8; 131073];
    let patch = inputs::read_full(file, &mut buffer)?;
    explain(rt, Some(patch))
}

fn main(rt: HostRuntime) -> io::Result<()> {
    if inputs::has_word(&rt, 2) {
        return eprintln!(rt; "usage: explain [PATCH] <PICTURE");
    }
    if !inputs::has_word(&rt, 1) {
        return explain(&rt, None);
    }
    match inputs::open(&rt, 1) {
        Ok(mut file) => explain_trial(&rt, &mut file),
        Err(error) => inputs::say_failed(&rt, "explain: the patch cannot be opened", error),
    }
}
