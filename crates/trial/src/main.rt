// trial PATCH: what the judge says of the picture on standard input with the vectors in the file PATCH put in, printed as `report`
// prints it.
#![tactic(auto)]

use std::io;
use std::io::Read;

// What the judge says of the picture and the file. No patch of more than 65,480 bytes is accepted; of a file of more than twice
// as many the first 131,073 are judged.
fn try_patch(rt: HostRuntime, file: &mut impl Read) -> io::Result<()> {
    let mut patch_buffer = [0u8; 131073];
    let patch = inputs::read_full(file, &mut patch_buffer)?;
    let mut picture_buffer = [0u8; 65537];
    let picture = inputs::read_full(&mut rt.stdin(), &mut picture_buffer)?;
    reports::trial_lines(picture, patch).print(&rt)
}

fn main(rt: HostRuntime) -> io::Result<()> {
    if !inputs::has_word(&rt, 1) || inputs::has_word(&rt, 2) {
        return eprintln!(rt; "usage: trial PATCH <PICTURE");
    }
    match inputs::open(&rt, 1) {
        Ok(mut file) => try_patch(rt, &mut file),
        Err(error) => inputs::say_failed(&rt, "trial: the patch cannot be opened", error),
    }
}
