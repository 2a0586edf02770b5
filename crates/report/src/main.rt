// Reads a picture from standard input and prints what the judge says of it: two lines for a picture that passes, one for a
// refusal.
#![tactic(auto)]

use std::io;

// One byte more than a picture may have, so that a longer input shows.
fn main(rt: HostRuntime) -> io::Result<()> {
    let mut buffer = [0u8; 65537];
    let picture = inputs::read_full(&mut rt.stdin(), &mut buffer)?;
    reports::report_lines(picture).print(&rt)
}
