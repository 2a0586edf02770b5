// Reads a picture from standard input and draws its tree.
#![tactic(auto)]

use std::io;

// One byte more than a picture may have, so that a longer input shows.
fn main(rt: HostRuntime) -> io::Result<()> {
    let mut buffer = [0u8; 65537];
    let picture = inputs::read_full(&mut rt.stdin(), &mut buffer)?;
    people::print_tree(&rt, picture)
}
