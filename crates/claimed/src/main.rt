// claims id|addr TARGET: who holds a target in the picture on standard input, and by what. TARGET is a number in hexadecimal.
#![tactic(auto)]

use arguments::{Kind, hexadecimal, target_kind};
use std::env::Env;
use std::io;

// The kind of target and the target, if there are these two words and they are as they must be.
fn asked(rt: &impl Env) -> Option<(Kind, u64)> {
    if !inputs::has_word(rt, 2) || inputs::has_word(rt, 3) {
        return None;
    }
    let mut buffer = [0u8; 32];
    let kind = target_kind(inputs::word(rt, 1, &mut buffer)?)?;
    let target = hexadecimal(inputs::word(rt, 2, &mut buffer)?)?;
    Some((kind, target))
}

fn main(rt: HostRuntime) -> io::Result<()> {
    let Some((kind, target)) = asked(&rt) else {
        return eprintln!(rt; "usage: claims id|addr TARGET <PICTURE; TARGET is hexadecimal");
    };
    let mut buffer = [0u8; 65537];
    let picture = inputs::read_full(&mut rt.stdin(), &mut buffer)?;
    reports::print_holders(&rt, picture, kind as u32, target, b'\n')
}
