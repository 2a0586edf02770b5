// route id|addr|config START TARGET: where a packet goes in the picture on standard input. START is `host` or the number of
// a device port, TARGET a number in hexadecimal.
#![tactic(auto)]

use arguments::{Kind, clamped, decimal, hexadecimal, packet_kind};
use std::env::Env;
use std::io;

// The start that is the host, by the number that the calls have for it; no port has it.
const HOST: u32 = 255;

// What the words of the command line ask.
#[derive(Clone, Copy)]
struct Question {
    kind: Kind,
    start: u32,
    target: u64,
}

// The host, or the number of a port, which 255 is not.
fn start_of(word: &[u8]) -> Option<u32> {
    match word {
        b"host" => Some(HOST),
        _ => decimal(word).map(clamped).filter(|&port| port != HOST),
    }
}

// The kind, the start and the target, if there are these three words and they are as they must be.
fn asked(rt: &impl Env) -> Option<Question> {
    if !inputs::has_word(rt, 3) || inputs::has_word(rt, 4) {
        return None;
    }
    let mut buffer = [0u8; 32];
    let kind = packet_kind(inputs::word(rt, 1, &mut buffer)?)?;
    let start = start_of(inputs::word(rt, 2, &mut buffer)?)?;
    let target = hexadecimal(inputs::word(rt, 3, &mut buffer)?)?;
    Some(Question {
        kind,
        start,
        target,
    })
}

fn main(rt: HostRuntime) -> io::Result<()> {
    let Some(question) = asked(&rt) else {
        return eprintln!(rt;
            "usage: route id|addr|config START TARGET <PICTURE; START is host or a device port's number, TARGET is hexadecimal"
        );
    };
    let kind = question.kind as u32;
    let mut buffer = [0u8; 65537];
    let picture = inputs::read_full(&mut rt.stdin(), &mut buffer)?;
    let answer = judge::walk(picture, kind, question.start, question.target);
    reports::walk_lines(kind, answer).print(&rt)
}
