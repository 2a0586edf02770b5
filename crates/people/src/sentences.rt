// The sentence of a number: its fixed text, then the particulars of the picture and the patch.
use crate::causes::{say_wrong_settings, say_wrong_starts};
use crate::fixed::fixed_text;
use crate::holding::{Holder, Ways};
use crate::patching::{say_misfit, say_misplaced_port, say_misplaced_vectors};
use crate::ports::{InTree, say_tree_breaker};
use crate::words::Counted;
use chassis::{Conversion, Hold, Verdict};
use ids::{PortNo, Target};
use lent::{u16_at, u32_at};
use patches::PatchedPicture;
use picture::{Refusal, Rule};
use registers::{edition_of, own_id_at, parent_at, port_at};
use std::io;
use trees::Picture;

// Number 1: the input is read only so far that a longer one shows.
fn say_length(rt: &impl Print, length: usize) -> io::Result<()> {
    if 65536 < length {
        return print!(rt; ": it has more than 65,536");
    }
    print!(rt; ": it has {}", Counted(length, "byte"))
}

// Number 3.
fn say_count(rt: &impl Print, count: u16) -> io::Result<()> {
    if count == 0 {
        return print!(rt; ": it has none");
    }
    print!(rt; ": it has {count}")
}

// Number 10, which names no port if it is about the end of the last vectors.
fn say_misplaced(rt: &impl Print, s: &[u8], p: PortNo) -> io::Result<()> {
    if p == PortNo::NONE {
        return print!(rt;
            ": the last ones do not, and the picture has {}",
            Counted(s.len(), "byte")
        );
    }
    print!(rt;
        ": those of {} begin at byte {}",
        InTree(s, p),
        port_at(s, p).vectors_at
    )
}

// What the parent of port p makes of a target that the port holds; no port makes anything of an address.
fn say_at_parent<'a>(
    rt: &impl Print,
    over: &PatchedPicture<'a>,
    p: PortNo,
    t: Target,
) -> io::Result<()> {
    let parent = parent_at(over.picture.bytes, p);
    let does = match claims::conversion(over, parent, t) {
        Conversion::NotClaimed => "does not claim it",
        Conversion::Type0 => "makes configuration requests for it Type 0",
        Conversion::Type1 => "passes configuration requests for it on as Type 1",
        Conversion::Unsupported => "answers configuration requests for it with Unsupported Request",
    };
    print!(rt; ", and port {parent} {does}")
}

// The port that breaks a rule, and what in it does.
fn say_broken(rt: &impl Print, s: &[u8], rule: Rule, p: PortNo) -> io::Result<()> {
    if rule == Rule::Tree {
        return say_tree_breaker(rt, s, p);
    }
    print!(rt; ": {}", InTree(s, p))?;
    match rule {
        Rule::Settings => say_wrong_settings(rt, s, p),
        Rule::Start => say_wrong_starts(rt, s, p),
        _ => Ok(()),
    }
}

// The particulars of a refusal; those of number 5 and of what was asked have none.
fn say_refusal(rt: &impl Print, s: &[u8], patch: &[u8], r: Refusal) -> io::Result<()> {
    match r {
        Refusal::Length => say_length(rt, s.len()),
        Refusal::Edition => print!(rt; ": it is {}", edition_of(s)),
        Refusal::Count => say_count(rt, u16_at(s, 2)),
        Refusal::Total => print!(rt;
            ": the header says {}, and the picture has {}",
            u32_at(s, 4),
            Counted(s.len(), "byte")
        ),
        Refusal::Offset => Ok(()),
        Refusal::Breaks(rule, p) => say_broken(rt, s, rule, p),
        Refusal::Misplaced(p) => say_misplaced(rt, s, p),
        Refusal::AskedWrongly => Ok(()),
        Refusal::PatchHeader => say_misfit(rt, patch),
        Refusal::PatchPorts => say_misplaced_port(rt, s, patch),
        Refusal::PatchVectors => say_misplaced_vectors(rt, s, patch),
    }
}

// Numbers 11 and 12; a port that claims its own ID is a pair with itself.
fn say_pair(rt: &impl Print, s: &[u8], t: Target, h: Hold, k: Hold) -> io::Result<()> {
    if h.port == k.port {
        let claims = Ways(Hold { own: false, ..h });
        return print!(rt; ": {} claims its own {t}{claims}", InTree(s, h.port));
    }
    print!(rt; ": {t} is held by {} and by {}", Holder(s, h), Holder(s, k))
}

// The particulars of what a picture that reads is found to be.
fn say_verdict<'a>(rt: &impl Print, over: &PatchedPicture<'a>, v: Verdict) -> io::Result<()> {
    let s = over.picture.bytes;
    match v {
        Verdict::Clear => print!(rt;
            ": no ID or address has two holders at one place, no port holds what its parent does not claim, and the host's configuration requests find every port"
        ),
        Verdict::Shared(t, h, k) => say_pair(rt, s, t, h, k),
        Verdict::Stray(t, h) => {
            print!(rt; ": {t} is held by {}", Holder(s, h))?;
            say_at_parent(rt, over, h.port, t)
        }
        Verdict::Lost(p) => {
            print!(rt; ": {}", InTree(s, p))?;
            say_at_parent(rt, over, p, Target::Id(own_id_at(s, p)))
        }
        Verdict::Taken(t, h) => {
            print!(rt; ": {t} is claimed by {}", Holder(s, h))?;
            say_at_parent(rt, over, h.port, t)
        }
    }
}

// The particulars of an answer: those of a verdict are asked of the picture, which reads.
#[tactic(auto, using(picture::proofs::WhatReads::count_few, picture::proofs::WhatReads::count_read))]
fn say_particulars<'a>(
    rt: &impl Print,
    s: &'a [u8],
    patch: &'a [u8],
    judged: Result<Verdict, Refusal>,
) -> io::Result<()> {
    match (judged, picture::read(s)) {
        (Err(r), _) => say_refusal(rt, s, patch, r),
        (Ok(_), Err(r)) => say_refusal(rt, s, patch, r),
        (Ok(v), Ok(h)) => {
            let picture = Picture {
                bytes: s,
                count: h.count as u8,
            };
            say_verdict(rt, &PatchedPicture { picture, patch }, v)
        }
    }
}

// The sentence for an answer, on a line of its own.
fn print_judged<'a>(
    rt: &impl Print,
    s: &'a [u8],
    patch: &'a [u8],
    judged: Result<Verdict, Refusal>,
) -> io::Result<()> {
    rt.print(fixed_text(judge::check_finding(judged).number))?;
    say_particulars(rt, s, patch, judged)?;
    println!(rt; ".")
}

// The sentence for what the check says of a picture.
pub fn print_sentence(rt: &impl Print, s: &[u8]) -> io::Result<()> {
    print_judged(rt, s, &[], judge::check(s))
}

// The sentence for what the trial check says of a picture and a patch.
pub fn print_trial_sentence<'a>(rt: &impl Print, s: &'a [u8], patch: &'a [u8]) -> io::Result<()> {
    print_judged(rt, s, patch, judge::trial_check(s, patch))
}
