// The tree of a picture, one line to a port.
use crate::lines::say_line;
use crate::neighbours::{above, child_from, following, has_later_sibling};
use ids::PortNo;
use std::io;
use std::iter::successors;
use trees::Picture;

// The three columns of a port above: a bar where a sibling of it follows further down.
fn bar(picture: &Picture, p: PortNo) -> &'static str {
    if has_later_sibling(picture, p) {
        "|  "
    } else {
        "   "
    }
}

// The columns of all ports above, of which there are at most 15, from the root port down.
fn say_bars(rt: &impl Print, picture: &Picture, p: PortNo) -> io::Result<()> {
    for steps in (1..16).rev() {
        if let Some(q) = above(picture.bytes, p, steps) {
            rt.print(bar(picture, q))?;
        }
    }
    Ok(())
}

// What stands before a port: the first is port 0.
fn say_branch(rt: &impl Print, picture: &Picture, p: PortNo) -> io::Result<()> {
    let later = has_later_sibling(picture, p);
    if p == PortNo(0) {
        return rt.print(if later { "-+-" } else { "---" });
    }
    rt.print(" ")?;
    say_bars(rt, picture, p)?;
    rt.print(if later { "+-" } else { "\\-" })
}

// All lines of the tree.
fn draw(rt: &impl Print, picture: &Picture) -> io::Result<()> {
    let first = child_from(picture, 0, PortNo::ROOT);
    for p in successors(first, |&p| following(picture, p)).take(picture.count as usize) {
        say_branch(rt, picture, p)?;
        say_line(rt, picture, p)?;
    }
    Ok(())
}

// The tree of a picture that reads, sound or not; for any other the line that the report has.
#[tactic(auto, using(picture::proofs::WhatReads::count_few, picture::proofs::WhatReads::count_read))]
pub fn print_tree(rt: &impl Print, s: &[u8]) -> io::Result<()> {
    let got = picture::read(s);
    let Ok(h) = got else {
        return reports::report_lines(s).print(rt);
    };
    let picture = Picture {
        bytes: s,
        count: h.count as u8,
    };
    draw(rt, &picture)
}
