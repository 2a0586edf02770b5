// Ports in words: kinds, and a port with those above it.
use crate::neighbours::parent_of;
use chassis::Kind;
use ids::PortNo;
use registers::{known_kind, own_id_at, parent_at, port_at};
use std::iter::successors;
use std::{fmt, io};

// The kind that a record's byte stands for: `root port`, and `unknown kind 7` for one that stands for none.
#[derive(Clone, Copy)]
pub struct KindOf(pub u8);

impl fmt::Display for KindOf {
    fn fmt<W: fmt::Write>(&self, f: &mut fmt::Formatter<W>) -> fmt::Result {
        match Kind::try_from(self.0) {
            Ok(kind) => write!(f, "{kind}"),
            Err(unknown) => write!(f, "{unknown}"),
        }
    }
}

// `, below port 1, 01:00.0, below port 0, 00:01.0`: this port and each above it, of the 64 that there are at most.
#[derive(Clone, Copy)]
struct Below<'a>(&'a [u8], Option<PortNo>);

impl fmt::Display for Below<'_> {
    fn fmt<W: fmt::Write>(&self, f: &mut fmt::Formatter<W>) -> fmt::Result {
        let s = self.0;
        for p in successors(self.1, |&p| parent_of(s, p)).take(64) {
            let id = own_id_at(s, p);
            write!(f, ", below port {p}, {id}")?;
        }
        Ok(())
    }
}

// A port in its picture's tree: `port 2 (02:00.0, below port 1, 01:00.0, below port 0, 00:01.0)`,
// `port 0 (00:01.0, a root port)`.
#[derive(Clone, Copy)]
pub struct InTree<'a>(pub &'a [u8], pub PortNo);

impl fmt::Display for InTree<'_> {
    fn fmt<W: fmt::Write>(&self, f: &mut fmt::Formatter<W>) -> fmt::Result {
        let s = self.0;
        let p = self.1;
        let id = own_id_at(s, p);
        match parent_of(s, p) {
            None => write!(f, "port {p} ({id}, a root port)"),
            above => write!(f, "port {p} ({id}{})", Below(s, above)),
        }
    }
}

// The parent of a port that breaks a rule of the tree, with those above it where it is a lower port.
fn say_parent(rt: &impl Print, s: &[u8], p: PortNo) -> io::Result<()> {
    match parent_of(s, p) {
        None => print!(rt; ", no parent"),
        Some(parent) => {
            if parent < p {
                return print!(rt; "{}", Below(s, Some(parent)));
            }
            print!(rt; ", parent {parent}")
        }
    }
}

// What a switch port that breaks a rule of the tree finds above it, where its parent is a lower port.
fn say_found_above(rt: &impl Print, s: &[u8], p: PortNo) -> io::Result<()> {
    let kind = known_kind(s, p);
    let parent = parent_at(s, p);
    if p <= parent || !matches!(kind, Ok(Kind::Upstream | Kind::Downstream)) {
        return Ok(());
    }
    print!(rt; ", whose parent is a {}", KindOf(port_at(s, parent).kind))?;
    if kind == Ok(Kind::Upstream) && trees::has_child_below(s, p.0, parent) {
        print!(rt; " with a child already")?;
    }
    Ok(())
}

// A port that breaks a rule of the tree: its kind and parent may be any numbers.
pub fn say_tree_breaker(rt: &impl Print, s: &[u8], p: PortNo) -> io::Result<()> {
    let id = own_id_at(s, p);
    print!(rt; ": port {p} ({id}, {}", KindOf(port_at(s, p).kind))?;
    say_parent(rt, s, p)?;
    print!(rt; ")")?;
    say_found_above(rt, s, p)
}
