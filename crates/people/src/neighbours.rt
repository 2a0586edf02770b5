// The ports of a picture in the order of its tree: children in port order, each followed by what is below it.
use ids::PortNo;
use registers::parent_at;
use std::iter::successors;
use trees::Picture;

// The port above; none above a root port.
pub fn parent_of(s: &[u8], p: PortNo) -> Option<PortNo> {
    let parent = parent_at(s, p);
    if parent == PortNo::NONE {
        return None;
    }
    Some(parent)
}

// The lowest child of a place from this number on.
pub fn child_from(picture: &Picture, from: u8, place: PortNo) -> Option<PortNo> {
    (from..picture.count)
        .map(|p| PortNo(p))
        .find(|&p| parent_at(picture.bytes, p) == place)
}

// The next child of the same parent.
fn next_sibling(picture: &Picture, p: PortNo) -> Option<PortNo> {
    child_from(picture, p.0.checked_add(1)?, parent_at(picture.bytes, p))
}

// Whether a later port has the same parent.
pub fn has_later_sibling(picture: &Picture, p: PortNo) -> bool {
    next_sibling(picture, p).is_some()
}

// The port so many steps above; none past a root port.
pub fn above(s: &[u8], p: PortNo, steps: usize) -> Option<PortNo> {
    successors(Some(p), |&q| parent_of(s, q)).nth(steps)
}

// The next sibling of a port without children, or of the lowest port above it that has one.
fn next_upward(picture: &Picture, p: PortNo) -> Option<PortNo> {
    successors(Some(p), |&q| parent_of(picture.bytes, q))
        .take(16)
        .find_map(|q| next_sibling(picture, q))
}

// The port that follows in the order of the tree.
pub fn following(picture: &Picture, p: PortNo) -> Option<PortNo> {
    child_from(picture, 0, p).or_else(|| next_upward(picture, p))
}
