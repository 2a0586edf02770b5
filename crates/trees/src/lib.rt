// How the ports of a picture hang together: kinds, parents, children and chains (numbers 6 and 7).
#![tactic(auto)]

mod pictures;

ghost use Rattle.std.specs.Prelude.{◌≡◌};
ghost use Rattle.chassis.specs.Tree.{has_child_below, upstream_broken, downstream_broken, tree_broken, chain_too_long};
ghost use Rattle.trees.specs.Trees.{tree_of};

use chassis::Kind;
use ids::PortNo;
pub use pictures::Picture;
use registers::{known_kind, parent_at};

// Whether one of the ports below number n is a child of q.
pub fn has_child_below(s: &[u8], n: u8, q: PortNo) -> bool
    ensures { result ≡ has_child_below (tree_of s.now) n q.0 }
{
    chassis::any(n, |p| parent_at(s, p) == q)
}

// An upstream port below an upstream port, or below one that is a parent already.
#[tactic(auto, unfolding(chassis::specs::Tree::upstream_broken))]
fn upstream_broken(s: &[u8], p: PortNo) -> bool
    ensures { result ≡ upstream_broken (tree_of s.now) p.0 }
{
    let parent = parent_at(s, p);
    (known_kind(s, parent) == Ok(Kind::Upstream)) | has_child_below(s, p.0, parent)
}

// A downstream port that is not below an upstream port.
#[tactic(auto, unfolding(chassis::specs::Tree::downstream_broken))]
fn downstream_broken(s: &[u8], p: PortNo) -> bool
    ensures { result ≡ downstream_broken (tree_of s.now) p.0 }
{
    known_kind(s, parent_at(s, p)) != Ok(Kind::Upstream)
}

// Number 6.
#[tactic(auto, unfolding(chassis::specs::Tree::tree_broken))]
pub fn tree_broken(s: &[u8], p: PortNo) -> bool
    ensures { result ≡ tree_broken (tree_of s.now) p.0 }
{
    let parent = parent_at(s, p);
    match known_kind(s, p) {
        Ok(Kind::Root) => parent != PortNo::ROOT,
        Ok(Kind::Upstream) => parent >= p || upstream_broken(s, p),
        Ok(Kind::Downstream) => parent >= p || downstream_broken(s, p),
        Err(_) => true,
    }
}

// Number 7: a root port stands at most 15 steps above.
#[tactic(auto, using(crate::proofs::Laws::climbed, crate::proofs::Laws::climbed_all), unfolding(chassis::specs::Tree::above, chassis::specs::Tree::one_above))]
pub fn chain_too_long(s: &[u8], p: PortNo) -> bool
    ensures { result ≡ chain_too_long (tree_of s.now) p.0 }
{
    let mut q = p;
    for _steps in 0..16u8 {
        if q == PortNo::ROOT {
            return false;
        }
        q = parent_at(s, q);
    }
    q != PortNo::ROOT
}
