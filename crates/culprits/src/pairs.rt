// Numbers 11 and 12: the first pair of ports that share a target.
ghost use Rattle.std.specs.Prelude.{◌≡◌};
ghost use Rattle.ids.specs.Ids.{no_port};
ghost use Rattle.chassis.specs.Check.{clash, clashes_with, lowest_port as Check·lowest_port};
ghost use Rattle.claims.specs.Over.{chassis_in};
ghost use Rattle.culprits.specs.Culprits.{pair_at};

use crate::ports::lowest_port;
use claims::{claims, holds, is_own};
use ids::{PortNo, Target};
use patches::PatchedPicture;
use registers::parent_at;

#[derive(Clone, Copy)]
pub struct Pair {
    pub first: PortNo,
    pub second: PortNo,
}

// Whether two siblings hold the target, or a port claims its own ID.
#[tactic(auto, unfolding(chassis::specs::Check::clash))]
fn clashes(over: &PatchedPicture, t: Target, p: PortNo, q: PortNo) -> bool
    ensures { result ≡ clash (chassis_in over.now) t p.0 q.0 }
{
    let s = over.picture.bytes;
    if p == q {
        return is_own(s, p, t) & claims(over, p, t);
    }
    if parent_at(s, p) == parent_at(s, q) {
        return holds(over, p, t) & holds(over, q, t);
    }
    false
}

// Whether port p shares the target with another port, or claims it as its own ID.
#[tactic(auto, unfolding(chassis::specs::Check::clashes_with))]
pub fn clashes_with(over: &PatchedPicture, t: Target, p: PortNo) -> bool
    ensures { result ≡ clashes_with (chassis_in over.now) t p.0 }
{
    chassis::any(over.picture.count, |q| clashes(over, t, p, q))
}

// What stands for a pair at a target that no two ports share.
fn no_pair(over: &PatchedPicture, t: Target) -> Pair
    ensures { result ≡ record { first = no_port; second = Check·lowest_port (chassis_in over.now) (clash (chassis_in over.now) t 255) } }
{
    Pair {
        first: PortNo::NONE,
        second: lowest_port(&over.picture, |q| clashes(over, t, PortNo::NONE, q)),
    }
}

// The first pair at a target, by first port and then second, a port with itself tried too.
#[tactic(auto, using(least::proofs::Laws::none_empty, least::proofs::Laws::none_more, crate::proofs::FirstPair::tried, crate::proofs::FirstPair::pair_here, crate::proofs::FirstPair::no_pair_is))]
pub fn first_pair(over: &PatchedPicture, t: Target) -> Pair
    ensures { result ≡ pair_at (chassis_in over.now) t }
{
    let n = over.picture.count;
    'ports: {
        for p in 0..n {
            for q in 0..n {
                if clashes(over, t, PortNo(p), PortNo(q)) {
                    break 'ports Pair {
                        first: PortNo(p),
                        second: PortNo(q),
                    };
                }
            }
        }
        no_pair(over, t)
    }
}
