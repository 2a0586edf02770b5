// The least target that two ports have to do with, beside the video range.
ghost use Rattle.std.specs.Prelude.{◌≡◌};
ghost use Rattle.least.specs.Least.{soonest};
ghost use Rattle.chassis.specs.Check.{least_target};
ghost use Rattle.claims.specs.Beside.{beside_in};
ghost use Rattle.overlaps.specs.Overlaps.{meeting};

use holdings::{Looked, one_of, reach_at};
use ids::{PortNo, Space};
use patches::PatchedPicture;
use registers::Mechanism;
use spans::Reached;

// A port, and what of it is looked at.
#[derive(Clone, Copy)]
pub struct Holding {
    pub port: PortNo,
    pub what: Looked,
}

// The least target of a space that a has, and that b has or does not, as is wanted; or the best so far, if that is lower.
#[tactic(auto, using(crate::proofs::OfMeetings::meets_first))]
pub fn least_meeting(
    over: &PatchedPicture,
    space: Space,
    a: Holding,
    b: Holding,
    want: bool,
    best: Option<u64>,
) -> Option<u64>
    ensures { result ≡ soonest best (least_target (meeting (beside_in over.now) a b want) space) }
{
    let m = one_of(space);
    let first = Reached {
        reach: &reach_at(over.picture.bytes, a.port, space, a.what),
        one: over.vector(a.port, m),
        other: over.vector(a.port, Mechanism::High),
    };
    let second = Reached {
        reach: &reach_at(over.picture.bytes, b.port, space, b.what),
        one: over.vector(b.port, m),
        other: over.vector(b.port, Mechanism::High),
    };
    search::least_both(&first, &second, want, best)
}
