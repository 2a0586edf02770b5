// Numbers 11 to 14 and 18: the least target with a fault, told which fault and which space.
ghost use Rattle.std.specs.Prelude.{◌≡◌, ◌+◌, ◌<◌};
ghost use Rattle.chassis.specs.Check.{faulty, least_target};
ghost use Rattle.claims.specs.Over.{chassis_in};
ghost use Rattle.claims.specs.Beside.{beside_in};
ghost use Rattle.overlaps.specs.Overlaps.{faulty_to};

use crate::pairs::with_pairs;
use crate::strays::with_child;
use crate::taken::with_taken;
use crate::video::least_of_video;
use chassis::Fault;
use ids::{PortNo, Space};
use patches::PatchedPicture;

// The best so far, after port p was tried.
fn with_port(
    over: &PatchedPicture,
    fault: Fault,
    space: Space,
    p: PortNo,
    best: Option<u64>,
) -> Option<u64>
    requires p_lt_n { p.0 < over.now.picture.count }
    requires best_value { best ≡ least_target (faulty_to fault (beside_in over.now) p.0) space }
    ensures { result ≡ least_target (faulty_to fault (beside_in over.now) (p.0 + 1)) space }
{
    match fault {
        Fault::Shared => with_pairs(over, space, p, best),
        Fault::Stray => with_child(over, space, p, best),
        Fault::Taken => with_taken(over, space, p, best),
    }
}

// The least target of a space at which a port is at fault beside the video range.
#[tactic(auto, using(crate::proofs::Folds::faults_begin, crate::proofs::Folds::faults_end))]
fn least_beside(over: &PatchedPicture, fault: Fault, space: Space) -> Option<u64>
    ensures { result ≡ least_target (faulty fault (beside_in over.now)) space }
{
    let mut best = None;
    for p in 0..over.picture.count {
        best = with_port(over, fault, space, PortNo(p), best);
    }
    best
}

// The least target of a space at which a port is at fault.
#[tactic(auto, using(crate::proofs::WithVideo::least_address, crate::proofs::WithVideo::least_id, claims::proofs::OfVideo::of_video))]
pub fn least_fault(over: &PatchedPicture, fault: Fault, space: Space) -> Option<u64>
    ensures { result ≡ least_target (faulty fault (chassis_in over.now)) space }
{
    let beside = least_beside(over, fault, space);
    match space {
        Space::Ids => beside,
        Space::Addresses => least::sooner(least_of_video(over, fault), beside),
    }
}
