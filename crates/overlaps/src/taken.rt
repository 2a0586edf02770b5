// Number 18: the least ID that a port claims and its parent takes.
ghost use Rattle.std.specs.Prelude.{◌≡◌, ◌+◌};
ghost use Rattle.chassis.specs.declared.Fault.TheVariants.{Taken};
ghost use Rattle.chassis.specs.Check.{least_target};
ghost use Rattle.claims.specs.Beside.{beside_in};
ghost use Rattle.overlaps.specs.Overlaps.{faulty_to};

use crate::meetings::{Holding, least_meeting};
use holdings::Looked;
use ids::{PortNo, Space};
use patches::PatchedPicture;
use registers::{is_root_port, parent_at};

// The best so far, after port p was tried; nothing of a root port is taken. What its parent takes is little, so it comes first.
#[tactic(auto, using(crate::proofs::Folds::with_taken, crate::proofs::Folds::without_taken))]
pub fn with_taken(over: &PatchedPicture, space: Space, p: PortNo, best: Option<u64>) -> Option<u64>
    requires { best ≡ least_target (faulty_to Taken (beside_in over.now) p.0) space }
    ensures { result ≡ least_target (faulty_to Taken (beside_in over.now) (p.0 + 1)) space }
{
    let s = over.picture.bytes;
    if is_root_port(s, p) {
        return best;
    }
    let taken = Holding {
        port: parent_at(s, p),
        what: Looked::Taken,
    };
    let claimed = Holding {
        port: p,
        what: Looked::Held {
            own: false,
            claims: true,
        },
    };
    least_meeting(over, space, taken, claimed, true, best)
}
