// Numbers 11 and 12, beside the video range: the least target that two ports at one place hold, or that is the own ID of a port
// that claims it.
ghost use Rattle.std.specs.Prelude.{◌≡◌, ◌+◌, ◌<◌};
ghost use Rattle.least.specs.Least.{soonest};
ghost use Rattle.chassis.specs.declared.Fault.TheVariants.{Shared};
ghost use Rattle.chassis.specs.Check.{least_target};
ghost use Rattle.claims.specs.Beside.{beside_in};
ghost use Rattle.overlaps.specs.Overlaps.{clash_of, faulty_to};

use crate::meetings::{Holding, least_meeting};
use holdings::Looked;
use ids::{PortNo, Space};
use patches::PatchedPicture;
use registers::parent_at;

// The best so far, after ports p and q were tried; a port with itself is its own ID against its claims.
#[tactic(auto, using(crate::proofs::Folds::no_pair, crate::proofs::Folds::pair_first))]
fn with_pair(
    over: &PatchedPicture,
    space: Space,
    p: PortNo,
    q: PortNo,
    best: Option<u64>,
) -> Option<u64>
    ensures { result ≡ soonest best (least_target (clash_of (beside_in over.now) p.0 q.0) space) }
{
    let s = over.picture.bytes;
    if parent_at(s, p) == parent_at(s, q) {
        let apart = p != q;
        let a = Holding {
            port: p,
            what: Looked::Held {
                own: true,
                claims: apart,
            },
        };
        let b = Holding {
            port: q,
            what: Looked::Held {
                own: apart,
                claims: true,
            },
        };
        least_meeting(over, space, a, b, true, best)
    } else {
        best
    }
}

// The best so far, after port p was tried with itself and with each later one; the earlier ones were tried with it.
#[tactic(auto, using(crate::proofs::Folds::row_begins, crate::proofs::Folds::row_ends, crate::proofs::Folds::row_more, crate::proofs::Folds::seen))]
pub fn with_pairs(over: &PatchedPicture, space: Space, p: PortNo, best: Option<u64>) -> Option<u64>
    requires p_lt_n { p.0 < over.now.picture.count }
    requires best_value { best ≡ least_target (faulty_to Shared (beside_in over.now) p.0) space }
    ensures { result ≡ least_target (faulty_to Shared (beside_in over.now) (p.0 + 1)) space }
{
    let mut found = best;
    for q in p.0..over.picture.count {
        found = with_pair(over, space, p, PortNo(q), found);
    }
    found
}
