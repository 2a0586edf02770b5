// Where a packet goes: the rules of the walk on the bytes of a picture that reads, repeated until they come to an end.
#![tactic(auto)]

mod starts;
mod steps;

ghost use Rattle.std.specs.Prelude.{◌≡◌};
ghost use Rattle.chassis.proofs.Steps.{Within};
ghost use Rattle.chassis.proofs.Tree.{Sane};
ghost use Rattle.trees.specs.Trees.{tree_of};
ghost use Rattle.claims.specs.Over.{chassis_in};
ghost use Rattle.routes.specs.Routes.{Arrives};

use chassis::{End, Packet, Step, Whereabouts};
use patches::PatchedPicture;
use paths::Path;
pub use starts::starts_at;

// The ports crossed and the end.
#[derive(Clone, Copy)]
pub struct Walked {
    pub path: Path,
    pub end: End,
}

// A packet's way from its start to its end.
#[tactic(auto, using(crate::proofs::Laws::Underway, crate::proofs::Laws::arrives, crate::proofs::Laws::goes_on, crate::proofs::Laws::nearer, crate::proofs::Laws::room, crate::proofs::Laws::sets_out))]
pub fn walk_from(over: &PatchedPicture, packet: Packet, start: Whereabouts) -> Walked
    requires sane { Sane (tree_of over.now.picture.bytes.now) }
    requires within { Within (chassis_in over.now) start }
    ensures { Arrives (chassis_in over.now) packet start result }
{
    let mut path = Path::new();
    let mut whereabouts = start;
    loop {
        match steps::step(over, packet, whereabouts) {
            Step::Stop(end) => return Walked { path, end },
            Step::Cross(p, beyond) => {
                path = path.crossed(p);
                whereabouts = beyond;
            }
        }
    }
}
