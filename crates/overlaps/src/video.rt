// The video range in the search: of the addresses all else that ports claim is whole MiB, so of this range only the first can be
// the least.
ghost use Rattle.std.specs.Prelude.{◌≡◌};
ghost use Rattle.claims.specs.Over.{chassis_in};
ghost use Rattle.overlaps.specs.Overlaps.{video_at_fault, least_of_video};

use chassis::Fault;
use claims::{VIDEO_FIRST, claims_video};
use culprits::at_fault;
use ids::{PortNo, Target};
use patches::PatchedPicture;

// Whether port p claims the video range and is at fault there; no vector is looked at if it does not claim it.
#[tactic(auto, unfolding(crate::specs::Overlaps::video_at_fault))]
fn video_at_fault(over: &PatchedPicture, fault: Fault, p: PortNo) -> bool
    ensures { result ≡ video_at_fault fault (chassis_in over.now) p.0 }
{
    claims_video(over.picture.bytes, p) && at_fault(over, fault, Target::Addr(VIDEO_FIRST), p)
}

// The first address of the video range, where a port claims it and is at fault there.
#[tactic(auto, unfolding(crate::specs::Overlaps::least_of_video))]
pub fn least_of_video(over: &PatchedPicture, fault: Fault) -> Option<u64>
    ensures { result ≡ least_of_video fault (chassis_in over.now) }
{
    if chassis::any(over.picture.count, |p| video_at_fault(over, fault, p)) {
        return Some(VIDEO_FIRST);
    }
    None
}
