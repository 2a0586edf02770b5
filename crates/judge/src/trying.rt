// The trial calls: the check, the walk and where each vector lies, over a picture and a patch.
ghost use Rattle.std.specs.Prelude.{◌≡◌};
ghost use Rattle.judge.specs.Trying.{trial_check, TrialGives, trial_part};

use crate::walking::walk_over;
use chassis::Verdict;
use ids::PortNo;
use patches::{PatchedPicture, Place, lies_at};
use picture::Refusal;
use registers::Mechanism;
use routes::Walked;
use trees::Picture;

// Numbers 1 to 10, then 30 to 32, then the check of the picture with the patch's vectors put in.
#[tactic(auto, using(crate::proofs::Trials::count_tried, crate::proofs::Trials::few_tried, crate::proofs::Trials::trial_judged), unfolding(crate::specs::Trying::tried_check))]
pub fn trial_check<'a>(s: &'a [u8], patch: &'a [u8]) -> Result<Verdict, Refusal>
    ensures { result ≡ trial_check s.now patch.now }
{
    let h = patches::read(s, patch)?;
    let over = PatchedPicture {
        picture: Picture {
            bytes: s,
            count: h.count as u8,
        },
        patch,
    };
    Ok(verdicts::verdict(&over))
}

// Numbers 1 to 10, then 30 to 32, then the walk in the picture with the patch's vectors put in.
#[tactic(auto, using(crate::proofs::Trials::count_tried, crate::proofs::Trials::few_tried, crate::proofs::Trials::sane_tried, crate::proofs::Trials::trial_unread, crate::proofs::Trials::trial_walked))]
pub fn trial_walk<'a>(
    s: &'a [u8],
    patch: &'a [u8],
    kind: u32,
    start: u32,
    target: u64,
) -> Result<Walked, Refusal>
    ensures { TrialGives s.now patch.now kind start target result }
{
    let h = patches::read(s, patch)?;
    let over = PatchedPicture {
        picture: Picture {
            bytes: s,
            count: h.count as u8,
        },
        patch,
    };
    walk_over(&over, kind, start, target)
}

// Numbers 1 to 10, then 30 to 32, then 16 for a port beyond the count, else where that port's vector lies.
#[tactic(auto, using(crate::proofs::Trials::few_tried), unfolding(crate::specs::Trying::tried_part))]
pub fn trial_part(s: &[u8], patch: &[u8], port: u32, m: Mechanism) -> Result<Place, Refusal>
    ensures { result ≡ trial_part s.now patch.now port m }
{
    let h = patches::read(s, patch)?;
    if h.count as u32 <= port {
        return Err(Refusal::AskedWrongly);
    }
    Ok(lies_at(s, patch, PortNo(port as u8), m))
}
