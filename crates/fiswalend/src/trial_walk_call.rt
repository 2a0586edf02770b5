// The walk call over a picture and a patch.
ghost use Rattle.fiswalend.specs.Calls.{TrialWalkCall};

use crate::buffers::write;
use crate::walked::walk_bytes;
use answers::ANSWER_BYTES;

// Where a packet would go with the patch's vectors put in: the number, and the answer in the buffer.
#[tactic(auto, using(crate::proofs::WalkCalls::leaves_17))]
pub fn fpb_trial_walk<'a>(
    picture: &'a [u8],
    patch: &'a [u8],
    answer: &mut [u8],
    kind: u32,
    start: u32,
    target: u64,
) -> u32
    ensures { TrialWalkCall picture.now patch.now kind start target answer.old result answer.new }
{
    if answer.len() < ANSWER_BYTES {
        return 17;
    }
    write(
        walk_bytes(judge::trial_walk(picture, patch, kind, start, target)),
        answer,
    )
}
