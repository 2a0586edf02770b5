// The walk call.
ghost use Rattle.fiswalend.specs.Calls.{WalkCall};

use crate::buffers::write;
use crate::walked::walk_bytes;
use answers::ANSWER_BYTES;

// Where a packet goes: the number, and the answer in the buffer.
#[tactic(auto, using(crate::proofs::WalkCalls::leaves_17))]
pub fn fpb_walk(picture: &[u8], answer: &mut [u8], kind: u32, start: u32, target: u64) -> u32
    ensures { WalkCall picture.now kind start target answer.old result answer.new }
{
    if answer.len() < ANSWER_BYTES {
        return 17;
    }
    write(
        walk_bytes(judge::walk(picture, kind, start, target)),
        answer,
    )
}
