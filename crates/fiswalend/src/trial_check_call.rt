// The check call over a picture and a patch.
ghost use Rattle.judge.specs.Trying.{trial_check};
ghost use Rattle.fiswalend.specs.Calls.{CheckCall};

use crate::buffers::write;
use crate::found::finding_bytes;
use answers::ANSWER_BYTES;
use judge::{check_finding, trial_check};

// Whether a picture would be sound with the patch's vectors put in: the number, and the answer in the buffer.
pub fn fpb_trial_check<'a>(picture: &'a [u8], patch: &'a [u8], answer: &mut [u8]) -> u32
    ensures { CheckCall (trial_check picture.now patch.now) answer.old result answer.new }
{
    if answer.len() < ANSWER_BYTES {
        return 17;
    }
    write(
        finding_bytes(check_finding(trial_check(picture, patch))),
        answer,
    )
}
