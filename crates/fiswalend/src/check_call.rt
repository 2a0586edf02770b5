// The check call.
ghost use Rattle.judge.specs.Checking.{check_answer};
ghost use Rattle.fiswalend.specs.Calls.{CheckCall};

use crate::buffers::write;
use crate::found::finding_bytes;
use answers::ANSWER_BYTES;
use judge::{check, check_finding};

// Whether a picture is sound: the number, and the answer in the buffer.
pub fn fpb_check(picture: &[u8], answer: &mut [u8]) -> u32
    ensures { CheckCall (check_answer picture.now) answer.old result answer.new }
{
    if answer.len() < ANSWER_BYTES {
        return 17;
    }
    write(finding_bytes(check_finding(check(picture))), answer)
}
