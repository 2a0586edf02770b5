// The answer buffer that the controller lends.
ghost use Rattle.std.specs.Prelude.{◌++◌, ◌≡◌, ◌≤◌, length, drop, get_or};

use answers::ANSWER_BYTES;

// Writes an answer, keeps the rest of the buffer, and gives back the answer's number.
#[tactic(auto, using(crate::proofs::Forty::copied_40, crate::proofs::Forty::fits_40))]
pub fn write(forty: [u8; ANSWER_BYTES], answer: &mut [u8]) -> u32
    requires { 40 ≤ length answer.old }
    ensures value { result ≡ get_or forty 0 0 }
    ensures answer_after { answer.new ≡ forty ++ drop 40 answer.old }
{
    answer[..ANSWER_BYTES].copy_from_slice(&forty);
    forty[0] as u32
}
