// The check call: whether a picture is sound.
ghost use Rattle.std.specs.Prelude.{◌≡◌};
ghost use Rattle.judge.specs.Checking.{check_answer, check_finding};

use crate::refusals::refusal_finding;
use chassis::{Finding, Verdict, finding_of};
use patches::PatchedPicture;
use picture::Refusal;
use trees::Picture;

// Numbers 1 to 10, then 11 to 15 and 18 with the least target and its ports, else clear.
#[tactic(auto, using(picture::proofs::WhatReads::count_few, picture::proofs::WhatReads::count_read, claims::proofs::Over::unpatched), unfolding(crate::specs::Checking::check_of))]
pub fn check(s: &[u8]) -> Result<Verdict, Refusal>
    ensures { result ≡ check_answer s.now }
{
    let h = picture::read(s)?;
    let over = PatchedPicture {
        picture: Picture {
            bytes: s,
            count: h.count as u8,
        },
        patch: &[],
    };
    Ok(verdicts::verdict(&over))
}

// What is said of the check's answer: the number, the target that it shows and the ports that it names.
#[tactic(auto, unfolding(crate::specs::Checking::check_finding))]
pub fn check_finding(a: Result<Verdict, Refusal>) -> Finding
    ensures { result ≡ check_finding a }
{
    match a {
        Err(r) => refusal_finding(r),
        Ok(v) => finding_of(v),
    }
}
