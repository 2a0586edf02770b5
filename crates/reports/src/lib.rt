// What the programs print of the library's answers.
#![tactic(auto)]

mod held;

ghost use Rattle.std.specs.Prelude.{◌≡◌, eqb};
ghost use Rattle.texts.specs.Texts.{text_of};
ghost use Rattle.reports.specs.Reports.{report_of, trial_of, walk_of, ended};

pub use held::{claim_text, print_holders};
use judge::{check, check_finding, refusal_finding, trial_check};
use picture::Refusal;
use routes::Walked;
use texts::Text;

// What the report says of a picture: two lines with `end` between them, or one.
pub fn report(picture: &[u8], end: u8) -> Text
    ensures { result ≡ text_of (report_of picture.now end) }
{
    texts::report_text(lent::u16_at(picture, 2), check_finding(check(picture)), end)
}

// What it says of a picture with the patch's vectors put in.
pub fn trial<'a>(picture: &'a [u8], patch: &'a [u8], end: u8) -> Text
    ensures { result ≡ text_of (trial_of picture.now patch.now end) }
{
    texts::report_text(
        lent::u16_at(picture, 2),
        check_finding(trial_check(picture, patch)),
        end,
    )
}

// Where a packet goes, or why that is not answered; `config` tells a configuration request.
fn walked(config: bool, answer: Result<Walked, Refusal>) -> Text
    ensures { result ≡ text_of (walk_of config answer) }
{
    match answer {
        Err(r) => texts::refused_text(refusal_finding(r)),
        Ok(w) => texts::walk_text(config, w.end, w.path),
    }
}

// All that the program `report` prints.
#[tactic(auto, using(texts::proofs::Laws::begun))]
pub fn report_lines(picture: &[u8]) -> Text
    ensures { result ≡ text_of (ended (report_of picture.now 10)) }
{
    report(picture, b'\n').with(b"\n")
}

// All that the program `trial` prints.
#[tactic(auto, using(texts::proofs::Laws::begun))]
pub fn trial_lines<'a>(picture: &'a [u8], patch: &'a [u8]) -> Text
    ensures { result ≡ text_of (ended (trial_of picture.now patch.now 10)) }
{
    trial(picture, patch, b'\n').with(b"\n")
}

// All that the program `route` prints for a packet of this kind; 2 is a configuration request.
#[tactic(auto, using(texts::proofs::Laws::begun))]
pub fn walk_lines(kind: u32, answer: Result<Walked, Refusal>) -> Text
    ensures { result ≡ text_of (ended (walk_of (eqb kind 2) answer)) }
{
    walked(kind == 2, answer).with(b"\n")
}
