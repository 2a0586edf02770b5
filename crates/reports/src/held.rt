// Who holds a target, and by what.
ghost use Rattle.std.specs.Prelude.{◌≡◌, cond, []};
ghost use Rattle.chassis.specs.Chassis.{is_held};
ghost use Rattle.texts.specs.Texts.{text_of};
ghost use Rattle.texts.specs.Lines.{holder_line};
ghost use Rattle.reports.specs.Reports.{claim_line};

use chassis::Hold;
use judge::{claim, refusal_finding};
use picture::Refusal;
use std::io;
use texts::Text;

// The line of a port that holds the target; no text of one that does not.
fn hold_text(h: Hold) -> Text
    ensures { result ≡ text_of (cond (is_held h) (holder_line h) []) }
{
    if h.is_held() {
        return texts::holder_text(h);
    }
    Text::new()
}

// What is said of one port, or why that is not answered.
pub fn claim_text(answer: Result<Hold, Refusal>) -> Text
    ensures { result ≡ text_of (claim_line answer) }
{
    match answer {
        Err(r) => texts::refused_text(refusal_finding(r)),
        Ok(h) => hold_text(h),
    }
}

// Prints the line of each port that holds the target, in port order, with the byte `end` between two; true if there is one.
fn print_lines(
    rt: &impl Print,
    picture: &[u8],
    kind: u32,
    target: u64,
    end: u8,
) -> io::Result<bool> {
    let count = lent::u16_at(picture, 2) as u32;
    let mut held = false;
    for port in 0..count {
        let text = claim_text(claim(picture, port, kind, target));
        if 0 < text.length {
            if held {
                rt.write_all(&[end])?;
            }
            text.print(rt)?;
            held = true;
        }
    }
    Ok(held)
}

// Prints all that the program `claims` says of a target, with the byte `end` between two lines.
pub fn print_holders(
    rt: &impl Print,
    picture: &[u8],
    kind: u32,
    target: u64,
    end: u8,
) -> io::Result<()> {
    let first = claim(picture, 0, kind, target);
    if first.is_err() {
        return claim_text(first).with(b"\n").print(rt);
    }
    if !print_lines(rt, picture, kind, target, end)? {
        print!(rt; "nobody")?;
    }
    println!(rt)
}
