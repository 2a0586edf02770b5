// The lines of the report: two for a picture that passes, one for a refusal.
ghost use Rattle.std.specs.Prelude.{◌≡◌};
ghost use Rattle.texts.specs.Texts.{text_of, appended};
ghost use Rattle.texts.specs.Lines.{target_words, ports_words, refused_line, report_lines};

use crate::Text;
use crate::holds::with_hold;
use chassis::{Finding, Named};
use ids::Target;

// The text with the target that a number shows.
#[tactic(auto, using(crate::proofs::Laws::behind), unfolding(crate::specs::Texts::appended, crate::specs::Texts::ascii, crate::specs::Lines::target_words))]
fn with_target(text: Text, shown: Option<Target>) -> Text
    ensures { result ≡ appended text (target_words shown) }
{
    match shown {
        None => text,
        Some(t) => match t {
            Target::Id(rid) => text.with(b" id ").with_hex(rid.0 as u64, 4),
            Target::Addr(a) => text.with(b" addr ").with_hex(a, 16),
        },
    }
}

// The text with the ports that a number names, those of a target with why they hold it.
#[tactic(auto, using(crate::proofs::Laws::behind), unfolding(crate::specs::Texts::appended, crate::specs::Texts::ascii, crate::specs::Lines::ports_words))]
fn with_ports(text: Text, ports: Named) -> Text
    ensures { result ≡ appended text (ports_words ports) }
{
    match ports {
        Named::NoPort => text,
        Named::Port(p) => text.with(b" ports").with_port(p),
        Named::Holder(h) => with_hold(text.with(b" ports"), h),
        Named::Pair(h, k) => with_hold(with_hold(text.with(b" ports"), h), k),
    }
}

// `refused K`, with the target and the ports where they are named.
#[tactic(auto, using(crate::proofs::Laws::begun), unfolding(crate::specs::Texts::ascii, crate::specs::Lines::refused_line))]
pub fn refused_text(f: Finding) -> Text
    ensures { result ≡ text_of (refused_line f) }
{
    let text = Text::new().with(b"refused").with_number(f.number as u64);
    with_ports(with_target(text, f.target), f.ports)
}

// `ports N` and `clear` with the byte `end` between them, or the refusal.
#[tactic(auto, using(crate::proofs::Laws::begun), unfolding(crate::specs::Texts::ascii, crate::specs::Lines::report_lines))]
pub fn report_text(count: u16, f: Finding, end: u8) -> Text
    ensures { result ≡ text_of (report_lines count f end) }
{
    if f.number == 0 {
        let text = Text::new().with(b"ports").with_number(count as u64);
        return text.with_byte(end).with(b"clear");
    }
    refused_text(f)
}
