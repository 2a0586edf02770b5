// The lines of a walk: the end, and the ports crossed in order.
ghost use Rattle.std.specs.Prelude.{◌≡◌, cond, [], ◌++◌, take};
ghost use Rattle.texts.specs.Texts.{text_of, appended, ascii};
ghost use Rattle.texts.specs.Lines.{spaced, each_spaced, end_line, walk_lines};

use crate::Text;
use chassis::End;
use ids::PortNo;
use paths::Path;

// The text with the Function number of a configuration request.
#[tactic(auto, using(crate::proofs::Laws::behind), unfolding(crate::specs::Texts::appended, crate::specs::Texts::ascii))]
fn with_function(text: Text, config: bool, function: u8) -> Text
    ensures { result ≡ appended text (cond config (ascii " function" ++ spaced function) []) }
{
    if config {
        return text.with(b" function").with_number(function as u64);
    }
    text
}

// Where a packet ends; `config` tells a configuration request.
#[tactic(auto, using(crate::proofs::Laws::begun, crate::proofs::Laws::behind), unfolding(crate::specs::Texts::ascii, crate::specs::Lines::each_spaced, crate::specs::Lines::end_line))]
fn end_text(config: bool, end: End) -> Text
    ensures { result ≡ text_of (end_line config end) }
{
    let text = Text::new();
    match end {
        End::Device(p, function) => {
            with_function(text.with(b"end device port").with_port(p), config, function)
        }
        End::Function(p) => text.with(b"end function port").with_port(p),
        End::Host => text.with(b"end host"),
        End::Unsupported(p) => text.with(b"end unsupported port").with_port(p),
        End::Doubled(p, q) => text.with(b"end doubled ports").with_port(p).with_port(q),
    }
}

// The text with the first of the places, each after a space.
fn with_places(text: Text, places: [PortNo; 32], count: usize) -> Text
    ensures { result ≡ appended text (each_spaced (take count places)) }
{
    places
        .iter()
        .take(count)
        .fold(text, |grown, &p| grown.with_port(p))
}

// Where a packet goes: its end, and on a second line the ports that it has crossed.
#[tactic(auto, using(crate::proofs::Laws::begun), unfolding(crate::specs::Texts::ascii, crate::specs::Lines::walk_lines))]
pub fn walk_text(config: bool, end: End, path: Path) -> Text
    ensures { result ≡ text_of (walk_lines config end path) }
{
    let text = end_text(config, end).with(b"\npath");
    with_places(text, path.places, path.count)
}
