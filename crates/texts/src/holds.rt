// Why a port holds a target, in words.
ghost use Rattle.std.specs.Prelude.{◌≡◌};
ghost use Rattle.texts.specs.Texts.{text_of, appended};
ghost use Rattle.texts.specs.Lines.{decoder_words, hold_words, holder_line};

use crate::Text;
use chassis::{Decoders, Hold};

// The text with the decoders that claim the target.
#[tactic(auto, using(crate::proofs::Laws::behind), unfolding(crate::specs::Texts::ascii, crate::specs::Lines::decoder_words))]
fn with_decoders(text: Text, d: Decoders) -> Text
    ensures { result ≡ appended text (decoder_words d) }
{
    text.with_if(d.bus, b" bus")
        .with_if(d.rid, b" rid")
        .with_if(d.mem, b" mem")
        .with_if(d.pref, b" pref")
        .with_if(d.low, b" low")
        .with_if(d.high, b" high")
        .with_if(d.vga, b" vga")
}

// The text with a port's number after a space, and by what the port holds the target.
#[tactic(auto, using(crate::proofs::Laws::behind), unfolding(crate::specs::Texts::ascii, crate::specs::Lines::hold_words))]
pub fn with_hold(text: Text, h: Hold) -> Text
    ensures { result ≡ appended text (hold_words h) }
{
    let named = text.with_port(h.port).with(b" by");
    with_decoders(named.with_if(h.own, b" own"), h.decoders)
}

// The line of a port that holds a target.
#[tactic(auto, using(crate::proofs::Laws::begun), unfolding(crate::specs::Texts::ascii, crate::specs::Lines::holder_line))]
pub fn holder_text(h: Hold) -> Text
    ensures { result ≡ text_of (holder_line h) }
{
    with_hold(Text::new().with(b"port"), h)
}
