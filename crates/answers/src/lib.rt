// The 40 bytes of an answer to the chassis controller: eight that say what was found, then 32 places.
#![tactic(auto)]

ghost use Rattle.std.specs.Prelude.{◌≡◌};
ghost use Rattle.answers.specs.Answers.{answer_bytes, no_places, path_places, target_places};

use ids::PortNo;

// How many bytes an answer has.
pub const ANSWER_BYTES: usize = 40;

// What stands at a place that is not used.
const NO_PLACE: u8 = 255;

// What stands before the places.
#[derive(Clone, Copy)]
pub struct Head {
    pub number: u8,
    pub end: u8,
    pub port: PortNo,
    pub second: PortNo,
    pub crossings: u8,
    pub function: u8,
}

// An answer that uses no place.
#[tactic(auto, unfolding(crate::specs::Answers::answer_bytes, crate::specs::Answers::head_bytes, crate::specs::Answers::no_places))]
pub fn without_places(h: Head) -> [u8; ANSWER_BYTES]
    ensures { result ≡ answer_bytes h no_places }
{
    let Head {
        number,
        end,
        port,
        second,
        crossings,
        function,
    } = h;
    let head = [number, end, port.0, second.0, crossings, function, 0, 0];
    let mut out = [NO_PLACE; ANSWER_BYTES];
    out[..8].copy_from_slice(&head);
    out
}

// An answer whose places are those of a path.
#[tactic(auto, using(crate::proofs::Laws::Filled, crate::proofs::Laws::filled_all, crate::proofs::Laws::filled_more, crate::proofs::Laws::filled_none))]
pub fn with_path(h: Head, places: [PortNo; 32]) -> [u8; ANSWER_BYTES]
    ensures { result ≡ answer_bytes h (path_places places) }
{
    let mut out = without_places(h);
    for (i, p) in places.iter().enumerate() {
        out[8 + i] = p.0;
    }
    out
}

// An answer with a least target in its first 8 places.
#[tactic(auto, unfolding(crate::specs::Answers::answer_bytes, crate::specs::Answers::head_bytes, crate::specs::Answers::no_places, crate::specs::Answers::target_places))]
pub fn with_target(h: Head, t: u64) -> [u8; ANSWER_BYTES]
    ensures { result ≡ answer_bytes h (target_places t) }
{
    let mut out = without_places(h);
    out[8..16].copy_from_slice(&t.to_le_bytes());
    out
}
