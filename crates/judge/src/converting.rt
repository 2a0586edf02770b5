// What a port of a picture makes of a configuration request for an ID.
ghost use Rattle.std.specs.Prelude.{◌≡◌};
ghost use Rattle.judge.specs.Converting.{convert_asked_wrongly, convert_answer};

use crate::asking::id_too_large;
use chassis::Conversion;
use ids::{PortNo, Rid, Target};
use patches::PatchedPicture;
use picture::Refusal;
use trees::Picture;

// Number 16; kind 0 is an ID.
#[tactic(auto, unfolding(crate::specs::Converting::convert_asked_wrongly))]
fn convert_asked_wrongly(count: u32, port: u32, target: u64) -> bool
    ensures { result ≡ convert_asked_wrongly count port target }
{
    (count <= port) | id_too_large(0, target)
}

// Numbers 1 to 10, then 16, else what the port makes of the request.
#[tactic(auto, using(crate::proofs::Asked::convert_fits, picture::proofs::WhatReads::count_few, picture::proofs::WhatReads::count_read), unfolding(crate::specs::Converting::convert_of))]
pub fn convert(s: &[u8], port: u32, target: u64) -> Result<Conversion, Refusal>
    ensures { result ≡ convert_answer s.now port target }
{
    let h = picture::read(s)?;
    if convert_asked_wrongly(h.count as u32, port, target) {
        return Err(Refusal::AskedWrongly);
    }
    let over = PatchedPicture {
        picture: Picture {
            bytes: s,
            count: h.count as u8,
        },
        patch: &[],
    };
    let id = Target::Id(Rid(target as u16));
    Ok(claims::conversion(&over, PortNo(port as u8), id))
}
