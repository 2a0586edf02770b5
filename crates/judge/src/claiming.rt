// What a port of a picture has to do with a target.
ghost use Rattle.std.specs.Prelude.{◌≡◌};
ghost use Rattle.judge.specs.Claiming.{claim_asked_wrongly, claim_answer};

use crate::asking::{id_too_large, target_asked};
use chassis::Hold;
use ids::PortNo;
use picture::Refusal;

// Number 16.
#[tactic(auto, unfolding(crate::specs::Claiming::claim_asked_wrongly))]
fn claim_asked_wrongly(count: u32, port: u32, kind: u32, target: u64) -> bool
    ensures { result ≡ claim_asked_wrongly count port kind target }
{
    (count <= port) | (1 < kind) | id_too_large(kind, target)
}

// Numbers 1 to 10, then 16, else the decoders of the port that claim the target, and whether it is the port's own.
#[tactic(auto, using(crate::proofs::Asked::claim_port, crate::proofs::Asked::claim_target, picture::proofs::WhatReads::count_few), unfolding(crate::specs::Claiming::claim_of))]
pub fn claim(s: &[u8], port: u32, kind: u32, target: u64) -> Result<Hold, Refusal>
    ensures { result ≡ claim_answer s.now port kind target }
{
    let h = picture::read(s)?;
    if claim_asked_wrongly(h.count as u32, port, kind, target) {
        return Err(Refusal::AskedWrongly);
    }
    let target = target_asked(kind, target);
    Ok(claims::hold_of(s, &[], PortNo(port as u8), target))
}
