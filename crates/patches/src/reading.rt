// Reading a patch, after the picture that it is laid over: numbers 30 to 32, each looked for over the whole patch before the next.
ghost use Rattle.std.specs.Prelude.{false, ◌≡◌, ◌≤◌};
ghost use Rattle.patches.specs.Patch.{header_misfits, port_misplaced, ports_misplaced, vectors_misplaced};
ghost use Rattle.patches.specs.Reading.{patch_reading, reading_with};

use crate::rows::{offset_at, port_in, ports_in, row_at};
use ids::PortNo;
use lent::u32_at;
use picture::{Header, Refusal, all_bytes};
use registers::port_at;

// Number 30.
#[tactic(auto, unfolding(crate::specs::Patch::header_misfits))]
fn header_misfits(patch: &[u8]) -> bool
    ensures { result ≡ header_misfits patch.now }
{
    let length = patch.len() as u64;
    (length < 8) | (u32_at(patch, 4) as u64 != length) | (length < row_at(ports_in(patch)))
}

// Number 31 at row i: its port does not rise above that of the row before, or the picture, of n ports, does not have it.
#[tactic(auto, using(crate::proofs::Laws::rising_at), unfolding(crate::specs::Patch::not_rising, crate::specs::Patch::port_misplaced))]
pub fn port_misplaced(patch: &[u8], n: u8, i: u32) -> bool
    ensures { result ≡ port_misplaced n patch.now i }
{
    let port = port_in(patch, i);
    if 0 < i {
        return (port <= port_in(patch, i - 1)) | (n as u32 <= port);
    }
    n as u32 <= port
}

// Number 31.
#[tactic(auto, using(crate::proofs::Laws::port_wrong), unfolding(chassis::specs::Tree::any_below, crate::specs::Patch::ports_misplaced))]
fn ports_misplaced(patch: &[u8], n: u8) -> bool
    ensures { result ≡ ports_misplaced n patch.now }
{
    for i in 0..ports_in(patch) {
        if port_misplaced(patch, n, i) {
            return true;
        }
    }
    false
}

// Number 32, of a patch that 31 does not refuse: the rows' offsets run on without gaps, and the last vectors end at the total.
#[tactic(auto, using(crate::proofs::Laws::offset_kept, crate::proofs::Laws::offset_wrong_lem, crate::proofs::Accepted::port_there), unfolding(chassis::specs::Tree::any_below, crate::specs::Patch::running_in, crate::specs::Patch::vectors_misplaced))]
fn vectors_misplaced(s: &[u8], patch: &[u8], n: u8) -> bool
    requires { ports_misplaced n patch.now ≡ false }
    ensures { result ≡ vectors_misplaced s.now patch.now }
{
    let count = ports_in(patch);
    let mut offset: u64 = row_at(count);
    for i in 0..count {
        if offset_at(patch, i) as u64 != offset {
            return true;
        }
        let f = port_at(s, PortNo(port_in(patch, i) as u8)).fpb;
        offset += all_bytes(f);
    }
    offset != patch.len() as u64
}

// Numbers 30 to 32 of a patch over a picture that reads, or the picture's header.
#[tactic(auto, unfolding(crate::specs::Reading::patch_reading))]
fn read_patch(s: &[u8], patch: &[u8], h: Header) -> Result<Header, Refusal>
    requires { h.count ≤ 64 }
    ensures { result ≡ patch_reading (Ok h) s.now patch.now }
{
    if header_misfits(patch) {
        return Err(Refusal::PatchHeader);
    }
    let n = h.count as u8;
    if ports_misplaced(patch, n) {
        return Err(Refusal::PatchPorts);
    }
    if vectors_misplaced(s, patch, n) {
        return Err(Refusal::PatchVectors);
    }
    Ok(h)
}

// Reads a picture and a patch: numbers 1 to 10, then 30 to 32, or the picture's header.
#[tactic(auto, using(picture::proofs::WhatReads::count_few), unfolding(crate::specs::Reading::patch_reading))]
pub fn read(s: &[u8], patch: &[u8]) -> Result<Header, Refusal>
    ensures { result ≡ reading_with s.now patch.now }
{
    read_patch(s, patch, picture::read(s)?)
}
