// Which byte a change names, by the layout of the first picture.
ghost use Rattle.std.specs.Prelude.{◌≡◌, ◌<◌, ◌^◌};
ghost use Rattle.changes.specs.Change.{part_bytes, part_start, byte_named};

use crate::Change;
use ids::PortNo;
use picture::all_bytes;
use registers::{edition_of, record_at, sizes_of, vectors_start};
use trees::Picture;

// The parts of a port.
const IN_RECORD: u32 = 0;

const IN_VECTORS: u32 = 1;

// How many bytes a part of a port has. A record ends where the next one starts.
#[tactic(auto, using(picture::proofs::Laws::all_bytes_same, crate::proofs::Named::record_first, crate::proofs::Named::record_size), unfolding(crate::specs::Change::part_bytes))]
fn part_bytes(first: &[u8], p: PortNo, part: u32) -> u64
    ensures { result ≡ part_bytes first.now p.0 part }
{
    if part == IN_RECORD {
        let edition = edition_of(first);
        return (record_at(edition, 1) - record_at(edition, 0)) as u64;
    }
    if part == IN_VECTORS {
        return all_bytes(sizes_of(first, p));
    }
    0
}

// Where it starts.
#[tactic(auto, unfolding(crate::specs::Change::part_start))]
fn part_start(first: &[u8], p: PortNo, part: u32) -> u64
    ensures value { result ≡ part_start first.now p.0 part }
    ensures upper_bound { result < 2 ^ 32 }
{
    if part == IN_RECORD {
        record_at(edition_of(first), p.0 as usize) as u64
    } else {
        vectors_start(first, p) as u64
    }
}

// The byte that a change names, of the first picture.
#[inline(always)]
#[tactic(auto, unfolding(crate::specs::Change::byte_named))]
pub fn byte_named(first: &Picture, c: Change) -> Option<u64>
    ensures { result ≡ byte_named first.now.bytes.now c }
{
    if first.count as u32 <= c.port {
        return None;
    }
    let p = PortNo(c.port as u8);
    if part_bytes(first.bytes, p, c.part) <= c.at as u64 {
        return None;
    }
    Some(part_start(first.bytes, p, c.part) + c.at as u64)
}
