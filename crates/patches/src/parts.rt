// The part handed out: a port's vector lies in the patch where the port stands in it, and in the picture where it does not.
ghost use Rattle.std.specs.Prelude.{◌≡◌};
ghost use Rattle.picture.specs.declared.Header.{Header};
ghost use Rattle.patches.specs.Halves.{place_over, vector_over};
ghost use Rattle.patches.specs.Parts.{place_of, part_at};
ghost use Rattle.patches.specs.Reading.{reading_with};

use crate::rows::{offset_at, row_of};
use ids::PortNo;
use picture::offset_in;
use registers::{Mechanism, sizes_of, vector_bytes, vectors_start};

// The two lent slices.
#[derive(Clone, Copy)]
pub enum Source {
    Picture,
    Patch,
}

// Where a vector lies: in which slice, from which byte on, and how many bytes.
#[derive(Clone, Copy)]
pub struct Place {
    pub source: Source,
    pub at: u64,
    pub bytes: u64,
}

// Where port p's vector lies; where picture and patch read, that is where the port's row says.
#[tactic(auto, using(picture::proofs::Laws::offset_same, crate::proofs::PatchedReads::place_both), unfolding(crate::specs::Halves::place_over))]
pub fn lies_at(s: &[u8], patch: &[u8], p: PortNo, m: Mechanism) -> Place
    ensures value { result ≡ place_over s.now patch.now p.0 m }
    ensures where_it_reads { (h : Header) → reading_with s.now patch.now ≡ Ok h → result ≡ place_of s.now patch.now p.0 m }
{
    let f = sizes_of(s, p);
    match row_of(patch, p) {
        Some(i) => Place {
            source: Source::Patch,
            at: offset_at(patch, i) as u64 + offset_in(f, m),
            bytes: vector_bytes(f, m),
        },
        None => Place {
            source: Source::Picture,
            at: vectors_start(s, p) as u64 + offset_in(f, m),
            bytes: vector_bytes(f, m),
        },
    }
}

// Port p's vector, as a part of the slice that it lies in, sought in an empty patch too.
#[tactic(auto, unfolding(crate::specs::Parts::part_at, crate::specs::Halves::vector_over))]
fn sought<'a>(s: &'a [u8], patch: &'a [u8], p: PortNo, m: Mechanism) -> &'a [u8]
    ensures { result.now ≡ vector_over s.now patch.now p.0 m }
{
    let place = lies_at(s, patch, p, m);
    let source = place.source;
    match source {
        Source::Picture => lent::part(s, place.at as usize, place.bytes as usize),
        Source::Patch => lent::part(patch, place.at as usize, place.bytes as usize),
    }
}

// Port p's vector, as a part of the slice that it lies in: where picture and patch read, the bytes that lie where the port's row
// says. Without a patch nothing is sought.
#[tactic(auto, using(crate::proofs::Sought::own_vector, crate::proofs::PatchedReads::vector_told))]
pub fn vector<'a>(s: &'a [u8], patch: &'a [u8], p: PortNo, m: Mechanism) -> &'a [u8]
    ensures result_value { result.now ≡ vector_over s.now patch.now p.0 m }
    ensures where_it_reads { (h : Header) → reading_with s.now patch.now ≡ Ok h → result.now ≡ part_at (place_of s.now patch.now p.0 m) s.now patch.now }
{
    if patch.len() == 0 {
        return picture::vector(s, p, m);
    }
    sought(s, patch, p, m)
}
