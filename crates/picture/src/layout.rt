// Where the vectors of each port lie (number 10), and each vector as a part of the picture.
ghost use Rattle.std.specs.Prelude.{◌≡◌, ◌≤◌};
ghost use Rattle.chassis.specs.Looking.{number_in};
ghost use Rattle.picture.specs.Layout.{all_bytes, offset_in, vector_of};
ghost use Rattle.picture.specs.Reading.{misplaced_in};

use ids::PortNo;
use registers::{Fpb, Mechanism, edition_of, record_at, sizes_of, vector_bytes, vectors_start};
use trees::Picture;

// The bytes of all vectors of a port.
pub fn all_bytes(f: Fpb) -> u64
    ensures value { result ≡ all_bytes f }
    ensures upper_bound { result ≤ 12288 }
{
    vector_bytes(f, Mechanism::Rid)
        + vector_bytes(f, Mechanism::Low)
        + vector_bytes(f, Mechanism::High)
}

// The lowest port whose vectors start elsewhere than at the running offset, or 255 if they do not end at the total.
#[tactic(auto, using(least::proofs::Laws::NoneIn, crate::proofs::Laws::all_bytes_same, crate::proofs::Laws::misplaced_end, crate::proofs::Laws::misplaced_here, crate::proofs::Laws::misplaced_nowhere, least::proofs::Laws::none_empty, least::proofs::Laws::none_more, crate::proofs::Laws::place_kept, crate::proofs::Laws::place_wrong_lem), unfolding(crate::specs::Layout::running_offset))]
pub fn misplaced(picture: &Picture) -> Option<PortNo>
    ensures { number_in result ≡ misplaced_in picture.now.bytes.now }
{
    let s = picture.bytes;
    let mut offset: u64 = record_at(edition_of(s), picture.count as usize) as u64;
    for p in 0..picture.count {
        if vectors_start(s, PortNo(p)) as u64 != offset {
            return Some(PortNo(p));
        }
        offset += all_bytes(sizes_of(s, PortNo(p)));
    }
    if offset != s.len() as u64 {
        return Some(PortNo::NONE);
    }
    None
}

// The bytes between the start of a port's vectors and one of them.
pub fn offset_in(f: Fpb, m: Mechanism) -> u64
    ensures value { result ≡ offset_in f m }
    ensures upper_bound { result ≤ 8192 }
{
    match m {
        Mechanism::Rid => 0,
        Mechanism::Low => vector_bytes(f, Mechanism::Rid),
        Mechanism::High => vector_bytes(f, Mechanism::Rid) + vector_bytes(f, Mechanism::Low),
    }
}

// A port's vector, as a part of the picture.
#[tactic(auto, using(crate::proofs::Laws::offset_same), unfolding(crate::specs::Layout::vector_of))]
pub fn vector(s: &[u8], p: PortNo, m: Mechanism) -> &[u8]
    ensures { result.now ≡ vector_of s.now p.0 m }
{
    let f = sizes_of(s, p);
    let at = vectors_start(s, p) as u64 + offset_in(f, m);
    lent::part(s, at as usize, vector_bytes(f, m) as usize)
}
