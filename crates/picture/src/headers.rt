// The header of a picture, and numbers 1 to 5.
ghost use Rattle.std.specs.Prelude.{◌≡◌};
ghost use Rattle.picture.specs.Header.{header_of, length_wrong, edition_wrong, count_wrong, total_wrong, offset_wrong};

use crate::Header;
use lent::{u16_at, u32_at};
use registers::{HEADER_BYTES, edition_of, record_at};

// The first 16 bytes.
#[tactic(auto, unfolding(crate::specs::Header::header_of))]
pub fn header_at(s: &[u8]) -> Header
    ensures { result ≡ header_of s.now }
{
    Header {
        edition: edition_of(s),
        count: u16_at(s, 2),
        total: u32_at(s, 4),
        records_at: u32_at(s, 8),
        vectors_at: u32_at(s, 12),
    }
}

// Number 1.
#[tactic(auto, unfolding(crate::specs::Header::length_wrong))]
pub fn length_wrong(s: &[u8]) -> bool
    ensures { result ≡ length_wrong s.now }
{
    (s.len() < record_at(edition_of(s), 1)) | (65536 < s.len())
}

// Number 2.
#[tactic(auto, unfolding(crate::specs::Header::edition_wrong))]
pub fn edition_wrong(h: Header) -> bool
    ensures { result ≡ edition_wrong h }
{
    !((h.edition == 1) | (h.edition == 2))
}

// Number 3.
#[tactic(auto, unfolding(crate::specs::Header::count_wrong))]
pub fn count_wrong(h: Header) -> bool
    ensures { result ≡ count_wrong h }
{
    (h.count == 0) | (64 < h.count)
}

// Number 4.
#[tactic(auto, unfolding(crate::specs::Header::total_wrong))]
pub fn total_wrong(lent: usize, h: Header) -> bool
    ensures { result ≡ total_wrong lent h }
{
    h.total as usize != lent
}

// Number 5.
#[tactic(auto, unfolding(crate::specs::Header::offset_wrong))]
pub fn offset_wrong(lent: usize, h: Header) -> bool
    ensures { result ≡ offset_wrong lent h }
{
    let records_end = record_at(h.edition, h.count as usize);
    (h.records_at as usize != HEADER_BYTES)
        | (h.vectors_at as usize != records_end)
        | (lent < records_end)
}
