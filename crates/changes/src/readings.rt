// What must be so of a history before a run is added, a version is read back, or it is wound back.
ghost use Rattle.std.specs.Prelude.{◌≡◌, ◌≤◌, length, IfOk};
ghost use Rattle.picture.specs.Reading.{reading, number_of};
ghost use Rattle.changes.specs.ReadingBack.{wind_back_number, version_number};
ghost use Rattle.changes.specs.Refusals.{answer_number};

use crate::refusals::HistoryRefusal;
use trees::Picture;

// The first picture, numbers 1 to 10.
#[tactic(auto, using(picture::proofs::WhatReads::count_few, picture::proofs::WhatReads::count_read))]
pub fn first_picture<'a>(bytes: &'a [u8]) -> Result<Picture<'a>, HistoryRefusal>
    ensures number { answer_number result ≡ number_of (reading bytes.now) }
    ensures picture { IfOk result (λ p. p.bytes.now ≡ bytes.now) }
{
    match picture::read(bytes) {
        Err(r) => Err(HistoryRefusal::Unread(r)),
        Ok(h) => Ok(Picture {
            bytes,
            count: h.count as u8,
        }),
    }
}

// Number 40: a version above the last.
pub fn wind_back(kept: u32, k: u32) -> Result<(), HistoryRefusal>
    ensures { answer_number result ≡ wind_back_number kept k }
{
    if kept < k {
        return Err(HistoryRefusal::AboveLast);
    }
    Ok(())
}

// The first picture of a version that is there, of changes kept that stand in a room of records, for a buffer that is long enough.
#[tactic(auto, unfolding(crate::specs::ReadingBack::version_number))]
pub fn version_there<'a>(
    first: &'a [u8],
    records: usize,
    buffer: usize,
    kept: u32,
    k: u32,
) -> Result<Picture<'a>, HistoryRefusal>
    ensures number { answer_number result ≡ version_number first.now records buffer kept k }
    ensures picture { IfOk result (λ p. (p.bytes.now ≡ first.now) × (k ≤ records) × (length first.now ≤ buffer)) }
{
    let picture = first_picture(first)?;
    wind_back(kept, k)?;
    if records < kept as usize {
        return Err(HistoryRefusal::AboveLast);
    }
    if buffer < first.len() {
        return Err(HistoryRefusal::BufferShort);
    }
    Ok(picture)
}
