// The room of records that a history is kept in.
ghost use Rattle.std.specs.Prelude.{cond, ◌≡◌, ◌+◌, ◌≤◌, ltb, IfOk};
ghost use Rattle.changes.specs.Adding.{room_full};
ghost use Rattle.changes.specs.Refusals.{answer_number};

use crate::refusals::HistoryRefusal;

// The most changes that a number of 32 bits counts.
const MOST_CHANGES: usize = 4294967295;

// How many of the changes kept stand in a room.
pub fn held_in(kept: u32, records: usize) -> usize
    ensures { result ≡ cond (ltb records kept) records kept }
{
    records.min(kept as usize)
}

// Whether the changes kept and some more outnumber the records.
#[tactic(auto, using(crate::proofs::Rooms::full_already, crate::proofs::Rooms::full_by_rest))]
fn outnumber(records: usize, kept: u32, count: usize) -> bool
    ensures { result ≡ ltb records (kept + count) }
{
    if records < kept as usize {
        return true;
    }
    records - (kept as usize) < count
}

// Number 39: whether a room has no place for some changes more.
#[tactic(auto, unfolding(crate::specs::Adding::room_full))]
fn room_full(records: usize, kept: u32, count: usize) -> bool
    ensures { result ≡ room_full records kept count }
{
    outnumber(records, kept, count) | outnumber(MOST_CHANGES, kept, count)
}

// How many changes are kept with some more, for which a room has a place.
#[tactic(auto, using(crate::proofs::Added::records_left))]
pub fn room_for(records: usize, kept: u32, count: usize) -> Result<u32, HistoryRefusal>
    ensures number { answer_number result ≡ cond (room_full records kept count) 39 0 }
    ensures kept { IfOk result (λ now. (now ≡ kept + count) × (now ≤ records)) }
{
    if room_full(records, kept, count) {
        return Err(HistoryRefusal::RoomFull);
    }
    Ok((kept as usize + count) as u32)
}
