// Whether a run may be added.
ghost use Rattle.std.specs.Prelude.{◌≡◌, ◌<◌, ◌≤◌, ◌+◌, length, IfOk};
ghost use Rattle.chassis.specs.Tree.{any_below};
ghost use Rattle.picture.specs.Reading.{reading, number_of};
ghost use Rattle.changes.specs.Versions.{version};
ghost use Rattle.changes.specs.Change.{byte_named};
ghost use Rattle.changes.specs.Adding.{names_none, is_another, old_wrong, run_number, adding_number};
ghost use Rattle.changes.specs.Refusals.{answer_number};

use crate::looking::byte_before;
use crate::records::record_at;
use changes::{Change, HistoryRefusal, byte_named, first_byte, first_picture, held_in, room_for};
use trees::Picture;

// Whether a change of the run names a byte that does not exist.
#[tactic(auto, using(crate::proofs::Turns::none_yet, crate::proofs::Turns::none_more), unfolding(changes::specs::Adding::names_none))]
fn a_byte_is_missing(first: &Picture, run: &[Change]) -> bool
    ensures { result ≡ any_below (names_none first.now.bytes.now run.now) (length run.now) }
{
    for i in 0..run.len() {
        if byte_named(first, record_at(run, i)).is_none() {
            return true;
        }
    }
    false
}

// Whether a change says another old byte than this one, of a byte that it names; what it names is looked up only where it says another.
#[tactic(auto, using(crate::proofs::Turns::said_right, crate::proofs::Turns::said_wrong))]
fn says_another(first: &Picture, c: Change, byte: u8) -> bool
    ensures { result ≡ is_another (byte_named first.now.bytes.now c) byte c.old_byte }
{
    if byte == c.old_byte {
        return false;
    }
    byte_named(first, c).is_some()
}

// Whether change i of the run says another old byte than the changes kept and those before it in the run leave there.
#[tactic(auto, using(changes::proofs::Rooms::held_within, crate::proofs::Turns::another_here))]
fn old_wrong(first: &Picture, room: &[Change], run: &[Change], kept: u32, i: usize) -> bool
    requires read { number_of (reading first.now.bytes.now) ≡ 0 }
    requires there { i < length run.now }
    ensures { result ≡ old_wrong first.now.bytes.now (version first.now.bytes.now room.now kept) run.now i }
{
    let c = record_at(run, i);
    let held = held_in(kept, room.len());
    let kept_byte = byte_before(room, held, c, first_byte(first, c));
    says_another(first, c, byte_before(run, i, c, kept_byte))
}

// Whether one of them does.
#[tactic(auto, using(crate::proofs::Turns::none_yet, crate::proofs::Turns::none_more))]
fn an_old_byte_is_wrong(first: &Picture, room: &[Change], run: &[Change], kept: u32) -> bool
    requires read { number_of (reading first.now.bytes.now) ≡ 0 }
    ensures { result ≡ any_below (old_wrong first.now.bytes.now (version first.now.bytes.now room.now kept) run.now) (length run.now) }
{
    for i in 0..run.len() {
        if old_wrong(first, room, run, kept, i) {
            return true;
        }
    }
    false
}

// Numbers 37 and 38.
#[tactic(auto, unfolding(changes::specs::Adding::run_number))]
fn run_accepted(
    first: &Picture,
    room: &[Change],
    run: &[Change],
    kept: u32,
) -> Result<(), HistoryRefusal>
    requires read { number_of (reading first.now.bytes.now) ≡ 0 }
    ensures { answer_number result ≡ run_number first.now.bytes.now (version first.now.bytes.now room.now kept) run.now (length run.now) }
{
    if a_byte_is_missing(first, run) {
        return Err(HistoryRefusal::MissingByte);
    }
    if an_old_byte_is_wrong(first, room, run, kept) {
        return Err(HistoryRefusal::OtherByte);
    }
    Ok(())
}

// How many changes are kept once the run is added, or why it is not.
#[tactic(auto, unfolding(changes::specs::Adding::adding_number))]
pub fn accept(
    first: &[u8],
    room: &[Change],
    run: &[Change],
    kept: u32,
) -> Result<u32, HistoryRefusal>
    ensures number { answer_number result ≡ adding_number first.now room.now run.now kept }
    ensures kept { IfOk result (λ now. (now ≡ kept + length run.now) × (now ≤ length room.now)) }
{
    let picture = first_picture(first)?;
    run_accepted(&picture, room, run, kept)?;
    room_for(room.len(), kept, run.len())
}
