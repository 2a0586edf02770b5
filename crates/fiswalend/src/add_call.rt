// The call that adds a run of changes to a history.
ghost use Rattle.fiswalend.specs.History.{AddCall};

use changes::Change;
use history::accept;

// Adds a run behind the changes kept, whole or not at all, and says how many are kept then.
pub fn fpb_history_add(
    first: &[u8],
    room: &mut [Change],
    run: &[Change],
    kept: u32,
    now_kept: &mut u32,
) -> u32
    ensures { AddCall first.now room.old run.now kept now_kept.old result room.new now_kept.new }
{
    match accept(first, room, run, kept) {
        Err(r) => r.number(),
        Ok(now) => {
            let from = kept as usize;
            room[from..from + run.len()].copy_from_slice(run);
            *now_kept = now;
            0
        }
    }
}
