// The call that reads a version of a history back.
ghost use Rattle.fiswalend.specs.History.{VersionCall};

use changes::{Change, make_change, version_there};
use history::record_at;

// Writes version k into a buffer: the first picture, then the first k changes made.
pub fn fpb_history_version(first: &[u8], room: &[Change], out: &mut [u8], kept: u32, k: u32) -> u32
    ensures { VersionCall first.now room.now kept k out.old result out.new }
{
    let picture = match version_there(first, room.len(), out.len(), kept, k) {
        Err(r) => return r.number(),
        Ok(picture) => picture,
    };
    out[..first.len()].copy_from_slice(first);
    for i in 0..k as usize {
        make_change(&picture, out, record_at(room, i));
    }
    0
}
