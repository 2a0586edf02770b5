// What a byte is before a change.
ghost use Rattle.std.specs.Prelude.{◌≡◌, ◌≤◌, length};
ghost use Rattle.changes.specs.Looking.{held_up_to};

use crate::records::record_at;
use changes::{Change, held_after, same_byte};

// What the byte that c names is after the first k changes, if it was `held` before them: what the last that names it makes of it.
#[tactic(auto, using(crate::proofs::Turns::looked_past, crate::proofs::Turns::looked_here, crate::proofs::Turns::looked_end))]
pub fn byte_before(changes: &[Change], k: usize, c: Change, held: u8) -> u8
    requires { k ≤ length changes.now }
    ensures { result ≡ held_up_to changes.now c held k }
{
    for i in (0..k).rev() {
        let done = record_at(changes, i);
        if same_byte(done, c) {
            return held_after(done, c, held);
        }
    }
    held
}
