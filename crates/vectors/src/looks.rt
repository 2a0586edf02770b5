// One look at a vector: the entries of eight bytes as the binary digits of a number, the first entry lowest, 1 for one that is
// as wanted.
ghost use Rattle.std.specs.Prelude.{◌≡◌, ℕ, ◌+◌, ◌-◌, ◌/◌, ◌%◌, ◌^◌, ◌≤◌, ◌<◌, eqb};
ghost use Rattle.vectors.specs.Vectors.{entry_is};

use crate::entries::{wanted, word};

// The digits of some entries in a row, and the number of the last of them.
#[derive(Clone, Copy)]
pub struct Seen {
    pub wanted: u64,
    pub last: u64,
}

// The entries from i on that lie in the eight bytes looked at.
pub fn look(v: &[u8], want: bool, i: u64) -> Seen
    ensures i_le_last { (i ≤ result.last) × (result.last < i + 64) × (result.wanted < 2 ^ (result.last + 1 - i)) }
    ensures by_index { (k : ℕ) → k < result.last + 1 - i → eqb (result.wanted / 2 ^ k % 2) 1 ≡ entry_is v.now want (i + k) }
{
    let entries = wanted(word(v, i / 64), want);
    Seen {
        wanted: entries >> (i % 64),
        last: i - i % 64 + 63,
    }
}
