// A vector of entries, as the RID, MEM Low and MEM High vectors all are: which entry applies to a target, whether it is
// set, and the next entry that is.
#![tactic(auto)]

mod entries;
mod looks;

ghost use Rattle.std.specs.Prelude.{◌≡◌};
ghost use Rattle.least.specs.Least.{first_in};
ghost use Rattle.vectors.specs.Vectors.{is_set, entry_is};

pub use entries::{wanted, word};
use std::marker::Model;

// A vector's size in entries, the target where entry 0 begins, and its granularity: an entry stands for 2^scale targets.
#[derive(Clone, Copy)]
pub struct Settings {
    pub size: u64,
    pub start: u64,
    pub scale: u32,
}

impl Model for Settings {
    ghost use Rattle.std.specs.Prelude.{◌<◌};
    ghost use Rattle.vectors.specs.Shape.{Shape};

    ghost Value = { Shape };

    ghost view = { λ g. record { size = g.size; start = g.start; scale = g.scale } };

    ghost inverse = { λ g. record { size = g.size; start = g.start; scale = g.scale } };

    ghost invariant = { λ g. g.scale < 64 };
}

impl Settings {
    ghost use Rattle.vectors.specs.Vectors.{entry_of};

    // The entry that applies to a target.
    #[tactic(auto, unfolding(crate::specs::Vectors::entry_of))]
    pub fn entry(self, t: u64) -> Option<u64>
        ensures { result ≡ entry_of self t }
    {
        let i = t.checked_sub(self.start)? >> self.scale;
        (i < self.size).then_some(i)
    }
}

// A vector: its bytes, and the settings that say where its entries lie.
#[derive(Clone, Copy)]
pub struct Vector<'a> {
    pub bytes: &'a [u8],
    pub settings: Settings,
}

impl Vector<'_> {
    ghost use Rattle.vectors.specs.Vectors.{hits};

    // Whether the entry that applies to a target is set.
    #[tactic(auto, using(crate::proofs::Laws::hits_entry, crate::proofs::Laws::misses_entry))]
    pub fn hits(&self, t: u64) -> bool
        ensures { result ≡ hits self.now.bytes.now self.now.settings t }
    {
        self.settings
            .entry(t)
            .is_some_and(|i| is_set(self.bytes, i))
    }
}

// Whether entry i is set; an entry past the vector's bytes is clear.
#[tactic(auto, unfolding(crate::specs::Vectors::is_set))]
pub fn is_set(v: &[u8], i: u64) -> bool
    ensures { result ≡ is_set v.now i }
{
    (lent::u8_at(v, (i / 8) as usize) >> (i % 8)) % 2 == 1
}

// The next entry from `from` on, below the size, that is set, or, where that is wanted, clear. Bytes that hold none such are
// stepped over.
pub fn next_entry(v: &[u8], want: bool, from: u64, size: u64) -> Option<u64>
    ensures { result ≡ first_in (entry_is v.now want) from size }
{
    let mut i = from;
    loop {
        let seen = looks::look(v, want, i);
        if seen.wanted != 0 {
            let found = i + seen.wanted.trailing_zeros() as u64;
            return if found < size { Some(found) } else { None };
        }
        if size <= seen.last {
            return None;
        }
        i = seen.last + 1;
    }
}
