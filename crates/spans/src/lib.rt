// What one port reaches in one space, IDs or addresses, and the search from next to next. No step goes target by target.
#![tactic(auto)]

pub mod grids;
pub mod ranges;

ghost use Rattle.std.specs.Prelude.{◌≡◌, ◌^◌};
ghost use Rattle.least.specs.Least.{first_in};

use crate::grids::Grid;
use crate::ranges::Range;

// Two ranges and two vectors' grids. What is off is an empty range, or a grid within one.
#[derive(Clone, Copy)]
pub struct Reach {
    pub first: Range,
    pub second: Range,
    pub one: Grid,
    pub other: Grid,
}

// A reach with the vectors of its two grids.
#[derive(Clone, Copy)]
pub struct Reached<'a> {
    pub reach: &'a Reach,
    pub one: &'a [u8],
    pub other: &'a [u8],
}

impl Reached<'_> {
    ghost use Rattle.spans.specs.Reaches.{reaches, misses, skipped};

    // The next target, from `from` on, that is reached.
    #[inline(never)]
    #[tactic(auto, using(crate::proofs::OfReaches::reach_first))]
    pub fn next_reached(&self, from: u64) -> Option<u64>
        ensures { result ≡ first_in (reaches self.now.reach.now self.now.one.now self.now.other.now) from (2 ^ 64) }
    {
        let d = self.reach;
        let on_ranges = least::sooner(d.first.next_in(from), d.second.next_in(from));
        let with_one = d.one.next_hit(self.one, from, on_ranges);
        d.other.next_hit(self.other, from, with_one)
    }

    // From a target out of the first range, from there out of the second, and past the grids in the same way: the same target
    // exactly if it is not reached.
    #[tactic(auto, unfolding(crate::specs::Reaches::skipped))]
    fn skip(&self, i: u64) -> Option<u64>
        ensures { result ≡ skipped self.now.reach.now self.now.one.now self.now.other.now i }
    {
        let d = self.reach;
        let past_first = d.first.next_out(i)?;
        let past_ranges = d.second.next_out(past_first)?;
        let past_one = d.one.next_miss(self.one, past_ranges)?;
        d.other.next_miss(self.other, past_one)
    }

    // The next target, from `from` on, that is not reached.
    #[tactic(auto, using(crate::proofs::OfReaches::skip_found, crate::proofs::OfReaches::skip_none))]
    pub fn next_unreached(&self, from: u64) -> Option<u64>
        ensures { result ≡ first_in (misses self.now.reach.now self.now.one.now self.now.other.now) from (2 ^ 64) }
    {
        let mut i = from;
        loop {
            let k = self.skip(i)?;
            if k == i {
                return Some(k);
            }
            i = k;
        }
    }
}
