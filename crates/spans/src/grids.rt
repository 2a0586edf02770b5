// The entries of a vector that count within a range: the next target that is hit, or missed.
ghost use Rattle.std.specs.Prelude.{◌≡◌, ◌^◌};
ghost use Rattle.least.specs.Least.{first_in, soonest};
ghost use Rattle.vectors.specs.Vectors.{hits};
ghost use Rattle.spans.specs.Grids.{begins_from, unset, clipped};

use crate::ranges::Range;
use vectors::{Settings, Vector, next_entry};

// A vector's settings, and the targets for which its entries count.
#[derive(Clone, Copy)]
pub struct Grid {
    pub within: Range,
    pub settings: Settings,
}

// Where an entry begins, or `from` if that is later; an entry past the last target begins nowhere.
#[tactic(auto, unfolding(crate::specs::Grids::begins_from))]
fn begin(s: Settings, from: u64, i: u64) -> Option<u64>
    ensures { result ≡ begins_from s from i }
{
    let last = (u64::MAX - s.start) >> s.scale;
    if last < i {
        return None;
    }
    Some(from.max(s.start + (i << s.scale)))
}

// The next target whose entry is set.
#[inline(always)]
#[tactic(auto, using(crate::proofs::OfGrids::hit_at, crate::proofs::OfGrids::hit_none))]
fn next_hit(v: &Vector, from: u64) -> Option<u64>
    ensures { result ≡ first_in (hits v.now.bytes.now v.now.settings) from (2 ^ 64) }
{
    let s = v.settings;
    let f = from.max(s.start);
    let i = next_entry(v.bytes, true, (f - s.start) >> s.scale, s.size)?;
    begin(s, f, i)
}

// The next target whose entry is not set, or that has none.
#[inline(always)]
#[tactic(auto, using(crate::proofs::OfGrids::miss_at, crate::proofs::OfGrids::miss_below, crate::proofs::OfGrids::miss_end))]
fn next_miss(v: &Vector, from: u64) -> Option<u64>
    ensures { result ≡ first_in (unset v.now.bytes.now v.now.settings) from (2 ^ 64) }
{
    let s = v.settings;
    if from < s.start {
        return Some(from);
    }
    let i = next_entry(v.bytes, false, (from - s.start) >> s.scale, s.size).unwrap_or(s.size);
    begin(s, from, i)
}

// A finding, unless it lies above `hi`.
#[tactic(auto, unfolding(crate::specs::Grids::clipped))]
fn clip(found: Option<u64>, hi: u64) -> Option<u64>
    ensures { result ≡ clipped found hi }
{
    found.filter(|&t| t <= hi)
}

impl Grid {
    ghost use Rattle.spans.specs.Grids.{hit_in, missed_in};

    // The next target within the range that is hit, or the best so far, if that is sooner; the vector is read only if it can be.
    #[inline(always)]
    #[tactic(auto, using(crate::proofs::OfGrids::hit_in_best, crate::proofs::OfGrids::hit_in_lem, crate::proofs::OfGrids::hit_in_past))]
    pub fn next_hit(&self, v: &[u8], from: u64, best: Option<u64>) -> Option<u64>
        ensures { result ≡ soonest best (first_in (hit_in v.now self.now) from (2 ^ 64)) }
    {
        let within = self.within;
        let f = from.max(within.lo);
        if least::is_by(best, f) || within.hi < f {
            return best;
        }
        let vector = Vector {
            bytes: v,
            settings: self.settings,
        };
        least::sooner(best, clip(next_hit(&vector, f), within.hi))
    }

    // The next target out of the range, or missed; the vector is read only within the range.
    #[tactic(auto, using(crate::proofs::OfGrids::miss_in, crate::proofs::OfGrids::miss_in_out))]
    pub fn next_miss(&self, v: &[u8], from: u64) -> Option<u64>
        ensures { result ≡ first_in (missed_in v.now self.now) from (2 ^ 64) }
    {
        let out = self.within.next_out(from);
        if least::is_by(out, from) {
            return out;
        }
        let vector = Vector {
            bytes: v,
            settings: self.settings,
        };
        least::sooner(out, next_miss(&vector, from))
    }
}
