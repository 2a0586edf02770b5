// A strip, and what is marked in it: units that are a word's digits, a range, or a vector's entries.
ghost use Rattle.std.specs.Prelude.{◌≡◌, ℕ, ◌+◌, ◌*◌, ◌/◌, ◌%◌, ◌^◌, ◌≤◌, ◌<◌, length};
ghost use Rattle.spans.specs.Ranges.{in_range};
ghost use Rattle.strips.specs.Strips.{Marks, in_word, digits_from, range_from, grid_from};

use crate::WORDS;
use crate::entries::{SmallSettings, end_entry, first_entry, units_of};
use crate::marks::{mark_word, word_between};
use spans::ranges::Range;
use vectors::{next_entry, word};

// Marks 64 units that begin d units before the strip, those that are digits of x.
#[tactic(auto, using(crate::proofs::OfMarks::before_first, crate::proofs::OfMarks::before_past, crate::proofs::Laws::marks_as, crate::proofs::Laws::marks_none))]
fn mark_before(strip: &mut [u64; WORDS], d: u64, x: u64)
    ensures { Marks strip.old strip.new (digits_from d 0 x) }
{
    if d < 64 {
        mark_word(strip, 0, x >> d);
    }
}

// What is left of them behind word k, in which the first `room` of them lie.
#[tactic(auto, using(crate::proofs::Laws::marks_none, crate::proofs::OfMarks::no_rest, crate::proofs::OfMarks::no_word))]
fn mark_rest(strip: &mut [u64; WORDS], k: usize, room: u64, x: u64)
    requires { (k < 128) × (room < 65) × (0 < room) }
    ensures { Marks strip.old strip.new (in_word (k + 1) (x / 2 ^ room)) }
{
    if k + 1 < WORDS && room < 64 {
        mark_word(strip, k + 1, x >> room);
    }
}

// They begin d units behind its first.
#[tactic(auto, using(crate::proofs::OfMarks::behind_first, crate::proofs::OfMarks::behind_past, crate::proofs::Laws::marks_also, crate::proofs::Laws::marks_none))]
fn mark_behind(strip: &mut [u64; WORDS], d: u64, x: u64)
    ensures { Marks strip.old strip.new (digits_from 0 d x) }
{
    if d < 8192 {
        let k = (d / 64) as usize;
        mark_word(strip, k, x << (d % 64));
        mark_rest(strip, k, 64 - d % 64, x);
    }
}

// Marks the 64 units from `at` on that are digits of x, as far as they lie in the strip from `base` on.
#[tactic(auto, using(crate::proofs::OfMarks::from_before, crate::proofs::OfMarks::from_behind, crate::proofs::Laws::marks_as))]
pub fn mark_from(strip: &mut [u64; WORDS], base: u64, at: u64, x: u64)
    ensures { Marks strip.old strip.new (digits_from base at x) }
{
    if at < base {
        mark_before(strip, base - at, x);
    } else {
        mark_behind(strip, at - base, x);
    }
}

// Marks the units a to b of the strip.
#[tactic(auto, using(crate::proofs::Laws::marks_also, crate::proofs::Laws::marks_as, crate::proofs::Laws::marks_none, crate::proofs::OfMarks::units_begin, crate::proofs::OfMarks::units_end, crate::proofs::OfMarks::units_more))]
fn mark_units(strip: &mut [u64; WORDS], a: u64, b: u64)
    requires { (a ≤ b) × (b < 8192) }
    ensures { Marks strip.old strip.new (in_range (record { lo = a; hi = b })) }
{
    for k in a / 64..b / 64 + 1 {
        mark_word(strip, k as usize, word_between(a, b, k));
    }
}

// Marks the units of a range, as far as they lie in the strip from `base` on.
#[tactic(auto, using(crate::proofs::Laws::marks_as, crate::proofs::Laws::marks_none, crate::proofs::OfMarks::range_before, crate::proofs::OfMarks::range_empty_from, crate::proofs::OfMarks::range_part, crate::proofs::OfMarks::range_past))]
pub fn mark_range(strip: &mut [u64], base: u64, r: Range)
    requires { length strip.old ≡ 128 }
    ensures { Marks strip.old strip.new (range_from base r) }
{
    if r.hi < base || r.hi < r.lo {
        return;
    }
    let a = r.lo.saturating_sub(base);
    let b = (r.hi - base).min(8191);
    if a <= b {
        mark_units(strip.as_mut_array().unwrap(), a, b);
    }
}

// Marks each entry that is set, one after the other.
#[tactic(auto, using(crate::proofs::OfGrids::grid_begin, crate::proofs::OfGrids::grid_end, least::proofs::Laws::is_none, crate::proofs::Laws::marks_as, crate::proofs::Laws::marks_none))]
fn mark_entries(strip: &mut [u64; WORDS], base: u64, v: &[u8], g: SmallSettings)
    requires { base < 2 ^ 62 }
    ensures { Marks strip.old strip.new (grid_from base v.now g) }
{
    let end = end_entry(base, g);
    let mut i = first_entry(base, g);
    while let Some(e) = next_entry(v, true, i, end) {
        mark_range(strip, base, units_of(g, e));
        i = e + 1;
    }
}

// Marks entries that are a unit each, 64 at a time.
#[tactic(auto, using(crate::proofs::OfGrids::all_words, crate::proofs::OfGrids::grid_word, crate::proofs::Laws::marks_also, crate::proofs::Laws::marks_as, crate::proofs::Laws::marks_none, crate::proofs::OfGrids::no_words))]
fn mark_words(strip: &mut [u64; WORDS], base: u64, v: &[u8], g: SmallSettings)
    requires { (g.scale ≡ 0) × (g.size % 64 ≡ 0) }
    ensures { Marks strip.old strip.new (grid_from base v.now g) }
{
    for j in 0..g.size() / 64 {
        mark_from(strip, base, g.start() + 64 * j, word(v, j));
    }
}

// Marks the units whose entry is set, as far as they lie in the strip from `base` on: by words where an entry is a unit.
pub fn mark_grid(strip: &mut [u64], base: u64, v: &[u8], g: SmallSettings)
    requires strip_len { length strip.old ≡ 128 }
    requires base_bound { base < 2 ^ 62 }
    ensures { Marks strip.old strip.new (grid_from base v.now g) }
{
    let words = strip.as_mut_array().unwrap();
    if g.fills_words() {
        mark_words(words, base, v, g);
    } else {
        mark_entries(words, base, v, g);
    }
}
