// Two strips, a word at a time.
ghost use Rattle.std.specs.Bool.{beq};
ghost use Rattle.std.specs.Prelude.{◌≡◌, ℕ, ◌*◌, ◌/◌, ◌≤◌, ◌<◌, length};
ghost use Rattle.least.specs.Least.{first_in};
ghost use Rattle.strips.specs.Strips.{digit, marked, marked_both, Marks, words_of};

use crate::marks::mark_word;
use vectors::wanted;

// Whether a unit is marked.
#[tactic(auto, unfolding(crate::specs::Strips::marked))]
pub fn is_marked(strip: &[u64], u: u64) -> bool
    requires { u / 64 < length strip.now }
    ensures { result ≡ marked strip.now u }
{
    (strip[(u / 64) as usize] >> (u % 64)) % 2 == 1
}

// The first unit of the first `words` words that is marked in a, and in b or not, as is wanted.
#[tactic(auto, using(least::proofs::Laws::none_empty, least::proofs::Laws::none_is))]
pub fn first_of_both(a: &[u64], b: &[u64], want: bool, words: usize) -> Option<u64>
    requires { (words ≤ length a.now) × (words ≤ length b.now) × (words ≤ 128) }
    ensures { result ≡ first_in (marked_both a.now b.now want) 0 (64 * words) }
{
    for k in 0..words {
        let both = a[k] & wanted(b[k], want);
        if both != 0 {
            return Some(64 * (k as u64) + both.trailing_zeros() as u64);
        }
    }
    None
}

// Marks in a what is marked in the first `words` words of b.
#[tactic(auto, using(crate::proofs::Laws::marks_also, crate::proofs::Laws::marks_as, crate::proofs::Laws::marks_none, crate::proofs::OfMarks::words_all, crate::proofs::OfMarks::words_begin, crate::proofs::OfMarks::words_more))]
pub fn join(a: &mut [u64], b: &[u64], words: usize)
    requires { (words ≤ length a.old) × (words ≤ length b.now) }
    ensures { Marks a.old a.new (words_of words b.now) }
{
    for k in 0..words {
        mark_word(a, k, b[k]);
    }
}
