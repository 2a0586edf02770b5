// Marks in one word of a strip.
ghost use Rattle.std.specs.Prelude.{◌&&◌, ◌≡◌, ℕ, ◌+◌, ◌*◌, ◌≤◌, ◌<◌, leb, length};
ghost use Rattle.strips.specs.Strips.{digit, Marks, in_word};

// Marks the units of word k that are digits of x.
#[tactic(auto, using(crate::proofs::Laws::word_marks))]
pub fn mark_word(strip: &mut [u64], k: usize, x: u64)
    requires { k < length strip.old }
    ensures { Marks strip.old strip.new (in_word k x) }
{
    strip[k] |= x;
}

// The digits lo to hi.
#[tactic(auto, using(crate::proofs::Laws::one_up_some, crate::proofs::Laws::ones_between))]
fn digits_between(lo: u64, hi: u64) -> u64
    requires hi_bound { hi < 64 }
    requires lo_le_hi { lo ≤ hi }
    ensures { (k : ℕ) → k < 64 → digit result k ≡ (leb lo k && leb k hi) }
{
    (u64::MAX >> (63 - hi)) & !((1 << lo) - 1)
}

// Of the units a to b, those of word k, in which some of them lie.
#[tactic(auto, using(crate::proofs::Laws::word_part))]
pub fn word_between(a: u64, b: u64, k: u64) -> u64
    requires { (a ≤ b) × (a < 64 * k + 64) × (64 * k ≤ b) }
    ensures { (j : ℕ) → j < 64 → digit result j ≡ (leb a (64 * k + j) && leb (64 * k + j) b) }
{
    let first = 64 * k;
    digits_between(a.saturating_sub(first), (b - first).min(63))
}
