// The entries of a vector by words of 64, as the binary digits of a number, the first entry lowest.
ghost use Rattle.std.specs.Bool.{beq};
ghost use Rattle.std.specs.Prelude.{◌≡◌, ℕ, ◌+◌, ◌*◌, ◌/◌, ◌%◌, ◌^◌, ◌<◌, eqb};
ghost use Rattle.vectors.specs.Vectors.{is_set};

// Entries 64 j to 64 j + 63; past the vector's bytes all are clear.
#[tactic(auto, using(crate::proofs::Words::of_eight))]
pub fn word(v: &[u8], j: u64) -> u64
    requires { j < 2 ^ 58 }
    ensures { (k : ℕ) → k < 64 → eqb (result / 2 ^ k % 2) 1 ≡ is_set v.now (64 * j + k) }
{
    lent::u64_at(v, (8 * j) as usize)
}

// A word as it is, or, where the clear entries are wanted, with those set and the others clear.
#[tactic(auto, using(crate::proofs::Digits::bit_not, crate::proofs::Words::as_wanted, crate::proofs::Words::not_wanted))]
pub fn wanted(x: u64, want: bool) -> u64
    ensures { (k : ℕ) → k < 64 → eqb (result / 2 ^ k % 2) 1 ≡ beq (eqb (x / 2 ^ k % 2) 1) want }
{
    if want { x } else { !x }
}
