// Reading lent bytes, whatever they are: numbers in little-endian order, and parts. What lies past the end reads as 0
// and belongs to no part, so no reader asks anything of its caller but an offset that can be added to.
#![tactic(auto)]

ghost use Rattle.std.specs.Prelude.{◌≡◌, ℕ, ◌+◌, ◌*◌, ◌≤◌, ◌<◌, ◌^◌, length, MatchOption, get_or, slice_index, take, drop};
ghost use Rattle.lent.specs.Lent.{u16_at, u32_at};

// The byte at i.
pub fn u8_at(s: &[u8], i: usize) -> u8
    ensures { result ≡ get_or s.now i 0 }
{
    s.get(i).copied().unwrap_or(0)
}

// The N bytes from i on, if all of them are there: one read in the machine.
fn bytes_at<const N: usize>(s: &[u8], i: usize) -> Option<[u8; N]>
    requires { i + N < 2 ^ 64 }
    ensures { MatchOption result (length s.now < i + N) (λ bytes. (k : ℕ) → k < N → slice_index bytes k ≡ get_or s.now (i + k) 0) }
{
    s.get(i..i + N)?.first_chunk().copied()
}

// The two bytes from i on.
#[tactic(auto, unfolding(crate::specs::Lent::u16_at))]
pub fn u16_at(s: &[u8], i: usize) -> u16
    requires { i + 2 < 2 ^ 64 }
    ensures { result ≡ u16_at s.now i }
{
    match bytes_at(s, i) {
        Some(bytes) => u16::from_le_bytes(bytes),
        None => u8_at(s, i) as u16 + 256 * (u8_at(s, i + 1) as u16),
    }
}

// The four bytes from i on.
#[tactic(auto, unfolding(crate::specs::Lent::u16_at, crate::specs::Lent::u32_at))]
pub fn u32_at(s: &[u8], i: usize) -> u32
    requires { i + 4 < 2 ^ 64 }
    ensures { result ≡ u32_at s.now i }
{
    match bytes_at(s, i) {
        Some(bytes) => u32::from_le_bytes(bytes),
        None => u16_at(s, i) as u32 + 65536 * (u16_at(s, i + 2) as u32),
    }
}

// The eight bytes from i on.
#[tactic(auto, unfolding(crate::specs::Lent::u16_at, crate::specs::Lent::u32_at))]
pub fn u64_at(s: &[u8], i: usize) -> u64
    requires { i + 8 < 2 ^ 64 }
    ensures { result ≡ u32_at s.now i + 4294967296 * u32_at s.now (i + 4) }
{
    match bytes_at(s, i) {
        Some(bytes) => u64::from_le_bytes(bytes),
        None => u32_at(s, i) as u64 + 4294967296 * (u32_at(s, i + 4) as u64),
    }
}

// The n bytes from a on, or as many of them as there are.
pub fn part(s: &[u8], a: usize, n: usize) -> &[u8]
    ensures { result.now ≡ take n (drop a s.now) }
{
    let rest = &s[a.min(s.len())..];
    &rest[..n.min(rest.len())]
}
