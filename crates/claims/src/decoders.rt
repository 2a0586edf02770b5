// Each decoder of a port by its name, over the port's registers and vectors.
ghost use Rattle.std.specs.Prelude.{◌≡◌, ◌*◌, ◌-◌, ◌^◌, ◌≤◌};
ghost use Rattle.claims.specs.Decoders.{bus_claims, vector_claims, base_of, upper_of, memory_claims, prefetchable_claims, low_claims, high_claims, vga_enabled, video_claims, memory_space_enabled};

use ids::Rid;
use registers::{Bridge, Fpb, Mechanism, enabled, settings};
use vectors::Vector;

// The video range.
pub const VIDEO_FIRST: u64 = 0xA0000;

pub const VIDEO_LAST: u64 = 0xBFFFF;

// The bus pair; 0, 0 claims nothing.
#[tactic(auto, unfolding(crate::specs::Decoders::bus_claims))]
pub fn bus_claims(b: Bridge, rid: Rid) -> bool
    ensures { result ≡ bus_claims b rid.0 }
{
    let bus = rid.bus();
    !((b.secondary == 0) & (b.subordinate == 0)) & ((b.secondary <= bus) & (bus <= b.subordinate))
}

// A vector: its mechanism is enabled, and the entry that applies to the target is set.
#[tactic(auto, unfolding(crate::specs::Decoders::vector_claims))]
pub fn vector_claims(f: Fpb, m: Mechanism, v: &[u8], t: u64) -> bool
    ensures { result ≡ vector_claims f m v.now t }
{
    let vector = Vector {
        bytes: v,
        settings: settings(f, m),
    };
    enabled(f, m) & vector.hits(t)
}

// Address bits 31:20 of a base or limit register, the bits below them zero.
pub fn base_of(register: u16) -> u64
    ensures value { result ≡ base_of register }
    ensures upper_bound { result ≤ 2 ^ 32 - 2 ^ 20 }
{
    ((register >> 4) % 4096) as u64 * 1048576
}

// Memory Base..Limit; a limit fills its low 20 bits with ones.
#[tactic(auto, unfolding(crate::specs::Decoders::memory_claims))]
pub fn memory_claims(b: Bridge, a: u64) -> bool
    ensures { result ≡ memory_claims b a }
{
    (base_of(b.memory_base) <= a) & (a <= base_of(b.memory_limit) + 1048575)
}

// The upper word of a prefetchable base or limit, which type 0 ignores.
pub fn upper_of(b: Bridge, upper: u32) -> u64
    ensures value { result ≡ upper_of b upper }
    ensures upper_bound { result ≤ 2 ^ 64 - 2 ^ 32 }
{
    if b.prefetchable_base % 16 == 1 {
        upper as u64 * 4294967296
    } else {
        0
    }
}

// Prefetchable Base..Limit.
#[tactic(auto, unfolding(crate::specs::Decoders::prefetchable_claims))]
pub fn prefetchable_claims(b: Bridge, a: u64) -> bool
    ensures { result ≡ prefetchable_claims b a }
{
    let base = upper_of(b, b.prefetchable_base_upper) + base_of(b.prefetchable_base);
    let limit = upper_of(b, b.prefetchable_limit_upper) + (base_of(b.prefetchable_limit) + 1048575);
    (base <= a) & (a <= limit)
}

// The MEM Low vector, below 4 GiB alone.
#[tactic(auto, unfolding(crate::specs::Decoders::low_claims))]
pub fn low_claims(f: Fpb, v: &[u8], a: u64) -> bool
    ensures { result ≡ low_claims f v.now a }
{
    (a < 4294967296) & vector_claims(f, Mechanism::Low, v, a)
}

// The MEM High vector, from 4 GiB up alone.
#[tactic(auto, unfolding(crate::specs::Decoders::high_claims))]
pub fn high_claims(f: Fpb, v: &[u8], a: u64) -> bool
    ensures { result ≡ high_claims f v.now a }
{
    (4294967296 <= a) & vector_claims(f, Mechanism::High, v, a)
}

// VGA Enable, bit 3 of Bridge Control.
#[tactic(auto, unfolding(crate::specs::Decoders::vga_enabled))]
pub fn vga_enabled(b: Bridge) -> bool
    ensures { result ≡ vga_enabled b }
{
    (b.bridge_control >> 3) % 2 == 1
}

// The video range, with VGA Enable.
#[tactic(auto, unfolding(crate::specs::Decoders::video_claims))]
pub fn video_claims(b: Bridge, a: u64) -> bool
    ensures { result ≡ video_claims b a }
{
    vga_enabled(b) & ((VIDEO_FIRST <= a) & (a <= VIDEO_LAST))
}

// Without it no memory decoder of the port claims anything.
#[tactic(auto, unfolding(crate::specs::Decoders::memory_space_enabled))]
pub fn memory_space_enabled(b: Bridge) -> bool
    ensures { result ≡ memory_space_enabled b }
{
    (b.command >> 1) % 2 == 1
}
