// The settings of a port's three vectors, read off its registers: what RID, MEM Low and MEM High share, told which.
ghost use Rattle.std.specs.Prelude.{◌≡◌, ◌<◌, ◌≤◌};
ghost use Rattle.registers.specs.Vectors.{control_of, supported_in, size_code, enabled_in, granularity_code, start_of, size_of, unit_scale, settings_of, vector_bytes};

use crate::{Fpb, Mechanism};
use vectors::Settings;

// Capabilities bit 0, 1 or 2.
pub fn supported(f: Fpb, m: Mechanism) -> bool
    ensures { result ≡ supported_in f m }
{
    match m {
        Mechanism::Rid => (f.capabilities >> 0) % 2 == 1,
        Mechanism::Low => (f.capabilities >> 1) % 2 == 1,
        Mechanism::High => (f.capabilities >> 2) % 2 == 1,
    }
}

// Capabilities bits 10:8, 18:16 or 26:24.
pub fn size_code(f: Fpb, m: Mechanism) -> u32
    ensures value { result ≡ size_code f m }
    ensures upper_bound { result < 8 }
{
    match m {
        Mechanism::Rid => (f.capabilities >> 8) % 8,
        Mechanism::Low => (f.capabilities >> 16) % 8,
        Mechanism::High => (f.capabilities >> 24) % 8,
    }
}

// The control register that enables a mechanism and holds its granularity.
fn control(f: Fpb, m: Mechanism) -> u32
    ensures { result ≡ control_of f m }
{
    match m {
        Mechanism::Rid => f.rid_control_1,
        Mechanism::Low => f.mem_low_control,
        Mechanism::High => f.mem_high_control_1,
    }
}

// Bit 0 of the control register.
pub fn enabled(f: Fpb, m: Mechanism) -> bool
    ensures { result ≡ enabled_in f m }
{
    (control(f, m) >> 0) % 2 == 1
}

// Bits 7:4 of the control register.
pub fn granularity_code(f: Fpb, m: Mechanism) -> u32
    ensures value { result ≡ granularity_code f m }
    ensures upper_bound { result < 16 }
{
    (control(f, m) >> 4) % 16
}

// The target where entry 0 begins.
fn start(f: Fpb, m: Mechanism) -> u64
    ensures { result ≡ start_of f m }
{
    match m {
        Mechanism::Rid => ((f.rid_control_1 >> 19) % 8192) as u64 * 8,
        Mechanism::Low => ((f.mem_low_control >> 20) % 4096) as u64 * 1048576,
        Mechanism::High => {
            (f.mem_high_control_2 as u64 * 16 + ((f.mem_high_control_1 >> 28) % 16) as u64)
                * 268435456
        }
    }
}

// The scale of granularity code 0.
fn unit_scale(m: Mechanism) -> u32
    ensures value { result ≡ unit_scale m }
    ensures upper_bound { result < 29 }
{
    match m {
        Mechanism::Rid => 3,
        Mechanism::Low => 20,
        Mechanism::High => 28,
    }
}

// How many entries a vector has.
fn size(f: Fpb, m: Mechanism) -> u64
    ensures value { result ≡ size_of f m }
    ensures upper_bound { result ≤ 32768 }
{
    256 << size_code(f, m)
}

// A vector by its size, start and granularity.
#[tactic(auto, unfolding(crate::specs::Vectors::settings_of))]
pub fn settings(f: Fpb, m: Mechanism) -> Settings
    ensures value { result ≡ settings_of f m }
    ensures scale_bound { result.scale < 64 }
{
    Settings {
        size: size(f, m),
        start: start(f, m),
        scale: unit_scale(m) + granularity_code(f, m),
    }
}

// How many bytes of the picture a vector takes.
#[tactic(auto, unfolding(crate::specs::Vectors::vector_bytes))]
pub fn vector_bytes(f: Fpb, m: Mechanism) -> u64
    ensures value { result ≡ vector_bytes f m }
    ensures upper_bound { result ≤ 4096 }
{
    if supported(f, m) { size(f, m) / 8 } else { 0 }
}
