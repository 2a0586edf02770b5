// What the cases are given: registers and a picture, as specs/ has them.
ghost use Rattle.std.specs.Prelude.{◌≡◌};
ghost use Rattle.vectors.specs.Vectors.{entry_of};
ghost use Rattle.registers.specs.Vectors.{settings_of};
ghost use Rattle.cases.specs.Chain.{record_of, chain_with};
ghost use Rattle.cases.specs.Settled.{fpb_of, memory_of};

use registers::{Bridge, Fpb, Mechanism};

// Registers with all vectors of 256 entries.
pub fn fpb_of(rid: u32, low: u32, high: u32, high_2: u32) -> Fpb
    ensures { result ≡ fpb_of rid low high high_2 }
{
    Fpb {
        rid_control_1: rid,
        mem_low_control: low,
        mem_high_control_1: high,
        mem_high_control_2: high_2,
        ..Fpb::default()
    }
}

// A bridge with Memory Space Enable set.
pub fn memory_of(base: u16, limit: u16) -> Bridge
    ensures { result ≡ memory_of base limit }
{
    Bridge {
        command: 2,
        memory_base: base,
        memory_limit: limit,
        ..Bridge::default()
    }
}

// The entry that applies to a target by these registers.
pub fn entry_of(f: Fpb, m: Mechanism, t: u64) -> Option<u64>
    ensures { result ≡ entry_of (settings_of f m) t }
{
    registers::settings(f, m).entry(t)
}

// The record of a port whose own ID is device 0, Function 0 of a bus, with its bus pair and the low byte of its Device Control 2; no
// vectors.
#[tactic(auto, unfolding(crate::specs::Chain::record_of, crate::specs::Chain::zeros))]
fn record_of(kind: u8, parent: u8, bus: u8, buses: (u8, u8), control: u8) -> [u8; 56]
    ensures { result ≡ record_of kind parent bus buses.0 buses.1 control }
{
    let mut record = [0u8; 56];
    record[..8].copy_from_slice(&[kind, parent, 0, bus, 0, 0, buses.0, buses.1]);
    record[24] = control;
    record[52] = 184;
    record
}

// A picture of a root port, an upstream port, and a downstream port, number 2, with buses 3 to 5; the low byte of that
// port's Device Control 2 is given.
#[tactic(auto, unfolding(crate::specs::Chain::chain_with, crate::specs::Chain::record_of, crate::specs::Chain::zeros))]
pub fn chain_with(control: u8) -> [u8; 184]
    ensures { result ≡ chain_with control }
{
    let mut s = [0u8; 184];
    s[..16].copy_from_slice(&[1, 0, 3, 0, 184, 0, 0, 0, 16, 0, 0, 0, 184, 0, 0, 0]);
    s[16..72].copy_from_slice(&record_of(0, 255, 0, (1, 5), 0));
    s[72..128].copy_from_slice(&record_of(1, 0, 1, (2, 5), 0));
    s[128..].copy_from_slice(&record_of(2, 1, 2, (3, 5), control));
    s
}
