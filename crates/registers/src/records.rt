// Where a port's record starts, and some fields of it by a read each: those of the tree, the vectors' sizes and start, the enables.
ghost use Rattle.std.specs.Prelude.{eqb, ◌≡◌, ◌<◌, ◌≤◌, ◌^◌};
ghost use Rattle.chassis.specs.Tree.{kind_of, root_port};
ghost use Rattle.registers.specs.declared.Mechanism.{Mechanism};
ghost use Rattle.registers.specs.Record.{edition_of, record_bytes, record_at, record_in, port_at};
ghost use Rattle.registers.specs.Vectors.{vector_bytes};

use crate::{Bridge, Fpb};
use chassis::{Kind, UnknownKind};
use ids::{PortNo, Rid};

// How many bytes come before the records.
pub const HEADER_BYTES: usize = 16;

// The edition that the header names.
pub fn edition_of(s: &[u8]) -> u16
    ensures { result ≡ edition_of s.now }
{
    lent::u16_at(s, 0)
}

// How many bytes each record has.
fn record_bytes(edition: u16) -> usize
    ensures value { result ≡ record_bytes edition }
    ensures upper_bound { result ≤ 60 }
{
    if edition == 2 { 60 } else { 56 }
}

// Where the record of port p starts; where all records end, if p is the count of ports.
#[tactic(auto, using(crate::proofs::Laws::record_small), unfolding(crate::specs::Record::record_at))]
pub fn record_at(edition: u16, p: usize) -> usize
    requires { p < 2 ^ 16 }
    ensures value { result ≡ record_at edition p }
    ensures upper_bound { result < 2 ^ 22 }
{
    HEADER_BYTES + record_bytes(edition) * p
}

// Where the record of port p of a picture starts.
fn record_in(s: &[u8], p: PortNo) -> usize
    ensures value { result ≡ record_in s.now p.0 }
    ensures upper_bound { result < 2 ^ 22 }
{
    record_at(edition_of(s), p.0 as usize)
}

// 0 root port, 1 switch upstream, 2 switch downstream.
#[tactic(auto, unfolding(crate::specs::Record::port_at))]
pub fn kind_at(s: &[u8], p: PortNo) -> u8
    ensures { result ≡ (port_at s.now p.0).kind }
{
    lent::u8_at(s, record_in(s, p))
}

// The kind that this number stands for.
pub fn known_kind(s: &[u8], p: PortNo) -> Result<Kind, UnknownKind>
    ensures { result ≡ kind_of (port_at s.now p.0).kind }
{
    Kind::try_from(kind_at(s, p))
}

// Whether port p is a root port.
pub fn is_root_port(s: &[u8], p: PortNo) -> bool
    ensures { result ≡ eqb (port_at s.now p.0).kind root_port }
{
    known_kind(s, p) == Ok(Kind::Root)
}

// The port above, 255 for a root port.
#[tactic(auto, unfolding(crate::specs::Record::port_at))]
pub fn parent_at(s: &[u8], p: PortNo) -> PortNo
    ensures { result.0 ≡ (port_at s.now p.0).parent.0 }
{
    PortNo(lent::u8_at(s, record_in(s, p) + 1))
}

// The FPB registers of port p as far as its vectors' sizes hang on them: Capabilities. The others are left 0.
#[tactic(auto, using(crate::proofs::Laws::sizes_same), unfolding(crate::specs::Record::fpb_at, crate::specs::Record::port_at))]
pub fn sizes_of(s: &[u8], p: PortNo) -> Fpb
    ensures { (m : Mechanism) → vector_bytes result m ≡ vector_bytes (port_at s.now p.0).fpb m }
{
    Fpb {
        capabilities: lent::u32_at(s, record_in(s, p) + 28),
        ..Fpb::default()
    }
}

// The Type 1 header registers of port p as far as they enable anything: Command and Bridge Control. The others are left 0.
#[tactic(auto, unfolding(crate::specs::Record::bridge_at, crate::specs::Record::port_at))]
pub fn enables_of(s: &[u8], p: PortNo) -> Bridge
    ensures command_value { result.command ≡ (port_at s.now p.0).bridge.command }
    ensures bridge_control_value { result.bridge_control ≡ (port_at s.now p.0).bridge.bridge_control }
{
    let r = record_in(s, p);
    Bridge {
        command: lent::u16_at(s, r + 4),
        bridge_control: lent::u16_at(s, r + 26),
        ..Bridge::default()
    }
}

// Where the vectors of port p start.
#[tactic(auto, unfolding(crate::specs::Record::port_at))]
pub fn vectors_start(s: &[u8], p: PortNo) -> u32
    ensures { result ≡ (port_at s.now p.0).vectors_at }
{
    lent::u32_at(s, record_in(s, p) + 52)
}

// The ID of port p itself.
#[tactic(auto, unfolding(crate::specs::Record::port_at))]
pub fn own_id_at(s: &[u8], p: PortNo) -> Rid
    ensures { result.0 ≡ (port_at s.now p.0).own_id.0 }
{
    Rid(lent::u16_at(s, record_in(s, p) + 2))
}
