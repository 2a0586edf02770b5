// A port's record: its registers by value, as the picture carries them.
#![tactic(auto)]

mod fields;
mod records;
mod rules;

ghost use Rattle.std.specs.Prelude.{◌≡◌, ◌<◌, ◌^◌};
ghost use Rattle.lent.specs.Lent.{u16_at};
ghost use Rattle.registers.specs.Record.{bridge_at, fpb_at, in_edition2, port_at};

pub use fields::{enabled, granularity_code, settings, size_code, supported, vector_bytes};
use ids::{PortNo, Rid};
use lent::{u8_at, u16_at, u32_at};
pub use records::{
    HEADER_BYTES, edition_of, enables_of, is_root_port, kind_at, known_kind, own_id_at, parent_at,
    record_at, sizes_of, vectors_start,
};
pub use rules::{settings_wrong, start_wrong, with_ari, with_redirect};

// What a record is about: a Type 1 header's registers.
#[derive(Clone, Copy, Default)]
pub struct Bridge {
    pub command: u16,
    pub secondary: u8,
    pub subordinate: u8,
    pub memory_base: u16,
    pub memory_limit: u16,
    pub prefetchable_base: u16,
    pub prefetchable_limit: u16,
    pub prefetchable_base_upper: u32,
    pub prefetchable_limit_upper: u32,
    pub bridge_control: u16,
}

// The registers of the Flattening Portal Bridge capability.
#[derive(Clone, Copy, Default)]
pub struct Fpb {
    pub capabilities: u32,
    pub rid_control_1: u32,
    pub rid_control_2: u32,
    pub mem_low_control: u32,
    pub mem_high_control_1: u32,
    pub mem_high_control_2: u32,
}

// The three FPB decode mechanisms, each with a vector of its own.
#[derive(Clone, Copy)]
pub enum Mechanism {
    Rid,
    Low,
    High,
}

#[derive(Clone, Copy)]
pub struct Port {
    pub kind: u8,
    pub parent: PortNo,
    pub own_id: Rid,
    pub device_control_2: u16,
    pub bridge: Bridge,
    pub fpb: Fpb,
    pub vectors_at: u32,
    pub acs_control: u16,
    pub zeros: u16,
}

// The Type 1 header registers of the record that starts at r.
#[tactic(auto, unfolding(crate::specs::Record::bridge_at))]
fn bridge_at(s: &[u8], r: usize) -> Bridge
    requires { r < 2 ^ 22 }
    ensures { result ≡ bridge_at s.now r }
{
    Bridge {
        command: u16_at(s, r + 4),
        secondary: u8_at(s, r + 6),
        subordinate: u8_at(s, r + 7),
        memory_base: u16_at(s, r + 8),
        memory_limit: u16_at(s, r + 10),
        prefetchable_base: u16_at(s, r + 12),
        prefetchable_limit: u16_at(s, r + 14),
        prefetchable_base_upper: u32_at(s, r + 16),
        prefetchable_limit_upper: u32_at(s, r + 20),
        bridge_control: u16_at(s, r + 26),
    }
}

// The FPB registers of the record that starts at r.
#[tactic(auto, unfolding(crate::specs::Record::fpb_at))]
fn fpb_at(s: &[u8], r: usize) -> Fpb
    requires { r < 2 ^ 22 }
    ensures { result ≡ fpb_at s.now r }
{
    Fpb {
        capabilities: u32_at(s, r + 28),
        rid_control_1: u32_at(s, r + 32),
        rid_control_2: u32_at(s, r + 36),
        mem_low_control: u32_at(s, r + 40),
        mem_high_control_1: u32_at(s, r + 44),
        mem_high_control_2: u32_at(s, r + 48),
    }
}

// A field that records of 60 bytes alone have, 0 elsewhere.
fn in_edition_2(s: &[u8], edition: u16, at: usize) -> u16
    requires { at < 2 ^ 23 }
    ensures { result ≡ in_edition2 edition (u16_at s.now at) }
{
    if edition == 2 {
        return u16_at(s, at);
    }
    0
}

// The record of port p.
#[tactic(auto, unfolding(crate::specs::Record::port_at))]
pub fn port_at(s: &[u8], p: PortNo) -> Port
    ensures { result ≡ port_at s.now p.0 }
{
    let edition = records::edition_of(s);
    let r = record_at(edition, p.0 as usize);
    Port {
        kind: u8_at(s, r),
        parent: PortNo(u8_at(s, r + 1)),
        own_id: Rid(u16_at(s, r + 2)),
        device_control_2: u16_at(s, r + 24),
        bridge: bridge_at(s, r),
        fpb: fpb_at(s, r),
        vectors_at: u32_at(s, r + 52),
        acs_control: in_edition_2(s, edition, r + 56),
        zeros: in_edition_2(s, edition, r + 58),
    }
}
