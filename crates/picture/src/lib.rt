// Reading a picture: any lent bytes are read, or refused with the number of the table and the port that it names.
#![tactic(auto)]

mod headers;
mod layout;
mod refusals;

ghost use Rattle.std.specs.Prelude.{◌≡◌, ◌≤◌};
ghost use Rattle.least.specs.Least.{first_in};
ghost use Rattle.picture.specs.Header.{header_of};
ghost use Rattle.picture.specs.Onward.{unless};
ghost use Rattle.picture.specs.Reading.{breaks, ports_reading, reading};
ghost use Rattle.picture.specs.declared.refusals.Refusal.TheVariants.{Breaks};

use ids::PortNo;
pub use layout::{all_bytes, offset_in, vector};
pub use refusals::{Refusal, Rule};
use registers::port_at;
use trees::Picture;

#[derive(Clone, Copy)]
pub struct Header {
    pub edition: u16,
    pub count: u16,
    pub total: u32,
    pub records_at: u32,
    pub vectors_at: u32,
}

// Whether a port breaks a rule.
#[tactic(auto, unfolding(crate::specs::Reading::breaks))]
fn breaks(s: &[u8], rule: Rule, p: PortNo) -> bool
    ensures { result ≡ breaks rule s.now p.0 }
{
    match rule {
        Rule::Tree => trees::tree_broken(s, p),
        Rule::Chain => trees::chain_too_long(s, p),
        Rule::Settings => registers::settings_wrong(port_at(s, p)),
        Rule::Start => registers::start_wrong(port_at(s, p)),
    }
}

// Refuses the lowest of n ports that breaks a rule.
fn keep(s: &[u8], n: u8, rule: Rule) -> Result<(), Refusal>
    ensures { result ≡ unless (first_in (breaks rule s.now) 0 n) (Breaks rule) }
{
    match chassis::lowest(n, |p| breaks(s, rule, p)) {
        Some(p) => Err(Refusal::Breaks(rule, p)),
        None => Ok(()),
    }
}

// Numbers 6 to 10, looked for over all ports one number after the other.
fn read_ports(s: &[u8], h: Header) -> Result<Header, Refusal>
    requires h_value { h ≡ header_of s.now }
    requires count_bound { h.count ≤ 64 }
    ensures { result ≡ ports_reading s.now }
{
    let n = h.count as u8;
    keep(s, n, Rule::Tree)?;
    keep(s, n, Rule::Chain)?;
    keep(s, n, Rule::Settings)?;
    keep(s, n, Rule::Start)?;
    let picture = Picture { bytes: s, count: n };
    match layout::misplaced(&picture) {
        Some(p) => Err(Refusal::Misplaced(p)),
        None => Ok(h),
    }
}

// Reads a picture: numbers 1 to 10, or its header.
#[tactic(auto, using(crate::proofs::Laws::count_small), unfolding(crate::specs::Reading::reading))]
pub fn read(s: &[u8]) -> Result<Header, Refusal>
    ensures { result ≡ reading s.now }
{
    if headers::length_wrong(s) {
        return Err(Refusal::Length);
    }
    let h = headers::header_at(s);
    if headers::edition_wrong(h) {
        return Err(Refusal::Edition);
    }
    if headers::count_wrong(h) {
        return Err(Refusal::Count);
    }
    if headers::total_wrong(s.len(), h) {
        return Err(Refusal::Total);
    }
    if headers::offset_wrong(s.len(), h) {
        return Err(Refusal::Offset);
    }
    read_ports(s, h)
}
