// What a port claims, by its decoders, and what it holds and converts; each answer is a handful of reads.
#![tactic(auto)]

mod conversions;
mod decoders;

ghost use Rattle.std.specs.Prelude.{ℕ, List, ◌≡◌};
ghost use Rattle.ids.specs.declared.Target.TheVariants.{Addr};
ghost use Rattle.chassis.specs.Chassis.{is_own, holds, hold_of};
ghost use Rattle.registers.specs.Record.{port_at};
ghost use Rattle.registers.specs.Rules.{with_ari, with_redirect};
ghost use Rattle.patches.specs.Halves.{vector_over};
ghost use Rattle.claims.specs.Decoders.{id_decoders, address_decoders};
ghost use Rattle.claims.specs.Over.{chassis_over, chassis_in};
ghost use Rattle.claims.specs.Beside.{video_first};

use chassis::{Decoders, Hold};
pub use conversions::{
    conversion, converted_by_bus, in_secondary_range, secondary_start, secondary_units,
};
pub use decoders::{
    VIDEO_FIRST, VIDEO_LAST, base_of, bus_claims, high_claims, low_claims, memory_claims,
    memory_space_enabled, prefetchable_claims, upper_of, vector_claims, vga_enabled, video_claims,
};
use ids::{PortNo, Rid, Target};
use patches::{PatchedPicture, vector};
use registers::{Mechanism, enables_of, own_id_at, port_at};

// The decoders of port p that claim an ID: its bus pair, its RID vector.
#[tactic(auto, unfolding(crate::specs::Decoders::id_decoders))]
fn id_decoders<'a>(s: &'a [u8], patch: &'a [u8], p: PortNo, rid: Rid) -> Decoders
    ensures { result ≡ id_decoders (port_at s.now p.0) (vector_over s.now patch.now p.0) rid.0 }
{
    let port = port_at(s, p);
    let b = port.bridge;
    let f = port.fpb;
    let v = vector(s, patch, p, Mechanism::Rid);
    let mut by = Decoders::default();
    by.bus = bus_claims(b, rid);
    by.rid = vector_claims(f, Mechanism::Rid, v, rid.0 as u64);
    by
}

// The decoders of port p that claim an address; without Memory Space Enable none does.
#[tactic(auto, unfolding(crate::specs::Decoders::address_decoders))]
fn address_decoders<'a>(s: &'a [u8], patch: &'a [u8], p: PortNo, a: u64) -> Decoders
    ensures { result ≡ address_decoders (port_at s.now p.0) (vector_over s.now patch.now p.0) a }
{
    let port = port_at(s, p);
    let b = port.bridge;
    let f = port.fpb;
    let mut by = Decoders::default();
    if memory_space_enabled(b) {
        by.mem = memory_claims(b, a);
        by.pref = prefetchable_claims(b, a);
        by.low = low_claims(f, vector(s, patch, p, Mechanism::Low), a);
        by.high = high_claims(f, vector(s, patch, p, Mechanism::High), a);
        by.vga = video_claims(b, a);
    }
    by
}

// The decoders of port p that claim the target.
pub fn decoders_of<'a>(s: &'a [u8], patch: &'a [u8], p: PortNo, t: Target) -> Decoders
    ensures { result ≡ (chassis_over s.now patch.now).decoders p.0 t }
{
    match t {
        Target::Id(rid) => id_decoders(s, patch, p, rid),
        Target::Addr(a) => address_decoders(s, patch, p, a),
    }
}

// Whether at least one decoder of port p claims the target.
pub fn claims(over: &PatchedPicture, p: PortNo, t: Target) -> bool
    ensures { result ≡ (chassis_in over.now).claims p.0 t }
{
    decoders_of(over.picture.bytes, over.patch, p, t).at_least_one()
}

// Whether the target is the ID of port p itself, whatever the patch.
pub fn is_own(s: &[u8], p: PortNo, t: Target) -> bool
    ensures { (patch : List ℕ) → result ≡ is_own (chassis_over s.now patch) t p.0 }
{
    match t {
        Target::Id(rid) => own_id_at(s, p) == rid,
        Target::Addr(_) => false,
    }
}

// Whether the target is port p's own or claimed by it.
#[tactic(auto, unfolding(chassis::specs::Chassis::holds))]
pub fn holds(over: &PatchedPicture, p: PortNo, t: Target) -> bool
    ensures { result ≡ holds (chassis_in over.now) t p.0 }
{
    is_own(over.picture.bytes, p, t) | claims(over, p, t)
}

// What port p has to do with the target: whether it is its own, and the decoders that claim it.
pub fn hold_of<'a>(s: &'a [u8], patch: &'a [u8], p: PortNo, t: Target) -> Hold
    ensures { result ≡ hold_of (chassis_over s.now patch.now) t p.0 }
{
    Hold {
        port: p,
        own: is_own(s, p, t),
        decoders: decoders_of(s, patch, p, t),
    }
}

// Whether port p claims the video range, whatever the patch; two reads of its record.
#[tactic(auto, using(crate::proofs::Joined::vga_of_address, crate::proofs::OfVideo::video_inside), unfolding(crate::specs::Decoders::memory_space_enabled, crate::specs::Decoders::vga_enabled))]
pub fn claims_video(s: &[u8], p: PortNo) -> bool
    ensures { (patch : List ℕ) → result ≡ ((chassis_over s.now patch).decoders p.0 (Addr video_first)).vga }
{
    let b = enables_of(s, p);
    memory_space_enabled(b) & vga_enabled(b)
}

// Whether port p forwards with ARI.
pub fn with_ari_at(s: &[u8], p: PortNo) -> bool
    ensures { result ≡ with_ari (port_at s.now p.0) }
{
    registers::with_ari(port_at(s, p))
}

// Whether port p has P2P Request Redirect set.
pub fn with_redirect_at(s: &[u8], p: PortNo) -> bool
    ensures { result ≡ with_redirect (port_at s.now p.0) }
{
    registers::with_redirect(port_at(s, p))
}
