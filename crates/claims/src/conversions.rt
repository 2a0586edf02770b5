// What a port makes of a configuration request that it is about to be crossed by.
ghost use Rattle.std.specs.Prelude.{◌≡◌, ◌+◌, ◌<◌, ◌≤◌};
ghost use Rattle.registers.specs.Record.{port_at};
ghost use Rattle.patches.specs.Halves.{vector_over};
ghost use Rattle.claims.specs.Conversion.{secondary_start, num_sec_dev, in_secondary_range, converted_by_bus, converted};
ghost use Rattle.claims.specs.Over.{chassis_in};

use crate::claims;
use crate::decoders::bus_claims;
use chassis::{Conversion, Kind};
use ids::{PortNo, Rid, Target, Unit};
use patches::PatchedPicture;
use registers::{Fpb, Mechanism, Port, enabled, port_at, with_ari};

// The unit where the Secondary range starts.
pub fn secondary_start(f: Fpb) -> Unit
    ensures result_value { result.0 ≡ secondary_start f }
    ensures result_bound { result.0 < 8192 }
{
    Unit(((f.rid_control_2 >> 3) % 8192) as u16)
}

// How many units an upstream port's Secondary range has: a field of n means n + 1 device numbers.
pub fn secondary_units(f: Fpb) -> u16
    ensures value { result ≡ num_sec_dev f + 1 }
    ensures upper_bound { result ≤ 32 }
{
    ((f.capabilities >> 3) % 32) as u16 + 1
}

// Whether an ID is in a port's Secondary range: units of an upstream port, a bus with ARI, else one unit.
#[tactic(auto, using(crate::proofs::Laws::last_unit), unfolding(crate::specs::Conversion::in_secondary_range))]
pub fn in_secondary_range(p: Port, rid: Rid) -> bool
    ensures { result ≡ in_secondary_range p rid.0 }
{
    let f = p.fpb;
    let start = secondary_start(f);
    let unit = rid.unit();
    if Kind::try_from(p.kind) == Ok(Kind::Upstream) {
        return (start.0 <= unit.0) & (unit.0 < start.0 + secondary_units(f));
    }
    if with_ari(p) {
        return rid.bus() as u16 == start.0 / 32;
    }
    unit == start
}

// What the bus pair makes of an ID that the port claims, where the Secondary range does not decide.
#[tactic(auto, unfolding(crate::specs::Conversion::converted_by_bus))]
pub fn converted_by_bus(p: Port, rid: Rid) -> Conversion
    ensures { result ≡ converted_by_bus p rid.0 }
{
    let b = p.bridge;
    if bus_claims(b, rid) & (rid.bus() == b.secondary) {
        if (Kind::try_from(p.kind) == Ok(Kind::Upstream)) | with_ari(p) | (rid.device() == 0) {
            return Conversion::Type0;
        }
        return Conversion::Unsupported;
    }
    Conversion::Type1
}

// What port p makes of a configuration request for an ID.
#[tactic(auto, unfolding(crate::specs::Conversion::converted))]
fn converted_id(over: &PatchedPicture, p: PortNo, rid: Rid) -> Conversion
    ensures { result ≡ converted (port_at over.now.picture.bytes.now p.0) (vector_over over.now.picture.bytes.now over.now.patch.now p.0) rid.0 }
{
    if claims(over, p, Target::Id(rid)) {
        let port = port_at(over.picture.bytes, p);
        let f = port.fpb;
        if enabled(f, Mechanism::Rid) & in_secondary_range(port, rid) {
            return Conversion::Type0;
        }
        return converted_by_bus(port, rid);
    }
    Conversion::NotClaimed
}

// What port p makes of a configuration request; an address is the target of none.
pub fn conversion(over: &PatchedPicture, p: PortNo, t: Target) -> Conversion
    ensures { result ≡ (chassis_in over.now).conversion p.0 t }
{
    match t {
        Target::Id(rid) => converted_id(over, p, rid),
        Target::Addr(_) => Conversion::NotClaimed,
    }
}
