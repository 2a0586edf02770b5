// The IDs that a port takes: those for which it makes a configuration request Type 0 or refuses it, and does not pass Type 1.
ghost use Rattle.std.specs.Prelude.{◌≡◌, ◌<◌, ◌≤◌, ◌^◌};
ghost use Rattle.ids.specs.declared.Space.TheVariants.{Ids};
ghost use Rattle.holdings.specs.Holdings.{EndsIn};
ghost use Rattle.holdings.specs.Taken.{secondary_range, secondary_if, secondary_bus, common, taken_reach, taken_in};

use crate::reaches::{address_reach, bus_range, grid_if, range_if};
use chassis::Kind;
use claims::{secondary_start, secondary_units};
use ids::Space;
use registers::{Bridge, Mechanism, Port, enabled, settings, with_ari};
use spans::Reach;
use spans::grids::Grid;
use spans::ranges::Range;

// The IDs of the Secondary range: units of an upstream port, a bus with ARI, else one unit.
#[tactic(auto, using(crate::proofs::TakenWords::last_id), unfolding(crate::specs::Taken::secondary_range))]
fn secondary_range(p: Port) -> Range
    ensures { result ≡ secondary_range p }
{
    let f = p.fpb;
    let start = secondary_start(f).0 as u64;
    if Kind::try_from(p.kind) == Ok(Kind::Upstream) {
        return Range {
            lo: start * 8,
            hi: (start + secondary_units(f) as u64) * 8 - 1,
        };
    }
    if with_ari(p) {
        return Range {
            lo: start / 32 * 256,
            hi: start / 32 * 256 + 255,
        };
    }
    Range {
        lo: start * 8,
        hi: start * 8 + 7,
    }
}

// The same, which counts with RID decoding enabled.
fn secondary_if(p: Port) -> Range
    ensures { result ≡ secondary_if p }
{
    let f = p.fpb;
    let ids = secondary_range(p);
    range_if(enabled(f, Mechanism::Rid), ids.lo, ids.hi)
}

// The IDs of the bus Secondary, where the bus pair claims.
#[tactic(auto, unfolding(crate::specs::Taken::secondary_bus))]
fn secondary_bus(b: Bridge) -> Range
    ensures value { result ≡ secondary_bus b }
    ensures hi_bound { result.hi < 2 ^ 16 }
{
    range_if(
        !((b.secondary == 0) & (b.subordinate == 0)) & (b.secondary <= b.subordinate),
        b.secondary as u64 * 256,
        b.secondary as u64 * 256 + 255,
    )
}

// What two ranges have in common.
#[tactic(auto, unfolding(crate::specs::Taken::common))]
fn common(a: Range, b: Range) -> Range
    ensures value { result ≡ common a b }
    ensures hi_le_hi { result.hi ≤ b.hi }
{
    Range {
        lo: a.lo.max(b.lo),
        hi: a.hi.min(b.hi),
    }
}

// What a port takes: of its Secondary range what it claims by its bus pair or its RID vector, and its bus Secondary.
#[tactic(auto, unfolding(crate::specs::Taken::taken_reach))]
fn taken(p: Port) -> Reach
    ensures value { result ≡ taken_reach p }
    ensures ends_in { EndsIn Ids result }
{
    let b = p.bridge;
    let f = p.fpb;
    let secondary = secondary_if(p);
    let all = Range { lo: 0, hi: 65535 };
    Reach {
        first: common(secondary, bus_range(true, b)),
        second: secondary_bus(b),
        one: Grid {
            within: common(secondary, all),
            settings: settings(f, Mechanism::Rid),
        },
        other: grid_if(false, f, Mechanism::High, 1, 0),
    }
}

// What a port takes in a space; no address is taken.
pub fn taken_in(p: Port, space: Space) -> Reach
    ensures value { result ≡ taken_in p space }
    ensures ends_in { EndsIn space result }
{
    match space {
        Space::Ids => taken(p),
        Space::Addresses => address_reach(p, false),
    }
}
