// The reach of a port in one space: its decoders but vga, as ranges and grids.
ghost use Rattle.std.specs.Prelude.{◌≡◌, ◌<◌, ◌≤◌, ◌^◌};
ghost use Rattle.ids.specs.declared.Space.TheVariants.{Ids, Addresses};
ghost use Rattle.holdings.specs.Holdings.{range_if, grid_if, bus_range, memory_range, prefetchable_range, id_reach, address_reach, reach_of, one_of, EndsIn};

use claims::{base_of, memory_space_enabled, upper_of};
use ids::Space;
use registers::{Bridge, Fpb, Mechanism, Port, enabled, settings};
use spans::Reach;
use spans::grids::Grid;
use spans::ranges::Range;

// A range, or the empty one.
#[tactic(auto, unfolding(crate::specs::Holdings::range_if))]
pub fn range_if(on: bool, lo: u64, hi: u64) -> Range
    ensures value { result ≡ range_if on lo hi }
    ensures hi_le_hi { result.hi ≤ hi }
{
    if on {
        Range { lo, hi }
    } else {
        Range { lo: 1, hi: 0 }
    }
}

// A vector's grid, within the range if the mechanism is enabled.
#[tactic(auto, unfolding(crate::specs::Holdings::grid_if))]
pub fn grid_if(on: bool, f: Fpb, m: Mechanism, lo: u64, hi: u64) -> Grid
    ensures value { result ≡ grid_if on f m lo hi }
    ensures hi_le_hi { result.within.hi ≤ hi }
{
    Grid {
        within: range_if(on & enabled(f, m), lo, hi),
        settings: settings(f, m),
    }
}

// The IDs of the bus pair.
#[tactic(auto, unfolding(crate::specs::Holdings::bus_range))]
pub fn bus_range(on: bool, b: Bridge) -> Range
    ensures value { result ≡ bus_range on b }
    ensures hi_bound { result.hi < 2 ^ 16 }
{
    range_if(
        on & !((b.secondary == 0) & (b.subordinate == 0)),
        b.secondary as u64 * 256,
        b.subordinate as u64 * 256 + 255,
    )
}

// Memory Base..Limit.
#[tactic(auto, unfolding(crate::specs::Holdings::memory_range))]
fn memory_range(on: bool, b: Bridge) -> Range
    ensures { result ≡ memory_range on b }
{
    range_if(
        on,
        base_of(b.memory_base),
        base_of(b.memory_limit) + 1048575,
    )
}

// Prefetchable Base..Limit.
#[tactic(auto, unfolding(crate::specs::Holdings::prefetchable_range))]
fn prefetchable_range(on: bool, b: Bridge) -> Range
    ensures { result ≡ prefetchable_range on b }
{
    range_if(
        on,
        upper_of(b, b.prefetchable_base_upper) + base_of(b.prefetchable_base),
        upper_of(b, b.prefetchable_limit_upper) + (base_of(b.prefetchable_limit) + 1048575),
    )
}

// IDs: the bus pair, the port's own and its RID vector.
#[tactic(auto, unfolding(crate::specs::Holdings::id_reach))]
fn id_reach(p: Port, own: bool, claims: bool) -> Reach
    ensures value { result ≡ id_reach p own claims }
    ensures ends_in { EndsIn Ids result }
{
    let b = p.bridge;
    let f = p.fpb;
    let id = p.own_id;
    Reach {
        first: bus_range(claims, b),
        second: range_if(own, id.0 as u64, id.0 as u64),
        one: grid_if(claims, f, Mechanism::Rid, 0, 65535),
        other: grid_if(false, f, Mechanism::High, 1, 0),
    }
}

// Addresses: the memory decoders but vga.
#[tactic(auto, unfolding(crate::specs::Holdings::address_reach))]
pub fn address_reach(p: Port, on: bool) -> Reach
    ensures value { result ≡ address_reach p on }
    ensures ends_in { EndsIn Addresses result }
{
    let b = p.bridge;
    let f = p.fpb;
    Reach {
        first: memory_range(on, b),
        second: prefetchable_range(on, b),
        one: grid_if(on, f, Mechanism::Low, 0, 4294967295),
        other: grid_if(on, f, Mechanism::High, 4294967296, u64::MAX),
    }
}

// What a port reaches in a space: by its own ID, where `own`, and by what it claims, where `claims`.
pub fn reach(p: Port, space: Space, own: bool, claims: bool) -> Reach
    ensures value { result ≡ reach_of p space own claims }
    ensures ends_in { EndsIn space result }
{
    match space {
        Space::Ids => id_reach(p, own, claims),
        Space::Addresses => {
            let b = p.bridge;
            address_reach(p, claims & memory_space_enabled(b))
        }
    }
}

// The mechanism whose vector the one grid reads; the other grid reads that of MEM High.
pub fn one_of(space: Space) -> Mechanism
    ensures { result ≡ one_of space }
{
    match space {
        Space::Ids => Mechanism::Rid,
        Space::Addresses => Mechanism::Low,
    }
}
