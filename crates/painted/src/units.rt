// What a port claims in one part of a space beside the video range, in units: of 8 IDs, of a MiB, or of a granule of MEM High.
ghost use Rattle.std.specs.Prelude.{◌≡◌, ℕ, ◌-◌, ◌^◌, ◌<◌};
ghost use Rattle.painted.specs.Painted.{in_units, whole_in, memory_units, prefetchable_units, id_units, address_units, high_units, FitsWindow};

use claims::{base_of, memory_space_enabled, upper_of};
use holdings::range_if;
use registers::{Bridge, Mechanism, Port, enabled, settings};
use spans::ranges::Range;
use strips::SmallSettings;
use vectors::Settings;

// A part of the addresses from 4 GiB up: units of 2^scale addresses, from unit `base` on.
#[derive(Clone, Copy)]
pub struct Window {
    pub scale: u32,
    pub base: u64,
}

// A part of a space that a strip covers: all IDs, the addresses below 4 GiB, or a window above.
#[derive(Clone, Copy)]
pub enum Part {
    Ids,
    Low,
    High(Window),
}

// Two ranges of units, and the settings of a vector whose entries count.
#[derive(Clone, Copy)]
pub struct Claimed {
    pub first: Range,
    pub second: Range,
    pub entries: Option<SmallSettings>,
}

// A vector's settings in units of 2^k targets.
fn in_units(g: Settings, k: u32) -> Settings
    requires { k < 64 }
    ensures { result ≡ in_units g k }
{
    Settings {
        size: g.size,
        start: g.start >> k,
        scale: g.scale.saturating_sub(k),
    }
}

// Whether each entry of a vector is whole units of 2^k targets.
#[tactic(auto, unfolding(crate::specs::Painted::whole_in))]
pub fn is_whole(start: u64, scale: u32, k: u32) -> bool
    requires { k < 64 }
    ensures { (size : ℕ) → result ≡ whole_in (record { size = size; start = start; scale = scale }) k }
{
    k <= scale && (start >> k) << k == start
}

// IDs: the buses of the bus pair, 32 units each, and the RID vector.
#[tactic(auto, using(crate::proofs::Laws::rid_small), unfolding(crate::specs::Painted::id_units))]
fn id_units(p: Port) -> Claimed
    ensures { result ≡ id_units p }
{
    let b = p.bridge;
    let f = p.fpb;
    Claimed {
        first: range_if(
            !((b.secondary == 0) & (b.subordinate == 0)),
            b.secondary as u64 * 32,
            b.subordinate as u64 * 32 + 31,
        ),
        second: Range { lo: 1, hi: 0 },
        entries: enabled(f, Mechanism::Rid).then_some(SmallSettings {
            settings: in_units(settings(f, Mechanism::Rid), 3),
        }),
    }
}

// Memory Base..Limit.
#[tactic(auto, unfolding(crate::specs::Painted::memory_units))]
fn memory_units(on: bool, b: Bridge) -> Range
    ensures { result ≡ memory_units on b }
{
    range_if(
        on,
        base_of(b.memory_base) >> 20,
        base_of(b.memory_limit) >> 20,
    )
}

// Prefetchable Base..Limit.
#[tactic(auto, unfolding(crate::specs::Painted::prefetchable_units))]
fn prefetchable_units(on: bool, b: Bridge) -> Range
    ensures { result ≡ prefetchable_units on b }
{
    range_if(
        on,
        (upper_of(b, b.prefetchable_base_upper) + base_of(b.prefetchable_base)) >> 20,
        (upper_of(b, b.prefetchable_limit_upper) + base_of(b.prefetchable_limit)) >> 20,
    )
}

// Addresses: the two windows and the Low vector.
#[tactic(auto, using(crate::proofs::Laws::low_small), unfolding(crate::specs::Painted::address_units))]
fn address_units(p: Port) -> Claimed
    ensures { result ≡ address_units p }
{
    let b = p.bridge;
    let f = p.fpb;
    let on = memory_space_enabled(b);
    Claimed {
        first: memory_units(on, b),
        second: prefetchable_units(on, b),
        entries: (on & enabled(f, Mechanism::Low)).then_some(SmallSettings {
            settings: in_units(settings(f, Mechanism::Low), 20),
        }),
    }
}

// A window: the High vector, where its entries are whole units.
#[tactic(auto, using(crate::proofs::Laws::high_small), unfolding(crate::specs::Painted::high_units))]
fn high_units(p: Port, w: Window) -> Claimed
    requires { FitsWindow w }
    ensures { result ≡ high_units p w }
{
    let b = p.bridge;
    let f = p.fpb;
    let g = settings(f, Mechanism::High);
    let on = memory_space_enabled(b)
        & enabled(f, Mechanism::High)
        & is_whole(g.start, g.scale, w.scale);
    Claimed {
        first: Range { lo: 1, hi: 0 },
        second: Range { lo: 1, hi: 0 },
        entries: on.then_some(SmallSettings {
            settings: in_units(g, w.scale),
        }),
    }
}

impl Part {
    ghost use Rattle.painted.specs.Painted.{units_of, mechanism_of, base_unit, FitsPart};

    // What a port claims in it.
    pub(crate) fn units_of(&self, p: Port) -> Claimed
        requires { FitsPart self.now }
        ensures { result ≡ units_of p self.now }
    {
        match self {
            Part::Ids => id_units(p),
            Part::Low => address_units(p),
            Part::High(w) => high_units(p, *w),
        }
    }

    // The mechanism whose vector claims in it.
    pub(crate) fn mechanism(&self) -> Mechanism
        ensures { result ≡ mechanism_of self.now }
    {
        match self {
            Part::Ids => Mechanism::Rid,
            Part::Low => Mechanism::Low,
            Part::High(_) => Mechanism::High,
        }
    }

    // The unit that it begins with.
    pub(crate) fn base_unit(&self) -> u64
        requires { FitsPart self.now }
        ensures value { result ≡ base_unit self.now }
        ensures upper_bound { result < 2 ^ 62 }
    {
        match self {
            Part::Ids => 0,
            Part::Low => 0,
            Part::High(w) => w.base,
        }
    }
}
