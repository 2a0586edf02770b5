// Which entries of a vector a strip has, and which units an entry stands for.
ghost use Rattle.std.specs.Prelude.{◌≡◌, ◌+◌, ◌^◌, ◌<◌, ◌%◌, ◌&&◌, eqb, min};
ghost use Rattle.vectors.specs.Vectors.{entry_at};
ghost use Rattle.strips.specs.Strips.{entry_units};

use spans::ranges::Range;
use std::marker::Model;
use vectors::Settings;

// A vector's settings, whose sums and shifts stay small.
#[derive(Clone, Copy)]
pub struct SmallSettings {
    pub settings: Settings,
}

impl Model for SmallSettings {
    ghost use Rattle.vectors.specs.Shape.{Shape};
    ghost use Rattle.strips.specs.Strips.{small};

    ghost Value = { Shape };

    ghost view = { λ g. g.settings };

    ghost inverse = { λ g. record { settings = g } };

    ghost invariant = { λ g. small g.settings };
}

impl SmallSettings {
    // How many entries there are.
    pub(crate) fn size(self) -> u64
        ensures value { result ≡ self.size }
        ensures upper_bound { result < 2 ^ 16 }
    {
        let g = self.settings;
        g.size
    }

    // The unit where entry 0 begins.
    pub(crate) fn start(self) -> u64
        ensures value { result ≡ self.start }
        ensures upper_bound { result < 2 ^ 48 }
    {
        let g = self.settings;
        g.start
    }

    // Whether each entry is one unit, and they fill whole words.
    pub(crate) fn fills_words(self) -> bool
        ensures { result ≡ (eqb self.scale 0 && eqb (self.size % 64) 0) }
    {
        let g = self.settings;
        g.scale == 0 && g.size % 64 == 0
    }
}

// The entry that the strip begins in, the first, or the one after the last.
pub fn first_entry(base: u64, g: SmallSettings) -> u64
    ensures { result ≡ min g.size (entry_at g base) }
{
    let g = g.settings;
    g.size.min(base.saturating_sub(g.start) >> g.scale)
}

// The entry after the one that the strip ends in, or after the last.
#[tactic(auto, using(crate::proofs::OfGrids::end_small))]
pub fn end_entry(base: u64, g: SmallSettings) -> u64
    requires { base < 2 ^ 62 }
    ensures { result ≡ min g.size (entry_at g (base + 8191) + 1) }
{
    let g = g.settings;
    g.size
        .min(((base + 8191).saturating_sub(g.start) >> g.scale) + 1)
}

// The units that entry i stands for.
#[tactic(auto, using(crate::proofs::OfGrids::begins_small, crate::proofs::OfGrids::one_small, crate::proofs::OfGrids::units_are))]
pub fn units_of(g: SmallSettings, i: u64) -> Range
    requires { i < g.size }
    ensures { result ≡ entry_units g i }
{
    let g = g.settings;
    let lo = g.start + (i << g.scale);
    Range {
        lo,
        hi: lo + ((1 << g.scale) - 1),
    }
}
