// What a port claims beside the video range, marked in a strip: all IDs by units of 8, the addresses below 4 GiB by MiB, or a window of
// the MEM High vector by granules.
#![tactic(auto)]

mod units;

ghost use Rattle.std.specs.Prelude.{◌≡◌, length};
ghost use Rattle.strips.specs.Strips.{Marks};
ghost use Rattle.painted.specs.Painted.{FitsPart, claimed_in};

use ids::PortNo;
use registers::port_at;
use strips::{mark_grid, mark_range};
pub use units::{Part, Window, is_whole};

// Marks the units of a part that port p claims.
#[tactic(auto, using(crate::proofs::Laws::port_off, crate::proofs::Laws::port_on))]
pub fn paint<'a>(s: &'a [u8], patch: &'a [u8], p: PortNo, part: Part, strip: &mut [u64])
    requires strip_len { length strip.old ≡ 128 }
    requires fits_part { FitsPart part }
    ensures { Marks strip.old strip.new (claimed_in s.now patch.now p.0 part) }
{
    let base = part.base_unit();
    let d = part.units_of(port_at(s, p));
    mark_range(strip, base, d.first);
    mark_range(strip, base, d.second);
    if let Some(settings) = d.entries {
        let vector = patches::vector(s, patch, p, part.mechanism());
        mark_grid(strip, base, vector, settings);
    }
}
