// Numbers 13 to 15: whether a port strays at a target, and whether its own ID is lost; and the lowest port of which such a thing is so.
ghost use Rattle.std.specs.Prelude.{ℕ, Bool, ◌≡◌};
ghost use Rattle.least.specs.Least.{first_in};
ghost use Rattle.chassis.specs.Check.{found, strays_at, own_id_lost};
ghost use Rattle.chassis.specs.Looking.{Tells};
ghost use Rattle.claims.specs.Over.{chassis_in};

use chassis::Conversion;
use claims::{claims, conversion, holds};
use ids::{PortNo, Target};
use patches::PatchedPicture;
use registers::{is_root_port, own_id_at, parent_at};
use trees::Picture;

// Whether port p is no root port and holds a target that its parent does not claim.
#[tactic(auto, unfolding(chassis::specs::Check::strays_at))]
pub fn strays_at(over: &PatchedPicture, t: Target, p: PortNo) -> bool
    ensures { result ≡ strays_at (chassis_in over.now) t p.0 }
{
    let s = over.picture.bytes;
    !is_root_port(s, p) & holds(over, p, t) & !claims(over, parent_at(s, p), t)
}

// Whether port p is no root port and its parent does not claim its own ID and convert it to Type 0.
#[tactic(auto, unfolding(chassis::specs::Check::own_id_lost))]
pub fn own_id_lost(over: &PatchedPicture, p: PortNo) -> bool
    ensures { result ≡ own_id_lost (chassis_in over.now) p.0 }
{
    let s = over.picture.bytes;
    let parent = parent_at(s, p);
    let own = Target::Id(own_id_at(s, p));
    !is_root_port(s, p)
        & !(claims(over, parent, own) & (conversion(over, parent, own) == Conversion::Type0))
}

// The lowest port that passes, 255 where none does.
#[tactic(auto, using(crate::proofs::LowestPort::by_number))]
pub fn lowest_port<F: Fn(PortNo) -> bool>(picture: &Picture, passes: F) -> PortNo
    requires { F.IsAlwaysCallable passes }
    ensures { (test : ℕ → Bool) → Tells (F.post passes) picture.now.count test → result ≡ found (first_in test 0 picture.now.count) }
{
    chassis::lowest(picture.count, passes).unwrap_or(PortNo::NONE)
}
