// Number 18: whether a port claims an ID for which its parent takes configuration requests.
ghost use Rattle.std.specs.Prelude.{◌≡◌};
ghost use Rattle.chassis.specs.Check.{takes, taken_at};
ghost use Rattle.claims.specs.Over.{chassis_in};

use chassis::Conversion;
use claims::{claims, conversion};
use ids::{PortNo, Target};
use patches::PatchedPicture;
use registers::{is_root_port, parent_at};

// Whether a conversion takes a request: it is Type 0 or Unsupported Request, and not Type 1 that passes.
fn takes(made: Conversion) -> bool
    ensures { result ≡ takes made }
{
    matches!(made, Conversion::Type0 | Conversion::Unsupported)
}

// Whether port p is no root port and claims an ID that its parent takes; no port takes an address.
#[tactic(auto, using(crate::proofs::AsAsked::taken_as_asked))]
pub fn taken_at(over: &PatchedPicture, t: Target, p: PortNo) -> bool
    ensures { result ≡ taken_at (chassis_in over.now) t p.0 }
{
    let s = over.picture.bytes;
    !is_root_port(s, p) & claims(over, p, t) & takes(conversion(over, parent_at(s, p), t))
}
