// Whether one port is at fault at a target, told which fault.
ghost use Rattle.std.specs.Prelude.{◌≡◌};
ghost use Rattle.chassis.specs.Check.{at_fault};
ghost use Rattle.claims.specs.Over.{chassis_in};

use crate::pairs::clashes_with;
use crate::ports::strays_at;
use crate::taken::taken_at;
use chassis::Fault;
use ids::{PortNo, Target};
use patches::PatchedPicture;

// Whether port p is at fault at a target: it shares it with a port, lets it stray, or claims what its parent takes.
pub fn at_fault(over: &PatchedPicture, fault: Fault, t: Target, p: PortNo) -> bool
    ensures { result ≡ at_fault fault (chassis_in over.now) t p.0 }
{
    match fault {
        Fault::Shared => clashes_with(over, t, p),
        Fault::Stray => strays_at(over, t, p),
        Fault::Taken => taken_at(over, t, p),
    }
}
