// Where a packet starts: at the root, or below a device port, which may redirect it.
ghost use Rattle.std.specs.Prelude.{◌≡◌};
ghost use Rattle.chassis.specs.Walk.{is_redirected, starts_at};
ghost use Rattle.claims.specs.Over.{chassis_over};

use crate::steps::come_to;
use chassis::{Packet, Whereabouts};
use ids::{PortNo, Target};

// Whether a packet is redirected that starts below this port: one for an address, where the port has redirect and does not claim it.
#[tactic(auto, unfolding(chassis::specs::Walk::is_redirected))]
fn is_redirected<'a>(s: &'a [u8], patch: &'a [u8], packet: Packet, start: PortNo) -> bool
    ensures { result ≡ is_redirected (chassis_over s.now patch.now) packet start.0 }
{
    let Packet::Plain(t) = packet else {
        return false;
    };
    match t {
        Target::Id(_) => false,
        Target::Addr(_) => {
            if claims::with_redirect_at(s, start) {
                return !claims::decoders_of(s, patch, start, t).at_least_one();
            }
            false
        }
    }
}

// Where a packet is that starts there; the root is 255.
pub fn starts_at<'a>(s: &'a [u8], patch: &'a [u8], packet: Packet, start: PortNo) -> Whereabouts
    ensures { result ≡ starts_at (chassis_over s.now patch.now) packet start.0 }
{
    come_to(is_redirected(s, patch, packet, start), start)
}
