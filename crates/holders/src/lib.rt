// The ports of a place that pass a test: the two lowest.
#![tactic(auto)]

ghost use Rattle.std.specs.Prelude.{ℕ, List, Bool, ◌≡◌};
ghost use Rattle.chassis.specs.Chassis.{with_port, lowest_at};
ghost use Rattle.chassis.specs.Looking.{Tells};
ghost use Rattle.claims.specs.Over.{chassis_over};

use chassis::Holders;
use ids::PortNo;
use registers::parent_at;
use trees::Picture;

// The two lowest so far, after port p was tried.
#[tactic(auto, unfolding(chassis::specs::Chassis::with_port))]
fn with_port(found: Holders, p: PortNo, passes: bool) -> Holders
    ensures { result ≡ with_port found p.0 passes }
{
    if !passes {
        return found;
    }
    match found {
        Holders::Nobody => Holders::Only(p),
        Holders::Only(q) => Holders::Both(q, p),
        Holders::Both(q, r) => Holders::Both(q, r),
    }
}

// The two lowest ports of a place that pass a test; a port elsewhere costs one read, and is not tried.
#[tactic(auto, unfolding(chassis::specs::Chassis::lowest_two, chassis::specs::Chassis::passes_at))]
pub fn lowest_at<F: Fn(PortNo) -> bool>(picture: &Picture, place: PortNo, passes: F) -> Holders
    requires { F.IsAlwaysCallable passes }
    ensures { (patch : List ℕ) (test : ℕ → Bool) → Tells (F.post passes) picture.now.count test
        → result ≡ lowest_at (chassis_over picture.now.bytes.now patch) place.0 test }
{
    let mut found = Holders::Nobody;
    for i in 0..picture.count {
        let p = PortNo(i);
        found = with_port(found, p, parent_at(picture.bytes, p) == place && passes(p));
    }
    found
}
