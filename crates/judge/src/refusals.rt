// What is said of a refusal.
ghost use Rattle.std.specs.Prelude.{◌≡◌};
ghost use Rattle.judge.specs.Refusals.{refusal_ports, refusal_finding};

use chassis::{Finding, Named};
use picture::Refusal;

// The port that a refusal names.
fn named_by(r: Refusal) -> Named
    ensures { result ≡ refusal_ports r }
{
    match r {
        Refusal::Breaks(_, p) => Named::Port(p),
        Refusal::Misplaced(p) => Named::Port(p),
        _ => Named::NoPort,
    }
}

// The number, the port that it names and no target.
#[tactic(auto, unfolding(crate::specs::Refusals::refusal_finding))]
pub fn refusal_finding(r: Refusal) -> Finding
    ensures { result ≡ refusal_finding r }
{
    Finding {
        number: r.number(),
        target: None,
        ports: named_by(r),
    }
}
