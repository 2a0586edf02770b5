// The 40 bytes of what a call found: a number, the ports that it names, and the target that it shows.
ghost use Rattle.std.specs.Prelude.{◌≡◌};
ghost use Rattle.answers.specs.Answers.{answer_bytes};
ghost use Rattle.fiswalend.specs.Found.{found_head, naming_head, shown_places, finding_bytes};

use answers::{ANSWER_BYTES, Head, with_target, without_places};
use chassis::{Finding, Named};
use ids::{PortNo, Target};

// What is said of a finding: its number, and the ports that it names.
fn found_head(number: u8, port: PortNo, second: PortNo) -> Head
    ensures { result ≡ found_head number port second }
{
    Head {
        number,
        end: 0,
        port,
        second,
        crossings: 0,
        function: 0,
    }
}

// The same, where it names no port, one or two.
fn naming_head(number: u8, ports: Named) -> Head
    ensures { result ≡ naming_head number ports }
{
    match ports {
        Named::NoPort => found_head(number, PortNo::NONE, PortNo::NONE),
        Named::Port(p) => found_head(number, p, PortNo::NONE),
        Named::Holder(h) => found_head(number, h.port, PortNo::NONE),
        Named::Pair(h, k) => found_head(number, h.port, k.port),
    }
}

// An answer that shows a least target.
fn showing(h: Head, t: Target) -> [u8; ANSWER_BYTES]
    ensures { result ≡ answer_bytes h (shown_places (Some t)) }
{
    match t {
        Target::Id(rid) => with_target(h, rid.0 as u64),
        Target::Addr(a) => with_target(h, a),
    }
}

// All that is said of a finding.
#[tactic(auto, unfolding(crate::specs::Found::finding_bytes))]
pub fn finding_bytes(f: Finding) -> [u8; ANSWER_BYTES]
    ensures { result ≡ finding_bytes f }
{
    let ports = f.ports;
    let target = f.target;
    let head = naming_head(f.number, ports);
    match target {
        None => without_places(head),
        Some(t) => showing(head, t),
    }
}
