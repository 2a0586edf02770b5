// The 40 bytes of a walk's answer.
ghost use Rattle.std.specs.Prelude.{◌≡◌, ◌<◌, IfOk};
ghost use Rattle.fiswalend.specs.Walked.{row as Walked·row, end_head, walk_bytes};

use crate::found::finding_bytes;
use answers::{ANSWER_BYTES, Head, with_path};
use chassis::End;
use ids::PortNo;
use judge::refusal_finding;
use picture::Refusal;
use routes::Walked;

// A row of the table of ends; an end's number is 0.
fn row(end: u8, port: PortNo, second: PortNo, crossings: u8, function: u8) -> Head
    ensures { result ≡ Walked·row end port second crossings function }
{
    Head {
        number: 0,
        end,
        port,
        second,
        crossings,
        function,
    }
}

// What is said of an end.
fn end_head(e: End, crossings: u8) -> Head
    ensures { result ≡ end_head e crossings }
{
    match e {
        End::Device(p, function) => row(1, p, PortNo::NONE, crossings, function),
        End::Function(p) => row(2, p, PortNo::NONE, crossings, 0),
        End::Host => row(3, PortNo::NONE, PortNo::NONE, crossings, 0),
        End::Unsupported(p) => row(4, p, PortNo::NONE, crossings, 0),
        End::Doubled(p, q) => row(5, p, q, crossings, 0),
    }
}

// A refusal, or the end and the ports crossed.
#[tactic(auto, unfolding(crate::specs::Walked::walk_bytes))]
pub fn walk_bytes(answer: Result<Walked, Refusal>) -> [u8; ANSWER_BYTES]
    requires { IfOk answer (λ w. w.path.count < 256) }
    ensures { result ≡ walk_bytes answer }
{
    match answer {
        Err(r) => finding_bytes(refusal_finding(r)),
        Ok(w) => {
            let path = w.path;
            with_path(end_head(w.end, path.count as u8), path.places)
        }
    }
}
