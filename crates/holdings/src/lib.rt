// What a port holds or claims in one space beside the video range, and which IDs it takes, as ranges and grids for a search.
#![tactic(auto)]

mod reaches;
mod taken;

ghost use Rattle.std.specs.Prelude.{◌≡◌};
ghost use Rattle.registers.specs.Record.{port_at};
ghost use Rattle.holdings.specs.Holdings.{EndsIn};
ghost use Rattle.holdings.specs.Taken.{looked_at};

use ids::{PortNo, Space};
pub use reaches::{one_of, range_if, reach};
use registers::port_at;
use spans::Reach;
use taken::taken_in;

// What of a port is looked at: the IDs that it takes, or what it holds: its own ID, where `own`, and what it claims, where `claims`.
#[derive(Clone, Copy)]
pub enum Looked {
    Taken,
    Held { own: bool, claims: bool },
}

// What is looked at of port p in a space.
pub fn reach_at(s: &[u8], p: PortNo, space: Space, what: Looked) -> Reach
    ensures value { result ≡ looked_at (port_at s.now p.0) space what }
    ensures ends_in { EndsIn space result }
{
    let port = port_at(s, p);
    match what {
        Looked::Taken => taken_in(port, space),
        Looked::Held { own, claims } => reach(port, space, own, claims),
    }
}
