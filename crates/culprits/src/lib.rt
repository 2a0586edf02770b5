// Which ports the check names: the first pair at a shared target, and the lowest port that strays, whose own ID is lost, or
// whose parent takes what it claims; and whether one port is at fault at a target.
#![tactic(auto)]

mod faults;
mod pairs;
mod ports;
mod taken;

pub use faults::at_fault;
pub use pairs::{Pair, first_pair};
pub use ports::{lowest_port, own_id_lost, strays_at};
pub use taken::taken_at;
