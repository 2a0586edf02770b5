// The least target of a space at which some port is at fault: two ports share it, it strays from its parent, or the parent takes
// it; for IDs and addresses, and for each fault, by the same search. The video range is looked at apart.
#![tactic(auto)]

mod faults;
mod meetings;
mod pairs;
mod strays;
mod taken;
mod video;

pub use faults::least_fault;
