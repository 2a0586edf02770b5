// A history of changes in the form that the customer lends it: a room of change records, and a run of them to add. What a change
// means is said by the crate `changes`.
#![tactic(auto)]

mod adding;
mod looking;
mod records;

pub use adding::accept;
pub use looking::byte_before;
pub use records::record_at;
