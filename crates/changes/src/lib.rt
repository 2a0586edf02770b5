// One change of a byte of a picture, and all that a history of changes is made of but the records themselves: which byte a
// change names, what that byte is after another change, and what refuses a run, a version or winding back.
#![tactic(auto)]

mod made;
mod places;
mod readings;
mod refusals;
mod room;

pub use made::{first_byte, held_after, make_change, same_byte};
pub use places::byte_named;
pub use readings::{first_picture, version_there, wind_back};
pub use refusals::HistoryRefusal;
pub use room::{held_in, room_for};

// A change as the customer lends it: part 0 is the port's record, 1 its vectors, and `at` counts from the part's start.
#[repr(C)]
#[derive(Clone, Copy)]
pub struct Change {
    pub port: u32,
    pub part: u32,
    pub at: u32,
    pub old_byte: u8,
    pub new_byte: u8,
}
