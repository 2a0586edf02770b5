// A strip: 8,192 units in a row from a base on, whatever a unit is, as the binary digits of 128 words, the first unit lowest. Units
// are marked in it, and two strips are compared a word at a time.
#![tactic(auto)]

mod entries;
mod finds;
mod marks;
mod strip;

pub use entries::SmallSettings;
pub use finds::{first_of_both, is_marked, join};
pub use strip::{mark_grid, mark_range};

// How many words a strip has.
pub const WORDS: usize = 128;
