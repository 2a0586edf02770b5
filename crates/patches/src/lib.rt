// A patch over a picture: new vectors for some of its ports. Any lent bytes are read or refused, and each vector is handed out
// as a part of the picture or of the patch.
#![tactic(auto)]

mod laid;
mod parts;
mod reading;
mod rows;

pub use laid::PatchedPicture;
pub use parts::{Place, Source, lies_at, vector};
pub use reading::{port_misplaced, read};
pub use rows::{offset_at, port_in, ports_in, row_at};
