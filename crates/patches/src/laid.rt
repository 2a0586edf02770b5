// What most of the judge works on: a picture with a patch over it.
ghost use Rattle.std.specs.Prelude.{◌≡◌};

use crate::parts::vector;
use ids::PortNo;
use registers::Mechanism;
use trees::Picture;

// A picture, and the patch whose vectors are put in; an empty patch puts none in.
#[derive(Clone, Copy)]
pub struct PatchedPicture<'a> {
    pub picture: Picture<'a>,
    pub patch: &'a [u8],
}

impl<'a> PatchedPicture<'a> {
    ghost use Rattle.patches.specs.Halves.{vector_over};

    // Port p's vector, as a part of the slice that it lies in.
    pub fn vector(&self, p: PortNo, m: Mechanism) -> &'a [u8]
        ensures { result.now ≡ vector_over self.now.picture.bytes.now self.now.patch.now p.0 m }
    {
        vector(self.picture.bytes, self.patch, p, m)
    }
}
