// A picture with the count of its ports.
ghost use Rattle.std.specs.Prelude.{◌≡◌};
ghost use Rattle.trees.specs.Trees.{count_of};

use crate::has_child_below;
use chassis::Kind;
use ids::PortNo;
use registers::known_kind;

// The bytes of a picture whose header says so many ports.
#[derive(Clone, Copy)]
pub struct Picture<'a> {
    pub bytes: &'a [u8],
    pub count: u8,
    ghost counted: { count ≡ count_of bytes.now },
}

impl<'a> Picture<'a> {
    ghost use Rattle.chassis.specs.Tree.{is_device_port};
    ghost use Rattle.trees.specs.Trees.{tree_of};

    // A root or downstream port without a child.
    #[tactic(auto, unfolding(chassis::specs::Tree::is_device_port))]
    pub fn is_device_port(&self, p: PortNo) -> bool
        ensures { result ≡ is_device_port (tree_of self.now.bytes.now) p.0 }
    {
        (p.0 < self.count)
            & (known_kind(self.bytes, p) != Ok(Kind::Upstream))
            & !has_child_below(self.bytes, self.count, p)
    }
}
