// Decoders joined: what at least one of them claims, and what a port holds by them or as its own.
ghost use Rattle.std.specs.Prelude.{◌≡◌};
ghost use Rattle.chassis.specs.Chassis.{at_least_one, is_held};

use crate::{Decoders, Hold};

impl Decoders {
    // Whether at least one decoder claims the target.
    #[tactic(auto, unfolding(crate::specs::Chassis::at_least_one))]
    pub fn at_least_one(self) -> bool
        ensures { result ≡ at_least_one self }
    {
        self.bus | self.rid | self.mem | self.pref | self.low | self.high | self.vga
    }
}

impl Hold {
    // Whether the port holds the target.
    #[tactic(auto, unfolding(crate::specs::Chassis::is_held))]
    pub fn is_held(self) -> bool
        ensures { result ≡ is_held self }
    {
        let decoders = self.decoders;
        self.own | decoders.at_least_one()
    }
}
