// Port numbers, IDs and units: three types, so that none stands for another; and what a packet is sent to.
#![tactic(auto)]

mod shown;

ghost use Rattle.std.specs.Prelude.{◌≡◌};
ghost use Rattle.ids.specs.Ids.{bus_of, device_of, function_of, unit_of};

// The number of a port in its picture.
#[derive(Clone, Copy, PartialEq, Eq, PartialOrd, Ord)]
pub struct PortNo(pub u8);

// A Routing ID: bus, device and Function.
#[derive(Clone, Copy, PartialEq, Eq, PartialOrd, Ord)]
pub struct Rid(pub u16);

// Eight IDs that differ in their Function alone: an ID divided by 8.
#[derive(Clone, Copy, PartialEq, Eq, PartialOrd, Ord)]
pub struct Unit(pub u16);

// What a packet is sent to.
#[derive(Clone, Copy)]
pub enum Target {
    Id(Rid),
    Addr(u64),
}

// The two spaces of targets.
#[derive(Clone, Copy)]
pub enum Space {
    Ids,
    Addresses,
}

impl PortNo {
    // What stands where an answer names no port.
    pub const NONE: PortNo = PortNo(255);

    // The root as a place; below any other number lies what is below that port.
    pub const ROOT: PortNo = PortNo(255);
}

impl Rid {
    pub const BUS_BITS: u16 = 8;

    pub const DEVICE_BITS: u16 = 5;

    pub const FUNCTION_BITS: u16 = 3;

    // Bits 15:8.
    pub fn bus(self) -> u8
        ensures { result ≡ bus_of self.0 }
    {
        ((self.0 >> (Rid::DEVICE_BITS + Rid::FUNCTION_BITS)) % (1 << Rid::BUS_BITS)) as u8
    }

    // Bits 7:3.
    pub fn device(self) -> u8
        ensures { result ≡ device_of self.0 }
    {
        ((self.0 >> Rid::FUNCTION_BITS) % (1 << Rid::DEVICE_BITS)) as u8
    }

    // Bits 2:0.
    pub fn function(self) -> u8
        ensures { result ≡ function_of self.0 }
    {
        (self.0 % (1 << Rid::FUNCTION_BITS)) as u8
    }

    // Bits 15:3.
    pub fn unit(self) -> Unit
        ensures { result.0 ≡ unit_of self.0 }
    {
        Unit(self.0 >> Rid::FUNCTION_BITS)
    }
}
