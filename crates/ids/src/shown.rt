// How a person reads a port's number, an ID and a target.
ghost use Rattle.std.specs.Prelude.{Some};
ghost use Rattle.std.specs.Fmt.{decimal};
ghost use Rattle.ids.specs.Shown.{shown_id, shown_target};

use crate::{PortNo, Rid, Target};
use std::fmt;

// `2`.
impl fmt::Display for PortNo {
    ghost output = { λ p. Some (decimal p.0) };

    fn fmt<W: fmt::Write>(&self, f: &mut fmt::Formatter<W>) -> fmt::Result {
        let number = self.0;
        write!(f, "{number}")
    }
}

// Bus, device and Function: `02:01.0`.
impl fmt::Display for Rid {
    ghost output = { λ rid. Some (shown_id rid.0) };

    fn fmt<W: fmt::Write>(&self, f: &mut fmt::Formatter<W>) -> fmt::Result {
        let bus = self.bus();
        let device = self.device();
        let function = self.function();
        write!(f, "{bus:02x}:{device:02x}.{function}")
    }
}

// `ID 03:00.0 (0300)`, `address 00000000e0500000`.
impl fmt::Display for Target {
    ghost output = { λ t. Some (shown_target t) };

    fn fmt<W: fmt::Write>(&self, f: &mut fmt::Formatter<W>) -> fmt::Result {
        match self {
            Target::Id(rid) => {
                let number = rid.0;
                write!(f, "ID {rid} ({number:04x})")
            }
            Target::Addr(a) => write!(f, "address {a:016x}"),
        }
    }
}
