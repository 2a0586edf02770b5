// The kinds of ports.
ghost use Rattle.std.specs.Prelude.{◌≡◌};
ghost use Rattle.chassis.specs.Tree.{kind_of};

use std::fmt;

#[derive(Clone, Copy, PartialEq, Eq)]
pub enum Kind {
    Root,
    Upstream,
    Downstream,
}

// A number that a picture has for no kind of port.
#[derive(Clone, Copy, PartialEq, Eq)]
pub struct UnknownKind(pub u8);

impl TryFrom<u8> for Kind {
    type Error = UnknownKind;

    ghost try_from_gives = { λ number kind. kind ≡ kind_of number };

    fn try_from(number: u8) -> Result<Kind, UnknownKind> {
        match number {
            0 => Ok(Kind::Root),
            1 => Ok(Kind::Upstream),
            2 => Ok(Kind::Downstream),
            _ => Err(UnknownKind(number)),
        }
    }
}

impl fmt::Display for Kind {
    fn fmt<W: fmt::Write>(&self, f: &mut fmt::Formatter<W>) -> fmt::Result {
        f.write_str(match self {
            Kind::Root => "root port",
            Kind::Upstream => "switch upstream port",
            Kind::Downstream => "switch downstream port",
        })
    }
}

impl fmt::Display for UnknownKind {
    fn fmt<W: fmt::Write>(&self, f: &mut fmt::Formatter<W>) -> fmt::Result {
        write!(f, "unknown kind {}", self.0)
    }
}
