// What a packet meets on its way through a chassis, and where it ends. The rules themselves are definitions, in specs/.
#![tactic(auto)]

mod findings;
mod joined;
mod kinds;
mod looking;

pub use findings::finding_of;
use ids::{PortNo, Rid, Space, Target};
pub use kinds::{Kind, UnknownKind};
pub use looking::{any, lowest};

// What is sent: a packet routed by its target, or a configuration request for an ID.
#[derive(Clone, Copy)]
pub enum Packet {
    Plain(Target),
    Config(Rid),
}

// The ports of a place that have to do with a target: none, one, or the two lowest.
#[derive(Clone, Copy)]
pub enum Holders {
    Nobody,
    Only(PortNo),
    Both(PortNo, PortNo),
}

// The decoders of a port that claim a target, each by its name.
#[derive(Clone, Copy, Default)]
pub struct Decoders {
    pub bus: bool,
    pub rid: bool,
    pub mem: bool,
    pub pref: bool,
    pub low: bool,
    pub high: bool,
    pub vga: bool,
}

// What a port has to do with a target: it is the port's own ID, which is no claim, and these decoders claim it.
#[derive(Clone, Copy)]
pub struct Hold {
    pub port: PortNo,
    pub own: bool,
    pub decoders: Decoders,
}

// What a port makes of a configuration request that it is about to be crossed by.
#[derive(Clone, Copy, PartialEq, Eq)]
pub enum Conversion {
    NotClaimed,
    Type0,
    Type1,
    Unsupported,
}

// Where a packet ends. The number of a Device is its Function number, used by configuration requests alone.
#[derive(Clone, Copy)]
pub enum End {
    Device(PortNo, u8),
    Function(PortNo),
    Host,
    Unsupported(PortNo),
    Doubled(PortNo, PortNo),
}

// Where a packet is: at the root; below a port, come from above; below it, started there or come from below; below it,
// redirected to the root; below it as a configuration request of Type 0 or of Type 1.
#[derive(Clone, Copy)]
pub enum Whereabouts {
    Root,
    Into(PortNo),
    From(PortNo),
    Redirected(PortNo),
    Type0(PortNo),
    Type1(PortNo),
}

// What a packet does next: it stops at its end, or crosses a port and is elsewhere.
#[derive(Clone, Copy)]
pub enum Step {
    Stop(End),
    Cross(PortNo, Whereabouts),
}

// What the check looks for at a target: 11 and 12, two ports that hold it; 13 and 14, a port that strays; 18, a port that claims
// it and whose parent takes configuration requests for it.
#[derive(Clone, Copy)]
pub enum Fault {
    Shared,
    Stray,
    Taken,
}

// The rows of the table that the check looks at: a fault at a target of a space, and 15, an own ID that is lost.
#[derive(Clone, Copy)]
pub enum Row {
    At(Fault, Space),
    Lost,
}

// What the check finds: numbers 11 and 12 with the least target and the first pair, 13, 14 and 18 with the least target and
// the port, each port with its hold on the target; 15 with the port.
#[derive(Clone, Copy)]
pub enum Verdict {
    Clear,
    Shared(Target, Hold, Hold),
    Stray(Target, Hold),
    Lost(PortNo),
    Taken(Target, Hold),
}

// The ports that a number of the table names: none, one alone, or one or two by their hold on the target that it shows.
#[derive(Clone, Copy)]
pub enum Named {
    NoPort,
    Port(PortNo),
    Holder(Hold),
    Pair(Hold, Hold),
}

// A number of the table, with the target that it shows and the ports that it names.
#[derive(Clone, Copy)]
pub struct Finding {
    pub number: u8,
    pub target: Option<Target>,
    pub ports: Named,
}
