// What the tree says of one port.
use crate::ports::KindOf;
use crate::settings::{MECHANISMS, say_vector_in_use, say_windows};
use ids::PortNo;
use registers::{Bridge, port_at, with_ari, with_redirect};
use std::{fmt, io};
use trees::Picture;

// The buses of the bus pair: `[01-04]`, `[01]`, and `[]` for a pair that claims nothing.
#[derive(Clone, Copy)]
struct Buses(Bridge);

impl fmt::Display for Buses {
    fn fmt<W: fmt::Write>(&self, f: &mut fmt::Formatter<W>) -> fmt::Result {
        let first = self.0.secondary;
        let last = self.0.subordinate;
        if last == 0 || last < first {
            return write!(f, "[]");
        }
        if first == last {
            return write!(f, "[{first:02x}]");
        }
        write!(f, "[{first:02x}-{last:02x}]")
    }
}

// `02:00.0-[03]  port 2, switch downstream port, device port`, then windows and vectors in use.
pub fn say_line(rt: &impl Print, picture: &Picture, p: PortNo) -> io::Result<()> {
    let s = picture.bytes;
    let port = port_at(s, p);
    let b = port.bridge;
    let f = port.fpb;
    print!(rt;
        "{}-{}  port {p}, {}",
        port.own_id,
        Buses(b),
        KindOf(port.kind)
    )?;
    let device_port = picture.is_device_port(p);
    if device_port {
        print!(rt; ", device port")?;
    }
    if with_ari(port) {
        print!(rt; ", ARI")?;
    }
    if device_port && with_redirect(port) {
        print!(rt; ", redirect")?;
    }
    say_windows(rt, b)?;
    for m in MECHANISMS {
        say_vector_in_use(rt, s, p, f, m)?;
    }
    println!(rt)
}
