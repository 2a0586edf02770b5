// Which of a port's registers break numbers 8 and 9: the rule itself is asked of the port with all others blank, and what must be zero is looked at.
use crate::settings::{Granule, MECHANISMS, Start, VectorName};
use ids::PortNo;
use registers::{
    Bridge, Fpb, Mechanism, Port, enabled, granularity_code, port_at, settings_wrong, size_code,
    start_wrong, supported, with_ari,
};
use std::io;

// Capabilities with at most one of the Supported bits.
fn one_supported(capabilities: u32, m: Mechanism) -> u32 {
    let others = capabilities / 8 * 8;
    match m {
        Mechanism::Rid => others + capabilities % 2,
        Mechanism::Low => others + capabilities / 2 % 2 * 2,
        Mechanism::High => others + capabilities / 4 % 2 * 4,
    }
}

// One mechanism's registers, the others blank.
fn one_mechanism(f: Fpb, m: Mechanism) -> Fpb {
    let blank = Fpb {
        capabilities: one_supported(f.capabilities, m),
        ..Fpb::default()
    };
    match m {
        Mechanism::Rid => Fpb {
            rid_control_1: f.rid_control_1,
            ..blank
        },
        Mechanism::Low => Fpb {
            mem_low_control: f.mem_low_control,
            ..blank
        },
        Mechanism::High => Fpb {
            mem_high_control_1: f.mem_high_control_1,
            mem_high_control_2: f.mem_high_control_2,
            ..blank
        },
    }
}

// A port with one mechanism alone.
fn with_mechanism(port: Port, m: Mechanism) -> Port {
    Port {
        bridge: Bridge::default(),
        fpb: one_mechanism(port.fpb, m),
        zeros: 0,
        ..port
    }
}

// A port with its Type 1 header alone.
fn with_bridge(port: Port) -> Port {
    Port {
        fpb: Fpb::default(),
        zeros: 0,
        ..port
    }
}

// Why a mechanism may break number 8: it is not supported, or the codes of its size and granularity.
fn say_codes(rt: &impl Print, f: Fpb, m: Mechanism) -> io::Result<()> {
    if !supported(f, m) {
        return print!(rt; " is enabled but not supported");
    }
    print!(rt; " has size code {}", size_code(f, m))?;
    if enabled(f, m) {
        print!(rt; " and granularity code {}", granularity_code(f, m))?;
    }
    Ok(())
}

// `; its RID vector has size code 1`, if this mechanism breaks number 8.
fn say_if_settings_wrong(rt: &impl Print, port: Port, m: Mechanism) -> io::Result<()> {
    if !settings_wrong(with_mechanism(port, m)) {
        return Ok(());
    }
    print!(rt; "; its {}", VectorName(m))?;
    say_codes(rt, port.fpb, m)
}

// The memory registers, if they break number 8.
fn say_if_memory_wrong(rt: &impl Print, port: Port) -> io::Result<()> {
    if !settings_wrong(with_bridge(port)) {
        return Ok(());
    }
    let b = port.bridge;
    print!(rt;
        "; it has Memory Base {:04x} and Limit {:04x}",
        b.memory_base, b.memory_limit
    )?;
    print!(rt;
        ", Prefetchable Memory Base {:04x} and Limit {:04x}",
        b.prefetchable_base, b.prefetchable_limit
    )
}

// The two bytes that must be zero, if they are not.
fn say_if_zeros_wrong(rt: &impl Print, port: Port) -> io::Result<()> {
    if port.zeros == 0 {
        return Ok(());
    }
    print!(rt;
        "; the two bytes after its ACS Control hold {:04x}",
        port.zeros
    )
}

// What in a port breaks number 8.
pub fn say_wrong_settings(rt: &impl Print, s: &[u8], p: PortNo) -> io::Result<()> {
    let port = port_at(s, p);
    for m in MECHANISMS {
        say_if_settings_wrong(rt, port, m)?;
    }
    say_if_memory_wrong(rt, port)?;
    say_if_zeros_wrong(rt, port)
}

// `; its MEM Low vector starts at 00800000 and has entries of 16 MiB`, if this mechanism breaks number 9; for a RID vector also that
// the port has ARI, which its start depends on.
fn say_if_start_wrong(rt: &impl Print, port: Port, m: Mechanism) -> io::Result<()> {
    if !start_wrong(with_mechanism(port, m)) {
        return Ok(());
    }
    let f = port.fpb;
    print!(rt; "; its {} starts at {}", VectorName(m), Start(f, m))?;
    print!(rt; " and has entries of {}", Granule(f, m))?;
    if matches!(m, Mechanism::Rid) && with_ari(port) {
        print!(rt; ", in a port with ARI")?;
    }
    Ok(())
}

// Which vectors of a port break number 9.
pub fn say_wrong_starts(rt: &impl Print, s: &[u8], p: PortNo) -> io::Result<()> {
    let port = port_at(s, p);
    for m in MECHANISMS {
        say_if_start_wrong(rt, port, m)?;
    }
    Ok(())
}
