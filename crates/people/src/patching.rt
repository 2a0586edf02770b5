// What is wrong with a patch: the particulars of numbers 30 to 32.
use crate::ports::InTree;
use crate::words::Counted;
use ids::PortNo;
use lent::{u16_at, u32_at};
use patches::{offset_at, port_in, port_misplaced, ports_in, row_at};
use picture::all_bytes;
use registers::port_at;
use std::io;

// Number 30; of a longer patch the first 131,073 bytes are judged.
pub fn say_misfit(rt: &impl Print, patch: &[u8]) -> io::Result<()> {
    let length = Counted(patch.len(), "byte");
    if patch.len() < 8 {
        return print!(rt; ": it has {length}");
    }
    let total = Counted(u32_at(patch, 4) as usize, "byte");
    let ports = Counted(ports_in(patch) as usize, "port");
    print!(rt; ": its header says {total} and {ports}, and it has ")?;
    if 131072 < patch.len() {
        return print!(rt; "more than 131,072 bytes");
    }
    print!(rt; "{length}")
}

// Number 31 at row i.
fn say_port_at(rt: &impl Print, patch: &[u8], n: u8, i: u32) -> io::Result<()> {
    let port = port_in(patch, i);
    if n as u32 <= port {
        let ports = Counted(n as usize, "port");
        return print!(rt; ": port {port} stands in it, and the picture has {ports}");
    }
    print!(rt; ": port {port} stands behind port ")?;
    if 0 < i {
        print!(rt; "{}", port_in(patch, i - 1))?;
    }
    Ok(())
}

// Number 31, at the first row that is wrong.
pub fn say_misplaced_port(rt: &impl Print, s: &[u8], patch: &[u8]) -> io::Result<()> {
    let n = (u16_at(s, 2) % 256) as u8;
    match (0..ports_in(patch)).find(|&i| port_misplaced(patch, n, i)) {
        None => Ok(()),
        Some(i) => say_port_at(rt, patch, n, i),
    }
}

// Number 32, at the first row whose vectors start elsewhere than at the running offset, or at their end.
pub fn say_misplaced_vectors(rt: &impl Print, s: &[u8], patch: &[u8]) -> io::Result<()> {
    let count = ports_in(patch);
    let mut running: u64 = row_at(count);
    for i in 0..count {
        let p = PortNo((port_in(patch, i) % 256) as u8);
        let offset = offset_at(patch, i);
        if offset as u64 != running {
            return print!(rt;
                ": those of {} begin at byte {offset}, and not at {running}",
                InTree(s, p)
            );
        }
        running += all_bytes(port_at(s, p).fpb);
    }
    print!(rt;
        ": they end at byte {running}, and the patch has {}",
        Counted(patch.len(), "byte")
    )
}
