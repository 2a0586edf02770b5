// A port's vectors and memory windows in words.
use claims::{VIDEO_FIRST, VIDEO_LAST, base_of, memory_space_enabled, upper_of, vga_enabled};
use ids::{PortNo, Rid};
use registers::{Bridge, Fpb, Mechanism, enabled, settings};
use std::{fmt, io};
use vectors::is_set;

// The mechanisms in the order in which they are spoken of.
pub const MECHANISMS: [Mechanism; 3] = [Mechanism::Rid, Mechanism::Low, Mechanism::High];

// The name of a mechanism's vector.
#[derive(Clone, Copy)]
pub struct VectorName(pub Mechanism);

impl fmt::Display for VectorName {
    fn fmt<W: fmt::Write>(&self, f: &mut fmt::Formatter<W>) -> fmt::Result {
        f.write_str(match self.0 {
            Mechanism::Rid => "RID vector",
            Mechanism::Low => "MEM Low vector",
            Mechanism::High => "MEM High vector",
        })
    }
}

// Where a vector starts: `03:00.0`, `e0000000`.
#[derive(Clone, Copy)]
pub struct Start(pub Fpb, pub Mechanism);

impl fmt::Display for Start {
    fn fmt<W: fmt::Write>(&self, f: &mut fmt::Formatter<W>) -> fmt::Result {
        let start = settings(self.0, self.1).start;
        match self.1 {
            Mechanism::Rid => write!(f, "{}", Rid((start % 65536) as u16)),
            Mechanism::Low => write!(f, "{start:08x}"),
            Mechanism::High => write!(f, "{start:016x}"),
        }
    }
}

// What an entry of a vector stands for: `8 IDs`, `1 MiB`.
#[derive(Clone, Copy)]
pub struct Granule(pub Fpb, pub Mechanism);

impl fmt::Display for Granule {
    fn fmt<W: fmt::Write>(&self, f: &mut fmt::Formatter<W>) -> fmt::Result {
        let granule: u64 = 1 << settings(self.0, self.1).scale;
        match self.1 {
            Mechanism::Rid => write!(f, "{granule} IDs"),
            _ => write!(f, "{} MiB", granule / 1048576),
        }
    }
}

// How many of a vector's entries are set.
fn count_set(v: &[u8], size: u64) -> usize {
    (0..size).filter(|&i| is_set(v, i)).count()
}

// `; MEM Low vector 2 of 256 set, from e0000000 by 1 MiB`, if it is enabled.
pub fn say_vector_in_use(
    rt: &impl Print,
    s: &[u8],
    p: PortNo,
    f: Fpb,
    m: Mechanism,
) -> io::Result<()> {
    if !enabled(f, m) {
        return Ok(());
    }
    let size = settings(f, m).size;
    let count = count_set(picture::vector(s, p, m), size);
    print!(rt;
        "; {} {count} of {size} set, from {} by {}",
        VectorName(m),
        Start(f, m),
        Granule(f, m)
    )
}

// `; memory e0000000-efffffff`, unless the base is above the limit.
fn say_window(rt: &impl Print, name: &str, base: u64, limit: u64, width: usize) -> io::Result<()> {
    if limit < base {
        return Ok(());
    }
    print!(rt; "; {name} {base:0width$x}-{limit:0width$x}")
}

// The Prefetchable window: 16 digits if it is one of 64 bits, else 8.
fn say_prefetchable(rt: &impl Print, b: Bridge) -> io::Result<()> {
    let base = upper_of(b, b.prefetchable_base_upper) + base_of(b.prefetchable_base);
    let limit = upper_of(b, b.prefetchable_limit_upper) + (base_of(b.prefetchable_limit) + 1048575);
    let width = if b.prefetchable_base % 16 == 1 { 16 } else { 8 };
    say_window(rt, "prefetchable", base, limit, width)
}

// The windows and the video range in use, or that Memory Space Enable is off.
pub fn say_windows(rt: &impl Print, b: Bridge) -> io::Result<()> {
    if !memory_space_enabled(b) {
        return print!(rt; "; memory space off");
    }
    say_window(
        rt,
        "memory",
        base_of(b.memory_base),
        base_of(b.memory_limit) + 1048575,
        8,
    )?;
    say_prefetchable(rt, b)?;
    if vga_enabled(b) {
        say_window(rt, "video", VIDEO_FIRST, VIDEO_LAST, 8)?;
    }
    Ok(())
}
