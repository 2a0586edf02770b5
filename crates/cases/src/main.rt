// The settled examples C1 to C12, run against the code: a line for each case with what the code answers.
#![tactic(auto)]

mod given;
mod print;

use given::{chain_with, entry_of, fpb_of, memory_of};
use print::{Answer, Entry, FunctionOf, claimed};
use registers::{Bridge, Mechanism};
use std::io;

// C1 to C4.
fn rid_vectors(rt: &impl Print) -> io::Result<()> {
    let first = fpb_of(0x1, 0, 0, 0);
    println!(rt; "C1 {}", Entry(entry_of(first, Mechanism::Rid, 2047)))?;
    println!(rt; "C2 {}", Entry(entry_of(first, Mechanism::Rid, 2048)))?;
    let second = fpb_of(0x1000031, 0, 0, 0);
    println!(rt; "C3 {}", Entry(entry_of(second, Mechanism::Rid, 255)))?;
    let below = Entry(entry_of(second, Mechanism::Rid, 319));
    let above = Entry(entry_of(second, Mechanism::Rid, 320));
    println!(rt; "C4 {below} {above}")
}

// C5 to C7.
fn memory_vectors(rt: &impl Print) -> io::Result<()> {
    let low = fpb_of(0, 0x80000041, 0, 0);
    println!(rt; "C5 {}", Entry(entry_of(low, Mechanism::Low, 0xFFFFFFFF)))?;
    let all_set = [255u8; 32];
    println!(rt;
        "C6 {}",
        claimed(claims::low_claims(low, &all_set, 0x100000000))
    )?;
    let high = fpb_of(0, 0, 1, 1);
    println!(rt;
        "C7 {}",
        Entry(entry_of(high, Mechanism::High, 0x110000000))
    )
}

// A line for a case of a memory window, with whether it claims each of these addresses.
fn print_window(rt: &impl Print, case: &str, b: Bridge, addresses: &[u64]) -> io::Result<()> {
    rt.print(case)?;
    for &a in addresses {
        print!(rt; " {}", claimed(claims::memory_claims(b, a)))?;
    }
    println!(rt)
}

// C8 and C9: a base above the limit, and the first MiB.
fn memory_windows(rt: &impl Print) -> io::Result<()> {
    let nothing = [0xE0000000, 0xE00FFFFF, 0xE0100000, 0xE01FFFFF];
    print_window(rt, "C8", memory_of(0xE010, 0xE000), &nothing)?;
    let around_the_first_mib = [0, 0xFFFFF, 0x100000];
    print_window(rt, "C9", memory_of(0, 0), &around_the_first_mib)
}

// C10 and C12 without ARI; C11 with it, and the Function at which the host's request ends.
fn conversions(rt: &impl Print) -> io::Result<()> {
    let plain = chain_with(0);
    let with_ari = chain_with(32);
    println!(rt; "C10 {}", Answer(judge::convert(&plain, 2, 0x0308)))?;
    let function = FunctionOf(judge::walk(&with_ari, 2, 255, 0x0308));
    println!(rt;
        "C11 {}{function}",
        Answer(judge::convert(&with_ari, 2, 0x0308))
    )?;
    println!(rt; "C12 {}", Answer(judge::convert(&plain, 2, 0x0400)))
}

fn main(rt: HostRuntime) -> io::Result<()> {
    rid_vectors(&rt)?;
    memory_vectors(&rt)?;
    memory_windows(&rt)?;
    conversions(&rt)
}
