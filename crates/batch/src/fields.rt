// The fields of a record, taken from standard input one after the other; past its end they are zeros.
use std::io;
use std::io::Read;

// The next N bytes.
fn take<const N: usize>(from: &mut impl Read) -> io::Result<[u8; N]> {
    let mut bytes = [0u8; N];
    inputs::read_full(from, &mut bytes)?;
    Ok(bytes)
}

// The letter of the next record, 0 at the end.
pub fn take_letter(from: &mut impl Read) -> io::Result<u8> {
    let [letter] = take::<1>(from)?;
    Ok(letter)
}

pub fn take_u32(from: &mut impl Read) -> io::Result<u32> {
    Ok(u32::from_le_bytes(take(from)?))
}

pub fn take_u64(from: &mut impl Read) -> io::Result<u64> {
    Ok(u64::from_le_bytes(take(from)?))
}

// Takes so many bytes that nobody looks at.
pub fn skip(from: &mut impl Read, n: usize) -> io::Result<()> {
    for _ in 0..n {
        take_letter(from)?;
    }
    Ok(())
}
