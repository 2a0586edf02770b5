// A change made in lent bytes, and what a byte is before and after one.
ghost use Rattle.std.specs.Prelude.{◌≡◌, ◌+◌, ◌*◌};
ghost use Rattle.changes.specs.Change.{byte_named};
ghost use Rattle.changes.specs.Versions.{made};
ghost use Rattle.changes.specs.Adding.{byte_at};
ghost use Rattle.changes.specs.Looking.{same_byte, held_after};

use crate::Change;
use crate::places::byte_named;
use trees::Picture;

// The byte that a change names, as the first picture has it.
pub fn first_byte(first: &Picture, c: Change) -> u8
    ensures { result ≡ byte_at (byte_named first.now.bytes.now c) first.now.bytes.now }
{
    match byte_named(first, c) {
        Some(x) => lent::u8_at(first.bytes, x as usize),
        None => 0,
    }
}

// Port and part of a change as one number, which the machine compares at once.
fn owner(c: Change) -> u64
    ensures { result ≡ c.port + 4294967296 * c.part }
{
    c.port as u64 + 4294967296 * (c.part as u64)
}

// Whether two changes name the same byte.
#[tactic(auto, using(crate::proofs::Owners::same_owner))]
pub fn same_byte(done: Change, c: Change) -> bool
    ensures { result ≡ same_byte done c }
{
    (owner(done) == owner(c)) & (done.at == c.at)
}

// What the byte that c names is after a change was made, if it was `held` before.
#[tactic(auto, unfolding(crate::specs::Looking::held_after))]
pub fn held_after(done: Change, c: Change, held: u8) -> u8
    ensures { result ≡ held_after done c held }
{
    if same_byte(done, c) {
        done.new_byte
    } else {
        held
    }
}

// Makes a change.
#[tactic(auto, unfolding(crate::specs::Versions::made))]
pub fn make_change(first: &Picture, out: &mut [u8], c: Change)
    ensures { out.new ≡ made first.now.bytes.now c out.old }
{
    let named = byte_named(first, c);
    let Some(x) = named else {
        return;
    };
    let at = x as usize;
    if at < out.len() {
        out[at] = c.new_byte;
    }
}
