// A call for the benchmarks (tools/bench.sh) alone: reading, which the controller's library does not export.
#![tactic(auto)]

ghost use Rattle.std.specs.Prelude.{◌≡◌};
ghost use Rattle.picture.specs.Reading.{reading};
ghost use Rattle.timing.specs.Codes.{reading_code};

use picture::{Header, Refusal};

// The number of a reading.
fn reading_code(got: Result<Header, Refusal>) -> u32
    ensures { result ≡ reading_code got }
{
    match got {
        Ok(_) => 0,
        Err(r) => r.number() as u32,
    }
}

// Reads a picture.
#[unsafe(no_mangle)]
pub extern "C" fn timing_read(picture: &[u8]) -> u32
    ensures { result ≡ reading_code (reading picture.now) }
{
    reading_code(picture::read(picture))
}
