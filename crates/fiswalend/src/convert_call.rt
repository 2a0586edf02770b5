// The conversion call: what a port makes of a configuration request, as a code.
ghost use Rattle.std.specs.Prelude.{◌≡◌};
ghost use Rattle.judge.specs.Converting.{convert_answer};
ghost use Rattle.fiswalend.specs.Codes.{conversion_code};
ghost use Rattle.fiswalend.specs.Calls.{ConvertCall};

use chassis::Conversion;
use judge::convert;

// What a port decides, by its code.
fn conversion_code(decided: Conversion) -> u32
    ensures { result ≡ conversion_code decided }
{
    decided as u32
}

// The number, and where it is 0 what the port decides.
pub fn fpb_convert(picture: &[u8], port: u32, target: u64, decided: &mut u32) -> u32
    ensures { ConvertCall (convert_answer picture.now port target) decided.old result decided.new }
{
    match convert(picture, port, target) {
        Err(r) => r.number() as u32,
        Ok(made) => {
            *decided = conversion_code(made);
            0
        }
    }
}
