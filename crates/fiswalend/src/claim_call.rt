// The claim call: the decoders of a port that claim a target, as bits.
ghost use Rattle.std.specs.Prelude.{◌≡◌, ◌≤◌};
ghost use Rattle.judge.specs.Claiming.{claim_answer};
ghost use Rattle.fiswalend.specs.Codes.{bit_of, decoder_bits};
ghost use Rattle.fiswalend.specs.Calls.{ClaimCall};

use chassis::Decoders;
use judge::claim;

// The weight of a bit that is set, else 0.
fn bit_of(claims: bool, weight: u32) -> u32
    ensures value { result ≡ bit_of claims weight }
    ensures upper_bound { result ≤ weight }
{
    if claims { weight } else { 0 }
}

// The decoders by their bits.
#[tactic(auto, unfolding(crate::specs::Codes::decoder_bits))]
fn decoder_bits(d: Decoders) -> u32
    ensures { result ≡ decoder_bits d }
{
    bit_of(d.bus, 1)
        + bit_of(d.rid, 2)
        + bit_of(d.mem, 4)
        + bit_of(d.pref, 8)
        + bit_of(d.low, 16)
        + bit_of(d.high, 32)
        + bit_of(d.vga, 64)
}

// The number, and where it is 0 the decoders of the port that claim the target.
pub fn fpb_claim(picture: &[u8], port: u32, kind: u32, target: u64, decoders: &mut u32) -> u32
    ensures { ClaimCall (claim_answer picture.now port kind target) decoders.old result decoders.new }
{
    match claim(picture, port, kind, target) {
        Err(r) => r.number() as u32,
        Ok(h) => {
            *decoders = decoder_bits(h.decoders);
            0
        }
    }
}
