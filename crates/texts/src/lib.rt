// What the programs print: each text is a function of the answer, built up piece by piece and written at once.
#![tactic(auto)]

mod holds;
mod report;
mod walks;

ghost use Rattle.std.specs.Prelude.{◌≡◌, cond, [], ◌∷◌, ◌^◌, ◌≤◌, ◌<◌};
ghost use Rattle.io.specs.Digits.{last_digits};
ghost use Rattle.texts.specs.Texts.{text_of, appended, decimal};
ghost use Rattle.texts.specs.Lines.{spaced};

pub use holds::holder_text;
use ids::PortNo;
pub use report::{refused_text, report_text};
use std::io::Error;
pub use walks::walk_text;

// At most 192 bytes; what does not fit is left out.
#[derive(Clone, Copy)]
pub struct Text {
    pub bytes: [u8; 192],
    pub length: usize,
}

impl Text {
    // No text yet.
    #[tactic(auto, unfolding(crate::specs::Texts::text_of))]
    pub fn new() -> Text
        ensures { result ≡ text_of [] }
    {
        Text {
            bytes: [0; 192],
            length: 0,
        }
    }

    // The text with a byte behind it, where there is room.
    #[tactic(auto, unfolding(crate::specs::Texts::appended, crate::specs::Texts::with_byte))]
    fn with_byte(mut self, b: u8) -> Text
        ensures { result ≡ appended self (b ∷ []) }
    {
        let at = self.length;
        if at < 192 {
            self.bytes[at] = b;
            self.length = at + 1;
        }
        self
    }

    // The text with more behind it.
    pub fn with(self, more: &[u8]) -> Text
        ensures { result ≡ appended self more.now }
    {
        more.iter().fold(self, |text, &b| text.with_byte(b))
    }

    // The text with a word behind it, where it applies.
    #[tactic(auto, unfolding(crate::specs::Texts::appended))]
    fn with_if(self, applies: bool, word: &[u8]) -> Text
        ensures { result ≡ appended self (cond applies word.now []) }
    {
        if applies { self.with(word) } else { self }
    }

    // The text with a decimal number behind it.
    #[tactic(auto, using(crate::proofs::Laws::decimal_is))]
    pub fn with_decimal(self, n: u64) -> Text
        ensures { result ≡ appended self (decimal n) }
    {
        let mut digits = [0u8; 20];
        let k = io::decimal(n, &mut digits);
        self.with(&digits[..k])
    }

    // The text with a hexadecimal number behind it, in so many digits.
    #[tactic(auto, using(crate::proofs::Laws::hex_is))]
    pub fn with_hex(self, n: u64, width: usize) -> Text
        requires width_nonzero { 0 < width }
        requires width_bound { width ≤ 16 }
        requires n_bound { n < 16 ^ width }
        ensures { result ≡ appended self (last_digits 16 width n) }
    {
        let mut digits = [0u8; 16];
        let k = io::hex(n, width, &mut digits);
        self.with(&digits[..k])
    }

    // The text with a number after a space.
    #[tactic(auto, using(crate::proofs::Laws::behind), unfolding(crate::specs::Texts::ascii, crate::specs::Lines::spaced))]
    fn with_number(self, n: u64) -> Text
        ensures { result ≡ appended self (spaced n) }
    {
        self.with(b" ").with_decimal(n)
    }

    // The text with a port's number after a space.
    fn with_port(self, p: PortNo) -> Text
        ensures { result ≡ appended self (spaced p.0) }
    {
        self.with_number(p.0 as u64)
    }

    // Writes the text to standard output.
    pub fn print(self, rt: &impl Print) -> Result<(), Error> {
        let bytes = self.bytes;
        rt.write_all(lent::part(&bytes, 0, self.length))
    }
}
