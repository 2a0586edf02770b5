// What the code answers, in words.
use chassis::{Conversion, End};
use picture::Refusal;
use routes::Walked;
use std::fmt;

// The entry that applies, or that none does.
#[derive(Clone, Copy)]
pub struct Entry(pub Option<u64>);

impl fmt::Display for Entry {
    fn fmt<W: fmt::Write>(&self, f: &mut fmt::Formatter<W>) -> fmt::Result {
        match self.0 {
            Some(i) => write!(f, "entry {i}"),
            None => write!(f, "no entry"),
        }
    }
}

// Whether a decoder claims.
pub fn claimed(claims: bool) -> &'static str {
    if claims { "claimed" } else { "not claimed" }
}

// What a port decides, in the words of the paper.
fn decided(made: Conversion) -> &'static str {
    match made {
        Conversion::NotClaimed => "not claimed",
        Conversion::Type0 => "Type 0",
        Conversion::Type1 => "Type 1",
        Conversion::Unsupported => "Unsupported Request",
    }
}

// What the conversion call answers.
#[derive(Clone, Copy)]
pub struct Answer(pub Result<Conversion, Refusal>);

impl fmt::Display for Answer {
    fn fmt<W: fmt::Write>(&self, f: &mut fmt::Formatter<W>) -> fmt::Result {
        match self.0 {
            Err(r) => write!(f, "refused {}", r.number()),
            Ok(made) => write!(f, "{}", decided(made)),
        }
    }
}

// The Function number of a configuration request that ends at a device; nothing of any other walk.
#[derive(Clone, Copy)]
pub struct FunctionOf(pub Result<Walked, Refusal>);

impl fmt::Display for FunctionOf {
    fn fmt<W: fmt::Write>(&self, f: &mut fmt::Formatter<W>) -> fmt::Result {
        match self.0 {
            Ok(
                Walked {
                    end: End::Device(_, number),
                    ..
                },
            ) => write!(f, " Function {number}"),
            _ => Ok(()),
        }
    }
}
