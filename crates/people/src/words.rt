// Numbers of things in words.
use std::fmt;

// `1 byte`, `40 bytes`: a number of what this word names.
#[derive(Clone, Copy)]
pub struct Counted<'a>(pub usize, pub &'a str);

impl fmt::Display for Counted<'_> {
    fn fmt<W: fmt::Write>(&self, f: &mut fmt::Formatter<W>) -> fmt::Result {
        let number = self.0;
        let noun = self.1;
        let plural = if number == 1 { "" } else { "s" };
        write!(f, "{number} {noun}{plural}")
    }
}
