// How a port holds a target: as its own ID, and through its decoders.
use crate::ports::InTree;
use chassis::Hold;
use std::fmt;

// ` as its own ID and through its RID vector`: each way that applies.
#[derive(Clone, Copy)]
pub struct Ways(pub Hold);

impl fmt::Display for Ways {
    fn fmt<W: fmt::Write>(&self, f: &mut fmt::Formatter<W>) -> fmt::Result {
        let hold = self.0;
        let by = hold.decoders;
        let ways = [
            (hold.own, "as its own ID"),
            (by.bus, "through its bus range"),
            (by.rid, "through its RID vector"),
            (by.mem, "through its memory window"),
            (by.pref, "through its prefetchable window"),
            (by.low, "through its MEM Low vector"),
            (by.high, "through its MEM High vector"),
            (by.vga, "through its video range"),
        ];
        let mut said = false;
        for (applies, way) in ways {
            if applies {
                let before = if said { " and " } else { " " };
                write!(f, "{before}{way}")?;
                said = true;
            }
        }
        Ok(())
    }
}

// `port 3 (..) as its own ID and through its RID vector`, in this picture.
#[derive(Clone, Copy)]
pub struct Holder<'a>(pub &'a [u8], pub Hold);

impl fmt::Display for Holder<'_> {
    fn fmt<W: fmt::Write>(&self, f: &mut fmt::Formatter<W>) -> fmt::Result {
        let hold = self.1;
        write!(f, "{}{}", InTree(self.0, hold.port), Ways(hold))
    }
}
