// The rows of a patch: the number and offset of each port that stands in it, and the row of a port.
ghost use Rattle.std.specs.Prelude.{◌≡◌, ◌<◌, ◌-◌, ◌^◌};
ghost use Rattle.patches.specs.Patch.{ports_in, row_at, port_in, offset_at};
ghost use Rattle.patches.specs.Halves.{halved, halved_to, row_sought};

use ids::PortNo;
use lent::u32_at;

// How many bytes come before the rows, and how many each row has.
const HEADER_BYTES: u64 = 8;

const ROW_BYTES: u64 = 8;

// How often 64 rows are halved until none is left.
const HALVINGS: u8 = 7;

// Rows that may be the one sought: from lo on, below hi.
#[derive(Clone, Copy)]
pub struct Rows {
    pub lo: u32,
    pub hi: u32,
}

// How many ports stand in a patch.
pub fn ports_in(patch: &[u8]) -> u32
    ensures { result ≡ ports_in patch.now }
{
    u32_at(patch, 0)
}

// Where row i starts; where the vectors start, if i is the count.
#[tactic(auto, unfolding(crate::specs::Patch::row_at))]
pub fn row_at(i: u32) -> u64
    ensures value { result ≡ row_at i }
    ensures upper_bound { result < 2 ^ 36 - 4 }
{
    HEADER_BYTES + ROW_BYTES * (i as u64)
}

// The port of row i.
#[tactic(auto, unfolding(crate::specs::Patch::port_in))]
pub fn port_in(patch: &[u8], i: u32) -> u32
    ensures { result ≡ port_in patch.now i }
{
    u32_at(patch, row_at(i) as usize)
}

// Where the vectors of row i start.
#[tactic(auto, unfolding(crate::specs::Patch::offset_at))]
pub fn offset_at(patch: &[u8], i: u32) -> u32
    ensures { result ≡ offset_at patch.now i }
{
    u32_at(patch, row_at(i) as usize + 4)
}

// The half of the rows that port p's row can be in: their ports rise.
#[tactic(auto, unfolding(crate::specs::Halves::halved))]
fn halve(patch: &[u8], p: PortNo, rows: Rows) -> Rows
    ensures { result ≡ halved patch.now p.0 rows }
{
    if rows.lo < rows.hi {
        let middle = ((rows.lo as u64 + rows.hi as u64) / 2) as u32;
        if port_in(patch, middle) < p.0 as u32 {
            return Rows {
                lo: middle + 1,
                hi: rows.hi,
            };
        }
        return Rows {
            lo: rows.lo,
            hi: middle,
        };
    }
    rows
}

// The rows that are left after as many halvings as 64 rows need.
#[tactic(auto, unfolding(crate::specs::Halves::halved_to))]
fn halve_all(patch: &[u8], p: PortNo) -> Rows
    ensures { result ≡ halved_to patch.now p.0 7 }
{
    let mut rows = Rows {
        lo: 0,
        hi: ports_in(patch),
    };
    for _halvings in 0..HALVINGS {
        rows = halve(patch, p, rows);
    }
    rows
}

// The row of port p, if it stands in the patch; of a patch that is refused, perhaps none where there is one.
#[tactic(auto, unfolding(crate::specs::Parts::is_row_of, crate::specs::Halves::row_sought))]
pub fn row_of(patch: &[u8], p: PortNo) -> Option<u32>
    ensures { result ≡ row_sought patch.now p.0 }
{
    let row = halve_all(patch, p).lo;
    if row < ports_in(patch) {
        if port_in(patch, row) == p.0 as u32 {
            return Some(row);
        }
    }
    None
}
