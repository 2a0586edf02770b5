// The call that winds a history back.
ghost use Rattle.fiswalend.specs.History.{WindBackCall};

use changes::wind_back;

// Winds back to version k: the changes behind it are dropped, and the next run stands in their room.
pub fn fpb_history_wind_back(kept: u32, k: u32, now_kept: &mut u32) -> u32
    ensures { WindBackCall kept k now_kept.old result now_kept.new }
{
    match wind_back(kept, k) {
        Err(r) => r.number(),
        Ok(_) => {
            *now_kept = k;
            0
        }
    }
}
