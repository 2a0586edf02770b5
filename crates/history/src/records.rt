// One record of the changes lent.
ghost use Rattle.std.specs.Prelude.{◌≡◌, ◌<◌, length};
ghost use Rattle.changes.specs.Versions.{change_at};

use changes::Change;

// The record at i.
#[tactic(auto, unfolding(changes::specs::Versions::change_at))]
pub fn record_at(changes: &[Change], i: usize) -> Change
    requires { i < length changes.now }
    ensures { result ≡ change_at changes.now i }
{
    changes[i]
}
