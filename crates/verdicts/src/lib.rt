// The check's verdict: the rows of the table one after the other, each with its least target and the ports that it names.
#![tactic(auto)]

ghost use Rattle.std.specs.Prelude.{◌≡◌, ◌<◌};
ghost use Rattle.least.specs.Least.{first_in};
ghost use Rattle.chassis.specs.Chassis.{target_in, space_size};
ghost use Rattle.chassis.specs.Check.{own_id_lost, faulty, least_target, verdict_at, at_least, lost_at, row_of, or_next, verdict_of};
ghost use Rattle.claims.specs.Over.{chassis_in};

use chassis::{Fault, Row, Verdict};
use claims::hold_of;
use culprits::{first_pair, lowest_port, own_id_lost, strays_at, taken_at};
use ids::{Rid, Space, Target};
use overlaps::least_fault;
use patches::PatchedPicture;

// The target of a space by its number.
fn target_in(space: Space, t: u64) -> Target
    requires { t < space_size space }
    ensures { result ≡ target_in space t }
{
    match space {
        Space::Ids => Target::Id(Rid(t as u16)),
        Space::Addresses => Target::Addr(t),
    }
}

// What a faulty target shows: the first pair at it, or the lowest port, each with its hold on it.
#[tactic(auto, unfolding(culprits::specs::Culprits::pair_at))]
fn verdict_at(over: &PatchedPicture, fault: Fault, t: Target) -> Verdict
    ensures { result ≡ verdict_at (chassis_in over.now) fault t }
{
    match fault {
        Fault::Shared => {
            let pair = first_pair(over, t);
            let first = hold_of(over.picture.bytes, over.patch, pair.first, t);
            let second = hold_of(over.picture.bytes, over.patch, pair.second, t);
            Verdict::Shared(t, first, second)
        }
        Fault::Stray => {
            let port = lowest_port(&over.picture, |p| strays_at(over, t, p));
            Verdict::Stray(t, hold_of(over.picture.bytes, over.patch, port, t))
        }
        Fault::Taken => {
            let port = lowest_port(&over.picture, |p| taken_at(over, t, p));
            Verdict::Taken(t, hold_of(over.picture.bytes, over.patch, port, t))
        }
    }
}

// Numbers 11 to 14 and 18: a fault at the least target of a space.
#[tactic(auto, using(crate::proofs::Laws::target_below))]
fn fault_in(over: &PatchedPicture, fault: Fault, space: Space) -> Verdict
    ensures { result ≡ at_least (chassis_in over.now) fault space (least_target (faulty fault (chassis_in over.now)) space) }
{
    match least_fault(over, fault, space) {
        Some(t) => verdict_at(over, fault, target_in(space, t)),
        None => Verdict::Clear,
    }
}

// Number 15.
#[tactic(auto, using(crate::proofs::Laws::lost_some, crate::proofs::Laws::lost_none))]
fn lost_id(over: &PatchedPicture) -> Verdict
    ensures { result ≡ lost_at (first_in (own_id_lost (chassis_in over.now)) 0 over.now.picture.count) }
{
    match chassis::lowest(over.picture.count, |p| own_id_lost(over, p)) {
        Some(p) => Verdict::Lost(p),
        None => Verdict::Clear,
    }
}

// What a row of the table finds, whatever the other rows find.
#[tactic(auto, unfolding(chassis::specs::Check::row_of))]
pub fn of_row(over: &PatchedPicture, row: Row) -> Verdict
    ensures { result ≡ row_of (chassis_in over.now) row }
{
    match row {
        Row::At(fault, space) => fault_in(over, fault, space),
        Row::Lost => lost_id(over),
    }
}

// The verdict of the rows before, or what the next row finds, which is looked for only where they are clear.
#[tactic(auto, unfolding(chassis::specs::Check::or_next))]
fn or_row(over: &PatchedPicture, before: Verdict, next: Row) -> Verdict
    ensures { result ≡ or_next before (row_of (chassis_in over.now) next) }
{
    match before {
        Verdict::Clear => of_row(over, next),
        found => found,
    }
}

// The first row that is not clear.
#[tactic(auto, using(crate::proofs::Laws::rows_chained), unfolding(chassis::specs::Check::verdict_of))]
pub fn verdict(over: &PatchedPicture) -> Verdict
    ensures { result ≡ verdict_of (chassis_in over.now) }
{
    let shared_id = of_row(over, Row::At(Fault::Shared, Space::Ids));
    let shared = or_row(over, shared_id, Row::At(Fault::Shared, Space::Addresses));
    let stray_id = or_row(over, shared, Row::At(Fault::Stray, Space::Ids));
    let stray = or_row(over, stray_id, Row::At(Fault::Stray, Space::Addresses));
    let lost = or_row(over, stray, Row::Lost);
    or_row(over, lost, Row::At(Fault::Taken, Space::Ids))
}
