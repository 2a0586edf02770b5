// The rules of the walk: what a packet does next.
ghost use Rattle.std.specs.Prelude.{ℕ, List, ◌≡◌};
ghost use Rattle.chassis.specs.Tree.{root};
ghost use Rattle.chassis.specs.Walk.{target_of, function_number, decided, sole_holder, device_or, come_to, next};
ghost use Rattle.chassis.specs.Walk.{downward as Walk·downward, upward as Walk·upward, from_below, towards_root, under_type0, under_type1, at_place};
ghost use Rattle.claims.specs.Over.{chassis_over, chassis_in};

use chassis::{Conversion, End, Holders, Packet, Step, Whereabouts};
use holders::lowest_at;
use ids::{PortNo, Target};
use patches::PatchedPicture;
use trees::Picture;

// What a packet is sent to.
fn target_of(packet: Packet) -> Target
    ensures { result ≡ target_of packet }
{
    match packet {
        Packet::Plain(t) => t,
        Packet::Config(rid) => Target::Id(rid),
    }
}

// The Function number of a configuration request that ends at a port's device, whatever the patch.
#[tactic(auto, unfolding(chassis::specs::Walk::function_number))]
fn function_number(s: &[u8], q: PortNo, t: Target) -> u8
    ensures { (patch : List ℕ) → result ≡ function_number (chassis_over s.now patch) q.0 t }
{
    let Target::Id(rid) = t else {
        return 0;
    };
    if claims::with_ari_at(s, q) {
        (rid.0 % 256) as u8
    } else {
        rid.function()
    }
}

// A port about to be crossed by a configuration request decides.
#[tactic(auto, unfolding(chassis::specs::Walk::decided))]
fn decide(p: PortNo, conversion: Conversion) -> Step
    ensures { result ≡ decided p conversion }
{
    match conversion {
        Conversion::Type0 => Step::Cross(p, Whereabouts::Type0(p)),
        Conversion::Type1 => Step::Cross(p, Whereabouts::Type1(p)),
        Conversion::Unsupported => Step::Stop(End::Unsupported(p)),
        Conversion::NotClaimed => Step::Stop(End::Unsupported(p)),
    }
}

// Crossing a port downward.
#[tactic(auto, unfolding(chassis::specs::Walk::downward))]
fn downward(over: &PatchedPicture, packet: Packet, p: PortNo) -> Step
    ensures { result ≡ Walk·downward (chassis_in over.now) packet p }
{
    match packet {
        Packet::Plain(_) => Step::Cross(p, Whereabouts::Into(p)),
        Packet::Config(rid) => decide(p, claims::conversion(over, p, Target::Id(rid))),
    }
}

// Rule 2.
#[tactic(auto, unfolding(chassis::specs::Walk::sole_holder))]
fn sole_holder(over: &PatchedPicture, packet: Packet, p: PortNo) -> Step
    ensures { result ≡ sole_holder (chassis_in over.now) packet p }
{
    if claims::is_own(over.picture.bytes, p, target_of(packet)) {
        return Step::Stop(End::Function(p));
    }
    downward(over, packet, p)
}

// Rule 4, and what Type 0 comes to where no own ID is the target, whatever the patch.
#[tactic(auto, unfolding(chassis::specs::Walk::device_or))]
fn device_or(picture: &Picture, q: PortNo, function: u8) -> Step
    ensures { (patch : List ℕ) → result ≡ device_or (chassis_over picture.now.bytes.now patch) q function }
{
    if picture.is_device_port(q) {
        Step::Stop(End::Device(q, function))
    } else {
        Step::Stop(End::Unsupported(q))
    }
}

// Where a packet is that started at a place, or crossed a port upward to it.
#[tactic(auto, unfolding(chassis::specs::Walk::come_to))]
pub fn come_to(redirected: bool, place: PortNo) -> Whereabouts
    ensures { result ≡ come_to redirected place.0 }
{
    if place == PortNo::ROOT {
        return Whereabouts::Root;
    }
    if redirected {
        return Whereabouts::Redirected(place);
    }
    Whereabouts::From(place)
}

// Rule 5.
#[tactic(auto, unfolding(chassis::specs::Walk::upward))]
fn upward(over: &PatchedPicture, t: Target, q: PortNo) -> Step
    ensures { result ≡ Walk·upward (chassis_in over.now) t q }
{
    if claims::claims(over, q, t) {
        Step::Stop(End::Unsupported(q))
    } else {
        Step::Cross(
            q,
            come_to(false, registers::parent_at(over.picture.bytes, q)),
        )
    }
}

// At the root: rules 1 to 3.
#[tactic(auto, unfolding(chassis::specs::Walk::by_holders))]
fn at_root(over: &PatchedPicture, packet: Packet) -> Step
    ensures { result ≡ at_place (chassis_in over.now) packet root (Step.Stop End.Host) }
{
    let t = target_of(packet);
    match lowest_at(&over.picture, PortNo::ROOT, |p| claims::holds(over, p, t)) {
        Holders::Nobody => Step::Stop(End::Host),
        Holders::Only(p) => sole_holder(over, packet, p),
        Holders::Both(p, q) => Step::Stop(End::Doubled(p, q)),
    }
}

// Below a port, come from above: rules 1, 2 and 4.
#[tactic(auto, unfolding(chassis::specs::Walk::by_holders))]
fn from_above(over: &PatchedPicture, packet: Packet, q: PortNo) -> Step
    ensures { result ≡ at_place (chassis_in over.now) packet q.0 (device_or (chassis_in over.now) q 0) }
{
    let t = target_of(packet);
    match lowest_at(&over.picture, q, |p| claims::holds(over, p, t)) {
        Holders::Nobody => device_or(&over.picture, q, 0),
        Holders::Only(p) => sole_holder(over, packet, p),
        Holders::Both(p, r) => Step::Stop(End::Doubled(p, r)),
    }
}

// Below a port, started or come from below: rules 1, 2 and 5.
#[tactic(auto, unfolding(chassis::specs::Walk::by_holders, chassis::specs::Walk::from_below))]
fn from_below(over: &PatchedPicture, packet: Packet, q: PortNo) -> Step
    ensures { result ≡ from_below (chassis_in over.now) packet q }
{
    let Packet::Plain(t) = packet else {
        return Step::Stop(End::Unsupported(q));
    };
    match lowest_at(&over.picture, q, |p| claims::holds(over, p, t)) {
        Holders::Nobody => upward(over, t, q),
        Holders::Only(p) => sole_holder(over, packet, p),
        Holders::Both(p, r) => Step::Stop(End::Doubled(p, r)),
    }
}

// Redirected: the port is crossed upward, whatever it claims, whatever the ports below it hold and whatever the patch.
#[tactic(auto, unfolding(chassis::specs::Walk::towards_root))]
fn towards_root(s: &[u8], q: PortNo) -> Step
    ensures { (patch : List ℕ) → result ≡ towards_root (chassis_over s.now patch) q }
{
    Step::Cross(q, come_to(true, registers::parent_at(s, q)))
}

// Below a port that made the request Type 0: own IDs alone are looked at.
#[tactic(auto, unfolding(chassis::specs::Walk::by_holders, chassis::specs::Walk::under_type0))]
fn under_type0(over: &PatchedPicture, t: Target, q: PortNo) -> Step
    ensures { result ≡ under_type0 (chassis_in over.now) t q }
{
    match lowest_at(
        &over.picture,
        q,
        |p| claims::is_own(over.picture.bytes, p, t),
    ) {
        Holders::Nobody => device_or(&over.picture, q, function_number(over.picture.bytes, q, t)),
        Holders::Only(p) => Step::Stop(End::Function(p)),
        Holders::Both(p, r) => Step::Stop(End::Doubled(p, r)),
    }
}

// Below a port that passed the request on as Type 1: claims alone are looked at.
#[tactic(auto, unfolding(chassis::specs::Walk::by_holders, chassis::specs::Walk::under_type1))]
fn under_type1(over: &PatchedPicture, t: Target, q: PortNo) -> Step
    ensures { result ≡ under_type1 (chassis_in over.now) t q }
{
    match lowest_at(&over.picture, q, |p| claims::claims(over, p, t)) {
        Holders::Nobody => Step::Stop(End::Unsupported(q)),
        Holders::Only(p) => decide(p, claims::conversion(over, p, t)),
        Holders::Both(p, r) => Step::Stop(End::Doubled(p, r)),
    }
}

// What a packet does next.
#[tactic(auto, unfolding(chassis::specs::Walk::next))]
pub fn step(over: &PatchedPicture, packet: Packet, whereabouts: Whereabouts) -> Step
    ensures { result ≡ next (chassis_in over.now) packet whereabouts }
{
    match whereabouts {
        Whereabouts::Root => at_root(over, packet),
        Whereabouts::Into(q) => from_above(over, packet, q),
        Whereabouts::From(q) => from_below(over, packet, q),
        Whereabouts::Redirected(q) => towards_root(over.picture.bytes, q),
        Whereabouts::Type0(q) => under_type0(over, target_of(packet), q),
        Whereabouts::Type1(q) => under_type1(over, target_of(packet), q),
    }
}
