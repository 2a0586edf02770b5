// The walk call: where a packet goes, from the host or from a device port.
ghost use Rattle.std.specs.Prelude.{false, ◌≡◌, ◌<◌};
ghost use Rattle.chassis.proofs.Tree.{Sane};
ghost use Rattle.trees.specs.Trees.{tree_of};
ghost use Rattle.claims.specs.Over.{chassis_in};
ghost use Rattle.judge.specs.Asking.{id_too_large};
ghost use Rattle.judge.specs.Walking.{packet_of, is_start, asked_wrongly, AskedGives, WalkGives};

use crate::asking::{id_too_large, target_asked};
use chassis::Packet;
use ids::{PortNo, Rid};
use patches::PatchedPicture;
use picture::Refusal;
use routes::Walked;
use trees::Picture;

// The start of a packet that comes from the host.
const ROOT_START: u32 = 255;

// The packet of a kind, 0 to 2, for a target that is no ID over FFFFh.
#[tactic(auto, using(crate::proofs::Asked::id_small), unfolding(crate::specs::Walking::packet_of))]
fn packet_of(kind: u32, target: u64) -> Packet
    requires { id_too_large kind target ≡ false }
    ensures { result ≡ packet_of kind target }
{
    if kind < 2 {
        return Packet::Plain(target_asked(kind, target));
    }
    Packet::Config(Rid(target as u16))
}

// Whether a packet may start there: at the root, or below a device port.
#[tactic(auto, unfolding(chassis::specs::Tree::is_device_port, crate::specs::Walking::is_start))]
fn is_start(picture: &Picture, start: u32) -> bool
    ensures { result ≡ is_start (tree_of picture.now.bytes.now) start }
{
    if start == ROOT_START {
        return true;
    }
    if picture.count as u32 <= start {
        return false;
    }
    picture.is_device_port(PortNo(start as u8))
}

// Number 16.
#[tactic(auto, unfolding(crate::specs::Walking::asked_wrongly))]
fn asked_wrongly(picture: &Picture, kind: u32, start: u32, target: u64) -> bool
    ensures { result ≡ asked_wrongly (tree_of picture.now.bytes.now) kind start target }
{
    (2 < kind) | id_too_large(kind, target) | !is_start(picture, start)
}

// Number 16, else where the packet ends, with every port crossed, over a picture that reads and a patch.
#[tactic(auto, using(crate::proofs::Walks::gives_16, crate::proofs::Walks::gives_end, crate::proofs::Walks::id_fits, crate::proofs::Walks::small_start, crate::proofs::Walks::within_start))]
pub fn walk_over(
    over: &PatchedPicture,
    kind: u32,
    start: u32,
    target: u64,
) -> Result<Walked, Refusal>
    requires sane { Sane (tree_of over.now.picture.bytes.now) }
    ensures { AskedGives (asked_wrongly (tree_of over.now.picture.bytes.now) kind start target) (chassis_in over.now) kind start target result }
{
    if asked_wrongly(&over.picture, kind, start, target) {
        return Err(Refusal::AskedWrongly);
    }
    let packet = packet_of(kind, target);
    let from = routes::starts_at(over.picture.bytes, over.patch, packet, PortNo(start as u8));
    Ok(routes::walk_from(over, packet, from))
}

// Numbers 1 to 10, then 16, else where the packet ends, with every port crossed.
#[tactic(auto, using(picture::proofs::WhatReads::count_few, picture::proofs::WhatReads::count_read, crate::proofs::Walks::gives_alone, crate::proofs::Walks::gives_unread, picture::proofs::WhatReads::sane_read))]
pub fn walk(s: &[u8], kind: u32, start: u32, target: u64) -> Result<Walked, Refusal>
    ensures { WalkGives s.now kind start target result }
{
    let h = picture::read(s)?;
    let over = PatchedPicture {
        picture: Picture {
            bytes: s,
            count: h.count as u8,
        },
        patch: &[],
    };
    walk_over(&over, kind, start, target)
}
