// What the calls that ask of a target share: its kind and its number, each passed whole.
ghost use Rattle.std.specs.Prelude.{false, ◌≡◌};
ghost use Rattle.judge.specs.Asking.{target_asked, id_too_large};

use ids::{Rid, Target};

// An ID over FFFFh; an address may have 64 bits.
#[tactic(auto, unfolding(crate::specs::Asking::id_too_large))]
pub fn id_too_large(kind: u32, target: u64) -> bool
    ensures { result ≡ id_too_large kind target }
{
    (kind != 1) & (65536 <= target)
}

// The target of a kind, 1 for an address, which is no ID over FFFFh.
#[tactic(auto, using(crate::proofs::Asked::id_small), unfolding(crate::specs::Asking::target_asked))]
pub fn target_asked(kind: u32, target: u64) -> Target
    requires { id_too_large kind target ≡ false }
    ensures { result ≡ target_asked kind target }
{
    if kind == 1 {
        return Target::Addr(target);
    }
    Target::Id(Rid(target as u16))
}
