// The search for the least target that two reaches have to do with.
#![tactic(auto)]

ghost use Rattle.std.specs.Prelude.{◌≡◌, ◌^◌};
ghost use Rattle.least.specs.Least.{first_in, soonest};
ghost use Rattle.search.specs.Search.{reaches_is, meets};

use spans::Reached;

// The next target that is reached, or, where that is wanted, that is not.
#[tactic(auto, using(crate::proofs::Laws::unwanted, crate::proofs::Laws::wanted))]
fn next_where(d: &Reached, want: bool, from: u64) -> Option<u64>
    ensures { result ≡ first_in (reaches_is d.now.reach.now d.now.one.now d.now.other.now want) from (2 ^ 64) }
{
    if want {
        d.next_reached(from)
    } else {
        d.next_unreached(from)
    }
}

// The least target that a reaches and b reaches, or, where that is wanted, does not; or the best so far, if that is lower.
#[tactic(auto, using(crate::proofs::Laws::ends_best, crate::proofs::Laws::ends_found, crate::proofs::Laws::ends_left, crate::proofs::Laws::ends_right, crate::proofs::Laws::further, least::proofs::Laws::none_empty, crate::proofs::Laws::to_right))]
pub fn least_both(a: &Reached, b: &Reached, want: bool, best: Option<u64>) -> Option<u64>
    ensures { result ≡ soonest best
        (first_in (meets a.now.reach.now a.now.one.now a.now.other.now b.now.reach.now b.now.one.now b.now.other.now want) 0 (2 ^ 64)) }
{
    let mut i = 0;
    loop {
        let Some(j) = a.next_reached(i) else {
            return best;
        };
        if least::is_by(best, j) {
            return best;
        }
        let Some(k) = next_where(b, want, j) else {
            return best;
        };
        if k == j {
            return least::sooner(best, Some(k));
        }
        i = k;
    }
}
