// Ranges of targets: the next target in one, or out of it.
ghost use Rattle.std.specs.Prelude.{◌≡◌, ◌^◌};
ghost use Rattle.least.specs.Least.{first_in};

// Both ends belong to it; it is empty where `lo` is above `hi`.
#[derive(Clone, Copy)]
pub struct Range {
    pub lo: u64,
    pub hi: u64,
}

impl Range {
    ghost use Rattle.spans.specs.Ranges.{in_range, out_of};

    // The next target in it.
    #[tactic(auto, using(crate::proofs::OfRanges::in_at, crate::proofs::OfRanges::in_none))]
    pub fn next_in(self, from: u64) -> Option<u64>
        ensures { result ≡ first_in (in_range self) from (2 ^ 64) }
    {
        let t = from.max(self.lo);
        (t <= self.hi).then_some(t)
    }

    // The next target out of it.
    #[tactic(auto, using(crate::proofs::OfRanges::out_already, crate::proofs::OfRanges::out_at_once, crate::proofs::OfRanges::out_never, crate::proofs::OfRanges::out_next))]
    pub fn next_out(self, from: u64) -> Option<u64>
        ensures { result ≡ first_in (out_of self) from (2 ^ 64) }
    {
        if from < self.lo || self.hi < from {
            return Some(from);
        }
        self.hi.checked_add(1)
    }
}
