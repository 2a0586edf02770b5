// The answer of every search for the lowest number: a port, an entry or a target.
#![tactic(auto)]

ghost use Rattle.std.specs.Prelude.{◌≡◌};
ghost use Rattle.least.specs.Least.{soonest, is_by};

// The lower of two findings.
pub fn sooner(a: Option<u64>, b: Option<u64>) -> Option<u64>
    ensures { result ≡ soonest a b }
{
    match a {
        Some(i) => Some(b.map_or(i, |j| i.min(j))),
        None => b,
    }
}

// Whether a finding is no later than a number.
#[tactic(auto, unfolding(crate::specs::Least::is_by))]
pub fn is_by(found: Option<u64>, n: u64) -> bool
    ensures { result ≡ is_by found n }
{
    found.is_some_and(|i| i <= n)
}
