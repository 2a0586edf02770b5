// Looking through the first ports of a picture for those that pass a test.
ghost use Rattle.std.specs.Prelude.{ℕ, Bool, ◌≡◌};
ghost use Rattle.least.specs.Least.{first_in};
ghost use Rattle.chassis.specs.Tree.{any_below};
ghost use Rattle.chassis.specs.Looking.{Tells, number_in};

use ids::PortNo;

// The lowest of the ports below number n that passes.
pub fn lowest<F: Fn(PortNo) -> bool>(n: u8, passes: F) -> Option<PortNo>
    requires { F.IsAlwaysCallable passes }
    ensures { (test : ℕ → Bool) → Tells (F.post passes) n test → number_in result ≡ first_in test 0 n }
{
    for p in 0..n {
        if passes(PortNo(p)) {
            return Some(PortNo(p));
        }
    }
    None
}

// Whether one of the ports below number n passes.
pub fn any<F: Fn(PortNo) -> bool>(n: u8, passes: F) -> bool
    requires { F.IsAlwaysCallable passes }
    ensures { (test : ℕ → Bool) → Tells (F.post passes) n test → result ≡ any_below test n }
{
    lowest(n, passes).is_some()
}
