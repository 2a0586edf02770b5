// Numbers 8 and 9: what the registers of a port that reads keep to.
ghost use Rattle.std.specs.Prelude.{◌≡◌, ◌<◌, ◌^◌};
ghost use Rattle.registers.specs.Rules.{size_reserved, granularity_allowed, mechanism_wrong, memory_bits_wrong, settings_wrong, with_ari, with_redirect, start_broken, start_wrong};

use crate::fields::{enabled, granularity_code, settings, size_code, supported};
use crate::{Bridge, Fpb, Mechanism, Port};
use chassis::Kind;

// A size code that the table of settings does not have.
#[tactic(auto, unfolding(crate::specs::Rules::size_reserved))]
fn size_reserved(f: Fpb, m: Mechanism) -> bool
    ensures { result ≡ size_reserved f m }
{
    let code = size_code(f, m);
    match m {
        Mechanism::Rid => !((code == 0) | (code == 2) | (code == 5)),
        Mechanism::Low => 4 < code,
        Mechanism::High => 5 < code,
    }
}

// A granularity that the size allows.
#[tactic(auto, unfolding(crate::specs::Rules::granularity_allowed))]
fn granularity_allowed(f: Fpb, m: Mechanism) -> bool
    ensures { result ≡ granularity_allowed f m }
{
    let size = size_code(f, m);
    let code = granularity_code(f, m);
    match m {
        Mechanism::Rid => {
            (code == 0) | ((code == 3) & ((size == 0) | (size == 2))) | ((code == 5) & (size == 0))
        }
        Mechanism::Low => code + size <= 4,
        Mechanism::High => code <= 7,
    }
}

// The part of number 8 that each mechanism has.
#[tactic(auto, unfolding(crate::specs::Rules::mechanism_wrong))]
fn mechanism_wrong(f: Fpb, m: Mechanism) -> bool
    ensures { result ≡ mechanism_wrong f m }
{
    (enabled(f, m) & !supported(f, m))
        | (supported(f, m) & size_reserved(f, m))
        | (enabled(f, m) & !granularity_allowed(f, m))
}

// The part of number 8 about bits 3:0 of the Memory and Prefetchable registers.
#[tactic(auto, unfolding(crate::specs::Rules::memory_bits_wrong))]
fn memory_bits_wrong(b: Bridge) -> bool
    ensures { result ≡ memory_bits_wrong b }
{
    (b.memory_base % 16 != 0)
        | (b.memory_limit % 16 != 0)
        | (1 < b.prefetchable_base % 16)
        | (b.prefetchable_base % 16 != b.prefetchable_limit % 16)
}

// Number 8.
#[tactic(auto, unfolding(crate::specs::Rules::settings_wrong))]
pub fn settings_wrong(p: Port) -> bool
    ensures { result ≡ settings_wrong p }
{
    let f = p.fpb;
    let b = p.bridge;
    mechanism_wrong(f, Mechanism::Rid)
        | mechanism_wrong(f, Mechanism::Low)
        | mechanism_wrong(f, Mechanism::High)
        | memory_bits_wrong(b)
        | (p.zeros != 0)
}

// ARI Forwarding Enable, which means nothing on an upstream port.
#[tactic(auto, unfolding(crate::specs::Rules::with_ari))]
pub fn with_ari(p: Port) -> bool
    ensures { result ≡ with_ari p }
{
    (Kind::try_from(p.kind) != Ok(Kind::Upstream)) & ((p.device_control_2 >> 5) % 2 == 1)
}

// P2P Request Redirect, bit 2 of ACS Control.
#[tactic(auto, unfolding(crate::specs::Rules::with_redirect))]
pub fn with_redirect(p: Port) -> bool
    ensures { result ≡ with_redirect p }
{
    (p.acs_control >> 2) % 2 == 1
}

// How many targets an entry stands for.
fn granule(scale: u32) -> u64
    requires { scale < 64 }
    ensures value { result ≡ 2 ^ scale }
    ensures result_nonzero { 0 < result }
{
    1 << scale
}

// An enabled start that is no multiple of the granularity.
#[tactic(auto, unfolding(crate::specs::Rules::start_broken))]
fn start_broken(f: Fpb, m: Mechanism) -> bool
    ensures { result ≡ start_broken f m }
{
    let g = settings(f, m);
    enabled(f, m) & (g.start % granule(g.scale) != 0)
}

// Number 9.
#[tactic(auto, unfolding(crate::specs::Rules::start_wrong))]
pub fn start_wrong(p: Port) -> bool
    ensures { result ≡ start_wrong p }
{
    let f = p.fpb;
    start_broken(f, Mechanism::Rid)
        | start_broken(f, Mechanism::Low)
        | start_broken(f, Mechanism::High)
        | (with_ari(p) & enabled(f, Mechanism::Rid) & ((f.rid_control_1 >> 19) % 32 != 0))
}
