// Words of the command line as numbers and kinds.
#![tactic(auto)]

ghost use Rattle.std.specs.Prelude.{◌≡◌, ◌≢◌, ◌↔◌, ◌≤◌, Some, codes};
ghost use Rattle.arguments.specs.declared.Kind.TheVariants.{Id, Addr, Config};

// The kinds of the calls, by the numbers that they have for them.
#[derive(Clone, Copy, PartialEq, Eq)]
pub enum Kind {
    Id = 0,
    Addr = 1,
    Config = 2,
}

// A number that these digits write, at least one of them, of either case.
fn number(digits: &str, base: u32) -> Option<u64>
    requires low { 2 ≤ base }
    requires high { base ≤ 36 }
{
    if digits.starts_with('+') {
        return None;
    }
    u64::from_str_radix(digits, base).ok()
}

// A number of at least one hexadecimal digit, with or without 0x before it, if 64 bits hold it.
pub fn hexadecimal(word: &[u8]) -> Option<u64> {
    let word = str::from_utf8(word).ok()?;
    number(word.strip_prefix("0x").unwrap_or(word), 16)
}

// What every decimal number of a word is below.
const DECIMAL_END: u64 = 1_000_000_000_000_000_000;

// A number of at least one decimal digit, if it is below 10^18.
pub fn decimal(word: &[u8]) -> Option<u64> {
    number(str::from_utf8(word).ok()?, 10).filter(|&n| n < DECIMAL_END)
}

// The kind of packet that a word names.
pub fn packet_kind(word: &[u8]) -> Option<Kind>
    ensures id { (result ≡ Some Id) ↔ (word.now ≡ codes "id") }
    ensures addr { (result ≡ Some Addr) ↔ (word.now ≡ codes "addr") }
    ensures config { (result ≡ Some Config) ↔ (word.now ≡ codes "config") }
{
    match word {
        b"id" => Some(Kind::Id),
        b"addr" => Some(Kind::Addr),
        b"config" => Some(Kind::Config),
        _ => None,
    }
}

// The kind of target that a word names: no configuration request.
pub fn target_kind(word: &[u8]) -> Option<Kind>
    ensures id { (result ≡ Some Id) ↔ (word.now ≡ codes "id") }
    ensures addr { (result ≡ Some Addr) ↔ (word.now ≡ codes "addr") }
    ensures others { result ≢ Some Config }
{
    packet_kind(word).filter(|&kind| kind != Kind::Config)
}

// A number as 32 bits hold it, the largest of them for any larger: no port has that number.
pub fn clamped(n: u64) -> u32 {
    u32::try_from(n).unwrap_or(u32::MAX)
}
