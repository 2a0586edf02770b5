// Why a picture or a patch does not read, or a call is not answered: the rows of the table but those of the check.
ghost use Rattle.std.specs.Prelude.{◌≡◌};
ghost use Rattle.picture.specs.Refusals.{rule_number, refusal_number};

use ids::PortNo;

// The rules that each port keeps by itself: numbers 6 to 9.
#[derive(Clone, Copy, PartialEq, Eq)]
pub enum Rule {
    Tree,
    Chain,
    Settings,
    Start,
}

// Numbers 1 to 5, about the header; 6 to 9, with the port that breaks a rule; 10, with the port whose vectors are misplaced, or none
// for their end; 16, a call that asks for what is not there; 30 to 32, about a patch.
#[derive(Clone, Copy, PartialEq, Eq)]
pub enum Refusal {
    Length,
    Edition,
    Count,
    Total,
    Offset,
    Breaks(Rule, PortNo),
    Misplaced(PortNo),
    AskedWrongly,
    PatchHeader,
    PatchPorts,
    PatchVectors,
}

impl Rule {
    pub fn number(self) -> u8
        ensures { result ≡ rule_number self }
    {
        match self {
            Rule::Tree => 6,
            Rule::Chain => 7,
            Rule::Settings => 8,
            Rule::Start => 9,
        }
    }
}

impl Refusal {
    // Its number in the table.
    pub fn number(self) -> u8
        ensures { result ≡ refusal_number self }
    {
        match self {
            Refusal::Length => 1,
            Refusal::Edition => 2,
            Refusal::Count => 3,
            Refusal::Total => 4,
            Refusal::Offset => 5,
            Refusal::Breaks(rule, _) => rule.number(),
            Refusal::Misplaced(_) => 10,
            Refusal::AskedWrongly => 16,
            Refusal::PatchHeader => 30,
            Refusal::PatchPorts => 31,
            Refusal::PatchVectors => 32,
        }
    }
}
