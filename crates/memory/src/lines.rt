// Lines: what must come before what, and by which rule.
ghost use Rattle.std.specs.Prelude.{◌≡◌};
ghost use Rattle.std.specs.Result.{result_ok};
ghost use Rattle.memory.specs.Numbers.{rule_number, rule_at};

use crate::numbers::UnknownNumber;

// Each rule with its number.
#[derive(Clone, Copy, Debug, PartialEq, Eq)]
pub enum Rule {
    Clock = 1,
    Model = 2,
    ReadsFrom = 3,
    InitialRead = 4,
    Coherence = 5,
    FromRead = 6,
    Transitive = 7,
}

// The record `first` comes before the record `second`. Only coherence and transitive lines name a third; at the others it is 0, which
// no record has, so that rules and bytes go by numbers alone.
#[derive(Clone, Copy, Debug, PartialEq, Eq)]
pub struct Line {
    pub rule: Rule,
    pub first: u8,
    pub second: u8,
    pub third: u8,
}

impl Rule {
    // In the order of their numbers.
    pub const ALL: [Rule; 7] = [
        Rule::Clock,
        Rule::Model,
        Rule::ReadsFrom,
        Rule::InitialRead,
        Rule::Coherence,
        Rule::FromRead,
        Rule::Transitive,
    ];
}

impl From<Rule> for u8 {
    ghost from_gives = { λ rule r. r ≡ rule_number rule };

    fn from(rule: Rule) -> u8 {
        rule as u8
    }
}

impl TryFrom<u8> for Rule {
    type Error = UnknownNumber;

    ghost try_from_gives = { λ number r. result_ok r ≡ rule_at number };

    fn try_from(number: u8) -> Result<Rule, UnknownNumber> {
        match number {
            1 => Ok(Rule::Clock),
            2 => Ok(Rule::Model),
            3 => Ok(Rule::ReadsFrom),
            4 => Ok(Rule::InitialRead),
            5 => Ok(Rule::Coherence),
            6 => Ok(Rule::FromRead),
            7 => Ok(Rule::Transitive),
            _ => Err(UnknownNumber),
        }
    }
}
