// The words of a picture.
ghost use Rattle.std.specs.Prelude.{◌≡◌, Some};
ghost use Rattle.drawing.specs.Words.{rule_words, ordinal_words, title_words};

use memory::lines::Rule;
use memory::verdicts::Verdict;
use std::fmt;
use telling::words::Claim;

// A rule in short.
pub fn rule_name(rule: Rule) -> &'static str
    ensures { result.now ≡ rule_words rule }
{
    match rule {
        Rule::Clock => "clock",
        Rule::Model => "program order",
        Rule::ReadsFrom => "reads-from",
        Rule::InitialRead => "initial read",
        Rule::Coherence => "coherence",
        Rule::FromRead => "from-read",
        Rule::Transitive => "transitive",
    }
}

// The same, to be written.
#[derive(Clone, Copy)]
pub struct RuleName(pub Rule);

impl fmt::Display for RuleName {
    ghost output = { λ n. Some (rule_words n.0) };

    fn fmt<W: fmt::Write>(&self, f: &mut fmt::Formatter<W>) -> fmt::Result {
        f.write_str(rule_name(self.0))
    }
}

// Counted: 1st, 2nd, 3rd, 4th.
#[derive(Clone, Copy)]
pub struct Ordinal(pub usize);

impl fmt::Display for Ordinal {
    ghost output = { λ n. Some (ordinal_words n.0) };

    fn fmt<W: fmt::Write>(&self, f: &mut fmt::Formatter<W>) -> fmt::Result {
        let n = self.0;
        let teen = n % 100 / 10 == 1;
        match n % 10 {
            1 if !teen => write!(f, "{n}st"),
            2 if !teen => write!(f, "{n}nd"),
            3 if !teen => write!(f, "{n}rd"),
            _ => write!(f, "{n}th"),
        }
    }
}

// What a verdict claims, above a picture, which shows an order by numbers.
#[derive(Clone, Copy)]
pub struct Title(pub Option<Verdict>);

impl fmt::Display for Title {
    ghost output = { λ t. Some (title_words t.0) };

    fn fmt<W: fmt::Write>(&self, f: &mut fmt::Formatter<W>) -> fmt::Result {
        match self.0 {
            Some(Verdict::Order) => f.write_str(
                "The run has a legal order: the numbers on the right.",
            ),
            verdict => write!(f, "{}", Claim(verdict)),
        }
    }
}
