// The next line.
ghost use Rattle.std.specs.Prelude.{◌≡◌, length, Some};
ghost use Rattle.inference.specs.Next.{fits, if_fits, tried, seek, least_of_pair, least_of_first, least_of_rule, next as next_of, Next};
ghost use Rattle.inference.specs.Views.{records_in, lines_in, run_in};

use crate::listing::is_listed;
use crate::premises::Premises;
use crate::premises::rules::has_third;
use memory::clocks::Clock;
use memory::lines::{Line, Rule};
use memory::models::Model;

impl<M: Model, C: Clock> Premises<'_, M, C> {
    // The line follows, and its pair is new.
    pub fn fits(&self, line: Line) -> bool
        ensures { result ≡ fits (run_in self.now) (lines_in self.now) line }
    {
        self.follows(line) && !is_listed(self.lines, line.first, line.second)
    }

    fn if_fits(&self, line: Line) -> Option<Line>
        ensures { result ≡ if_fits (fits (run_in self.now) (lines_in self.now) line) line }
    {
        self.fits(line).then_some(line)
    }

    fn least_third(&self, rule: Rule, first: u8, second: u8) -> Option<Line>
        ensures { result ≡ seek (tried (run_in self.now) (lines_in self.now) rule first second) (length (records_in self.now)) }
    {
        (1..=self.run.count()).find_map(|third| {
            self.if_fits(Line {
                rule,
                first,
                second,
                third,
            })
        })
    }

    // No third is looked for where the pair is listed.
    #[tactic(auto, using(crate::proofs::Thirds::only_zero, crate::proofs::Thirds::only_records))]
    fn least_of_pair(&self, rule: Rule, first: u8, second: u8) -> Option<Line>
        ensures { result ≡ least_of_pair (run_in self.now) (lines_in self.now) rule first second }
    {
        if !has_third(rule) {
            return self.if_fits(Line {
                rule,
                first,
                second,
                third: 0,
            });
        }
        if is_listed(self.lines, first, second) {
            return None;
        }
        self.least_third(rule, first, second)
    }

    fn least_of_first(&self, rule: Rule, first: u8) -> Option<Line>
        ensures { result ≡ least_of_first (run_in self.now) (lines_in self.now) rule first }
    {
        (1..=self.run.count()).find_map(|second| self.least_of_pair(rule, first, second))
    }

    fn least_of_rule(&self, rule: Rule) -> Option<Line>
        ensures { result ≡ least_of_rule (run_in self.now) (lines_in self.now) (Some rule) }
    {
        (1..=self.run.count()).find_map(|first| self.least_of_first(rule, first))
    }

    // The least line that follows and whose pair is new.
    pub fn next_line(&self) -> Option<Line>
        ensures value { result ≡ next_of (run_in self.now) (lines_in self.now) }
        ensures least { Next (run_in self.now) (lines_in self.now) result }
    {
        Rule::ALL.iter().find_map(|rule| self.least_of_rule(*rule))
    }
}
