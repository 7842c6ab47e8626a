// The records of a run, by their numbers.
ghost use Rattle.std.specs.Prelude.{◌≡◌, ◌<◌, ◌&&◌, true, false, length, MatchOption, MatchResult};
ghost use Rattle.memory.specs.Limits.{most_records};
ghost use Rattle.memory.specs.Runs.{at, must_precede};
ghost use Rattle.memory.specs.declared.refusals.Refusal.TheVariants.{Full};
ghost use Rattle.inference.specs.Rules.{known};
ghost use Rattle.inference.specs.Views.{setting_is, run_is};

use crate::runs::Run;
use memory::clocks::Clock;
use memory::limits::MOST_RECORDS;
use memory::models::Model;
use memory::records::{Record, record_at};
use memory::refusals::Refusal;
use memory::settings::Setting;

impl<'a, M: Model, C: Clock> Run<'a, M, C> {
    // Refused where there are more records than a run may have.
    pub fn new(
        setting: Setting<&'a M, &'a C>,
        records: &'a [Record],
    ) -> Result<Run<'a, M, C>, Refusal>
        ensures { MatchResult result
            (λ r. (r.setting ≡ setting.entry) × (r.records ≡ records.entry))
            (λ e. (e ≡ Full) × (most_records < length records.now)) }
    {
        if records.len() > MOST_RECORDS {
            return Err(Refusal::Full);
        }
        Ok(Run { setting, records })
    }

    pub fn count(&self) -> u8
        ensures { result ≡ length self.now.records.now }
    {
        self.records.len() as u8
    }

    // The record with a number, from 1.
    pub fn record(&self, number: u8) -> Option<Record>
        ensures { MatchOption result (known (run_is self.now) number ≡ false) (λ r. (known (run_is self.now) number ≡ true) × (r ≡ at self.now.records.now number)) }
    {
        record_at(self.records, number)
    }

    // The clock calls the commit of x surely earlier than the enter of y.
    pub(crate) fn is_surely_earlier(&self, x: Record, y: Record) -> bool
        ensures { result ≡ (setting_is self.now).earlier x.processor x.commit y.processor y.enter }
    {
        self.setting
            .clock
            .surely_earlier(x.processor, x.commit, y.processor, y.enter)
    }

    // The model or the clock puts the first before the second.
    pub fn must_precede(&self, first: u8, second: u8) -> bool
        ensures { result ≡ (known (run_is self.now) first && (known (run_is self.now) second && must_precede (run_is self.now) first second)) }
    {
        let (Some(x), Some(y)) = (self.record(first), self.record(second)) else {
            return false;
        };
        (first < second && self.setting.keeps(x, y)) || self.is_surely_earlier(x, y)
    }
}
