// Taking records and lines as premises.
ghost use Rattle.std.specs.Prelude.{◌≡◌, ◌<◌, length, MatchResult};
ghost use Rattle.memory.specs.Limits.{most_records};
ghost use Rattle.memory.specs.declared.refusals.Refusal.TheVariants.{Full};
ghost use Rattle.inference.specs.Views.{run_in, run_is, lines_in};

use crate::premises::Premises;
use crate::runs::Run;
use memory::clocks::Clock;
use memory::lines::Line;
use memory::models::Model;
use memory::records::Record;
use memory::refusals::Refusal;
use memory::settings::Setting;

impl<'a, M: Model, C: Clock> Premises<'a, M, C> {
    // Refused where there are more records than a run may have.
    pub fn new(
        setting: Setting<&'a M, &'a C>,
        records: &'a [Record],
        lines: &'a [Line],
    ) -> Result<Premises<'a, M, C>, Refusal>
        ensures { MatchResult result
            (λ p. (p.run.setting ≡ setting.entry) × (p.run.records ≡ records.entry) × (p.lines ≡ lines.entry))
            (λ e. (e ≡ Full) × (most_records < length records.now)) }
    {
        let run = Run::new(setting, records)?;
        Ok(Premises { run, lines })
    }

    // The records of a run, with these lines.
    pub fn of<'b: 'a>(run: &Run<'b, M, C>, lines: &'a [Line]) -> Premises<'a, M, C>
        ensures run { run_in result ≡ run_is run.now }
        ensures lines { lines_in result ≡ lines.now }
    {
        let setting: Setting<&'a M, &'a C> = run.setting;
        let records: &'a [Record] = run.records;
        let run = Run { setting, records };
        Premises { run, lines }
    }
}
