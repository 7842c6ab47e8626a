// Searching.
ghost use Rattle.std.specs.Prelude.{◌≡◌, IfOk};
ghost use Rattle.memory.specs.Runs.{run_of};
ghost use Rattle.memory.specs.Settings.{setting_of, setting_lent};
ghost use Rattle.case.specs.Calls.{searching, Searched};
ghost use Rattle.case.specs.Views.{view};

use crate::cases::{Case, Held};
use inference::runs::Run;
use memory::clocks::Clock;
use memory::limits::MOST_STEPS;
use memory::models::Model;
use memory::refusals::{Fault, Refusal};
use memory::settings::Setting;
use memory::verdicts::Progress;
use stages::Call;

impl Held {
    fn search<M: Model, C: Clock>(
        &mut self,
        setting: Setting<&M, &C>,
        k: u64,
    ) -> Result<Progress, Fault>
        ensures answer { result ≡ (searching (setting_lent M.Model C.Clock setting.entry) self.old k).answer }
        ensures state { self.new ≡ (searching (setting_lent M.Model C.Clock setting.entry) self.old k).state }
        ensures steps { IfOk result (Searched (run_of (setting_lent M.Model C.Clock setting.entry) self.old.records) k self.old self.new) }
    {
        self.permitted(Call::Search)?;
        if self.steps.saturating_add(k) > MOST_STEPS {
            return Err(self.fault(Refusal::Spent));
        }
        let run = Run::new(setting, &self.records).unwrap();
        let progress = self.search.make_steps(&run, self.lines.as_slice(), k);
        self.stage = self.stage.after(progress.verdict);
        self.steps += progress.done;
        Ok(progress)
    }
}

impl<M: Model, C: Clock> Case<M, C> {
    // Makes steps until k are made or one decides the case, from where the search stands. Refused where the total
    // and k together are above 2^62.
    pub fn search(&mut self, k: u64) -> Result<Progress, Fault>
        ensures answer { result ≡ (searching (setting_of M.Model C.Clock self.old.setting) (view self.old) k).answer }
        ensures state { view self.new ≡ (searching (setting_of M.Model C.Clock self.old.setting) (view self.old) k).state }
        ensures steps { IfOk result (Searched (run_of (setting_of M.Model C.Clock self.old.setting) (view self.old).records) k (view self.old) (view self.new)) }
        ensures setting { self.new.setting ≡ self.old.setting }
    {
        let Setting { model, clock } = &self.setting;
        self.held.search(Setting { model, clock }, k)
    }
}
