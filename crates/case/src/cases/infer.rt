// Inferring.
ghost use Rattle.std.specs.Prelude.{◌≡◌, IfOk};
ghost use Rattle.memory.specs.Runs.{run_of};
ghost use Rattle.memory.specs.Settings.{setting_of, setting_lent};
ghost use Rattle.case.specs.Calls.{inferring, Inferred};
ghost use Rattle.case.specs.Views.{view};

use crate::cases::{Case, Held};
use memory::clocks::Clock;
use memory::models::Model;
use memory::refusals::Fault;
use memory::settings::Setting;
use memory::verdicts::{Progress, Verdict};
use stages::Call;

impl Held {
    fn infer<M: Model, C: Clock>(
        &mut self,
        setting: Setting<&M, &C>,
        k: u64,
    ) -> Result<Progress, Fault>
        ensures answer { result ≡ (inferring (setting_lent M.Model C.Clock setting.entry) self.old k).answer }
        ensures state { self.new ≡ (inferring (setting_lent M.Model C.Clock setting.entry) self.old k).state }
        ensures lines { IfOk result (Inferred (run_of (setting_lent M.Model C.Clock setting.entry) self.old.records) k self.old self.new) }
    {
        self.permitted(Call::Infer)?;
        let listed = self.lines.infer(setting, &self.records, k).unwrap();
        let verdict = listed.opposed.then_some(Verdict::Opposed);
        self.stage = self.stage.after(verdict);
        Ok(Progress {
            done: listed.count,
            verdict: self.stage.verdict(),
        })
    }
}

impl<M: Model, C: Clock> Case<M, C> {
    // Lists next lines until k are listed, none follows, or one is opposed to a listed one, which decides the case.
    pub fn infer(&mut self, k: u64) -> Result<Progress, Fault>
        ensures answer { result ≡ (inferring (setting_of M.Model C.Clock self.old.setting) (view self.old) k).answer }
        ensures state { view self.new ≡ (inferring (setting_of M.Model C.Clock self.old.setting) (view self.old) k).state }
        ensures lines { IfOk result (Inferred (run_of (setting_of M.Model C.Clock self.old.setting) (view self.old).records) k (view self.old) (view self.new)) }
        ensures setting { self.new.setting ≡ self.old.setting }
    {
        let Setting { model, clock } = &self.setting;
        self.held.infer(Setting { model, clock }, k)
    }
}
