// The stages of a case, and the calls that a stage lets through.
#![tactic(auto)]

ghost use Rattle.std.specs.Prelude.{◌≡◌};
ghost use Rattle.std.specs.Result.{result_err};
ghost use Rattle.stages.specs.Stages.{permits, stage_after, verdict_at};

use memory::refusals::Refusal;
use memory::verdicts::Verdict;

#[derive(Clone, Copy)]
pub enum Stage {
    Open,
    Sealed,
    Decided(Verdict),
}

// A call by name, so that one match over stage and call says what each stage lets through.
#[derive(Clone, Copy)]
pub enum Call {
    Admit,
    Infer,
    Seal,
    Search,
}

impl Stage {
    // Lets the call through, or says why the stage does not.
    pub fn permits(self, call: Call) -> Result<(), Refusal>
        ensures { result_err result ≡ permits self call }
    {
        match (self, call) {
            (Stage::Open, Call::Admit | Call::Infer | Call::Seal) => Ok(()),
            (Stage::Open, Call::Search) => Err(Refusal::Unsealed),
            (Stage::Sealed, Call::Infer | Call::Search) => Ok(()),
            (Stage::Sealed, Call::Admit | Call::Seal) => Err(Refusal::Sealed),
            (Stage::Decided(_), Call::Admit | Call::Infer | Call::Seal | Call::Search) => {
                Err(Refusal::Decided)
            }
        }
    }

    // The stage that a verdict leads to, if there is one.
    pub fn after(self, verdict: Option<Verdict>) -> Stage
        ensures { result ≡ stage_after verdict self }
    {
        verdict.map_or(self, Stage::Decided)
    }

    // The verdict, or none while the case is not decided.
    pub fn verdict(self) -> Option<Verdict>
        ensures { result ≡ verdict_at self }
    {
        match self {
            Stage::Open | Stage::Sealed => None,
            Stage::Decided(verdict) => Some(verdict),
        }
    }
}
