// The referee under the model and the clock that the head of the run marks, with room for any paper that it accepts.
#![tactic(auto)]

ghost use Rattle.std.specs.Prelude.{◌≡◌};
ghost use Rattle.memory.specs.Limits.{most_records, most_lines};
ghost use Rattle.memory.specs.Runs.{setting};
ghost use Rattle.referee.specs.Ruling.{ruling};
ghost use Rattle.referee.specs.Truth.{TrueOf};
ghost use Rattle.judging.specs.Marked.{marked, answer_of};

pub mod marks;

use crate::marks::{UnderSetting, under_marks};
use memory::clocks::Clock;
use memory::kinds::Kind;
use memory::limits::{MOST_LINES, MOST_RECORDS};
use memory::lines::{Line, Rule};
use memory::models::Model;
use memory::records::Record;
use memory::settings::Setting;
use memory::verdicts::Verdict;
use referee::faults::RefereeFault;
use referee::rulings::referee;

// What stands in places that are not filled; nothing is read of it.
const NO_RECORD: Record = Record {
    processor: 0,
    kind: Kind::Fence,
    address: 0,
    value: 0,
    enter: 0,
    commit: 0,
};

const NO_LINE: Line = Line {
    rule: Rule::Clock,
    first: 0,
    second: 0,
    third: 0,
};

// The referee, with places for as many records and lines as there can be.
fn judge_under<M: Model, C: Clock>(
    model: &M,
    clock: &C,
    run: &[u8],
    paper: &[u8],
) -> Result<Verdict, RefereeFault>
    ensures answer { let S = setting (M.Model.orders model.now) (C.Clock.earlier clock.now) M.Model.MARK C.Clock.MARK in
        result ≡ (ruling S most_records most_lines run.now paper.now).answer }
    ensures truth { let S = setting (M.Model.orders model.now) (C.Clock.earlier clock.now) M.Model.MARK C.Clock.MARK in
        TrueOf S (ruling S most_records most_lines run.now paper.now).records paper.now result }
{
    let mut records = [NO_RECORD; MOST_RECORDS];
    let mut lines = [NO_LINE; MOST_LINES];
    let setting = Setting { model, clock };
    referee(setting, run, paper, &mut records, &mut lines)
}

// A run and a paper, to be judged.
#[derive(Clone, Copy, Drop)]
struct Pair<'a> {
    run: &'a [u8],
    paper: &'a [u8],
}

impl UnderSetting for Pair<'_> {
    type Answer = Result<Verdict, RefereeFault>;

    ghost gives = { λ pair S r.
        (r ≡ (ruling S most_records most_lines pair.run.now pair.paper.now).answer) × TrueOf S (ruling S most_records most_lines pair.run.now pair.paper.now).records pair.paper.now r };

    fn under<M: Model + Drop, C: Clock + Drop>(
        self,
        setting: Setting<M, C>,
    ) -> Result<Verdict, RefereeFault> {
        judge_under(&setting.model, &setting.clock, self.run, self.paper)
    }
}

// What the referee answers of the bytes of a run and of a paper, under the model and the clock by the marks of the run's head; an accepted
// paper is true of the records that were read, with the verdict that is answered.
pub fn judge(run: &[u8], paper: &[u8]) -> Result<Verdict, RefereeFault>
    ensures answer { result ≡ answer_of run.now paper.now }
    ensures truth { TrueOf (marked run.now) (ruling (marked run.now) most_records most_lines run.now paper.now).records paper.now result }
{
    under_marks(run, Pair { run, paper })
}
