// The worked examples: one call works any example through the calls of a case, and its contract says what the known ones come to.
#![tactic(auto)]

ghost use Rattle.std.specs.Prelude.{◌≡◌, map, IfOk};
ghost use Rattle.memory.specs.Settings.{setting_of};
ghost use Rattle.case.specs.Views.{view};
ghost use Rattle.checker.specs.History.{admit, after};
ghost use Rattle.worked.specs.Table.{WorkedExamples};
ghost use Rattle.worked.specs.Worked.{worked};

use case::cases::Case;
use memory::clocks::Clock;
use memory::limits::PROGRAM_STEPS;
use memory::models::Model;
use memory::records::Entry;
use memory::settings::Setting;
use std::alloc::{AllocError, Global};

// Admits one entry after the other; one that is refused leaves the case as it was.
fn admit_all<M: Model, C: Clock>(case: &mut Case<M, C>, entries: &[Entry])
    ensures state { view case.new ≡ after (setting_of M.Model C.Clock case.old.setting) (view case.old) (map admit entries.now) }
    ensures setting { case.new.setting ≡ case.old.setting }
{
    for e in entries {
        let _ = case.admit(*e);
    }
}

// Works an example: what was logged on so many processors is admitted to a new case, lines are inferred to the end where that is asked for, and
// the case is sealed and searched. Beside what the case then is, for any example, stand the worked ones, line by line.
pub fn work<M: Model + Drop, C: Clock + Drop>(
    heap: Global,
    setting: Setting<M, C>,
    processors: u8,
    entries: &[Entry],
    inferred: bool,
) -> Result<Case<M, C>, AllocError>
    ensures case { IfOk result (λ c. view c ≡
        worked (setting_of M.Model C.Clock setting) (record { processors = processors; entries = entries.now; inferred = inferred })) }
    ensures setting { IfOk result (λ c. c.setting ≡ setting) }
    ensures examples { WorkedExamples }
{
    let mut case = Case::new(heap, setting)?;
    let _ = case.open(processors);
    admit_all(&mut case, entries);
    if inferred {
        let _ = case.infer(u64::MAX);
    }
    let _ = case.seal();
    let _ = case.search(PROGRAM_STEPS);
    Ok(case)
}
