// The calls as they are made.
ghost use Rattle.std.specs.Prelude.{◌≡◌};
ghost use Rattle.memory.specs.Settings.{setting_of};
ghost use Rattle.case.specs.Views.{view};
ghost use Rattle.calls.specs.Made.{made, Answers};

use crate::words::Ruled;
use case::cases::Case;
use histories::invocations::Invocation;
use memory::clocks::Clock;
use memory::models::Model;
use memory::refusals::Fault;
use memory::verdicts::{Progress, Verdict};
use std::fmt;

// What a call answers that is not refused.
#[derive(Clone, Copy)]
pub enum Answer {
    Opened,
    Admitted(u8),
    Listed(Progress),
    Searched(Progress),
    Closed(Option<Verdict>),
    Wrote(usize),
}

impl fmt::Display for Answer {
    fn fmt<W: fmt::Write>(&self, f: &mut fmt::Formatter<W>) -> fmt::Result {
        match *self {
            Answer::Opened => Ok(()),
            Answer::Admitted(record) => write!(f, " record {record}"),
            Answer::Listed(p) => write!(f, " lines {} {}", p.done, Ruled(p.verdict)),
            Answer::Searched(p) => write!(f, " steps {} {}", p.done, Ruled(p.verdict)),
            Answer::Closed(verdict) => write!(f, " {}", Ruled(verdict)),
            Answer::Wrote(size) => write!(f, " bytes {size}"),
        }
    }
}

// The call itself; one that writes does so into the lent bytes.
pub fn make<M: Model, C: Clock>(
    case: &mut Case<M, C>,
    call: Invocation<'_>,
    lent: &mut [u8],
) -> Result<Answer, Fault>
    ensures answer { Answers (setting_of M.Model C.Clock case.old.setting) (view case.old) call.entry lent.old lent.new result }
    ensures state { view case.new ≡ made (setting_of M.Model C.Clock case.old.setting) (view case.old) call.entry }
{
    Ok(match call {
        Invocation::Open(processors) => {
            case.open(processors)?;
            Answer::Opened
        }
        Invocation::Admit(entry) => Answer::Admitted(case.admit(entry)?),
        Invocation::Infer(k) => Answer::Listed(case.infer(k)?),
        Invocation::Seal => Answer::Closed(case.seal()?),
        Invocation::Search(k) => Answer::Searched(case.search(k)?),
        Invocation::Load(run) => Answer::Closed(case.load(run)?),
        Invocation::WriteRun(_) => Answer::Wrote(case.write_run(lent)?),
        Invocation::WriteSlip(_) => Answer::Wrote(case.write_slip(lent)?),
        Invocation::WritePaper(_) => Answer::Wrote(case.write_paper(lent)?),
    })
}
