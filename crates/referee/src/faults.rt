// Why a paper is not accepted.
ghost use Rattle.std.specs.Prelude.{◌≡◌};
ghost use Rattle.referee.specs.Faults.{referee_fault};
ghost use Rattle.referee.specs.declared.faults.RefereeFault.TheVariants as referee;

use memory::refusals::Fault;
use wire::faults::{PaperFault, RunFault};

// The run is refused, and its fault is kept whole; or the paper is.
#[derive(Clone, Copy)]
pub enum RefereeFault {
    Run(RunFault),
    Paper(PaperFault),
}

impl From<RunFault> for RefereeFault {
    ghost from_gives = { λ e r. r ≡ referee.Run e };

    fn from(fault: RunFault) -> RefereeFault {
        RefereeFault::Run(fault)
    }
}

impl From<PaperFault> for RefereeFault {
    ghost from_gives = { λ e r. r ≡ referee.Paper e };

    fn from(fault: PaperFault) -> RefereeFault {
        RefereeFault::Paper(fault)
    }
}

// The refusal, its layer and its place.
impl From<RefereeFault> for Fault {
    ghost from_gives = { λ e r. r ≡ referee_fault e };

    fn from(fault: RefereeFault) -> Fault {
        match fault {
            RefereeFault::Run(e) => e.into(),
            RefereeFault::Paper(e) => e.into(),
        }
    }
}
