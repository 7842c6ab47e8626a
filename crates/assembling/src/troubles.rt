// Why a log is no run, and why bytes are no run.
ghost use Rattle.std.specs.Prelude.{◌≡◌, Some};
ghost use Rattle.assembling.specs.Words.{bad_record_words, bad_log_words, bad_run_words};
ghost use Rattle.assembling.specs.Assembly.{unread_log};
ghost use Rattle.assembling.specs.declared.troubles.Unassembled.TheVariants as unassembled;
ghost use Rattle.assembling.specs.declared.troubles.Undisassembled.TheVariants as undisassembled;

use logs::troubles::{BadLine, Unread};
use memory::refusals::Fault;
use std::alloc::{AllocError, AllocFailed};
use std::fmt;
use telling::words::Refused;
use wire::faults::RunFault;

// A record that is refused, or a number of processors, and the line that says it.
#[derive(Clone, Copy, Debug, PartialEq, Eq)]
pub struct BadRecord {
    pub line: usize,
    pub fault: Fault,
}

impl fmt::Display for BadRecord {
    ghost output = { λ b. Some (bad_record_words b) };

    fn fmt<W: fmt::Write>(&self, f: &mut fmt::Formatter<W>) -> fmt::Result {
        let BadRecord { line, fault } = *self;
        let refusal = fault.refusal;
        write!(f, "line {line}: {}: {refusal}", Refused(fault))
    }
}

// The first thing that is wrong with a log.
#[derive(Clone, Copy, Debug, PartialEq, Eq)]
pub enum BadLog {
    Line(BadLine),
    Record(BadRecord),
}

impl fmt::Display for BadLog {
    ghost output = { λ b. Some (bad_log_words b) };

    fn fmt<W: fmt::Write>(&self, f: &mut fmt::Formatter<W>) -> fmt::Result {
        match self {
            BadLog::Line(bad) => write!(f, "{bad}"),
            BadLog::Record(bad) => write!(f, "{bad}"),
        }
    }
}

// Why a text is not assembled.
#[derive(Clone, Copy, Debug, PartialEq, Eq)]
pub enum Unassembled {
    Log(BadLog),
    OutOfMemory,
}

impl From<Unread> for Unassembled {
    ghost from_gives = { λ e r. r ≡ unread_log e };

    fn from(error: Unread) -> Unassembled {
        match error {
            Unread::Line(bad) => Unassembled::Log(BadLog::Line(bad)),
            Unread::OutOfMemory => Unassembled::OutOfMemory,
        }
    }
}

impl From<BadLog> for Unassembled {
    ghost from_gives = { λ b r. r ≡ unassembled.Log b };

    fn from(bad: BadLog) -> Unassembled {
        Unassembled::Log(bad)
    }
}

impl From<AllocError> for Unassembled {
    ghost from_gives = { λ _ r. r ≡ unassembled.OutOfMemory };

    fn from(_error: AllocError) -> Unassembled {
        Unassembled::OutOfMemory
    }
}

impl<T: Drop> From<AllocFailed<T>> for Unassembled {
    ghost from_gives = { λ _ r. r ≡ unassembled.OutOfMemory };

    fn from(_error: AllocFailed<T>) -> Unassembled {
        Unassembled::OutOfMemory
    }
}

// A run that is refused.
#[derive(Clone, Copy)]
pub struct BadRun(pub RunFault);

impl fmt::Display for BadRun {
    ghost output = { λ b. Some (bad_run_words b.0) };

    fn fmt<W: fmt::Write>(&self, f: &mut fmt::Formatter<W>) -> fmt::Result {
        let fault = Fault::from(self.0);
        let refusal = fault.refusal;
        write!(f, "{}: {refusal}", Refused(fault))
    }
}

// Why bytes are not disassembled.
#[derive(Clone, Copy)]
pub enum Undisassembled {
    Run(RunFault),
    OutOfMemory,
}

impl From<RunFault> for Undisassembled {
    ghost from_gives = { λ f r. r ≡ undisassembled.Run f };

    fn from(fault: RunFault) -> Undisassembled {
        Undisassembled::Run(fault)
    }
}

impl From<AllocError> for Undisassembled {
    ghost from_gives = { λ _ r. r ≡ undisassembled.OutOfMemory };

    fn from(_error: AllocError) -> Undisassembled {
        Undisassembled::OutOfMemory
    }
}
