// Why a text is no log.
ghost use Rattle.std.specs.Prelude.{◌≡◌, Some};
ghost use Rattle.logs.specs.Troubles.{expected_words, bad_line_words};
ghost use Rattle.logs.specs.declared.troubles.Unread.TheVariants.{Line, OutOfMemory};

use std::alloc::{AllocError, AllocFailed};
use std::fmt;

// What was expected at the first place of a line where it did not stand, or where the line should not have been.
#[derive(Clone, Copy, Debug, PartialEq, Eq)]
pub enum Expected {
    Beginning,
    Model,
    Clock,
    Processors,
    Processor,
    Colon,
    Operation,
    OpenBracket,
    Address,
    CloseBracket,
    Operator,
    Value,
    Stamp,
    Enter,
    StampColon,
    Commit,
    End,
    OneModel,
    OneClock,
    OneProcessors,
    HeadBefore,
}

impl fmt::Display for Expected {
    ghost output = { λ e. Some (expected_words e) };

    fn fmt<W: fmt::Write>(&self, f: &mut fmt::Formatter<W>) -> fmt::Result {
        f.write_str(match self {
            Expected::Beginning => "a processor number, model, clock or processors",
            Expected::Model => "SC or Godson",
            Expected::Clock => "global or none",
            Expected::Processors => "a number of processors, 255 at most",
            Expected::Processor => "a processor number, 254 at most",
            Expected::Colon => "\":\" after the processor number",
            Expected::Operation => "M or sync",
            Expected::OpenBracket => "\"[\" before the address",
            Expected::Address => "an address, in hexadecimal, of 32 bits at most",
            Expected::CloseBracket => "\"]\" after the address",
            Expected::Operator => "\":=\" for a store or \"==\" for a load",
            Expected::Value => "a value of 64 bits at most",
            Expected::Stamp => "\"@\" and two readings, or the end of the line",
            Expected::Enter => "an enter reading of 64 bits at most",
            Expected::StampColon => "\":\" between the readings",
            Expected::Commit => "a commit reading of 64 bits at most",
            Expected::End => "the end of the line",
            Expected::OneModel => "one model line at most",
            Expected::OneClock => "one clock line at most",
            Expected::OneProcessors => "one processors line at most",
            Expected::HeadBefore => "head lines before the first access",
        })
    }
}

// The first line that cannot be read; lines are numbered from 1.
#[derive(Clone, Copy, Debug, PartialEq, Eq)]
pub struct BadLine {
    pub line: usize,
    pub expected: Expected,
}

impl fmt::Display for BadLine {
    ghost output = { λ b. Some (bad_line_words b) };

    fn fmt<W: fmt::Write>(&self, f: &mut fmt::Formatter<W>) -> fmt::Result {
        let BadLine { line, expected } = *self;
        write!(f, "line {line}: expected {expected}")
    }
}

// Why there is no log.
#[derive(Clone, Copy, Debug, PartialEq, Eq)]
pub enum Unread {
    Line(BadLine),
    OutOfMemory,
}

impl From<BadLine> for Unread {
    ghost from_gives = { λ b e. e ≡ Line b };

    fn from(line: BadLine) -> Unread {
        Unread::Line(line)
    }
}

impl From<AllocError> for Unread {
    ghost from_gives = { λ _ e. e ≡ OutOfMemory };

    fn from(_error: AllocError) -> Unread {
        Unread::OutOfMemory
    }
}

impl<T: Drop> From<AllocFailed<T>> for Unread {
    ghost from_gives = { λ _ e. e ≡ OutOfMemory };

    fn from(_failed: AllocFailed<T>) -> Unread {
        Unread::OutOfMemory
    }
}
