// What is printed of calls and of cases.
use histories::invocations::Invocation;
use memory::lines::Line;
use memory::verdicts::{Verdict, verdict_number};
use stages::Stage;
use std::fmt;

// A call by its name.
#[derive(Clone, Copy)]
pub struct Named<'a>(pub Invocation<'a>);

impl fmt::Display for Named<'_> {
    fn fmt<W: fmt::Write>(&self, f: &mut fmt::Formatter<W>) -> fmt::Result {
        f.write_str(match self.0 {
            Invocation::Open(_) => "open",
            Invocation::Admit(_) => "admit",
            Invocation::Infer(_) => "infer",
            Invocation::Seal => "seal",
            Invocation::Search(_) => "search",
            Invocation::Load(_) => "load",
            Invocation::WriteRun(_) => "write-run",
            Invocation::WriteSlip(_) => "write-slip",
            Invocation::WritePaper(_) => "write-paper",
        })
    }
}

#[derive(Clone, Copy)]
pub struct Staged(pub Stage);

impl fmt::Display for Staged {
    fn fmt<W: fmt::Write>(&self, f: &mut fmt::Formatter<W>) -> fmt::Result {
        f.write_str(match self.0 {
            Stage::Open => "open",
            Stage::Sealed => "sealed",
            Stage::Decided(_) => "decided",
        })
    }
}

// A verdict's number; an orphan's load behind it.
#[derive(Clone, Copy)]
pub struct Ruled(pub Option<Verdict>);

impl fmt::Display for Ruled {
    fn fmt<W: fmt::Write>(&self, f: &mut fmt::Formatter<W>) -> fmt::Result {
        write!(f, "verdict {}", verdict_number(self.0))?;
        match self.0 {
            Some(Verdict::Orphan(load)) => write!(f, " orphan {load}"),
            _ => Ok(()),
        }
    }
}

// The mark of a search.
#[derive(Clone, Copy)]
pub struct Marked(pub Option<u8>);

impl fmt::Display for Marked {
    fn fmt<W: fmt::Write>(&self, f: &mut fmt::Formatter<W>) -> fmt::Result {
        match self.0 {
            Some(record) => write!(f, "{record}"),
            None => f.write_str("none"),
        }
    }
}

// Lines with a space before each.
#[derive(Clone, Copy)]
pub struct Listed<'a>(pub &'a [Line]);

impl fmt::Display for Listed<'_> {
    fn fmt<W: fmt::Write>(&self, f: &mut fmt::Formatter<W>) -> fmt::Result {
        for line in self.0 {
            let rule = u8::from(line.rule);
            write!(f, " {rule},{},{},{}", line.first, line.second, line.third)?;
        }
        Ok(())
    }
}

// Numbers of records with a space before each.
#[derive(Clone, Copy)]
pub struct Placed<'a>(pub &'a [u8]);

impl fmt::Display for Placed<'_> {
    fn fmt<W: fmt::Write>(&self, f: &mut fmt::Formatter<W>) -> fmt::Result {
        for record in self.0 {
            write!(f, " {record}")?;
        }
        Ok(())
    }
}

// Bytes in hexadecimal, with a space before all of them.
#[derive(Clone, Copy)]
pub struct Hex<'a>(pub &'a [u8]);

impl fmt::Display for Hex<'_> {
    fn fmt<W: fmt::Write>(&self, f: &mut fmt::Formatter<W>) -> fmt::Result {
        if !self.0.is_empty() {
            f.write_str(" ")?;
        }
        for byte in self.0 {
            write!(f, "{byte:02X}")?;
        }
        Ok(())
    }
}
