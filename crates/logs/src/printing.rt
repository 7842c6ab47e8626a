// Logs as they are printed.
ghost use Rattle.std.specs.Prelude.{Some, IfOk};
ghost use Rattle.std.specs.Io.KnownBytes.{Appends};
ghost use Rattle.std.specs.List.{All, flat_map};
ghost use Rattle.logs.specs.Sayable.{Fits, Printable};
ghost use Rattle.logs.specs.Printing.{printed, line_words, record_words, done_words, stamp_words, ReadsBack};

use crate::heads::Head;
use memory::kinds::Kind;
use memory::limits::READING_LIMIT;
use memory::records::Record;
use std::io::Write;
use std::{fmt, io};

// What a record did.
#[derive(Clone, Copy)]
struct Done(Record);

impl fmt::Display for Done {
    ghost output = { λ d. Some (done_words d.0.kind d.0.address d.0.value) };

    fn fmt<W: fmt::Write>(&self, f: &mut fmt::Formatter<W>) -> fmt::Result {
        let (address, value) = (self.0.address, self.0.value);
        match self.0.kind {
            Kind::Load => write!(f, "M[{address:x}] == {value}"),
            Kind::Store => write!(f, "M[{address:x}] := {value}"),
            Kind::Fence => f.write_str("sync"),
        }
    }
}

// When; any time is not said.
#[derive(Clone, Copy)]
struct Stamp(Record);

impl fmt::Display for Stamp {
    ghost output = { λ s. Some (stamp_words s.0.enter s.0.commit) };

    fn fmt<W: fmt::Write>(&self, f: &mut fmt::Formatter<W>) -> fmt::Result {
        let (enter, commit) = (self.0.enter, self.0.commit);
        if enter == 0 && commit == READING_LIMIT - 1 {
            return Ok(());
        }
        write!(f, " @ {enter}:{commit}")
    }
}

// The line of a record, without its end.
#[derive(Clone, Copy)]
pub struct Printed(pub Record);

#[tactic(auto, unfolding(crate::specs::Printing::record_words))]
impl fmt::Display for Printed {
    ghost output = { λ p. Some (record_words p.0) };

    fn fmt<W: fmt::Write>(&self, f: &mut fmt::Formatter<W>) -> fmt::Result {
        let processor = self.0.processor;
        write!(f, "{processor}: {}{}", Done(self.0), Stamp(self.0))
    }
}

// Prints the line of a record.
fn print_record<W: Write>(out: &mut W, logged: Record) -> io::Result<()>
    ensures printed { IfOk result (λ _. Appends (W.contents out.old) (W.contents out.new) (line_words logged)) }
    ensures fits { Fits logged }
{
    writeln!(out, "{}", Printed(logged))
}

// Prints the lines of records.
fn print_records<W: Write>(out: &mut W, records: &[Record]) -> io::Result<()>
    ensures printed { IfOk result (λ _. Appends (W.contents out.old) (W.contents out.new) (flat_map line_words records.now)) }
    ensures fits { IfOk result (λ _. All Fits records.now) }
{
    for record in records {
        print_record(out, *record)?;
    }
    Ok(())
}

// Prints a log, of a writer whose bytes are known, behind them. Read, it is the head and the records again.
#[tactic(auto, using(crate::proofs::Back::reads_back_all), unfolding(crate::specs::Printing::printed))]
pub fn print_log<W: Write>(out: &mut W, head: Head, records: &[Record]) -> io::Result<()>
    ensures printed { IfOk result (λ _. Appends (W.contents out.old) (W.contents out.new) (printed head records.now)) }
    ensures reads_back { IfOk result (λ _. All Printable records.now → ReadsBack head records.now) }
{
    writeln!(out, "{head}")?;
    print_records(out, records)
}
