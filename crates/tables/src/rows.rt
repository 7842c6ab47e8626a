// A row for each run: its cells are text.
ghost use Rattle.std.specs.Prelude.{◌≡◌, IfOk, IfSome, is_ok, true, false, map, take, string_bytes};
ghost use Rattle.memory.specs.Limits.{input_limit};
ghost use Rattle.tables.specs.Texts.{shown};
ghost use Rattle.tables.specs.Rows.{cells, headings, of_head, paper_cell, ruled_cells, refused_cells, report_cells, unreadable_cells, IsRowOf};

use crate::texts::shown;
use checker::counted;
use deciding::Report;
use memory::refusals::Fault;
use memory::verdicts::{Verdict, verdict_number};
use std::alloc::{AllocError, Global};
use std::fmt::Display;
use telling::words::{ClockName, ModelName, Refused, VerdictName};
use wire::faults::RunFault;

// So many columns has a table.
pub const COLUMNS: usize = 8;

// The cells of one run. It is judged where it has a verdict or stays undecided, and not where it is refused or could not be read.
#[derive(Drop)]
pub struct Row {
    pub judged: bool,
    pub name: String,
    pub records: String,
    pub processors: String,
    pub model: String,
    pub clock: String,
    pub verdict: String,
    pub steps: String,
    pub paper: String,
}

// How many bytes a paper has, if there is one.
fn paper_cell(heap: Global, paper: &Option<Vec<u8>>) -> Result<String, AllocError>
    ensures { IfOk result (λ s. string_bytes s ≡ paper_cell paper.now) }
{
    match paper {
        Some(bytes) => format!(in heap; "{}", bytes.len()),
        None => format!(in heap; "-"),
    }
}

impl Row {
    // The row above all others, which says what stands in each column.
    pub(crate) fn headings(heap: Global) -> Result<Row, AllocError>
        ensures { IfOk result (λ row. cells row ≡ headings) }
    {
        Ok(Row {
            judged: true,
            name: format!(in heap; "run")?,
            records: format!(in heap; "records")?,
            processors: format!(in heap; "processors")?,
            model: format!(in heap; "model")?,
            clock: format!(in heap; "clock")?,
            verdict: format!(in heap; "verdict")?,
            steps: format!(in heap; "steps")?,
            paper: format!(in heap; "paper bytes")?,
        })
    }

    // The row of a run with this name, of which all is known that the report says.
    pub fn of(heap: Global, name: &str, report: &Report) -> Result<Row, AllocError>
        ensures cells { IfOk result (λ row. cells row ≡ report_cells name.now report.now) }
        ensures judged { IfOk result (λ row. row.judged ≡ is_ok report.now.ruling) }
    {
        match report.ruling {
            Ok(verdict) => ruled(heap, name, report, verdict),
            Err(fault) => refused(heap, name, report, fault),
        }
    }

    // The row of a run in a file that begins with these bytes, of which as many count as for the checker.
    pub fn of_run(heap: Global, name: &str, input: &[u8], steps: u64) -> Result<Row, AllocError>
        ensures { IfOk result (IsRowOf name.now (take input_limit input.now) steps) }
    {
        let report = Report::of(heap, counted(input), steps)?;
        Row::of(heap, name, &report)
    }

    // The row of a file that could not be read.
    pub fn unreadable(heap: Global, name: &str) -> Result<Row, AllocError>
        ensures cells { IfOk result (λ row. cells row ≡ unreadable_cells name.now) }
        ensures judged { IfOk result (λ row. row.judged ≡ false) }
    {
        Ok(Row {
            judged: false,
            name: format!(in heap; "{name}")?,
            records: format!(in heap; "-")?,
            processors: format!(in heap; "-")?,
            model: format!(in heap; "-")?,
            clock: format!(in heap; "-")?,
            verdict: format!(in heap; "unreadable")?,
            steps: format!(in heap; "-")?,
            paper: format!(in heap; "-")?,
        })
    }

    // The row with each cell as it can be shown.
    pub(crate) fn shown(&self, heap: Global) -> Result<Row, AllocError>
        ensures { IfOk result (λ row. cells row ≡ map shown (cells self.now)) }
    {
        Ok(Row {
            judged: self.judged,
            name: shown(heap, &self.name)?,
            records: shown(heap, &self.records)?,
            processors: shown(heap, &self.processors)?,
            model: shown(heap, &self.model)?,
            clock: shown(heap, &self.clock)?,
            verdict: shown(heap, &self.verdict)?,
            steps: shown(heap, &self.steps)?,
            paper: shown(heap, &self.paper)?,
        })
    }

    // The cells from left to right.
    pub(crate) fn cells(&self) -> [&str; COLUMNS]
        ensures { map (λ s. s.now) result ≡ cells self.now }
    {
        [
            self.name.as_str(),
            self.records.as_str(),
            self.processors.as_str(),
            self.model.as_str(),
            self.clock.as_str(),
            self.verdict.as_str(),
            self.steps.as_str(),
            self.paper.as_str(),
        ]
    }
}

fn ruled(
    heap: Global,
    name: &str,
    report: &Report,
    verdict: Option<Verdict>,
) -> Result<Row, AllocError>
    ensures cells { IfOk result (λ row. cells row ≡ ruled_cells name.now report.now verdict) }
    ensures judged { IfOk result (λ row. row.judged ≡ true) }
{
    Ok(Row {
        judged: true,
        name: format!(in heap; "{name}")?,
        records: format!(in heap; "{}", report.records.len())?,
        processors: format!(in heap; "{}", report.processors)?,
        model: format!(in heap; "{}", ModelName(report.model))?,
        clock: format!(in heap; "{}", ClockName(report.clock))?,
        verdict: format!(in heap; "{}", VerdictName(verdict_number(verdict)))?,
        steps: format!(in heap; "{}", report.steps)?,
        paper: paper_cell(heap, &report.paper)?,
    })
}

// A word of the head of a refused run. Where the head itself is refused, which may mark another model or clock, nothing is said.
fn of_head<W: Display + Drop>(heap: Global, fault: RunFault, word: W) -> Result<String, AllocError>
    ensures { IfOk result (λ s. IfSome (W.output word) (λ text. string_bytes s ≡ of_head fault text)) }
{
    match Fault::from(fault).place {
        0 => format!(in heap; "-"),
        _ => format!(in heap; "{word}"),
    }
}

// Of a refused run, what it says of processors is not told: it may stand behind the fault.
fn refused(heap: Global, name: &str, report: &Report, fault: RunFault) -> Result<Row, AllocError>
    ensures cells { IfOk result (λ row. cells row ≡ refused_cells name.now report.now fault) }
    ensures judged { IfOk result (λ row. row.judged ≡ false) }
{
    Ok(Row {
        judged: false,
        name: format!(in heap; "{name}")?,
        records: format!(in heap; "{}", report.records.len())?,
        processors: format!(in heap; "-")?,
        model: of_head(heap, fault, ModelName(report.model))?,
        clock: of_head(heap, fault, ClockName(report.clock))?,
        verdict: format!(in heap; "{}", Refused(Fault::from(fault)))?,
        steps: format!(in heap; "-")?,
        paper: format!(in heap; "-")?,
    })
}
