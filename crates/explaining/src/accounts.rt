// All that is told of a run, as plain data, and its telling.
ghost use Rattle.std.specs.Prelude.{◌++◌, Some, IfOk, codes};
ghost use Rattle.std.specs.Io.KnownBytes.{Appends};
ghost use Rattle.explaining.specs.Accounts.{IsWhy, AreFindings, IsOutcome, IsAccount, loaded_top, refused_top, refused_end, orphan_words, why_sentence, why_rows, why_words, lines_head, lines_words, answer_end, end_words, account_words};
ghost use Rattle.explaining.specs.Orders.{placement_words};
ghost use Rattle.explaining.specs.Reasons.{line_words};
ghost use Rattle.explaining.specs.Records.{table_words};
ghost use Rattle.explaining.specs.Rows.{lines};

use crate::contents::numbered;
use crate::ends::{Answer, Spot, Undecided};
use crate::headings::{
    Bytes, Heading, ReadingLines, RefusalHeading, RefusalLines, Under, VerdictLines,
};
use crate::orders::{Placement, placements};
use crate::reasons::{LineRow, cycle_rows, line_rows};
use crate::records::{RecordRow, Widths, record_rows, tell_table};
use crate::rows::tell_each;
use deciding::Report;
use memory::records::Record;
use memory::refusals::Fault;
use memory::verdicts::Verdict;
use std::alloc::{AllocError, Global};
use std::io::Write;
use std::{fmt, io};
use telling::words::Operation;

// A load that reads what nobody wrote.
#[derive(Clone, Copy)]
pub struct Orphan {
    pub number: u8,
    pub record: Record,
}

// Why a verdict stands.
#[derive(Drop)]
pub enum Why {
    Undecided(Undecided),
    Order(Vec<Placement>),
    // the lines that the last two rest on, these with them
    Opposed(Vec<LineRow>),
    Orphan(Orphan),
    Exhausted,
}

// What came of a run that is not refused.
#[derive(Drop)]
pub struct Findings {
    pub processors: u8,
    pub verdict: Option<Verdict>,
    pub steps: u64,
    pub why: Why,
    pub lines: Vec<LineRow>,
    pub answer: Answer,
}

// Why a run is refused, and which field stands there.
#[derive(Clone, Copy)]
pub struct Refusal {
    pub fault: Fault,
    pub spot: Spot,
}

#[derive(Drop)]
pub enum Outcome {
    Loaded(Findings),
    Refused(Refusal),
}

// All that is told of a run of which so many bytes were given.
#[derive(Drop)]
pub struct Account {
    pub under: Under,
    pub given: usize,
    pub widths: Widths,
    pub records: Vec<RecordRow>,
    pub outcome: Outcome,
}

impl Why {
    // Of a verdict.
    fn of(heap: Global, report: &Report, verdict: Option<Verdict>) -> Result<Why, AllocError>
        ensures { IfOk result (IsWhy report.now verdict) }
    {
        let records = &report.records;
        match verdict {
            None => Ok(Why::Undecided(Undecided::of(report.steps, records.len()))),
            Some(Verdict::Order) => { Ok(Why::Order(placements(heap, records, &report.placed)?)) }
            Some(Verdict::Opposed) => {
                let rows = cycle_rows(heap, records, &report.lines, report.model)?;
                Ok(Why::Opposed(rows))
            }
            Some(Verdict::Orphan(number)) => Ok(Why::Orphan(Orphan {
                number,
                record: numbered(records, number),
            })),
            Some(Verdict::Exhausted) => Ok(Why::Exhausted),
        }
    }
}

impl Findings {
    fn of(heap: Global, report: &Report, verdict: Option<Verdict>) -> Result<Findings, AllocError>
        ensures { IfOk result (AreFindings report.now verdict) }
    {
        let paper = report.paper.as_ref().map(|bytes| bytes.len());
        Ok(Findings {
            processors: report.processors,
            verdict,
            steps: report.steps,
            why: Why::of(heap, report, verdict)?,
            lines: line_rows(heap, &report.records, &report.lines, report.model)?,
            answer: Answer::to(report.clock, paper, verdict, report.steps),
        })
    }
}

impl Outcome {
    fn of(heap: Global, report: &Report) -> Result<Outcome, AllocError>
        ensures { IfOk result (IsOutcome report.now report.now.ruling) }
    {
        match report.ruling {
            Ok(verdict) => Ok(Outcome::Loaded(Findings::of(heap, report, verdict)?)),
            Err(fault) => {
                let fault = Fault::from(fault);
                let spot = Spot::of(fault, report.records.len());
                Ok(Outcome::Refused(Refusal { fault, spot }))
            }
        }
    }
}

impl Account {
    // Of what came of a run of which so many bytes were given.
    pub fn of(heap: Global, report: &Report, given: usize) -> Result<Account, AllocError>
        ensures { IfOk result (IsAccount report.now given) }
    {
        Ok(Account {
            under: Under {
                model: report.model,
                clock: report.clock,
            },
            given,
            widths: Widths::of(&report.records),
            records: record_rows(heap, &report.records)?,
            outcome: Outcome::of(heap, report)?,
        })
    }
}

#[derive(Clone, Copy)]
struct LoadedTop<'a> {
    under: Under,
    given: usize,
    findings: &'a Findings,
}

impl fmt::Display for LoadedTop<'_> {
    ghost output = { λ t. Some (loaded_top t.under t.given t.findings.now) };

    fn fmt<W: fmt::Write>(&self, f: &mut fmt::Formatter<W>) -> fmt::Result {
        let under = self.under;
        let Findings {
            processors,
            verdict,
            steps,
            ..
        } = self.findings;
        let (processors, verdict, steps) = (*processors, *verdict, *steps);
        let heading = Heading {
            under,
            verdict,
            steps,
        };
        let verdict_lines = VerdictLines { verdict, steps };
        let reading = ReadingLines {
            under,
            given: self.given,
        };
        write!(
            f,
            "{heading}\n\n{verdict_lines}\n  processors: {processors}\n{reading}\n"
        )
    }
}

// A refused head gives no model and no clock.
#[derive(Clone, Copy)]
struct RefusedTop {
    under: Under,
    given: usize,
    fault: Fault,
}

impl fmt::Display for RefusedTop {
    ghost output = { λ t. Some (refused_top t.under t.given t.fault) };

    fn fmt<W: fmt::Write>(&self, f: &mut fmt::Formatter<W>) -> fmt::Result {
        let RefusedTop {
            under,
            given,
            fault,
        } = *self;
        let heading = RefusalHeading(fault);
        if fault.place == 0 {
            let bytes = Bytes(given);
            write!(f, "{heading}\n\n  bytes: {bytes}\n")
        } else {
            let reading = ReadingLines { under, given };
            write!(f, "{heading}\n\n{reading}\n")
        }
    }
}

impl fmt::Display for Refusal {
    ghost output = { λ r. Some (refused_end r.fault r.spot) };

    fn fmt<W: fmt::Write>(&self, f: &mut fmt::Formatter<W>) -> fmt::Result {
        let refusal = RefusalLines(self.fault);
        let spot = self.spot;
        write!(f, "\nThe run was refused:\n{refusal}\n{spot}")
    }
}

impl fmt::Display for Orphan {
    ghost output = { λ o. Some (orphan_words o.number o.record) };

    fn fmt<W: fmt::Write>(&self, f: &mut fmt::Formatter<W>) -> fmt::Result {
        let number = self.number;
        let operation = Operation(self.record);
        write!(
            f,
            "\nWhy: record {number} is a {operation}, and no store of the run writes that value there."
        )
    }
}

fn tell_each_line<W: Write>(out: &mut W, rows: &[LineRow]) -> io::Result<()>
    ensures { IfOk result (λ _. Appends (W.contents out.old) (W.contents out.new) (lines line_words rows.now)) }
{
    tell_each(out, rows)
}

fn tell_each_placement<W: Write>(out: &mut W, rows: &[Placement]) -> io::Result<()>
    ensures { IfOk result (λ _. Appends (W.contents out.old) (W.contents out.new) (lines placement_words rows.now)) }
{
    tell_each(out, rows)
}

#[derive(Clone, Copy)]
struct WhySentence<'a>(&'a Why);

impl fmt::Display for WhySentence<'_> {
    ghost output = { λ w. Some (why_sentence w.0.now) };

    fn fmt<W: fmt::Write>(&self, f: &mut fmt::Formatter<W>) -> fmt::Result {
        match self.0 {
            Why::Undecided(undecided) => write!(f, "{undecided}"),
            Why::Order(_) => f.write_str(
                "\nWhy: this order of the records is legal (below each store what memory then holds; all else holds 0):",
            ),
            Why::Opposed(_) => f.write_str(
                "\nWhy: the last of these lines is opposed to another. Each follows from the records and the lines above it:",
            ),
            Why::Orphan(orphan) => write!(f, "{orphan}"),
            Why::Exhausted => f.write_str(
                "\nWhy: the search tried all orders that the model, the clock and the lines allow, record by record.\nIn each some load would not have the value of the last store before it.",
            ),
        }
    }
}

fn tell_why_rows<W: Write>(out: &mut W, why: &Why) -> io::Result<()>
    ensures { IfOk result (λ _. Appends (W.contents out.old) (W.contents out.new) (why_rows why.now)) }
{
    match why {
        Why::Order(placements) => tell_each_placement(out, placements),
        Why::Opposed(cycle) => tell_each_line(out, cycle),
        Why::Undecided(_) | Why::Orphan(_) | Why::Exhausted => Ok(()),
    }
}

fn tell_why<W: Write>(out: &mut W, why: &Why) -> io::Result<()>
    ensures { IfOk result (λ _. Appends (W.contents out.old) (W.contents out.new) (why_words why.now)) }
{
    writeln!(out, "{}", WhySentence(why))?;
    tell_why_rows(out, why)
}

#[derive(Clone, Copy)]
struct LinesHead(usize);

impl fmt::Display for LinesHead {
    ghost output = { λ h. Some (lines_head h.0) };

    fn fmt<W: fmt::Write>(&self, f: &mut fmt::Formatter<W>) -> fmt::Result {
        let count = self.0;
        write!(f, "\nLines listed: {count}")
    }
}

fn tell_lines<W: Write>(out: &mut W, rows: &[LineRow]) -> io::Result<()>
    ensures { IfOk result (λ _. Appends (W.contents out.old) (W.contents out.new) (lines_words rows.now)) }
{
    writeln!(out, "{}", LinesHead(rows.len()))?;
    tell_each_line(out, rows)
}

// The lines that were inferred, and what the checker answers.
fn tell_answer<W: Write>(out: &mut W, rows: &[LineRow], answer: Answer) -> io::Result<()>
    ensures { IfOk result (λ _. Appends (W.contents out.old) (W.contents out.new) (answer_end rows.now answer)) }
{
    tell_lines(out, rows)?;
    writeln!(out, "{answer}")
}

fn tell_end<W: Write>(out: &mut W, findings: &Findings) -> io::Result<()>
    ensures { IfOk result (λ _. Appends (W.contents out.old) (W.contents out.new) (end_words findings.now)) }
{
    tell_why(out, &findings.why)?;
    tell_answer(out, &findings.lines, findings.answer)
}

impl Account {
    fn tell_findings<W: Write>(&self, out: &mut W, findings: &Findings) -> io::Result<()>
        ensures { IfOk result (λ _. Appends (W.contents out.old) (W.contents out.new) (table_words self.now.widths self.now.records.items ++ end_words findings.now)) }
    {
        tell_table(out, self.widths, &self.records)?;
        tell_end(out, findings)
    }

    fn tell_refusal<W: Write>(&self, out: &mut W, refusal: Refusal) -> io::Result<()>
        ensures { IfOk result (λ _. Appends (W.contents out.old) (W.contents out.new) (table_words self.now.widths self.now.records.items ++ (refused_end refusal.fault refusal.spot ++ codes "\n"))) }
    {
        tell_table(out, self.widths, &self.records)?;
        writeln!(out, "{refusal}")
    }

    // All of it; of a writer whose bytes are known, behind them.
    pub fn tell<W: Write>(&self, out: &mut W) -> io::Result<()>
        ensures { IfOk result (λ _. Appends (W.contents out.old) (W.contents out.new) (account_words self.now)) }
    {
        let (under, given) = (self.under, self.given);
        match &self.outcome {
            Outcome::Loaded(findings) => {
                let top = LoadedTop {
                    under,
                    given,
                    findings,
                };
                writeln!(out, "{top}")?;
                self.tell_findings(out, findings)
            }
            Outcome::Refused(refusal) => {
                let fault = refusal.fault;
                let top = RefusedTop {
                    under,
                    given,
                    fault,
                };
                writeln!(out, "{top}")?;
                self.tell_refusal(out, *refusal)
            }
        }
    }
}
