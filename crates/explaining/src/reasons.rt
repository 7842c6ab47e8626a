// The lines that inference lists, each with its reason.
ghost use Rattle.std.specs.Prelude.{◌≡◌, ◌<◌, ◌≤◌, length, slice_index, Some, IfOk, All};
ghost use Rattle.explaining.specs.Reasons.{RestsOn, IsReason, reason_words, reason_behind, opposed_behind, line_words, IsLineRow, AreLineRows, AreCycleRows};
ghost use Rattle.explaining.specs.Rows.{AreRows};
ghost use Rattle.memory.specs.Runs.{at};

use finding::resting::cycle;
use finding::{opposed_line, source_of};
use memory::lines::{Line, Rule};
use memory::records::{Record, record_at};
use std::alloc::{AllocError, Global};
use std::fmt;
use telling::words::ModelName;

// Why a line follows, with what its sentence needs besides: the line's two records, the number of the record that it rests on besides, or 0,
// and the mark of the model.
#[derive(Clone, Copy)]
pub struct Reason {
    pub line: Line,
    pub first: Record,
    pub second: Record,
    pub rests_on: usize,
    pub model: u8,
}

impl fmt::Display for Reason {
    ghost output = { λ r. Some (reason_words r.line.rule r.line r.first r.second r.rests_on r.model) };

    fn fmt<W: fmt::Write>(&self, f: &mut fmt::Formatter<W>) -> fmt::Result {
        let (first, second, third) = (self.line.first, self.line.second, self.rests_on);
        let address = self.first.address;
        match self.line.rule {
            Rule::Clock => {
                let (processor, commit) = (self.first.processor, self.first.commit);
                let (other, enter) = (self.second.processor, self.second.enter);
                write!(
                    f,
                    "{first} commits on P{processor} at {commit}, surely earlier than {second} enters on P{other} at {enter}"
                )
            }
            Rule::Model => {
                let processor = self.first.processor;
                let model = ModelName(self.model);
                write!(
                    f,
                    "both are of P{processor}, {first} is earlier in program order, and {model} orders them"
                )
            }
            Rule::ReadsFrom => write!(
                f,
                "{second} is a load of 0x{address:x} that reads the store {first}"
            ),
            Rule::InitialRead => write!(
                f,
                "{first} loads 0 from 0x{address:x}, the value at the start, and {second} stores to it"
            ),
            Rule::Coherence => write!(
                f,
                "the load {third} reads the store {second}, and {first}, another store to 0x{address:x}, is listed before {third}"
            ),
            Rule::FromRead => write!(
                f,
                "the load {first} reads the store {third}, and {third} is listed before {second}, another store to 0x{address:x}"
            ),
            Rule::Transitive => write!(
                f,
                "{first} is listed before {third}, and {third} before {second}"
            ),
        }
    }
}

// The record that a line rests on besides its two: its third or, by from-read, where it names none, the store that the first reads.
fn rests_on(records: &[Record], line: Line, first: Record) -> Option<usize>
    requires { first ≡ at records.now line.first }
    ensures { RestsOn records.now line line.rule result }
{
    match line.rule {
        Rule::FromRead => source_of(first, records),
        _ => Some(usize::from(line.third)),
    }
}

impl Reason {
    // There is one for each line of a case, whose numbers are those of its records.
    fn of(records: &[Record], line: Line, model: u8) -> Option<Reason>
        ensures { IsReason records.now line model result }
    {
        let first = record_at(records, line.first)?;
        let second = record_at(records, line.second)?;
        let rests_on = rests_on(records, line, first)?;
        Some(Reason {
            line,
            first,
            second,
            rests_on,
            model,
        })
    }
}

// A line of a list, by its number there, with its reason and the first line that it is opposed to.
#[derive(Clone, Copy)]
pub struct LineRow {
    pub number: usize,
    pub line: Line,
    pub reason: Option<Reason>,
    pub opposed: Option<usize>,
}

// Behind the line's two records.
#[derive(Clone, Copy)]
struct ReasonBehind(Option<Reason>);

impl fmt::Display for ReasonBehind {
    ghost output = { λ r. Some (reason_behind r.0) };

    fn fmt<W: fmt::Write>(&self, f: &mut fmt::Formatter<W>) -> fmt::Result {
        match self.0 {
            Some(reason) => write!(f, ": {reason}"),
            None => Ok(()),
        }
    }
}

#[derive(Clone, Copy)]
struct OpposedBehind(Option<usize>);

impl fmt::Display for OpposedBehind {
    ghost output = { λ o. Some (opposed_behind o.0) };

    fn fmt<W: fmt::Write>(&self, f: &mut fmt::Formatter<W>) -> fmt::Result {
        match self.0 {
            Some(line) => write!(f, " (opposed to line {line})"),
            None => Ok(()),
        }
    }
}

impl fmt::Display for LineRow {
    ghost output = { λ r. Some (line_words r) };

    fn fmt<W: fmt::Write>(&self, f: &mut fmt::Formatter<W>) -> fmt::Result {
        let number = self.number;
        let rule = u8::from(self.line.rule);
        let (first, second) = (self.line.first, self.line.second);
        let reason = ReasonBehind(self.reason);
        let opposed = OpposedBehind(self.opposed);
        write!(
            f,
            "  line {number}, rule {rule}: {first} before {second}{reason}{opposed}"
        )
    }
}

impl LineRow {
    // Of the line with a number, from 1, of a case with these records, under the model with a mark.
    fn of(records: &[Record], lines: &[Line], model: u8, number: usize) -> LineRow
        requires from_one { 0 < number }
        requires listed { number ≤ length lines.now }
        ensures { IsLineRow records.now lines.now model number result }
    {
        let line = lines[number - 1];
        LineRow {
            number,
            line,
            reason: Reason::of(records, line, model),
            opposed: opposed_line(line, lines),
        }
    }
}

// A row for each line, in the order in which they were listed.
pub(crate) fn line_rows(
    heap: Global,
    records: &[Record],
    lines: &[Line],
    model: u8,
) -> Result<Vec<LineRow>, AllocError>
    ensures { IfOk result (λ v. AreLineRows records.now lines.now model v.items) }
{
    let mut rows = Vec::new(heap);
    for index in 0..lines.len() {
        rows.push(LineRow::of(records, lines, model, index + 1))?;
    }
    Ok(rows)
}

// A row for each of the lines with these numbers.
fn numbered_rows(
    heap: Global,
    records: &[Record],
    lines: &[Line],
    model: u8,
    numbers: &[usize],
) -> Result<Vec<LineRow>, AllocError>
    requires { All (λ k. (0 < k) × (k ≤ length lines.now)) numbers.now }
    ensures { IfOk result (λ v. AreRows (λ i. IsLineRow records.now lines.now model (slice_index numbers.now i)) (length numbers.now) v.items) }
{
    let mut rows = Vec::new(heap);
    for number in numbers {
        rows.push(LineRow::of(records, lines, model, *number))?;
    }
    Ok(rows)
}

// A row for each line that the last two rest on, where these are opposed.
pub(crate) fn cycle_rows(
    heap: Global,
    records: &[Record],
    lines: &[Line],
    model: u8,
) -> Result<Vec<LineRow>, AllocError>
    ensures { IfOk result (λ v. AreCycleRows records.now lines.now model v.items) }
{
    let numbers = cycle(heap, records, lines)?;
    numbered_rows(heap, records, lines, model, &numbers)
}
