// The records in a table, with what each load reads.
ghost use Rattle.std.specs.Prelude.{◌≡◌, ◌<◌, length, Some, IfOk};
ghost use Rattle.std.specs.Fmt.{decimal};
ghost use Rattle.explaining.specs.Records.{IsReading, reading_cell, kind_cell, address_cell, value_cell, record_words, widths_of, head_words, IsRecordRow, table_words};
ghost use Rattle.explaining.specs.Rows.{AreRows, lines};
ghost use Rattle.std.specs.Io.KnownBytes.{Appends};

use crate::rows::tell_each;
use finding::source_of;
use memory::kinds::Kind;
use memory::records::Record;
use std::alloc::{AllocError, Global};
use std::io::Write;
use std::{fmt, io};

// What a record reads: a load finds the value at the start, or reads a store, by its number, or what nobody wrote.
#[derive(Clone, Copy)]
pub enum Reading {
    Nothing,
    Start,
    Store(usize),
    Nobody,
}

impl Reading {
    // What the record reads of a run's records.
    pub fn of(record: Record, records: &[Record]) -> Reading
        ensures { IsReading «record» records.now result }
    {
        if !record.kind.is_load() {
            return Reading::Nothing;
        }
        if record.value == 0 {
            return Reading::Start;
        }
        source_of(record, records).map_or(Reading::Nobody, Reading::Store)
    }
}

impl fmt::Display for Reading {
    ghost output = { λ r. Some (reading_cell r) };

    fn fmt<W: fmt::Write>(&self, f: &mut fmt::Formatter<W>) -> fmt::Result {
        match *self {
            Reading::Nothing => Ok(()),
            Reading::Start => f.write_str("  the start"),
            Reading::Store(store) => write!(f, "  store {store}"),
            Reading::Nobody => f.write_str("  no store"),
        }
    }
}

#[derive(Clone, Copy)]
struct KindCell(Kind);

impl fmt::Display for KindCell {
    ghost output = { λ c. Some (kind_cell c.0) };

    fn fmt<W: fmt::Write>(&self, f: &mut fmt::Formatter<W>) -> fmt::Result {
        f.write_str(match self.0 {
            Kind::Load => "load ",
            Kind::Store => "store",
            Kind::Fence => "fence",
        })
    }
}

// A fence has no address.
#[derive(Clone, Copy)]
struct AddressCell(Record);

impl fmt::Display for AddressCell {
    ghost output = { λ c. Some (address_cell c.0.kind c.0.address) };

    fn fmt<W: fmt::Write>(&self, f: &mut fmt::Formatter<W>) -> fmt::Result {
        let address = self.0.address;
        match self.0.kind {
            Kind::Load | Kind::Store => write!(f, "0x{address:<8x}"),
            Kind::Fence => write!(f, "{:<10}", "-"),
        }
    }
}

// A fence has no value.
#[derive(Clone, Copy)]
struct ValueCell {
    width: usize,
    record: Record,
}

impl fmt::Display for ValueCell {
    ghost output = { λ c. Some (value_cell c.record.kind c.width c.record.value) };

    fn fmt<W: fmt::Write>(&self, f: &mut fmt::Formatter<W>) -> fmt::Result {
        let width = self.width;
        let value = self.record.value;
        match self.record.kind {
            Kind::Load | Kind::Store => write!(f, "{value:>width$}"),
            Kind::Fence => write!(f, "{:>width$}", "-"),
        }
    }
}

// How wide the columns of numbers are.
#[derive(Clone, Copy)]
pub struct Widths {
    pub value: usize,
    pub enter: usize,
    pub commit: usize,
}

// How many digits a number has.
fn digits(n: u64) -> usize
    ensures { result ≡ length (decimal n) }
{
    if n < 10 { 1 } else { digits(n / 10) + 1 }
}

impl Widths {
    // Of the headings and of the numbers below them.
    pub(crate) fn of(records: &[Record]) -> Widths
        ensures { result ≡ widths_of records.now }
    {
        let widest = Widths {
            value: 5,
            enter: 5,
            commit: 6,
        };
        records.iter().fold(
            widest,
            |widths, record| Widths {
                value: widths.value.max(digits(record.value)),
                enter: widths.enter.max(digits(record.enter)),
                commit: widths.commit.max(digits(record.commit)),
            },
        )
    }
}

// A record in the table.
#[derive(Clone, Copy)]
pub struct RecordRow {
    pub widths: Widths,
    pub number: usize,
    pub record: Record,
    pub reading: Reading,
}

impl fmt::Display for RecordRow {
    ghost output = { λ r. Some (record_words r) };

    fn fmt<W: fmt::Write>(&self, f: &mut fmt::Formatter<W>) -> fmt::Result {
        let RecordRow {
            widths,
            number,
            record,
            reading,
        } = *self;
        let processor = record.processor;
        let kind = KindCell(record.kind);
        let address = AddressCell(record);
        let value = ValueCell {
            width: widths.value,
            record,
        };
        let (enter, commit) = (record.enter, record.commit);
        let (enters, commits) = (widths.enter, widths.commit);
        write!(
            f,
            "  {number:>6}  P{processor:<2}  {kind}  {address}  {value}  {enter:>enters$}  {commit:>commits$}{reading}"
        )
    }
}

// How many records there are, and the words above the columns.
#[derive(Clone, Copy)]
struct TableHead {
    widths: Widths,
    count: usize,
}

impl fmt::Display for TableHead {
    ghost output = { λ h. Some (head_words h.widths h.count) };

    fn fmt<W: fmt::Write>(&self, f: &mut fmt::Formatter<W>) -> fmt::Result {
        let Widths {
            value,
            enter,
            commit,
        } = self.widths;
        let count = self.count;
        write!(
            f,
            "Records: {count}\n  record  on   does   address     {:>value$}  {:>enter$}  {:>commit$}  reads",
            "value", "enter", "commit"
        )
    }
}

impl RecordRow {
    // Of the record at an index.
    fn of(records: &[Record], widths: Widths, index: usize) -> RecordRow
        requires inside { index < length records.now }
        requires wide { widths ≡ widths_of records.now }
        ensures { IsRecordRow records.now index result }
    {
        let record = records[index];
        RecordRow {
            widths,
            number: index + 1,
            record,
            reading: Reading::of(record, records),
        }
    }
}

// A row for each record, in program order.
pub(crate) fn record_rows(heap: Global, records: &[Record]) -> Result<Vec<RecordRow>, AllocError>
    ensures { IfOk result (λ v. AreRows (IsRecordRow records.now) (length records.now) v.items) }
{
    let widths = Widths::of(records);
    let mut rows = Vec::new(heap);
    for index in 0..records.len() {
        rows.push(RecordRow::of(records, widths, index))?;
    }
    Ok(rows)
}

fn tell_each_row<W: Write>(out: &mut W, rows: &[RecordRow]) -> io::Result<()>
    ensures { IfOk result (λ _. Appends (W.contents out.old) (W.contents out.new) (lines record_words rows.now)) }
{
    tell_each(out, rows)
}

pub(crate) fn tell_table<W: Write>(
    out: &mut W,
    widths: Widths,
    rows: &[RecordRow],
) -> io::Result<()>
    ensures { IfOk result (λ _. Appends (W.contents out.old) (W.contents out.new) (table_words widths rows.now)) }
{
    let count = rows.len();
    writeln!(out, "{}", TableHead { widths, count })?;
    tell_each_row(out, rows)
}
