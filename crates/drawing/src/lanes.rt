// The lanes of the processors, and the rows of the records in them.
ghost use Rattle.std.specs.Prelude.{◌≡◌, ◌+◌, ◌-◌, ◌<◌, IfOk, length, slice_index};
ghost use Rattle.drawing.specs.Lanes.{records_of, lane_rows, rows_above, row, InLanes};

use memory::records::Record;
use std::alloc::{AllocError, Global};

// How many records are a processor's.
fn records_of(records: &[Record], processor: u8) -> usize
    ensures { result ≡ records_of records.now processor }
{
    records
        .iter()
        .filter(|record| record.processor == processor)
        .count()
}

// How many rows a processor's lane has: one for each of its records, and one where it has none.
pub fn lane_rows(records: &[Record], processor: u8) -> usize
    ensures { result ≡ lane_rows records.now processor }
{
    records_of(records, processor).max(1)
}

// How many rows are above it.
pub fn rows_above(records: &[Record], processor: u8) -> usize
    ensures { result ≡ rows_above records.now processor }
{
    let mut rows = 0;
    for above in 0..processor {
        rows += lane_rows(records, above);
    }
    rows
}

// The row of the record at an index.
fn row_of(records: &[Record], index: usize) -> usize
    requires { index < length records.now }
    ensures { result ≡ row records.now (index + 1) }
{
    let processor = records[index].processor;
    rows_above(records, processor) + records_of(&records[..index], processor)
}

// The row of each record, from 0 at the top.
pub fn rows(heap: Global, records: &[Record]) -> Result<Vec<usize>, AllocError>
    ensures { IfOk result (λ v. InLanes records.now v.items) }
{
    let mut rows = Vec::new(heap);
    for index in 0..records.len() {
        rows.push(row_of(records, index))?;
    }
    Ok(rows)
}
