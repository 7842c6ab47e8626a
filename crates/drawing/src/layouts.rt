// Where the records of a run stand in its picture.
use crate::axis::Axis;
use crate::bars::Bar;
use crate::curves::Span;
use crate::geometry::{column_x, row_top};
use crate::lanes::{rows, rows_above};
use memory::records::Record;
use std::alloc::{AllocError, Global};

#[derive(Drop)]
pub struct Layout {
    pub axis: Axis,
    // of each record
    pub spans: Vec<Span>,
}

// A bar in the units of the picture.
fn span_of(axis: &Axis, bar: Bar) -> Span {
    let last = axis.columns().saturating_sub(1);
    Span {
        left: column_x(bar.begin, last),
        right: column_x(bar.end, last),
        top: row_top(bar.row),
    }
}

fn spans_of(heap: Global, axis: &Axis, records: &[Record]) -> Result<Vec<Span>, AllocError> {
    let rows = rows(heap, records)?;
    let mut spans = Vec::new(heap);
    for (drawn, row) in records.iter().zip(&rows) {
        let bar = Bar::of(axis, *drawn, *row);
        spans.push(span_of(axis, bar))?;
    }
    Ok(spans)
}

impl Layout {
    pub fn of(heap: Global, records: &[Record]) -> Result<Layout, AllocError> {
        let axis = Axis::of(heap, records)?;
        let spans = spans_of(heap, &axis, records)?;
        Ok(Layout { axis, spans })
    }

    // The span of the record with a number, from 1 on.
    pub fn span(&self, number: usize) -> Option<Span> {
        self.spans.get(number.checked_sub(1)?).copied()
    }
}

// Where the lane of a processor begins.
pub fn lane_top(records: &[Record], processor: u8) -> usize {
    row_top(rows_above(records, processor))
}
