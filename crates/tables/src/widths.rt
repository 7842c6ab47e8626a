// The widths of columns, and rows that are filled to them.
ghost use Rattle.std.specs.Prelude.{◌≡◌, [], ◌∷◌, IfOk, map, string_bytes};
ghost use Rattle.tables.specs.Rows.{cells};
ghost use Rattle.tables.specs.Widths.{begins_char, width, width_list, wider, widths, spaces, filled, fitted};
ghost use Rattle.tables.specs.Widths.{to_left, to_right};

use crate::rows::Row;
use std::alloc::{AllocError, Global};

// How many characters each column has.
#[derive(Clone, Copy)]
pub struct Widths {
    pub name: usize,
    pub records: usize,
    pub processors: usize,
    pub model: usize,
    pub clock: usize,
    pub verdict: usize,
    pub steps: usize,
    pub paper: usize,
}

// How many characters a text has: each begins with a byte that continues none.
fn width(text: &str) -> usize
    ensures { result ≡ width text.now }
{
    text.as_bytes()
        .iter()
        .filter(|b| **b < 0x80 || 0xC0 <= **b)
        .count()
}

fn spaces(heap: Global, count: usize) -> Result<String, AllocError>
    ensures { IfOk result (λ s. string_bytes s ≡ spaces count) }
{
    let mut spaces = String::new(heap);
    for _done in 0..count {
        spaces.push(' ')?;
    }
    Ok(spaces)
}

// Words stand at the left of their column.
fn left(heap: Global, text: &str, room: usize) -> Result<String, AllocError>
    ensures { IfOk result (λ s. string_bytes s ≡ filled to_left room text.now) }
{
    let rest = spaces(heap, room.saturating_sub(width(text)))?;
    format!(in heap; "{text}{rest}")
}

// Numbers stand at the right.
fn right(heap: Global, text: &str, room: usize) -> Result<String, AllocError>
    ensures { IfOk result (λ s. string_bytes s ≡ filled to_right room text.now) }
{
    let rest = spaces(heap, room.saturating_sub(width(text)))?;
    format!(in heap; "{rest}{text}")
}

impl Widths {
    // Of columns in which nothing stands.
    fn none() -> Widths
        ensures { width_list result ≡ widths [] }
    {
        Widths {
            name: 0,
            records: 0,
            processors: 0,
            model: 0,
            clock: 0,
            verdict: 0,
            steps: 0,
            paper: 0,
        }
    }

    // So wide that this row fits too.
    fn wider(self, row: &Row) -> Widths
        ensures { width_list result ≡ wider (width_list self) (cells row.now) }
    {
        Widths {
            name: self.name.max(width(&row.name)),
            records: self.records.max(width(&row.records)),
            processors: self.processors.max(width(&row.processors)),
            model: self.model.max(width(&row.model)),
            clock: self.clock.max(width(&row.clock)),
            verdict: self.verdict.max(width(&row.verdict)),
            steps: self.steps.max(width(&row.steps)),
            paper: self.paper.max(width(&row.paper)),
        }
    }

    // The least widths that the headings and all rows fit.
    pub fn of(headings: &Row, rows: &[Row]) -> Widths
        ensures { width_list result ≡ widths (cells headings.now ∷ map cells rows.now) }
    {
        let mut widths = Widths::none().wider(headings);
        for row in rows {
            widths = widths.wider(row);
        }
        widths
    }

    // A row with each cell filled to the width of its column.
    pub fn fit(&self, heap: Global, row: &Row) -> Result<Row, AllocError>
        ensures { IfOk result (λ r. cells r ≡ fitted (width_list self.now) (cells row.now)) }
    {
        Ok(Row {
            judged: row.judged,
            name: left(heap, &row.name, self.name)?,
            records: right(heap, &row.records, self.records)?,
            processors: right(heap, &row.processors, self.processors)?,
            model: left(heap, &row.model, self.model)?,
            clock: left(heap, &row.clock, self.clock)?,
            verdict: left(heap, &row.verdict, self.verdict)?,
            steps: right(heap, &row.steps, self.steps)?,
            paper: right(heap, &row.paper, self.paper)?,
        })
    }
}
