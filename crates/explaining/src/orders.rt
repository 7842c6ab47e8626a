// The interleaving of an order: what each record did, where a load's value is from, and what memory holds after each store.
ghost use Rattle.std.specs.Prelude.{◌≡◌, ◌<◌, length, Some, IfOk};
ghost use Rattle.explaining.specs.Memory.{memory_words};
ghost use Rattle.explaining.specs.Rows.{AreRows};
ghost use Rattle.explaining.specs.Orders.{memory_behind, placement_words, IsPlacement};

use crate::contents::{Cell, cells, numbered};
use finding::source_of;
use memory::records::Record;
use std::alloc::{AllocError, Global};
use std::fmt;
use telling::words::{Operation, Source};

// Each cell behind two spaces.
#[derive(Clone, Copy)]
struct Cells<'a>(&'a [Cell]);

impl fmt::Display for Cells<'_> {
    ghost output = { λ c. Some (memory_words c.0.now) };

    fn fmt<W: fmt::Write>(&self, f: &mut fmt::Formatter<W>) -> fmt::Result {
        for cell in self.0 {
            write!(f, "  {cell}")?;
        }
        Ok(())
    }
}

// Behind a store, what memory then holds.
#[derive(Clone, Copy)]
struct MemoryBehind<'a> {
    record: Record,
    memory: &'a [Cell],
}

impl fmt::Display for MemoryBehind<'_> {
    ghost output = { λ m. Some (memory_behind m.record m.memory.now) };

    fn fmt<W: fmt::Write>(&self, f: &mut fmt::Formatter<W>) -> fmt::Result {
        if self.record.kind.is_store() {
            let cells = Cells(self.memory);
            write!(f, "\n           memory:{cells}")
        } else {
            Ok(())
        }
    }
}

// A record in its place of an order, which is counted from 1, with the store that it reads and with what memory holds after it.
#[derive(Drop)]
pub struct Placement {
    pub place: usize,
    pub number: u8,
    pub record: Record,
    pub store: Option<usize>,
    pub memory: Vec<Cell>,
}

impl fmt::Display for Placement {
    ghost output = { λ p. Some (placement_words p) };

    fn fmt<W: fmt::Write>(&self, f: &mut fmt::Formatter<W>) -> fmt::Result {
        let (place, number) = (self.place, self.number);
        let record = self.record;
        let processor = record.processor;
        let operation = Operation(record);
        let source = Source {
            record,
            store: self.store,
        };
        let memory = MemoryBehind {
            record,
            memory: &self.memory,
        };
        write!(
            f,
            "  {place:>4}. record {number}: P{processor} {operation}{source}{memory}"
        )
    }
}

impl Placement {
    // Of the record at an index of an order.
    fn of(
        heap: Global,
        records: &[Record],
        order: &[u8],
        index: usize,
    ) -> Result<Placement, AllocError>
        requires { index < length order.now }
        ensures { IfOk result (IsPlacement records.now order.now index) }
    {
        let number = order[index];
        let record = numbered(records, number);
        let memory = if record.kind.is_store() {
            cells(heap, records, &order[..=index])?
        } else {
            Vec::new(heap)
        };
        Ok(Placement {
            place: index + 1,
            number,
            record,
            store: source_of(record, records),
            memory,
        })
    }
}

// The records of an order, each in its place.
pub(crate) fn placements(
    heap: Global,
    records: &[Record],
    order: &[u8],
) -> Result<Vec<Placement>, AllocError>
    ensures { IfOk result (λ v. AreRows (IsPlacement records.now order.now) (length order.now) v.items) }
{
    let mut rows = Vec::new(heap);
    for index in 0..order.len() {
        let row = Placement::of(heap, records, order, index)?;
        rows.push(row)?;
    }
    Ok(rows)
}
