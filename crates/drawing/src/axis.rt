// The axis of readings.
ghost use Rattle.std.specs.Prelude.{◌≡◌, ◌<◌, IfOk, IfSome, slice_index, slice_get};
ghost use Rattle.drawing.specs.Axis.{column, columns, readings_of, KeepsTime, EachColumn};

use memory::records::Record;
use std::alloc::{AllocError, Global};

// Each distinct reading of a run has a column, the columns in the order of the readings.
#[derive(Drop)]
pub struct Axis {
    readings: Vec<u64>,
}

// The readings of a run, as often as they occur.
fn readings_of(heap: Global, records: &[Record]) -> Result<Vec<u64>, AllocError>
    ensures { IfOk result (λ v. v.items ≡ readings_of records.now) }
{
    let enters = records.iter().map(|record| record.enter);
    let commits = records.iter().map(|record| record.commit);
    enters.chain(commits).collect(heap)
}

impl Axis {
    pub fn of(heap: Global, records: &[Record]) -> Result<Axis, AllocError>
        ensures time { IfOk result (KeepsTime records.now) }
        ensures columns { IfOk result (EachColumn records.now) }
    {
        let mut readings = readings_of(heap, records)?;
        readings.sort()?;
        readings.dedup();
        Ok(Axis { readings })
    }

    pub fn columns(&self) -> usize
        ensures { result ≡ columns self.now }
    {
        self.readings.len()
    }

    // The column of a reading, from 0 on.
    pub fn column(&self, reading: u64) -> usize
        ensures { result ≡ column self.now reading }
    {
        self.readings
            .iter()
            .filter(|other| **other < reading)
            .count()
    }

    // The reading that stands in a column.
    pub fn reading(&self, column: usize) -> Option<u64>
        ensures { result ≡ slice_get self.now.readings.items column }
    {
        self.readings.get(column).copied()
    }
}
