// What is logged, and what is admitted.
ghost use Rattle.std.specs.Prelude.{◌≡◌, ◌<◌, ◌≤◌, length, MatchOption};
ghost use Rattle.memory.specs.Runs.{at, shares};

use crate::kinds::Kind;

// An entry as it was logged: nothing of it is judged, and its kind is any number.
#[derive(Clone, Copy)]
pub struct Entry {
    pub processor: u8,
    pub kind: u8,
    pub address: u32,
    pub value: u64,
    pub enter: u64,
    pub commit: u64,
}

// A record that was admitted to a run. A type of its own, though only its kind differs: what is not judged cannot be taken for it.
// It took effect at some time from its enter to its commit reading, its pending period.
#[derive(Clone, Copy)]
pub struct Record {
    pub processor: u8,
    pub kind: Kind,
    pub address: u32,
    pub value: u64,
    pub enter: u64,
    pub commit: u64,
}

impl Record {
    // Both are of one address; a fence has none.
    pub fn shares_address(self, other: Record) -> bool
        ensures { result ≡ shares self other }
    {
        !self.kind.is_fence() && !other.kind.is_fence() && self.address == other.address
    }
}

// The record with a number; they are counted from 1.
pub fn record_at(records: &[Record], number: u8) -> Option<Record>
    ensures { MatchOption result
        (0 < number → length records.now < number)
        (λ r. (0 < number) × (number ≤ length records.now) × (r ≡ at records.now number)) }
{
    records.get(usize::from(number).checked_sub(1)?).copied()
}
