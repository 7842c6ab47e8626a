// Which store a load reads, and orphans.
ghost use Rattle.std.specs.Prelude.{◌≡◌, length};
ghost use Rattle.std.specs.List.{list_any};
ghost use Rattle.memory.specs.Reading.{reads_from, unread, orphan, names_orphan, first_orphan, Least};

use crate::records::{Record, record_at};

// The first is a load of a value other than 0, the second the store with its address and value.
pub fn reads_from(load: Record, store: Record) -> bool
    ensures { result ≡ reads_from load store }
{
    load.kind.is_load()
        && load.value != 0
        && store.kind.is_store()
        && store.address == load.address
        && store.value == load.value
}

fn reads_any(load: Record, records: &[Record]) -> bool
    ensures { result ≡ list_any (reads_from load) records.now }
{
    records.iter().any(|store| reads_from(load, *store))
}

fn is_unread(load: Record, records: &[Record]) -> bool
    ensures { result ≡ unread records.now load }
{
    load.kind.is_load() && load.value != 0 && !reads_any(load, records)
}

// The number of the smallest orphan, if there is one.
pub fn smallest_orphan(records: &[Record]) -> Option<usize>
    ensures value { result ≡ first_orphan records.now }
    ensures least { Least (orphan records.now) (length records.now) result }
{
    records
        .iter()
        .position(|r| is_unread(*r, records))
        .map(|index| index + 1)
}

// The number is that of an orphan.
pub fn is_orphan(records: &[Record], number: u8) -> bool
    ensures { result ≡ names_orphan records.now number }
{
    record_at(records, number).is_some_and(|load| is_unread(load, records))
}
