// What memory holds while the records of a run come in an order.
ghost use Rattle.std.specs.Prelude.{◌≡◌, Some, IfOk};
ghost use Rattle.memory.specs.Legal.{memory};
ghost use Rattle.memory.specs.Runs.{Setting, at, run_of};
ghost use Rattle.explaining.specs.Memory.{held, HoldsLast, with_store, written, AreWritten, cells, cell_words, memory_words};

use memory::kinds::Kind;
use memory::records::Record;
use std::alloc::{AllocError, Global};
use std::fmt;

// Where there is no record with a number; the numbers of an order all have one.
const BLANK: Record = Record {
    processor: 0,
    kind: Kind::Load,
    address: 0,
    value: 0,
    enter: 0,
    commit: 0,
};

// The record with a number.
pub(crate) fn numbered(records: &[Record], number: u8) -> Record
    ensures { result ≡ at records.now number }
{
    let index = usize::from(number).saturating_sub(1);
    records.get(index).copied().unwrap_or(BLANK)
}

// An address and what it holds.
#[derive(Clone, Copy)]
pub struct Cell {
    pub address: u32,
    pub value: u64,
}

impl fmt::Display for Cell {
    ghost output = { λ c. Some (cell_words c) };

    fn fmt<W: fmt::Write>(&self, f: &mut fmt::Formatter<W>) -> fmt::Result {
        let Cell { address, value } = *self;
        write!(f, "0x{address:x} = {value}")
    }
}

// What an address holds after the records with these numbers, in their order: the value of the last store to it, or 0.
fn held(records: &[Record], front: &[u8], address: u32) -> u64
    ensures value { result ≡ held records.now front.now address }
    ensures memory { (S : Setting) → result ≡ memory (run_of S records.now) front.now address }
    ensures last { HoldsLast records.now front.now address result }
{
    front.iter().fold(0, |value, number| {
        let record = numbered(records, *number);
        if record.kind.is_store() && record.address == address {
            record.value
        } else {
            value
        }
    })
}

// Adds the address of a store, unless it is among them.
fn note_store(addresses: &mut Vec<u32>, record: Record) -> Result<(), AllocError>
    ensures { IfOk result (λ _. addresses.new.items ≡ with_store addresses.old.items «record») }
{
    if record.kind.is_store() && !addresses.contains(&record.address) {
        addresses.push(record.address)?;
    }
    Ok(())
}

// The addresses that these records store to, each once, in the order in which they first do.
fn written(heap: Global, records: &[Record], front: &[u8]) -> Result<Vec<u32>, AllocError>
    ensures value { IfOk result (λ v. v.items ≡ written records.now front.now) }
    ensures stored { IfOk result (λ v. AreWritten records.now front.now v.items) }
{
    let mut addresses = Vec::new(heap);
    for number in front {
        note_store(&mut addresses, numbered(records, *number))?;
    }
    Ok(addresses)
}

// Each written address with what it holds.
pub(crate) fn cells(heap: Global, records: &[Record], front: &[u8]) -> Result<Vec<Cell>, AllocError>
    ensures { IfOk result (λ v. v.items ≡ cells records.now front.now) }
{
    let addresses = written(heap, records, front)?;
    addresses
        .iter()
        .map(|address| Cell {
            address: *address,
            value: held(records, front, *address),
        })
        .collect(heap)
}
