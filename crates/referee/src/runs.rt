// Reading a run into a list of records, by the rules of loading.
ghost use Rattle.std.specs.Prelude.{◌≡◌, ◌++◌, List, [], drop, IfOk};
ghost use Rattle.std.specs.Result.{result_err};
ghost use Rattle.memory.specs.declared.records.Record.{Record};
ghost use Rattle.wire.specs.Bytes.{field};
ghost use Rattle.wire.specs.Seen.{left};
ghost use Rattle.wire.specs.Tags.{run_end_tag};
ghost use Rattle.wire.specs.declared.fields.Text.TheVariants.{Run};
ghost use Rattle.case.specs.Loading.{load_fields};
ghost use Rattle.case.specs.Parts.{Walked};
ghost use Rattle.lists.specs.Lists.{entries, Grown};
ghost use Rattle.referee.specs.Runs.{WrittenRun};
ghost use Rattle.referee.specs.Taken.{held, RecordTaken, ReadInto, IsRead};

use lists::lent::LentList;
use memory::admission::judge;
use memory::clocks::Clock;
use memory::models::Model;
use memory::records::Record;
use memory::refusals::Refusal;
use wire::faults::RunFault;
use wire::fields::{Reader, Text};
use wire::runs::{EntryAt, entry_in, head_in};

// One record more, if it is lawful, and a place is left for it.
fn take_record(
    processors: u8,
    found: EntryAt,
    records: &mut LentList<'_, Record>,
) -> Result<(), RunFault>
    ensures { RecordTaken processors found records.old records.new result }
{
    match judge(processors, records.entries(), found.entry) {
        Ok(record) => records
            .push(record)
            .map_err(|_| found.refused(Refusal::Short)),
        Err(refusal) => Err(found.refused(refusal)),
    }
}

// The fields behind the head, up to the end.
fn take_records(
    processors: u8,
    reader: &mut Reader<'_>,
    records: &mut LentList<'_, Record>,
) -> Result<(), RunFault>
    requires { reader.old.text ≡ Run }
    ensures read { ReadInto (load_fields (held processors records.old) reader.old.at (left reader.old)) processors reader.old.at records.old records.new result reader.new.at }
    ensures walked { IfOk result (λ _. Walked reader.old.bytes.now reader.old.at (held processors records.old) (field run_end_tag [] ++ drop reader.new.at reader.old.bytes.now) (held processors records.new)) }
    ensures grown { (more : List Record) × Grown records.old records.new more }
    ensures bytes { reader.new.bytes ≡ reader.old.bytes }
{
    while let Some(found) = entry_in(reader.next()?)? {
        take_record(processors, found, records)?;
    }
    Ok(())
}

// Reads a run into a list with no entries yet. Of the model and the clock it takes the marks alone. A run that is read is written as the same bytes.
pub(crate) fn read_run<M: Model, C: Clock>(
    bytes: &[u8],
    records: &mut LentList<'_, Record>,
) -> Result<(), RunFault>
    requires { entries records.old ≡ [] }
    ensures read { IsRead M.Model.MARK C.Clock.MARK records.old records.new bytes.now (result_err result) }
    ensures written { IfOk result (λ _. WrittenRun M.Model.MARK C.Clock.MARK (entries records.new) bytes.now) }
{
    let mut reader = Reader::over(Text::Run, bytes);
    let head = head_in::<M, C>(reader.next()?)?;
    take_records(head.processors, &mut reader, records)?;
    reader.finish()?;
    Ok(())
}
