// What is lawful at admission, judged in one place.
ghost use Rattle.std.specs.Prelude.{◌≡◌, Some, OnErr};
ghost use Rattle.memory.specs.Admission.{opening_judgement, judgement, judge_kind, blank_entry, last_enter, same_store};
ghost use Rattle.memory.specs.Lawful.{Breaks};
ghost use Rattle.std.specs.List.{list_any};

use crate::kinds::Kind;
use crate::limits::{MOST_PROCESSORS, MOST_RECORDS, READING_LIMIT};
use crate::records::{Entry, Record};
use crate::refusals::Refusal;

// Whether a run may have so many processors.
pub fn judge_opening(processors: u8) -> Result<(), Refusal>
    ensures { result ≡ opening_judgement processors }
{
    if !(1..=MOST_PROCESSORS).contains(&processors) {
        return Err(Refusal::Stranger);
    }
    Ok(())
}

// A store of 0, or a fence with an address or a value.
fn is_blank(kind: Kind, e: Entry) -> bool
    ensures { result ≡ blank_entry kind e }
{
    match kind {
        Kind::Load => false,
        Kind::Store => e.value == 0,
        Kind::Fence => e.address != 0 || e.value != 0,
    }
}

// The enter reading of the processor's last record, or 0.
fn last_enter(records: &[Record], processor: u8) -> u64
    ensures { result ≡ last_enter records.now processor }
{
    records.iter().fold(
        0,
        |last, r| if r.processor == processor {
            r.enter
        } else {
            last
        },
    )
}

fn is_same_store(r: Record, e: Entry) -> bool
    ensures { result ≡ same_store e r }
{
    r.kind.is_store() && r.address == e.address && r.value == e.value
}

fn has_twin(records: &[Record], e: Entry) -> bool
    ensures { result ≡ list_any (same_store e) records.now }
{
    records.iter().any(|r| is_same_store(*r, e))
}

// The record that an entry becomes in a run of so many processors after these records, or why it is refused. Nothing is refused that the
// rules of a run allow.
pub fn judge(processors: u8, records: &[Record], e: Entry) -> Result<Record, Refusal>
    ensures value { result ≡ judgement processors records.now e }
    ensures breaks { OnErr result (Breaks processors records.now e) }
{
    if records.len() >= MOST_RECORDS {
        return Err(Refusal::Full);
    }
    if e.processor >= processors {
        return Err(Refusal::Stranger);
    }
    let kind = Kind::try_from(e.kind)?;
    judge_content(kind, records, e)
}

fn judge_content(kind: Kind, records: &[Record], e: Entry) -> Result<Record, Refusal>
    ensures { result ≡ judge_kind (Some kind) records.now e }
{
    if is_blank(kind, e) {
        return Err(Refusal::Blank);
    }
    if e.enter >= READING_LIMIT || e.commit >= READING_LIMIT {
        return Err(Refusal::Range);
    }
    if e.commit < e.enter || e.enter < last_enter(records, e.processor) {
        return Err(Refusal::Backward);
    }
    if kind.is_store() && has_twin(records, e) {
        return Err(Refusal::Twin);
    }
    Ok(Record {
        processor: e.processor,
        kind,
        address: e.address,
        value: e.value,
        enter: e.enter,
        commit: e.commit,
    })
}
