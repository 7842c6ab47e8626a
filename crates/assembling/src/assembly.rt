// From a text log to the run that it says.
ghost use Rattle.std.specs.Prelude.{◌≡◌, ◌^◌, ◌<◌, [], MatchResult, IfOk, IfErr, Ok, map};
ghost use Rattle.wire.specs.Bytes.{run_bytes};
ghost use Rattle.logs.specs.Heads.{model_mark, clock_mark};
ghost use Rattle.logs.specs.Reading.{lines_of, log_of};
ghost use Rattle.assembling.specs.Assembly.{refused_behind, admitted, strange, strange_line, assembled, IsRefusal};
ghost use Rattle.assembling.specs.RoundTrips.{IsRunOf, Explains};

use crate::troubles::{BadLog, BadRecord, Unassembled};
use logs::heads::Head;
use logs::reading::{Access, read_log};
use logs::troubles::Unread;
use memory::admission::{judge, judge_opening};
use memory::records::Record;
use memory::refusals::{Fault, Layer, Refusal};
use std::alloc::{AllocError, Global};
use wire::fields::RunHead;
use wire::writing::write_run;

// What a line says is refused behind so many records.
fn refused_behind(records: usize, line: usize, refusal: Refusal) -> BadLog
    requires { records < 2 ^ 63 }
    ensures { result ≡ refused_behind records line refusal }
{
    let fault = Fault {
        refusal,
        layer: Layer::Content,
        place: records + 1,
    };
    BadLog::Record(BadRecord { line, fault })
}

// The records that accesses become, admitted one by one.
#[tactic(auto, using(crate::proofs::Admission::one_more, crate::proofs::Admission::stops_there, crate::proofs::Admission::at_the_end))]
fn admitted(heap: Global, processors: u8, accesses: &[Access]) -> Result<Vec<Record>, Unassembled>
    ensures { MatchResult result
        (λ records. admitted processors [] accesses.now ≡ Ok records.items)
        (IsRefusal (admitted processors [] accesses.now)) }
{
    let mut records = Vec::new(heap);
    for access in accesses {
        match judge(processors, &records, access.entry) {
            Ok(record) => records.push(record)?,
            Err(refusal) => {
                let bad = refused_behind(records.len(), access.line, refusal);
                return Err(bad.into());
            }
        }
    }
    Ok(records)
}

// The bytes of a run.
#[tactic(auto, using(crate::proofs::Written::run_whole))]
fn run_of(heap: Global, head: Head, records: &[Record]) -> Result<Vec<u8>, AllocError>
    ensures { IfOk result (λ bytes. bytes.items ≡ run_bytes head.processors (model_mark head.model) (clock_mark head.clock) records.now) }
{
    let mut bytes = vec![in heap; 0; 9 + 33 * records.len()]?;
    let marked = RunHead {
        processors: head.processors,
        model: head.model.mark(),
        clock: head.clock.mark(),
    };
    // it has just so many bytes
    let _ = write_run(&mut bytes, marked, records);
    Ok(bytes)
}

// The line alone says a number of processors that no run may have.
fn is_strange(heap: Global, line: &[u8]) -> Result<bool, Unassembled>
    ensures value { IfOk result (λ is. is ≡ strange (log_of line.now)) }
    ensures memory { IfErr result (λ e. e ≡ Unassembled.OutOfMemory) }
{
    match read_log(heap, line) {
        Ok(log) => Ok(judge_opening(log.head.processors).is_err()),
        Err(Unread::Line(_)) => Ok(false),
        Err(Unread::OutOfMemory) => Err(Unassembled::OutOfMemory),
    }
}

// The lines of a text.
fn lines_in(heap: Global, text: &[u8]) -> Result<Vec<&[u8]>, AllocError>
    ensures { IfOk result (λ lines. map (λ x. x.now) lines.items ≡ lines_of text.now) }
{
    text.split(|b| *b == b'\n').collect(heap)
}

// The first line that does so.
#[tactic(auto, using(crate::proofs::Strange::goes_on, crate::proofs::Strange::is_there, crate::proofs::Strange::none_left))]
fn strange_line(heap: Global, text: &[u8]) -> Result<usize, Unassembled>
    ensures value { IfOk result (λ n. n ≡ strange_line 1 (lines_of text.now)) }
    ensures memory { IfErr result (λ e. e ≡ Unassembled.OutOfMemory) }
{
    let lines = lines_in(heap, text)?;
    let mut number = 1;
    for line in &lines {
        if is_strange(heap, line)? {
            return Ok(number);
        }
        number += 1;
    }
    Ok(number)
}

// The bytes of the run that a text says, or the first thing that is wrong with it.
#[tactic(auto, using(crate::proofs::Refusals::explained))]
pub fn assemble(heap: Global, text: &[u8]) -> Result<Vec<u8>, Unassembled>
    ensures value { MatchResult result
        (λ bytes. assembled text.now ≡ Ok bytes.items)
        (IsRefusal (assembled text.now)) }
    ensures run { IfOk result (λ bytes. IsRunOf text.now bytes.items) }
    ensures refusal { IfErr result (Explains text.now) }
{
    let log = read_log(heap, text)?;
    let Head { processors, .. } = log.head;
    if let Err(refusal) = judge_opening(processors) {
        let line = strange_line(heap, text)?;
        return Err(refused_behind(0, line, refusal).into());
    }
    let records = admitted(heap, processors, &log.accesses)?;
    Ok(run_of(heap, log.head, &records)?)
}
