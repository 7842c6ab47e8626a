// From a run to the text log that says it.
ghost use Rattle.std.specs.Prelude.{◌≡◌, Ok, MatchResult, IfOk};
ghost use Rattle.assembling.specs.Assembly.{assembled};
ghost use Rattle.assembling.specs.Disassembly.{disassembled, head_of, IsFault, Reads};

use crate::troubles::Undisassembled;
use case::cases::Case;
use checker::model_mark;
use judging::marks::{UnderSetting, clock_mark, under_marks};
use logs::heads::{Head, NamedClock, NamedModel};
use logs::printing::print_log;
use memory::clocks::{Clock, NoClock};
use memory::models::{Godson, Model};
use memory::records::Record;
use memory::settings::Setting;
use std::alloc::Global;

// What a run says behind its marks.
#[derive(Drop)]
struct Contents {
    processors: u8,
    records: Vec<Record>,
}

// A run to be read.
#[derive(Clone, Copy, Drop)]
struct Reading<'a> {
    heap: Global,
    run: &'a [u8],
}

impl UnderSetting for Reading<'_> {
    type Answer = Result<Contents, Undisassembled>;

    ghost gives = { λ reading S r. Reads S reading.run.now r };

    fn under<M: Model + Drop, C: Clock + Drop>(
        self,
        setting: Setting<M, C>,
    ) -> Result<Contents, Undisassembled> {
        let mut case = Case::new(self.heap, setting)?;
        case.load(self.run)?;
        Ok(Contents {
            processors: case.processors(),
            records: Vec::from_slice(self.heap, case.records())?,
        })
    }
}

// The model that the head of a run marks.
fn model_of(run: &[u8]) -> NamedModel
    ensures { result ≡ (head_of run.now 0).model }
{
    match model_mark(run) {
        Some(Godson::MARK) => NamedModel::Godson,
        _ => NamedModel::Sc,
    }
}

// The clock that it marks.
fn clock_of(run: &[u8]) -> NamedClock
    ensures { result ≡ (head_of run.now 0).clock }
{
    match clock_mark(run) {
        Some(NoClock::MARK) => NamedClock::NoClock,
        _ => NamedClock::Global,
    }
}

// The text log of a run, all of whose bytes count, or why the run is refused.
pub fn disassemble(heap: Global, run: &[u8]) -> Result<Vec<u8>, Undisassembled>
    ensures value { MatchResult result
        (λ text. disassembled run.now ≡ Ok text.items)
        (IsFault (disassembled run.now)) }
    ensures back { IfOk result (λ text. assembled text.items ≡ Ok run.now) }
{
    let contents = under_marks(run, Reading { heap, run })?;
    let head = Head {
        model: model_of(run),
        clock: clock_of(run),
        processors: contents.processors,
    };
    let mut text = Vec::new(heap);
    // a Vec takes whatever is written, unless memory runs out
    print_log(&mut text, head, &contents.records).map_err(|_| Undisassembled::OutOfMemory)?;
    Ok(text)
}
