// What the program answers: a run's bytes in, slip and paper or a notice out.
#![tactic(auto)]

ghost use Rattle.std.specs.Prelude.{◌≡◌, take, IfOk, slice_get};
ghost use Rattle.checker.specs.Output.{concluded, verdict_bytes, output, answer_to, OutputClaims};
ghost use Rattle.checker.specs.Promise.{VerdictsAndPapersAreTrue};
ghost use Rattle.memory.specs.Limits.{input_limit};
ghost use Rattle.memory.specs.Settings.{setting_of};
ghost use Rattle.case.specs.Views.{view};
ghost use Rattle.wire.specs.Bytes.{notice_bytes};
ghost use Rattle.wire.specs.Faults.{run_fault};

use case::cases::Case;
use memory::clocks::{Clock, GlobalClock};
use memory::limits::{INPUT_LIMIT, PROGRAM_STEPS};
use memory::models::{Godson, Model, Sc};
use memory::settings::Setting;
use std::alloc::{AllocError, Global};
use wire::faults::RunFault;
use wire::writing;
use wire::writing::MOST_PAPER;

// Room for a slip of 12 bytes and any paper, or for a notice.
const OUTPUT_ROOM: usize = 12 + MOST_PAPER;

// Lines are inferred to the end, then steps are searched. Either is refused where the case is decided, which then stays as it was.
fn conclude<M: Model, C: Clock>(case: &mut Case<M, C>)
    ensures { view case.new ≡ concluded (setting_of M.Model C.Clock case.old.setting) (view case.old) }
{
    let _ = case.infer(u64::MAX);
    let _ = case.search(PROGRAM_STEPS);
}

// The slip, then the paper, if there is one. A case writes into lent bytes, which `room` is.
fn write_verdict<'a, M: Model, C: Clock>(
    case: &Case<M, C>,
    room: &'a mut [u8; OUTPUT_ROOM],
) -> &'a [u8]
    ensures { result.now ≡ verdict_bytes M.Model.MARK C.Clock.MARK (view case.now) }
{
    let slip = case.write_slip(room).unwrap();
    let paper = case.write_paper(&mut room[slip..]).unwrap_or(0);
    &room[..slip + paper]
}

fn write_refusal<'a>(fault: RunFault, room: &'a mut [u8; OUTPUT_ROOM]) -> &'a [u8]
    ensures { result.now ≡ notice_bytes (run_fault fault) }
{
    let notice = writing::write_notice(room, fault.into()).unwrap();
    &room[..notice]
}

// What is written for the bytes of a run, under a model and a clock; what its verdict claims of the records read is true. And the promise under this
// model and clock: after every history of calls on a case, its lines and its verdict are sound, it is decided once enough steps were asked for, and
// its papers are accepted by the referee; and what the referee accepts is true.
pub fn check<M: Model + Drop, C: Clock + Drop>(
    heap: Global,
    setting: Setting<M, C>,
    bytes: &[u8],
) -> Result<Vec<u8>, AllocError>
    ensures bytes { IfOk result (λ v. v.items ≡ output (setting_of M.Model C.Clock setting) bytes.now) }
    ensures claims { OutputClaims (setting_of M.Model C.Clock setting) bytes.now }
    ensures promise { VerdictsAndPapersAreTrue (setting_of M.Model C.Clock setting) }
{
    let mut case = Case::new(heap, setting)?;
    let mut room = [0; OUTPUT_ROOM];
    let answer = match case.load(bytes) {
        Ok(_) => {
            conclude(&mut case);
            write_verdict(&case, &mut room)
        }
        Err(fault) => write_refusal(fault, &mut room),
    };
    Vec::from_slice(heap, answer)
}

// The bytes of the input that count.
pub fn counted(input: &[u8]) -> &[u8]
    ensures { result.now ≡ take input_limit input.now }
{
    &input[..INPUT_LIMIT.min(input.len())]
}

// The byte in which a run's head marks its model, if there is one.
pub fn model_mark(bytes: &[u8]) -> Option<u8>
    ensures { result ≡ slice_get bytes.now 4 }
{
    bytes.get(4).copied()
}

// What the program writes for its input: the model by the head's mark, the clock Global. The two models are two types, so that
// each caller of `model_mark` branches itself.
pub fn answer(heap: Global, input: &[u8]) -> Result<Vec<u8>, AllocError>
    ensures { IfOk result (λ v. v.items ≡ answer_to input.now) }
{
    let bytes = counted(input);
    if model_mark(bytes) == Some(Godson::MARK) {
        let setting = Setting {
            model: Godson,
            clock: GlobalClock,
        };
        check(heap, setting, bytes)
    } else {
        let setting = Setting {
            model: Sc,
            clock: GlobalClock,
        };
        check(heap, setting, bytes)
    }
}
