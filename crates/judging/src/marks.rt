// The model and the clock that the head of a run marks. They are types, so that what is done under them is generic, and this branches on both.
ghost use Rattle.std.specs.Prelude.{◌≡◌, ◌==◌, slice_get, slice_index};
ghost use Rattle.memory.specs.Runs.{Setting as Relations};
ghost use Rattle.memory.specs.Settings.{setting_of};
ghost use Rattle.judging.specs.Marked.{marked};

use checker::model_mark;
use memory::clocks::{Clock, GlobalClock, NoClock};
use memory::models::{Godson, Model, Sc};
use memory::settings::Setting;

// The byte in which a run's head marks its clock, if there is one.
pub fn clock_mark(bytes: &[u8]) -> Option<u8>
    ensures { result ≡ slice_get bytes.now 5 }
{
    bytes.get(5).copied()
}

// The head marks Godson.
#[tactic(auto, using(crate::proofs::Heads::marks))]
fn is_godson(run: &[u8]) -> bool
    ensures { result ≡ (slice_index run.now 4 == 3) }
{
    model_mark(run) == Some(Godson::MARK)
}

// The head marks the clock None.
#[tactic(auto, using(crate::proofs::Heads::marks))]
fn has_no_clock(run: &[u8]) -> bool
    ensures { result ≡ (slice_index run.now 5 == 3) }
{
    clock_mark(run) == Some(NoClock::MARK)
}

// What can be done under any model and clock; what it then gives is told of the setting.
pub trait UnderSetting {
    type Answer;

    ghost gives: { Self → Relations → Self.Answer → Type 0 };

    fn under<M: Model + Drop, C: Clock + Drop>(self, setting: Setting<M, C>) -> Self::Answer
        ensures { gives self (setting_of M.Model C.Clock setting) result };
}

fn setting<M, C>(model: M, clock: C) -> Setting<M, C>
    ensures model { result.model ≡ model }
    ensures clock { result.clock ≡ clock }
{
    Setting { model, clock }
}

// Does it under the model and the clock that the head of these bytes marks.
pub fn under_marks<T: UnderSetting>(run: &[u8], task: T) -> T::Answer
    ensures { T.gives task (marked run.now) result }
{
    match (is_godson(run), has_no_clock(run)) {
        (true, true) => task.under(setting(Godson, NoClock)),
        (true, false) => task.under(setting(Godson, GlobalClock)),
        (false, true) => task.under(setting(Sc, NoClock)),
        (false, false) => task.under(setting(Sc, GlobalClock)),
    }
}
