// What the head lines of a log say: model, clock and number of processors.
ghost use Rattle.std.specs.Prelude.{◌≡◌, Some};
ghost use Rattle.logs.specs.Heads.{model_mark, model_word, clock_mark, clock_word, head_words};

use memory::clocks::{Clock, GlobalClock, NoClock};
use memory::models::{Godson, Model, Sc};
use std::fmt;

// A model that has a name.
#[derive(Clone, Copy, Debug, PartialEq, Eq)]
pub enum NamedModel {
    Sc,
    Godson,
}

impl NamedModel {
    pub fn mark(self) -> u8
        ensures { result ≡ model_mark self }
    {
        match self {
            NamedModel::Sc => Sc::MARK,
            NamedModel::Godson => Godson::MARK,
        }
    }
}

impl fmt::Display for NamedModel {
    ghost output = { λ m. Some (model_word m) };

    fn fmt<W: fmt::Write>(&self, f: &mut fmt::Formatter<W>) -> fmt::Result {
        f.write_str(match self {
            NamedModel::Sc => "SC",
            NamedModel::Godson => "Godson",
        })
    }
}

// A clock that has a name.
#[derive(Clone, Copy, Debug, PartialEq, Eq)]
pub enum NamedClock {
    Global,
    NoClock,
}

impl NamedClock {
    pub fn mark(self) -> u8
        ensures { result ≡ clock_mark self }
    {
        match self {
            NamedClock::Global => GlobalClock::MARK,
            NamedClock::NoClock => NoClock::MARK,
        }
    }
}

impl fmt::Display for NamedClock {
    ghost output = { λ c. Some (clock_word c) };

    fn fmt<W: fmt::Write>(&self, f: &mut fmt::Formatter<W>) -> fmt::Result {
        f.write_str(match self {
            NamedClock::Global => "global",
            NamedClock::NoClock => "none",
        })
    }
}

// What stands before the accesses.
#[derive(Clone, Copy, Debug, PartialEq, Eq)]
pub struct Head {
    pub model: NamedModel,
    pub clock: NamedClock,
    pub processors: u8,
}

// The three head lines, the last without its end.
impl fmt::Display for Head {
    ghost output = { λ h. Some (head_words h) };

    fn fmt<W: fmt::Write>(&self, f: &mut fmt::Formatter<W>) -> fmt::Result {
        let Head {
            model,
            clock,
            processors,
        } = *self;
        write!(f, "model {model}\nclock {clock}\nprocessors {processors}")
    }
}
