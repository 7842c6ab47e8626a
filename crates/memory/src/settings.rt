// A model and a clock, which every case is made under.
ghost use Rattle.std.specs.Prelude.{◌≡◌};
ghost use Rattle.memory.specs.Runs.{keeps};
ghost use Rattle.memory.specs.Settings.{setting_lent};

use crate::clocks::Clock;
use crate::models::Model;
use crate::records::Record;

// The two may be owned or lent.
#[derive(Clone, Copy, Drop)]
pub struct Setting<M, C> {
    pub model: M,
    pub clock: C,
}

impl<M: Model, C: Clock> Setting<&M, &C> {
    // The records are of one processor, and the model orders x before a later y.
    pub fn keeps(self, x: Record, y: Record) -> bool
        ensures { result ≡ keeps (setting_lent M.Model C.Clock self.entry) x y }
    {
        x.processor == y.processor && self.model.must_precede(x.kind, y.kind, x.shares_address(y))
    }
}
