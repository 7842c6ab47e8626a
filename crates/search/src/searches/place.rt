// Which record a step takes.
ghost use Rattle.std.specs.Prelude.{◌≡◌};
ghost use Rattle.inference.specs.Views.{run_is};
ghost use Rattle.search.specs.Placing.{above, takes, Takes};
ghost use Rattle.search.specs.Views.{standing_of};

use crate::candidates::is_placeable;
use crate::searches::Search;
use inference::runs::Run;
use memory::clocks::Clock;
use memory::lines::Line;
use memory::models::Model;

impl Search {
    // Above the mark, if there is one.
    fn is_above_mark(&self, number: u8) -> bool
        ensures { result ≡ above (standing_of self.now).mark number }
    {
        self.mark.is_none_or(|mark| mark < number)
    }

    // The smallest record that may be placed next, above the mark if there is one.
    pub(super) fn next_record<M: Model, C: Clock>(
        &self,
        run: &Run<'_, M, C>,
        lines: &[Line],
    ) -> Option<u8>
        ensures value { result ≡ takes (run_is run.now) lines.now (standing_of self.now) }
        ensures least { Takes (run_is run.now) lines.now (standing_of self.now) result }
    {
        (1..=run.count()).find(|number| self.is_above_mark(*number)
            && is_placeable(run, lines, &self.placed, *number))
    }
}
