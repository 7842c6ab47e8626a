// The steps of a search.
ghost use Rattle.std.specs.Prelude.{◌≡◌, true, false, [], ◌∷◌, ◌++◌, reverse};
ghost use Rattle.memory.specs.Runs.{has};
ghost use Rattle.inference.specs.Rules.{known};
ghost use Rattle.inference.specs.Views.{run_is};
ghost use Rattle.search.specs.Steps.{retreat, advance, step, walk, Steps, Ends};
ghost use Rattle.search.specs.Views.{standing_of, stepped, walked};

use crate::searches::Search;
use inference::runs::Run;
use memory::clocks::Clock;
use memory::lines::Line;
use memory::models::Model;
use memory::verdicts::{Progress, Verdict};

impl Search {
    // The last placed record is taken back and becomes the mark. With nothing to take back the search is exhausted.
    #[tactic(auto, using(crate::proofs::Distinct::distinct_front))]
    fn take_back(&mut self) -> Option<Verdict>
        ensures { stepped result self.new ≡ retreat (standing_of self.old) (reverse (standing_of self.old).placed) }
    {
        let Some(last) = self.placed.pop() else {
            return Some(Verdict::Exhausted);
        };
        self.mark = Some(last);
        None
    }

    // The record is placed, and the mark is cleared. With all placed an order is found.
    #[tactic(auto, using(crate::proofs::Distinct::room_left, crate::proofs::Distinct::distinct_push, crate::proofs::Distinct::among_more))]
    fn place<M: Model, C: Clock>(&mut self, run: &Run<'_, M, C>, number: u8) -> Option<Verdict>
        requires known { known (run_is run.now) number ≡ true }
        requires unplaced { has (standing_of self.old).placed number ≡ false }
        ensures { stepped result self.new ≡ advance (run_is run.now) ((standing_of self.old).placed ++ number ∷ []) }
    {
        self.placed.push_reserved(number);
        self.mark = None;
        (self.placed.len() == usize::from(run.count())).then_some(Verdict::Order)
    }

    fn step<M: Model, C: Clock>(&mut self, run: &Run<'_, M, C>, lines: &[Line]) -> Option<Verdict>
        ensures { stepped result self.new ≡ step (run_is run.now) lines.now (standing_of self.old) }
    {
        match self.next_record(run, lines) {
            Some(number) => self.place(run, number),
            None => self.take_back(),
        }
    }

    // Makes steps until k are made or one decides. It goes on from where the search stands.
    pub fn make_steps<M: Model, C: Clock>(
        &mut self,
        run: &Run<'_, M, C>,
        lines: &[Line],
        k: u64,
    ) -> Progress
        ensures value { walked result self.new ≡ walk (run_is run.now) lines.now k (standing_of self.old) }
        ensures steps { Steps (run_is run.now) lines.now k (standing_of self.old) (walked result self.new) }
        ensures ends { Ends k (walked result self.new) }
    {
        for count in 0..k {
            let verdict = self.step(run, lines);
            if verdict.is_some() {
                return Progress {
                    done: count + 1,
                    verdict,
                };
            }
        }
        Progress {
            done: k,
            verdict: None,
        }
    }
}
