// Writing run, slip and paper into lent bytes.
ghost use Rattle.std.specs.Prelude.{◌≤◌, [], length, unwrap_or};
ghost use Rattle.wire.specs.Bytes.{paper_bytes};
ghost use Rattle.wire.specs.Written.{paper_number, paper_body, most_paper};
ghost use Rattle.case.specs.Calls.{run_in, slip_in, paper_in, Wrote, WroteSome};
ghost use Rattle.case.specs.Loading.{Reloads};
ghost use Rattle.case.specs.State.{State};
ghost use Rattle.case.specs.Views.{view};

use crate::cases::Case;
use memory::clocks::Clock;
use memory::models::Model;
use memory::refusals::{Fault, Refusal};
use memory::verdicts::Verdict;
use wire::fields::RunHead;
use wire::writing;
use wire::writing::{Paper, PaperMarks};

impl<M: Model, C: Clock> Case<M, C> {
    // The run, at any stage. It loads, in any case of this model and clock, as the same processors and records.
    pub fn write_run(&self, out: &mut [u8]) -> Result<usize, Fault>
        ensures wrote { Wrote (view self.now) (run_in M.Model.MARK C.Clock.MARK (view self.now)) out.old out.new result }
        ensures reloads { (before : State) → Reloads M.Model.MARK C.Clock.MARK before (view self.now) (run_in M.Model.MARK C.Clock.MARK (view self.now)) }
    {
        let held = &self.held;
        let head = RunHead {
            processors: held.processors,
            model: M::MARK,
            clock: C::MARK,
        };
        writing::write_run(out, head, &held.records).map_err(|_| held.fault(Refusal::Short))
    }

    // The verdict and the total of steps, at any stage.
    pub fn write_slip(&self, out: &mut [u8]) -> Result<usize, Fault>
        ensures { Wrote (view self.now) (slip_in (view self.now)) out.old out.new result }
    {
        let held = &self.held;
        let verdict = held.stage.verdict();
        writing::write_slip(out, verdict, held.steps).map_err(|_| held.fault(Refusal::Short))
    }

    fn put_paper(&self, out: &mut [u8], paper: Paper<'_>) -> Result<usize, Fault>
        ensures { Wrote (view self.now) (paper_bytes (paper_number paper.entry) M.Model.MARK C.Clock.MARK (length (view self.now).records) (paper_body paper.entry)) out.old out.new result }
    {
        let head = PaperMarks {
            model: M::MARK,
            clock: C::MARK,
            records: self.held.records.len() as u8,
        };
        writing::write_paper(out, head, paper).map_err(|_| self.held.fault(Refusal::Short))
    }

    // The paper, where the verdict has one. It never has more bytes than `MOST_PAPER`.
    #[tactic(auto, using(crate::proofs::Papers::papers_long))]
    pub fn write_paper(&self, out: &mut [u8]) -> Result<usize, Fault>
        ensures wrote { WroteSome (view self.now) (paper_in M.Model.MARK C.Clock.MARK (view self.now)) out.old out.new result }
        ensures most { length (unwrap_or (paper_in M.Model.MARK C.Clock.MARK (view self.now)) []) ≤ most_paper }
    {
        let held = &self.held;
        match held.stage.verdict() {
            Some(Verdict::Order) => self.put_paper(out, Paper::Order(self.placed())),
            Some(Verdict::Opposed) => self.put_paper(out, Paper::Opposed(self.lines())),
            Some(Verdict::Orphan(load)) => self.put_paper(out, Paper::Orphan(load)),
            Some(Verdict::Exhausted) | None => Err(held.fault(Refusal::Bare)),
        }
    }
}
