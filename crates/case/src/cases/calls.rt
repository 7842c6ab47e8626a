// Making, opening, admitting and sealing.
ghost use Rattle.std.specs.Prelude.{◌≡◌, true, IfOk};
ghost use Rattle.std.specs.Option.{option_map};
ghost use Rattle.std.specs.Result.{result_err};
ghost use Rattle.memory.specs.Admission.{opens, judgement};
ghost use Rattle.memory.specs.Runs.{run_of};
ghost use Rattle.memory.specs.Settings.{setting_of};
ghost use Rattle.stages.specs.Stages.{permits};
ghost use Rattle.case.specs.State.{opened as begun, case_fault};
ghost use Rattle.case.specs.Calls.{opening, admitting, admit_by, numbered_by, sealing, sealed_verdict, sealed, AnswerClaims, AlwaysClaims};
ghost use Rattle.case.specs.Views.{view};

use crate::cases::{Case, Held};
use inference::lines::Lines;
use memory::admission::{judge, judge_opening};
use memory::clocks::Clock;
use memory::limits::MOST_RECORDS;
use memory::models::Model;
use memory::reading::smallest_orphan;
use memory::records::Entry;
use memory::refusals::{Fault, Layer, Refusal};
use memory::settings::Setting;
use memory::verdicts::Verdict;
use search::searches::Search;
use stages::{Call, Stage};
use std::alloc::{AllocError, Global};

impl Held {
    // A refused call has as its place the number of records plus 1.
    pub(super) fn fault(&self, refusal: Refusal) -> Fault
        ensures { result ≡ case_fault self.now refusal }
    {
        Fault {
            refusal,
            layer: Layer::Content,
            place: self.records.len() + 1,
        }
    }

    // Lets the call through, or says why the stage does not.
    pub(super) fn permitted(&self, call: Call) -> Result<(), Fault>
        ensures { result_err result ≡ option_map (case_fault self.now) (permits self.now.stage call) }
    {
        self.stage
            .permits(call)
            .map_err(|refusal| self.fault(refusal))
    }

    // Anew, with so many processors.
    pub(super) fn begin(&mut self, processors: u8)
        requires { opens processors ≡ true }
        ensures { self.new ≡ begun processors }
    {
        self.records.clear();
        self.lines.clear();
        self.search.clear();
        self.processors = processors;
        self.stage = Stage::Open;
        self.steps = 0;
    }

    fn open(&mut self, processors: u8) -> Result<(), Fault>
        ensures answer { result ≡ (opening self.old processors).answer }
        ensures state { self.new ≡ (opening self.old processors).state }
    {
        judge_opening(processors).map_err(|refusal| self.fault(refusal))?;
        self.begin(processors);
        Ok(())
    }

    // One record more, if it is lawful.
    pub(super) fn admit_lawful(&mut self, e: Entry) -> Result<u8, Refusal>
        ensures answer { result ≡ numbered_by (judgement self.old.processors self.old.records e) self.old }
        ensures state { self.new ≡ (admit_by (judgement self.old.processors self.old.records e) self.old).state }
    {
        let record = judge(self.processors, &self.records, e)?;
        self.records.push_reserved(record);
        Ok(self.records.len() as u8)
    }

    fn admit(&mut self, e: Entry) -> Result<u8, Fault>
        ensures answer { result ≡ (admitting self.old e).answer }
        ensures state { self.new ≡ (admitting self.old e).state }
    {
        self.permitted(Call::Admit)?;
        self.admit_lawful(e).map_err(|refusal| self.fault(refusal))
    }

    // The verdict of the records as they are.
    fn verdict_sealed(&self) -> Option<Verdict>
        ensures { result ≡ sealed_verdict self.now.records }
    {
        if self.records.is_empty() {
            return Some(Verdict::Order);
        }
        smallest_orphan(&self.records).map(|load| Verdict::Orphan(load as u8))
    }

    pub(super) fn close(&mut self) -> Option<Verdict>
        ensures answer { result ≡ sealed_verdict self.old.records }
        ensures state { self.new ≡ sealed self.old }
    {
        let verdict = self.verdict_sealed();
        self.stage = Stage::Sealed.after(verdict);
        verdict
    }

    fn seal(&mut self) -> Result<Option<Verdict>, Fault>
        ensures answer { result ≡ (sealing self.old).answer }
        ensures state { self.new ≡ (sealing self.old).state }
        ensures claims { AlwaysClaims self.old.records result }
    {
        self.permitted(Call::Seal)?;
        Ok(self.close())
    }
}

impl<M: Model, C: Clock> Case<M, C> {
    // An open case of one processor; only this call can fail for want of memory.
    pub fn new(heap: Global, setting: Setting<M, C>) -> Result<Case<M, C>, AllocError>
    where
        M: Drop,
        C: Drop,
        ensures { IfOk result (λ c. (view c ≡ begun 1) × (c.setting ≡ setting)) }
    {
        let held = Held {
            processors: 1,
            records: Vec::with_capacity(heap, MOST_RECORDS)?,
            lines: Lines::new(heap)?,
            stage: Stage::Open,
            search: Search::new(heap)?,
            steps: 0,
        };
        Ok(Case { setting, held })
    }

    // The case begins anew, whatever its stage.
    pub fn open(&mut self, processors: u8) -> Result<(), Fault>
        ensures answer { result ≡ (opening (view self.old) processors).answer }
        ensures state { view self.new ≡ (opening (view self.old) processors).state }
        ensures setting { self.new.setting ≡ self.old.setting }
    {
        self.held.open(processors)
    }

    // Answers the number of the record.
    pub fn admit(&mut self, e: Entry) -> Result<u8, Fault>
        ensures answer { result ≡ (admitting (view self.old) e).answer }
        ensures state { view self.new ≡ (admitting (view self.old) e).state }
        ensures setting { self.new.setting ≡ self.old.setting }
    {
        self.held.admit(e)
    }

    // Ends admission. An empty case has the empty order; an orphan leaves no legal order.
    pub fn seal(&mut self) -> Result<Option<Verdict>, Fault>
        ensures answer { result ≡ (sealing (view self.old)).answer }
        ensures state { view self.new ≡ (sealing (view self.old)).state }
        ensures claims { AnswerClaims (run_of (setting_of M.Model C.Clock self.old.setting) (view self.old).records) result }
        ensures setting { self.new.setting ≡ self.old.setting }
    {
        self.held.seal()
    }
}
