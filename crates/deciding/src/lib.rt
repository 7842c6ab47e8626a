// A run from its bytes to all that comes of it: it is read under the model and the clock that its head marks, inferred to the end and searched.
#![tactic(auto)]

ghost use Rattle.std.specs.Prelude.{◌≡◌, IfOk};
ghost use Rattle.std.specs.Option.{option_map};
ghost use Rattle.memory.specs.Settings.{setting_of};
ghost use Rattle.case.specs.Calls.{paper_in};
ghost use Rattle.case.specs.Views.{view};
ghost use Rattle.judging.specs.Marked.{marked};
ghost use Rattle.deciding.specs.Reports.{decided, refusal_of, Reports, Shows};

use case::cases::Case;
use judging::marks::{UnderSetting, under_marks};
use memory::clocks::Clock;
use memory::lines::Line;
use memory::models::Model;
use memory::records::Record;
use memory::refusals::Fault;
use memory::settings::Setting;
use memory::verdicts::Verdict;
use std::alloc::{AllocError, Global};
use wire::faults::RunFault;
use wire::writing::MOST_PAPER;

// All that came of a run. Where it is refused, its records are those before the fault, and nothing was inferred or searched.
#[derive(Drop)]
pub struct Report {
    // the marks of the model and the clock under which it was read
    pub model: u8,
    pub clock: u8,
    pub processors: u8,
    pub records: Vec<Record>,
    pub lines: Vec<Line>,
    // the records that the search placed, which are the order that was found, if it found one
    pub placed: Vec<u8>,
    pub steps: u64,
    pub ruling: Result<Option<Verdict>, RunFault>,
    pub paper: Option<Vec<u8>>,
}

// Either is refused where the case is decided, which then stays as it was.
fn decide<M: Model, C: Clock>(case: &mut Case<M, C>, steps: u64)
    ensures setting { case.new.setting ≡ case.old.setting }
    ensures state { view case.new ≡ decided (setting_of M.Model C.Clock case.old.setting) steps (view case.old) }
{
    let _ = case.infer(u64::MAX);
    let _ = case.search(steps);
}

// The bytes of the case's paper, if it has one.
fn paper_of<M: Model, C: Clock>(
    heap: Global,
    case: &Case<M, C>,
) -> Result<Option<Vec<u8>>, AllocError>
    ensures { IfOk result (λ paper. option_map (λ v. v.items) paper ≡ paper_in M.Model.MARK C.Clock.MARK (view case.now)) }
{
    let mut room = [0u8; MOST_PAPER];
    match case.write_paper(&mut room) {
        Ok(size) => Ok(Some(Vec::from_slice(heap, &room[..size])?)),
        Err(_) => Ok(None),
    }
}

fn report_of<M: Model, C: Clock>(
    heap: Global,
    case: &Case<M, C>,
    ruling: Result<Option<Verdict>, RunFault>,
) -> Result<Report, AllocError>
    ensures { IfOk result (λ r. Shows (setting_of M.Model C.Clock case.now.setting) (view case.now) r × (r.ruling ≡ ruling)) }
{
    Ok(Report {
        model: M::MARK,
        clock: C::MARK,
        processors: case.processors(),
        records: Vec::from_slice(heap, case.records())?,
        lines: Vec::from_slice(heap, case.lines())?,
        placed: Vec::from_slice(heap, case.placed())?,
        steps: case.steps(),
        ruling,
        paper: paper_of(heap, case)?,
    })
}

// A run in bytes, and how many steps are searched.
#[derive(Clone, Copy, Drop)]
struct Reading<'a> {
    heap: Global,
    bytes: &'a [u8],
    steps: u64,
}

impl UnderSetting for Reading<'_> {
    type Answer = Result<Report, AllocError>;

    ghost gives = { λ reading S r. IfOk r (Reports S reading.bytes.now reading.steps) };

    fn under<M: Model + Drop, C: Clock + Drop>(
        self,
        setting: Setting<M, C>,
    ) -> Result<Report, AllocError> {
        let mut case = Case::new(self.heap, setting)?;
        match case.load(self.bytes) {
            Ok(_) => {
                decide(&mut case, self.steps);
                report_of(self.heap, &case, Ok(case.stage().verdict()))
            }
            Err(fault) => report_of(self.heap, &case, Err(fault)),
        }
    }
}

impl Report {
    // The report of a run in bytes, all of which count, searched so many steps; of more than 2^62 none is made.
    pub fn of(heap: Global, bytes: &[u8], steps: u64) -> Result<Report, AllocError>
        ensures { IfOk result (Reports (marked bytes.now) bytes.now steps) }
    {
        under_marks(bytes, Reading { heap, bytes, steps })
    }
    // Why the run is refused, if it is.
    pub fn refusal(&self) -> Option<Fault>
        ensures { result ≡ refusal_of self.now.ruling }
    {
        match self.ruling {
            Ok(_) => None,
            Err(fault) => Some(Fault::from(fault)),
        }
    }
}
