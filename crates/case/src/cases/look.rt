// Looking at a case.
ghost use Rattle.std.specs.Prelude.{◌≡◌, ◌-◌, ◌*◌, ◌≤◌, true, [], length};
ghost use Rattle.memory.specs.Admission.{opens, admits, sized};
ghost use Rattle.memory.specs.Lawful.{Lawful};
ghost use Rattle.inference.specs.Paired.{paired};
ghost use Rattle.search.specs.Placing.{distinct};
ghost use Rattle.case.specs.Views.{view};

use crate::cases::Case;
use memory::clocks::Clock;
use memory::lines::Line;
use memory::models::Model;
use memory::records::Record;
use stages::Stage;

impl<M: Model, C: Clock> Case<M, C> {
    // As many as a run may have, whatever calls came before.
    pub fn processors(&self) -> u8
        ensures value { result ≡ (view self.now).processors }
        ensures opened { opens result ≡ true }
    {
        self.held.processors
    }

    // The admitted records. Whatever calls came before, they keep the rules of a run, a case of as many processors admits them one by one, and their
    // addresses and values are of the sizes that the promise asks for.
    pub fn records(&self) -> &[Record]
        ensures value { result.now ≡ (view self.now).records }
        ensures lawful { Lawful (view self.now).processors result.now }
        ensures admitted { admits (view self.now).processors [] result.now ≡ true }
        ensures sized { sized result.now ≡ true }
    {
        let held = &self.held;
        held.records.as_slice()
    }

    // The listed lines. Whatever calls came before, each names two different ones of the n records, and no pair stands twice, so
    // that there are at most n × (n − 1).
    #[tactic(auto, using(inference::proofs::Pairs::few_lines))]
    pub fn lines(&self) -> &[Line]
        ensures value { result.now ≡ (view self.now).lines }
        ensures pairs { paired (length (view self.now).records) result.now ≡ true }
        ensures few { length result.now ≤ length (view self.now).records * (length (view self.now).records - 1) }
    {
        let held = &self.held;
        held.lines.as_slice()
    }

    pub fn stage(&self) -> Stage
        ensures { result ≡ (view self.now).stage }
    {
        self.held.stage
    }

    // The records that the search has placed, in their order. Whatever calls came before, they are different ones of the case's records.
    pub fn placed(&self) -> &[u8]
        ensures value { result.now ≡ (view self.now).standing.placed }
        ensures apart { distinct (length (view self.now).records) result.now ≡ true }
    {
        let held = &self.held;
        held.search.placed()
    }

    // The record above which the search looks for the next one, if there is one.
    pub fn mark(&self) -> Option<u8>
        ensures { result ≡ (view self.now).standing.mark }
    {
        self.held.search.mark()
    }

    // The total of steps since the opening.
    pub fn steps(&self) -> u64
        ensures { result ≡ (view self.now).total }
    {
        self.held.steps
    }
}
