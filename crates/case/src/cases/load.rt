// Loading a run from its bytes.
ghost use Rattle.std.specs.Prelude.{◌≡◌};
ghost use Rattle.memory.specs.Runs.{run_of};
ghost use Rattle.memory.specs.Settings.{setting_of};
ghost use Rattle.wire.specs.Seen.{left};
ghost use Rattle.wire.specs.declared.fields.Text.TheVariants.{Run};
ghost use Rattle.case.specs.Calls.{AnswerClaims, AlwaysClaims};
ghost use Rattle.case.specs.Loading.{load_fields, ended_as, loading, Kept};
ghost use Rattle.case.specs.Parts.{Given, told_by, left_by, Walked, NotBefore};
ghost use Rattle.case.specs.Views.{view};

use crate::cases::{Case, Held};
use memory::clocks::Clock;
use memory::models::Model;
use memory::verdicts::Verdict;
use wire::faults::RunFault;
use wire::fields::{Reader, Text};
use wire::runs::{EntryAt, entry_in, head_in};

impl Held {
    // An entry is admitted; a refused one has the place of its field.
    fn load_entry(&mut self, found: EntryAt) -> Result<(), RunFault>
        ensures { Given self.old found self.new result }
    {
        match self.admit_lawful(found.entry) {
            Ok(_) => Ok(()),
            Err(refusal) => Err(found.refused(refusal)),
        }
    }

    // The fields behind the head, up to the end.
    fn load_fields(&mut self, reader: &mut Reader<'_>) -> Result<(), RunFault>
        requires { reader.old.text ≡ Run }
        ensures result { load_fields self.old reader.old.at (left reader.old) ≡ ended_as self.new (told_by result reader.new.at) }
        ensures walked { Walked reader.old.bytes.now reader.old.at self.old (left_by result reader.new.at reader.old.bytes.now) self.new }
        ensures place { NotBefore reader.old.at result }
        ensures bytes { reader.new.bytes ≡ reader.old.bytes }
    {
        while let Some(found) = entry_in(reader.next()?)? {
            self.load_entry(found)?;
        }
        Ok(())
    }

    // Of the model and the clock it takes the marks alone.
    fn load<M: Model, C: Clock>(&mut self, bytes: &[u8]) -> Result<Option<Verdict>, RunFault>
        ensures answer { result ≡ (loading M.Model.MARK C.Clock.MARK self.old bytes.now).answer }
        ensures state { self.new ≡ (loading M.Model.MARK C.Clock.MARK self.old bytes.now).state }
        ensures kept { Kept M.Model.MARK C.Clock.MARK self.old self.new bytes.now result }
        ensures claims { AlwaysClaims self.new.records result }
    {
        let mut reader = Reader::over(Text::Run, bytes);
        let head = head_in::<M, C>(reader.next()?)?;
        self.begin(head.processors);
        self.load_fields(&mut reader)?;
        reader.finish()?;
        Ok(self.close())
    }
}

impl<M: Model, C: Clock> Case<M, C> {
    // Opens the case by the head, admits each record, and seals after the end. At a refusal it stops: the records before it
    // stay admitted and the case stays open, or it is as it was where the head failed. A run that loads is written as the same bytes,
    // and what its verdict claims is true.
    pub fn load(&mut self, bytes: &[u8]) -> Result<Option<Verdict>, RunFault>
        ensures answer { result ≡ (loading M.Model.MARK C.Clock.MARK (view self.old) bytes.now).answer }
        ensures state { view self.new ≡ (loading M.Model.MARK C.Clock.MARK (view self.old) bytes.now).state }
        ensures kept { Kept M.Model.MARK C.Clock.MARK (view self.old) (view self.new) bytes.now result }
        ensures claims { AnswerClaims (run_of (setting_of M.Model C.Clock self.old.setting) (view self.new).records) result }
        ensures setting { self.new.setting ≡ self.old.setting }
    {
        self.held.load::<M, C>(bytes)
    }
}
