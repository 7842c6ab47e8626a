// What the fields of a run say, by the rules of loading.
ghost use Rattle.std.specs.Prelude.{◌≡◌, IfOk, IfSome};
ghost use Rattle.wire.specs.declared.faults.RunFault.TheVariants.{Content};
ghost use Rattle.wire.specs.Bytes.{entry_bytes};
ghost use Rattle.wire.specs.Fields.{run_head_content};
ghost use Rattle.wire.specs.Said.{head_said, entry_said};
ghost use Rattle.wire.specs.Seen.{shown};

use crate::faults::RunFault;
use crate::fields::{Field, RunHead};
use memory::admission::judge_opening;
use memory::clocks::Clock;
use memory::models::Model;
use memory::records::Entry;
use memory::refusals::Refusal;

// An entry, with the place of its field.
#[derive(Clone, Copy)]
pub struct EntryAt {
    pub entry: Entry,
    pub place: usize,
}

impl EntryAt {
    // Why the entry is refused, at the place of its field.
    pub fn refused(self, refusal: Refusal) -> RunFault
        ensures { result ≡ Content refusal self.place }
    {
        let place = self.place;
        RunFault::Content { refusal, place }
    }
}

// The head that a first field says, under the marks of a model and a clock; written again, it is the same bytes. A first field that is no
// head ends the reading there.
pub fn head_in<M: Model, C: Clock>(field: Field<'_>) -> Result<RunHead, RunFault>
    ensures value { result ≡ head_said M.Model.MARK C.Clock.MARK (shown field.entry) }
    ensures back { IfOk result (λ h. run_head_content h ≡ (shown field.entry).content) }
{
    let Field::Head(part) = field else {
        return Err(field.misplaced().into());
    };
    let head = part.read::<RunHead>()?;
    let place = part.place;
    if head.model != M::MARK || head.clock != C::MARK {
        let refusal = Refusal::Foreign;
        return Err(RunFault::Content { refusal, place });
    }
    judge_opening(head.processors).map_err(|refusal| RunFault::Content { refusal, place })?;
    Ok(head)
}

// The entry that a field behind the head says, or none where it is the end; written again, it is the same bytes.
pub fn entry_in(field: Field<'_>) -> Result<Option<EntryAt>, RunFault>
    ensures value { result ≡ entry_said (shown field.entry) }
    ensures back { IfOk result (λ said. IfSome said (λ p. entry_bytes p.entry ≡ (shown field.entry).content)) }
{
    match field {
        Field::Record(part) => {
            let entry = part.read::<Entry>()?;
            let place = part.place;
            Ok(Some(EntryAt { entry, place }))
        }
        Field::End { .. } => Ok(None),
        Field::Head(_) | Field::Line(_) | Field::Order(_) | Field::Orphan(_) => {
            Err(field.misplaced().into())
        }
    }
}
