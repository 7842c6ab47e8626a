// The case itself.
ghost use Rattle.std.specs.Prelude.{◌≡◌, ◌≤◌, true, [], vec_len, vec_capacity};
ghost use Rattle.memory.specs.Admission.{opens, admits, sized};
ghost use Rattle.memory.specs.Limits.{most_records};
ghost use Rattle.inference.specs.Paired.{paired};
ghost use Rattle.inference.specs.Views.{lines_of};
ghost use Rattle.search.specs.Placing.{distinct};
ghost use Rattle.search.specs.Views.{standing_of};
ghost use Rattle.case.specs.State.{State};

use inference::lines::Lines;
use memory::clocks::Clock;
use memory::models::Model;
use memory::records::Record;
use memory::settings::Setting;
use search::searches::Search;
use stages::Stage;

mod calls;
mod infer;
mod load;
mod look;
mod steps;
mod write;

// What a case holds besides its setting. Its room for records, lines and placed records is reserved when it is made, so that no call on
// it allocates.
#[derive(Drop)]
struct Held {
    processors: u8,
    records: Vec<Record>,
    lines: Lines,
    stage: Stage,
    search: Search,
    steps: u64,
    ghost room: { most_records ≤ vec_capacity records },
    ghost few: { vec_len records ≤ most_records },
    ghost opened: { opens processors ≡ true },
    ghost lawful: { admits processors [] records.items ≡ true },
    ghost sized: { sized records.items ≡ true },
    ghost pairs: { paired (vec_len records) (lines_of lines) ≡ true },
    ghost apart: { distinct (vec_len records) (standing_of search).placed ≡ true },
}

// Seen as its state.
impl std::marker::Model for Held {
    ghost Value = { State };

    ghost view = { λ h. record { processors = h.processors; records = h.records.items; lines = lines_of h.lines; stage = h.stage; standing = standing_of h.search; total = h.steps } };
}

// A case under a model and a clock. That the setting stays is said by each public call that changes a case, for its callers; what the
// case holds knows nothing of it. Clauses name both marks: a word over both would take both as well.
#[derive(Drop)]
pub struct Case<M: Model, C: Clock> {
    setting: Setting<M, C>,
    held: Held,
}
