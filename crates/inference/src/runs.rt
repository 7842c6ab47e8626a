// A run of records.
ghost use Rattle.std.specs.Prelude.{◌≤◌, length};
ghost use Rattle.memory.specs.Limits.{most_records};

use memory::clocks::Clock;
use memory::models::Model;
use memory::records::Record;
use memory::settings::Setting;

mod numbers;

// Records under a model and a clock, no more than a run may have.
#[derive(Drop)]
pub struct Run<'a, M: Model, C: Clock> {
    pub(crate) setting: Setting<&'a M, &'a C>,
    pub(crate) records: &'a [Record],
    ghost few: { length records.now ≤ most_records },
}
