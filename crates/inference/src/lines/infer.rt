// Listing lines.
ghost use Rattle.std.specs.Prelude.{◌≡◌, [], IfOk};
ghost use Rattle.memory.specs.Runs.{run_of};
ghost use Rattle.memory.specs.Settings.{setting_lent};
ghost use Rattle.inference.specs.Listing.{list_lines, Lists, Out};
ghost use Rattle.inference.specs.Next.{next as next_of};
ghost use Rattle.inference.specs.Views.{lines_of, Took, listing as listing_of, Infers, run_is};

use crate::lines::{Lines, Listed};
use crate::listing::is_listed;
use crate::premises::Premises;
use crate::runs::Run;
use memory::clocks::Clock;
use memory::limits::MOST_LINES;
use memory::lines::Line;
use memory::models::Model;
use memory::records::Record;
use memory::refusals::Refusal;
use memory::settings::Setting;
use std::alloc::{AllocError, Global};

impl Lines {
    pub fn new(heap: Global) -> Result<Lines, AllocError>
        ensures { IfOk result (λ l. lines_of l ≡ []) }
    {
        let items = Vec::with_capacity(heap, MOST_LINES)?;
        Ok(Lines { items })
    }

    pub fn clear(&mut self)
        ensures { lines_of self.new ≡ [] }
    {
        self.items.clear();
    }

    pub fn as_slice(&self) -> &[Line]
        ensures { result.now ≡ lines_of self.now }
    {
        self.items.as_slice()
    }

    // Lists the next line, if there is one, and answers whether it is opposed to one before it: a plain question of yes and no.
    fn list_next<M: Model, C: Clock>(&mut self, run: &Run<'_, M, C>) -> Option<bool>
        ensures { Took (next_of (run_is run.now) (lines_of self.old)) (lines_of self.old) (lines_of self.new) result }
    {
        let line = Premises::of(run, self.as_slice()).next_line()?;
        let opposed = is_listed(self.as_slice(), line.second, line.first);
        self.items.push_reserved(line);
        Some(opposed)
    }

    fn list_up_to<M: Model, C: Clock>(&mut self, run: &Run<'_, M, C>, k: u64) -> Listed
        ensures { listing_of result (lines_of self.new) ≡ list_lines (run_is run.now) k (lines_of self.old) }
    {
        for count in 0..k {
            let Some(opposed) = self.list_next(run) else {
                return Listed {
                    count,
                    opposed: false,
                };
            };
            if opposed {
                return Listed {
                    count: count + 1,
                    opposed: true,
                };
            }
        }
        Listed {
            count: k,
            opposed: false,
        }
    }

    // Lists next lines until k are listed, none follows, or one is opposed to a listed one. Refused where there are more records than a
    // run may have.
    pub fn infer<M: Model, C: Clock>(
        &mut self,
        setting: Setting<&M, &C>,
        records: &[Record],
        k: u64,
    ) -> Result<Listed, Refusal>
        ensures value { Infers (run_of (setting_lent M.Model C.Clock setting.entry) records.now) k (lines_of self.old) (lines_of self.new) result }
        ensures lists { IfOk result (λ l. Lists (run_of (setting_lent M.Model C.Clock setting.entry) records.now) k (lines_of self.old) (listing_of l (lines_of self.new))) }
        ensures out { IfOk result (λ l. Out (run_of (setting_lent M.Model C.Clock setting.entry) records.now) k (listing_of l (lines_of self.new))) }
    {
        let run = Run::new(setting, records)?;
        Ok(self.list_up_to(&run, k))
    }
}
