// The seven rules.
ghost use Rattle.std.specs.Prelude.{◌≡◌, ◌&&◌, length};
ghost use Rattle.inference.specs.Records.{initial, write_one_address, overwrites};
ghost use Rattle.inference.specs.Rules.{known, some, names_third, follows as follows_from};
ghost use Rattle.inference.specs.Views.{records_in, lines_in, setting_in, run_in};
ghost use Rattle.inference.specs.Worth.{Stays};

use crate::listing::is_listed;
use crate::premises::Premises;
use memory::clocks::Clock;
use memory::lines::{Line, Rule};
use memory::models::Model;
use memory::reading::reads_from;
use memory::records::Record;

// A load of 0, and a store to its address.
fn reads_initial(load: Record, store: Record) -> bool
    ensures { result ≡ initial load store }
{
    load.kind.is_load() && load.value == 0 && store.kind.is_store() && store.address == load.address
}

// Two stores to one address.
fn write_one_address(v: Record, w: Record) -> bool
    ensures { result ≡ write_one_address v w }
{
    v.kind.is_store() && w.kind.is_store() && v.address == w.address
}

pub(super) fn has_third(rule: Rule) -> bool
    ensures { result ≡ names_third rule }
{
    matches!(rule, Rule::Coherence | Rule::Transitive)
}

impl<M: Model, C: Clock> Premises<'_, M, C> {
    // The load reads the store of this number, another than y to that address, and it is listed before y, which has the number `second`.
    fn is_overwritten(&self, load: Record, second: u8, y: Record, store: u8) -> bool
        ensures { result ≡ (known (run_in self.now) store && overwrites (records_in self.now) (lines_in self.now) load second y store) }
    {
        self.run.record(store).is_some_and(|w| {
            reads_from(load, w)
                && write_one_address(w, y)
                && store != second
                && is_listed(self.lines, store, second)
        })
    }

    // The load reads a store that is listed before y, another store to that address.
    fn by_from_read(&self, load: Record, second: u8, y: Record) -> bool
        ensures { result ≡ some (overwrites (records_in self.now) (lines_in self.now) load second y) (length (records_in self.now)) }
    {
        (1..=self.run.count()).any(|store| self.is_overwritten(load, second, y, store))
    }

    // The line names two different records and a third as its rule does, and the rule gives it: it follows from the records and the
    // lines. What follows from these records follows from them and any more.
    #[tactic(auto, using(crate::proofs::Sound::follows_stays))]
    pub fn follows(&self, line: Line) -> bool
        ensures value { result ≡ follows_from (run_in self.now) (lines_in self.now) line }
        ensures stays { Stays (setting_in self.now) (records_in self.now) (lines_in self.now) line }
    {
        let Line {
            rule,
            first,
            second,
            third,
        } = line;
        let (Some(x), Some(y)) = (self.run.record(first), self.run.record(second)) else {
            return false;
        };
        first != second
            && (has_third(rule) || third == 0)
            && match rule {
                Rule::Clock => self.run.is_surely_earlier(x, y),
                Rule::Model => first < second && self.run.setting.keeps(x, y),
                Rule::ReadsFrom => reads_from(y, x),
                Rule::InitialRead => reads_initial(x, y),
                // the third is a load that reads the second
                Rule::Coherence => self.run.record(third).is_some_and(|load| {
                    reads_from(load, y)
                        && write_one_address(x, y)
                        && is_listed(self.lines, first, third)
                }),
                Rule::FromRead => self.by_from_read(x, second, y),
                Rule::Transitive => self.run.record(third).is_some()
                    && is_listed(self.lines, first, third)
                    && is_listed(self.lines, third, second),
            }
    }
}
