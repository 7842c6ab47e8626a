// Whether an order is legal.
ghost use Rattle.std.specs.Prelude.{◌≡◌, true, Decides};
ghost use Rattle.memory.specs.Legal.{Legal};
ghost use Rattle.memory.specs.Limits.{most_records};
ghost use Rattle.inference.specs.Views.{run_is};
ghost use Rattle.search.specs.Orders.{may_follow, legal_order};
ghost use Rattle.search.specs.Placing.{distinct};

use crate::candidates::is_placeable;
use inference::runs::Run;
use memory::clocks::Clock;
use memory::models::Model;

// The record may come next, behind the records of `front`: it need not come before itself, and it may be placed there without any lines.
fn may_follow<M: Model, C: Clock>(run: &Run<'_, M, C>, front: &[u8], number: u8) -> bool
    requires { distinct most_records front.now ≡ true }
    ensures { result ≡ may_follow (run_is run.now) front.now number }
{
    run.record(number).is_some()
        && !run.must_precede(number, number)
        && is_placeable(run, &[], front, number)
}

// The order is a legal order of the run: it has as many records, and each may follow those before it. A loop, since what has passed so far
// makes sure that the next is asked behind different records.
pub fn is_legal<M: Model, C: Clock>(run: &Run<'_, M, C>, order: &[u8]) -> bool
    ensures value { result ≡ legal_order (run_is run.now) order.now }
    ensures legal { Decides result (Legal (run_is run.now) order.now) }
{
    if order.len() != usize::from(run.count()) {
        return false;
    }
    for (place, number) in order.iter().enumerate() {
        if !may_follow(run, &order[..place], *number) {
            return false;
        }
    }
    true
}
