// Which record may be placed behind others.
ghost use Rattle.std.specs.Prelude.{◌≡◌, true};
ghost use Rattle.memory.specs.Legal.{memory};
ghost use Rattle.memory.specs.Limits.{most_records};
ghost use Rattle.memory.specs.Runs.{has};
ghost use Rattle.inference.specs.Rules.{known, some};
ghost use Rattle.inference.specs.Views.{run_is};
ghost use Rattle.search.specs.Placing.{placeable, reads_right, distinct};
ghost use Rattle.search.specs.Parts.{awaits_by_setting, awaits_by_line};

use inference::runs::Run;
use memory::clocks::Clock;
use memory::lines::Line;
use memory::models::Model;

fn is_placed(placed: &[u8], number: u8) -> bool
    ensures { result ≡ has placed.now number }
{
    placed.contains(&number)
}

// What an address holds after the placed records: the value of the last store to it, or 0.
fn value_at<M: Model, C: Clock>(run: &Run<'_, M, C>, placed: &[u8], address: u32) -> u64
    requires { distinct most_records placed.now ≡ true }
    ensures { result ≡ memory (run_is run.now) placed.now address }
{
    placed
        .iter()
        .fold(0, |value, number| match run.record(*number) {
            Some(record) if record.kind.is_store() && record.address == address => record.value,
            _ => value,
        })
}

// A load's value is legal after the placed records; any other record may be placed as to its value.
fn reads_right<M: Model, C: Clock>(run: &Run<'_, M, C>, placed: &[u8], number: u8) -> bool
    requires { distinct most_records placed.now ≡ true }
    ensures { known (run_is run.now) number ≡ true → result ≡ reads_right (run_is run.now) placed.now number }
{
    let Some(record) = run.record(number) else {
        return false;
    };
    !record.kind.is_load() || record.value == value_at(run, placed, record.address)
}

// Another unplaced record must come before this one, by the model or the clock.
fn awaits_by_setting<M: Model, C: Clock>(run: &Run<'_, M, C>, placed: &[u8], number: u8) -> bool
    ensures { result ≡ some (awaits_by_setting (run_is run.now) placed.now number) (run_is run.now).size }
{
    (1..=run.count()).any(|other| other != number
        && run.must_precede(other, number)
        && !is_placed(placed, other))
}

// Or by a listed line. The list is gone through once, however many records are unplaced.
fn awaits_by_line<M: Model, C: Clock>(
    run: &Run<'_, M, C>,
    lines: &[Line],
    placed: &[u8],
    number: u8,
) -> bool
    ensures { result ≡ awaits_by_line (run_is run.now) lines.now placed.now number }
{
    lines.iter().any(|line| {
        line.second == number
            && line.first != number
            && run.record(line.first).is_some()
            && !is_placed(placed, line.first)
    })
}

// It is unplaced, a load's value is legal, and no other unplaced record must come before it. A record is not asked against
// itself. What costs most is asked last.
#[tactic(auto, using(crate::proofs::Placing::awaits_parts))]
pub(crate) fn is_placeable<M: Model, C: Clock>(
    run: &Run<'_, M, C>,
    lines: &[Line],
    placed: &[u8],
    number: u8,
) -> bool
    requires { distinct most_records placed.now ≡ true }
    ensures { known (run_is run.now) number ≡ true → result ≡ placeable (run_is run.now) lines.now placed.now number }
{
    !is_placed(placed, number)
        && reads_right(run, placed, number)
        && !awaits_by_setting(run, placed, number)
        && !awaits_by_line(run, lines, placed, number)
}
