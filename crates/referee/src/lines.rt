// The lines of a paper.
ghost use Rattle.std.specs.Prelude.{◌≡◌};
ghost use Rattle.inference.specs.Views.{run_is};
ghost use Rattle.referee.specs.Lines.{founded_line, last_opposed};

use inference::listing::is_listed;
use inference::premises::Premises;
use inference::runs::Run;
use memory::clocks::Clock;
use memory::lines::{Line, Rule};
use memory::models::Model;
use wire::fields::WrittenLine;

// The line that is written, if it is founded: it follows from the run and the lines before it, and its pair is new.
pub(crate) fn founded_line<M: Model, C: Clock>(
    run: &Run<'_, M, C>,
    before: &[Line],
    written: WrittenLine,
) -> Option<Line>
    ensures { result ≡ founded_line (run_is run.now) before.now written }
{
    let line = Line {
        rule: Rule::try_from(written.rule).ok()?,
        first: written.first,
        second: written.second,
        third: written.third,
    };
    Premises::of(run, before).fits(line).then_some(line)
}

// The last line is opposed to an earlier one.
pub(crate) fn last_opposed(lines: &[Line]) -> bool
    ensures { result ≡ last_opposed lines.now }
{
    lines.split_last().is_some_and(|(last, before)| is_listed(before, last.second, last.first))
}
