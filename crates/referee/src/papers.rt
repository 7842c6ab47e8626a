// Judging a paper beside the records of its run.
ghost use Rattle.std.specs.Prelude.{◌≡◌, ◌≤◌, [], length};
ghost use Rattle.std.specs.Result.{result_ok};
ghost use Rattle.memory.specs.Limits.{most_records};
ghost use Rattle.memory.specs.Settings.{setting_lent};
ghost use Rattle.wire.specs.Fields.{next_field, later, written_line_of};
ghost use Rattle.wire.specs.Seen.{shown, left};
ghost use Rattle.wire.specs.declared.fields.Text.TheVariants.{Paper};
ghost use Rattle.inference.specs.Views.{setting_is, run_is};
ghost use Rattle.lists.specs.Lists.{entries, rest, Grown};
ghost use Rattle.referee.specs.Papers.{claim_at, claim_sort, end_sort, order_due, orphan_due, lines_due, judge_paper};
ghost use Rattle.referee.specs.Parts.{Behind, LineTaken};

use crate::lines::{founded_line, last_opposed};
use inference::runs::Run;
use lists::lent::LentList;
use memory::clocks::Clock;
use memory::lines::Line;
use memory::models::Model;
use memory::numbers::UnknownNumber;
use memory::reading::is_orphan;
use memory::records::Record;
use memory::refusals::Refusal;
use memory::settings::Setting;
use memory::verdicts::Verdict;
use search::orders::is_legal;
use wire::faults::{ByteFault, PaperFault};
use wire::fields::{Field, PaperHead, Part, Reader, Text, WrittenLine};

// What a paper claims, by the number of its verdict, which fixes its body.
#[derive(Clone, Copy)]
enum Claim {
    Order,
    Opposed,
    Orphan,
}

impl TryFrom<u8> for Claim {
    type Error = UnknownNumber;

    ghost try_from_gives = { λ number r. result_ok r ≡ claim_at number };

    fn try_from(number: u8) -> Result<Claim, UnknownNumber> {
        match number {
            1 => Ok(Claim::Order),
            2 => Ok(Claim::Opposed),
            3 => Ok(Claim::Orphan),
            _ => Err(UnknownNumber),
        }
    }
}

// What the head claims, which must have the marks of the run's model and clock and its number of records. A first field that is no head
// ends the reading there.
fn claim_in<M: Model, C: Clock>(run: &Run<'_, M, C>, field: Field<'_>) -> Result<Claim, PaperFault>
    ensures { result ≡ claim_sort (shown field.entry).sort (setting_is run.now) (length run.now.records.now) (shown field.entry) }
{
    let Field::Head(part) = field else {
        return Err(field.misplaced().into());
    };
    let head = part.read::<PaperHead>()?;
    let claim = Claim::try_from(head.verdict).map_err(|_| ByteFault { place: part.place })?;
    if head.model != M::MARK || head.clock != C::MARK || head.records != run.count() {
        return Err(PaperFault::Foreign);
    }
    Ok(claim)
}

// The end, which is due behind a body, and no byte behind it. Then the conclusion stands or falls.
fn conclude(
    reader: &Reader<'_>,
    field: Field<'_>,
    verdict: Verdict,
    stands: bool,
) -> Result<Verdict, PaperFault>
    requires { Behind reader.now.at (shown field) }
    ensures { result ≡ end_sort (shown field.entry).sort (length reader.now.bytes.now) stands verdict (shown field.entry) }
{
    let Field::End { place } = field else {
        return Err(field.misplaced().into());
    };
    reader.finish()?;
    if !stands {
        let refusal = Refusal::Hollow;
        return Err(PaperFault::Conclusion { refusal, place });
    }
    Ok(verdict)
}

// The body of an order: one field, with a number for each record, then the end. The order must be legal.
fn judge_order<M: Model, C: Clock>(
    run: &Run<'_, M, C>,
    reader: &mut Reader<'_>,
) -> Result<Verdict, PaperFault>
    requires { reader.old.text ≡ Paper }
    ensures { result ≡ order_due (run_is run.now) (length reader.old.bytes.now) (next_field Paper reader.old.at (left reader.old)) (later (left reader.old)) }
{
    let field = reader.next()?;
    match field {
        Field::Order(part) if part.content.len() == usize::from(run.count()) => {
            let end = reader.next()?;
            conclude(reader, end, Verdict::Order, is_legal(run, part.content))
        }
        _ => Err(field.misplaced().into()),
    }
}

// The body of an orphan: one field, with one number, then the end. The record of this number must be an orphan.
fn judge_orphan(records: &[Record], reader: &mut Reader<'_>) -> Result<Verdict, PaperFault>
    requires { reader.old.text ≡ Paper }
    ensures { result ≡ orphan_due records.now (length reader.old.bytes.now) (next_field Paper reader.old.at (left reader.old)) (later (left reader.old)) }
{
    let field = reader.next()?;
    match field {
        Field::Orphan(part) if part.content.len() == 1 => {
            let load = part.content[0];
            let end = reader.next()?;
            conclude(reader, end, Verdict::Orphan(load), is_orphan(records, load))
        }
        _ => Err(field.misplaced().into()),
    }
}

// One line more, if a place is left for it and it is founded.
fn take_line<M: Model, C: Clock>(
    run: &Run<'_, M, C>,
    part: Part<'_>,
    lines: &mut LentList<'_, Line>,
) -> Result<(), PaperFault>
    ensures { LineTaken (run_is run.now) (written_line_of part.entry.place part.entry.content.now) part.entry.place lines.old lines.new result }
{
    let written = part.read::<WrittenLine>()?;
    let at_fault = |refusal| PaperFault::Conclusion {
        refusal,
        place: part.place,
    };
    if lines.is_full() {
        return Err(at_fault(Refusal::Short));
    }
    let line = founded_line(run, lines.entries(), written).ok_or(at_fault(Refusal::Unfounded))?;
    // there is a place, as was asked before the line was judged
    lines.push(line).map_err(|_| at_fault(Refusal::Short))
}

// The body of opposed lines: any number of lines, then the end. The last must be opposed to an earlier one.
fn judge_lines<M: Model, C: Clock>(
    run: &Run<'_, M, C>,
    reader: &mut Reader<'_>,
    lines: &mut LentList<'_, Line>,
) -> Result<Verdict, PaperFault>
    requires text { reader.old.text ≡ Paper }
    requires none { entries lines.old ≡ [] }
    ensures answer { result ≡ (lines_due (run_is run.now) (length (rest lines.old)) (length reader.old.bytes.now) [] reader.old.at (left reader.old)).answer }
    ensures lines { Grown lines.old lines.new (lines_due (run_is run.now) (length (rest lines.old)) (length reader.old.bytes.now) [] reader.old.at (left reader.old)).lines }
{
    loop {
        let field = reader.next()?;
        let Field::Line(part) = field else {
            let stands = last_opposed(lines.entries());
            return conclude(reader, field, Verdict::Opposed, stands);
        };
        take_line(run, part, lines)?;
    }
}

// Judges a paper beside the records of its run, with a list for its lines that has no entries yet.
pub(crate) fn judge_paper<M: Model, C: Clock>(
    setting: Setting<&M, &C>,
    records: &[Record],
    bytes: &[u8],
    lines: &mut LentList<'_, Line>,
) -> Result<Verdict, PaperFault>
    requires few { length records.now ≤ most_records }
    requires none { entries lines.old ≡ [] }
    ensures answer { result ≡ (judge_paper (setting_lent M.Model C.Clock setting.entry) records.now (length (rest lines.old)) bytes.now).answer }
    ensures lines { Grown lines.old lines.new (judge_paper (setting_lent M.Model C.Clock setting.entry) records.now (length (rest lines.old)) bytes.now).lines }
{
    let run = Run::new(setting, records).unwrap();
    let mut reader = Reader::over(Text::Paper, bytes);
    match claim_in(&run, reader.next()?)? {
        Claim::Order => judge_order(&run, &mut reader),
        Claim::Opposed => judge_lines(&run, &mut reader, lines),
        Claim::Orphan => judge_orphan(records, &mut reader),
    }
}
