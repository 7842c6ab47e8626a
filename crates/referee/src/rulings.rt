// The referee.
ghost use Rattle.std.specs.Prelude.{◌≡◌, ℕ, length};
ghost use Rattle.memory.specs.Lawful.{Lawful};
ghost use Rattle.memory.specs.Runs.{run_of};
ghost use Rattle.memory.specs.Settings.{setting_lent};
ghost use Rattle.lists.specs.Lists.{filled};
ghost use Rattle.referee.specs.Ruling.{ruling, ReadWhole};
ghost use Rattle.referee.specs.Truth.{TrueOf, AllHold};

use crate::faults::RefereeFault;
use crate::papers::judge_paper;
use crate::runs::read_run;
use lists::lent::LentList;
use memory::clocks::Clock;
use memory::lines::Line;
use memory::models::Model;
use memory::records::Record;
use memory::settings::Setting;
use memory::verdicts::Verdict;

// Reads a run and then a paper, and accepts the paper, with its verdict, or tells the fault of one of the two. The lent records and lines hold
// what was read and founded, up to the end or the fault, and beyond that what they held before. Whatever the bytes are, the records are lawful,
// also where the run or the paper is refused, and the founded lines hold in each legal order of theirs. Unless the run is at fault, they are written
// as exactly its bytes. An accepted paper is true of them: the verdict is the one that its head says, and what it claims is so.
pub fn referee<M: Model, C: Clock>(
    setting: Setting<&M, &C>,
    run: &[u8],
    paper: &[u8],
    records: &mut [Record],
    lines: &mut [Line],
) -> Result<Verdict, RefereeFault>
    ensures answer { let S = setting_lent M.Model C.Clock setting.entry in
        let r = ruling S (length records.old) (length lines.old) run.now paper.now in
        result ≡ r.answer }
    ensures records { let S = setting_lent M.Model C.Clock setting.entry in
        let r = ruling S (length records.old) (length lines.old) run.now paper.now in
        records.new ≡ filled r.records records.old }
    ensures lines { let S = setting_lent M.Model C.Clock setting.entry in
        let r = ruling S (length records.old) (length lines.old) run.now paper.now in
        lines.new ≡ filled r.lines lines.old }
    ensures lawful { let S = setting_lent M.Model C.Clock setting.entry in
        let r = ruling S (length records.old) (length lines.old) run.now paper.now in
        (p : ℕ) × Lawful p r.records }
    ensures run { let S = setting_lent M.Model C.Clock setting.entry in
        let r = ruling S (length records.old) (length lines.old) run.now paper.now in
        ReadWhole S r.records run.now result }
    ensures truth { let S = setting_lent M.Model C.Clock setting.entry in
        let r = ruling S (length records.old) (length lines.old) run.now paper.now in
        TrueOf S r.records paper.now result }
    ensures founded { let S = setting_lent M.Model C.Clock setting.entry in
        let r = ruling S (length records.old) (length lines.old) run.now paper.now in
        AllHold (run_of S r.records) r.lines }
{
    let mut records = LentList::over(records);
    read_run::<M, C>(run, &mut records)?;
    let mut lines = LentList::over(lines);
    Ok(judge_paper(setting, records.entries(), paper, &mut lines)?)
}
