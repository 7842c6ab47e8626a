// The message run as a worked example, run: with inference and without.
use crate::tools::{MESSAGE_LINES, MESSAGE_ROWS, are_lines};
use memory::clocks::GlobalClock;
use memory::models::Sc;
use memory::records::Entry;
use memory::settings::Setting;
use memory::verdicts::Verdict;
use std::alloc::AllocError;
use worked::work;

#[test]
fn the_message_run_is_worked(rt: HostRuntime) -> Result<(), AllocError> {
    let entries = MESSAGE_ROWS.map(|(processor, kind, address, value, enter, commit)| Entry {
        processor,
        kind,
        address,
        value,
        enter,
        commit,
    });
    let setting = Setting {
        model: Sc,
        clock: GlobalClock,
    };
    let case = work(rt.alloc(), setting, 2, &entries, true)?;
    assert_eq!(rt; case.stage().verdict(), Some(Verdict::Opposed));
    assert_eq!(rt; (case.lines().len(), case.steps()), (6, 0));
    are_lines(&rt, case.lines(), &MESSAGE_LINES);
    let case = work(rt.alloc(), setting, 2, &entries, false)?;
    assert_eq!(rt; case.stage().verdict(), Some(Verdict::Exhausted));
    assert_eq!(rt; (case.lines().len(), case.steps()), (0, 7));
    Ok(())
}
