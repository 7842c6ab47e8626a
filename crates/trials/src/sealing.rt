// What sealing decides, and what a sealed or decided case refuses.
use crate::tools::{Row, SC, ScCase, admit_rows, entry, told};
use memory::verdicts::{Verdict, verdict_number};
use std::process::Abort;
use std::test::Fail;

// A sound record, one with a bad kind and a second sealing are all told the same.
fn is_closed(rt: &impl Abort, case: &mut ScCase, refusal: u8, records: usize) {
    let want = (refusal, 2, records.saturating_add(1));
    assert_eq!(rt; told(case.admit(entry(0, 2, 64, 9))), Err(want));
    assert_eq!(rt; told(case.admit(entry(0, 9, 64, 9))), Err(want));
    assert_eq!(rt; told(case.seal()), Err(want));
    assert_eq!(rt; case.records().len(), records);
}

#[test]
fn a_sealed_case_refuses_with_four_and_a_decided_one_with_three(
    rt: HostRuntime,
) -> Result<(), Fail> {
    let mut case = ScCase::new(rt.alloc(), SC)?;
    assert_eq!(rt; verdict_number(case.stage().verdict()), 0);
    // an empty case
    assert_eq!(rt; told(case.seal()), Ok(Some(Verdict::Order)));
    is_closed(&rt, &mut case, 3, 0);
    assert_eq!(rt; verdict_number(case.stage().verdict()), 1);
    // an orphan
    assert_eq!(rt; told(case.open(1)), Ok(()));
    admit_rows(
        &rt,
        &mut case,
        &[((0, 2, 16, 1, 0, 5), Ok(1)), ((0, 1, 16, 7, 10, 20), Ok(2))],
    );
    assert_eq!(rt; told(case.seal()), Ok(Some(Verdict::Orphan(2))));
    is_closed(&rt, &mut case, 3, 2);
    assert_eq!(rt; verdict_number(case.stage().verdict()), 3);
    // neither
    assert_eq!(rt; told(case.open(1)), Ok(()));
    assert_eq!(rt; told(case.admit(entry(0, 2, 16, 1))), Ok(1));
    assert_eq!(rt; told(case.seal()), Ok(None));
    is_closed(&rt, &mut case, 4, 1);
    assert_eq!(rt; verdict_number(case.stage().verdict()), 0);
    Ok(())
}

// Two processors: a load of a store that comes later and elsewhere, loads of 0, a store and a fence that nobody reads.
const READ: [Row; 6] = [
    ((0, 1, 16, 5, 10, 90), Ok(1)),
    ((0, 1, 32, 0, 10, 90), Ok(2)),
    ((0, 1, 16, 0, 10, 90), Ok(3)),
    ((1, 3, 0, 0, 10, 90), Ok(4)),
    ((1, 2, 16, 5, 10, 90), Ok(5)),
    ((0, 1, 16, 5, 10, 90), Ok(6)),
];

// Loads of what is stored elsewhere, or only loaded.
const UNREAD: [Row; 3] = [
    ((1, 2, 48, 6, 10, 90), Ok(7)),
    ((0, 1, 16, 6, 10, 90), Ok(8)),
    ((0, 1, 16, 6, 10, 90), Ok(9)),
];

#[test]
fn sealing_tells_the_smallest_orphan_and_no_load_of_a_store_or_of_zero(
    rt: HostRuntime,
) -> Result<(), Fail> {
    let mut case = ScCase::new(rt.alloc(), SC)?;
    assert_eq!(rt; told(case.open(2)), Ok(()));
    admit_rows(&rt, &mut case, &READ);
    assert_eq!(rt; told(case.seal()), Ok(None));
    assert_eq!(rt; told(case.open(2)), Ok(()));
    admit_rows(&rt, &mut case, &READ);
    admit_rows(&rt, &mut case, &UNREAD);
    assert_eq!(rt; told(case.seal()), Ok(Some(Verdict::Orphan(8))));
    // without its store the first load is one
    assert_eq!(rt; told(case.open(2)), Ok(()));
    assert_eq!(rt; told(case.admit(entry(0, 1, 16, 5))), Ok(1));
    assert_eq!(rt; told(case.admit(entry(1, 2, 16, 6))), Ok(2));
    assert_eq!(rt; told(case.admit(entry(1, 1, 32, 6))), Ok(3));
    assert_eq!(rt; told(case.seal()), Ok(Some(Verdict::Orphan(1))));
    Ok(())
}
