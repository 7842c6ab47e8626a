// Which records a case takes, and which processors.
use crate::tools::{LIMIT, Row, SC, ScCase, admit_rows, entry, told};
use std::process::Abort;
use std::test::Fail;

// In a run of two processors.
const BORDERS: [Row; 26] = [
    // kinds
    ((0, 0, 16, 1, 10, 90), Err((8, 2, 1))),
    ((0, 4, 16, 1, 10, 90), Err((8, 2, 1))),
    // processors
    ((2, 2, 16, 1, 10, 90), Err((7, 2, 1))),
    ((255, 2, 16, 1, 10, 90), Err((7, 2, 1))),
    // a store of 0, and fences with an address or a value
    ((0, 2, 16, 0, 10, 90), Err((9, 2, 1))),
    ((0, 3, 16, 0, 10, 90), Err((9, 2, 1))),
    ((0, 3, 0, 1, 10, 90), Err((9, 2, 1))),
    // readings at the limit
    ((0, 2, 16, 1, 10, LIMIT), Err((10, 2, 1))),
    ((0, 2, 16, 1, LIMIT, LIMIT), Err((10, 2, 1))),
    ((0, 2, 16, 1, LIMIT, 10), Err((10, 2, 1))),
    // commit below enter, then equal to it
    ((0, 2, 16, 1, 11, 10), Err((11, 2, 1))),
    ((0, 2, 16, 1, 10, 10), Ok(1)),
    // enter below the processor's last, then equal to it
    ((0, 1, 16, 0, 9, 90), Err((11, 2, 2))),
    ((0, 1, 16, 0, 10, 90), Ok(2)),
    // another processor's enter does not matter
    ((1, 1, 16, 0, 0, 0), Ok(3)),
    ((0, 1, 16, 0, 9, 90), Err((11, 2, 4))),
    // the same store on another processor and on the same
    ((1, 2, 16, 1, 0, 5), Err((12, 2, 4))),
    ((0, 2, 16, 1, 10, 90), Err((12, 2, 4))),
    // its value elsewhere, another value there, a load of it
    ((1, 2, 32, 1, 0, 5), Ok(4)),
    ((1, 2, 16, 2, 0, 5), Ok(5)),
    ((1, 1, 16, 1, 0, 5), Ok(6)),
    // a fence counts for the last enter
    ((1, 3, 0, 0, 20, 30), Ok(7)),
    ((1, 1, 16, 1, 19, 30), Err((11, 2, 8))),
    // readings just below the limit
    ((0, 1, 16, 1, 10, LIMIT - 1), Ok(8)),
    ((1, 1, 16, 1, LIMIT - 1, LIMIT - 1), Ok(9)),
    ((1, 1, 16, 1, LIMIT - 2, LIMIT - 1), Err((11, 2, 10))),
];

// In a run of one processor: what breaks several rules is told by the first.
const SEVERAL: [Row; 13] = [
    ((1, 0, 16, 1, 10, 90), Err((7, 2, 1))),
    ((1, 2, 16, 0, 10, 90), Err((7, 2, 1))),
    ((1, 4, 16, 0, LIMIT, 0), Err((7, 2, 1))),
    ((0, 0, 16, 1, LIMIT, LIMIT), Err((8, 2, 1))),
    ((0, 4, 16, 0, LIMIT, 0), Err((8, 2, 1))),
    ((0, 2, 16, 0, LIMIT, 0), Err((9, 2, 1))),
    ((0, 3, 16, 0, 10, LIMIT), Err((9, 2, 1))),
    ((0, 3, 0, 1, 11, 10), Err((9, 2, 1))),
    ((0, 2, 16, 1, 10, 90), Ok(1)),
    ((0, 2, 16, 1, LIMIT, 0), Err((10, 2, 2))),
    ((0, 2, 16, 1, 0, LIMIT), Err((10, 2, 2))),
    ((0, 2, 16, 1, 9, 90), Err((11, 2, 2))),
    ((0, 2, 16, 1, 10, 90), Err((12, 2, 2))),
];

#[test]
fn the_first_broken_rule_is_told_and_its_border_passes(rt: HostRuntime) -> Result<(), Fail> {
    let mut case = ScCase::new(rt.alloc(), SC)?;
    admit_rows(&rt, &mut case, &SEVERAL);
    assert_eq!(rt; case.records().len(), 1);
    assert_eq!(rt; told(case.open(2)), Ok(()));
    admit_rows(&rt, &mut case, &BORDERS);
    assert_eq!(rt; case.records().len(), 9);
    Ok(())
}

fn fill(rt: &impl Abort, case: &mut ScCase) {
    for i in 1..65u8 {
        assert_eq!(rt; told(case.admit(entry(0, 2, 16, u64::from(i)))), Ok(i));
    }
}

// The run of the full case, with one more record in its bytes.
#[test]
fn sixty_four_records_are_admitted_and_no_more(rt: HostRuntime) -> Result<(), Fail> {
    let mut case = ScCase::new(rt.alloc(), SC)?;
    fill(&rt, &mut case);
    assert_eq!(rt; told(case.admit(entry(0, 2, 16, 65))), Err((6, 2, 65)));
    // full comes before all that is wrong with the record
    assert_eq!(rt; told(case.admit(entry(1, 4, 16, 0))), Err((6, 2, 65)));
    let mut bytes = [0; 2154];
    assert_eq!(rt; told(case.write_run(&mut bytes)), Ok(2121));
    bytes[2118] = 0x02;
    bytes[2120] = 0x1e;
    bytes[2151] = 0x03;
    assert_eq!(rt; told(case.load(&bytes)), Err((6, 2, 2118)));
    assert_eq!(rt; case.records().len(), 64);
    assert_eq!(rt; told(case.admit(entry(0, 2, 16, 65))), Err((6, 2, 65)));
    // sealed comes before full
    assert_eq!(rt; told(case.seal()), Ok(None));
    assert_eq!(rt; told(case.admit(entry(0, 2, 16, 65))), Err((4, 2, 65)));
    Ok(())
}

#[test]
fn one_to_sixteen_processors_open_a_case(rt: HostRuntime) -> Result<(), Fail> {
    let mut case = ScCase::new(rt.alloc(), SC)?;
    assert_eq!(rt; told(case.open(0)), Err((7, 2, 1)));
    assert_eq!(rt; told(case.admit(entry(0, 2, 16, 1))), Ok(1));
    assert_eq!(rt; told(case.open(0)), Err((7, 2, 2)));
    assert_eq!(rt; told(case.open(17)), Err((7, 2, 2)));
    assert_eq!(rt; (case.processors(), case.records().len()), (1, 1));
    // a refused opening leaves a sealed case sealed
    assert_eq!(rt; told(case.seal()), Ok(None));
    assert_eq!(rt; told(case.open(255)), Err((7, 2, 2)));
    assert_eq!(rt; told(case.admit(entry(0, 2, 32, 1))), Err((4, 2, 2)));
    // another begins anew
    assert_eq!(rt; told(case.open(16)), Ok(()));
    assert_eq!(rt; (case.processors(), case.records().len()), (16, 0));
    assert_eq!(rt; told(case.admit(entry(16, 2, 16, 1))), Err((7, 2, 1)));
    assert_eq!(rt; told(case.admit(entry(15, 2, 16, 1))), Ok(1));
    assert_eq!(rt; told(case.open(1)), Ok(()));
    assert_eq!(rt; (case.processors(), case.records().len()), (1, 0));
    Ok(())
}
