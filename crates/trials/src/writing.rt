// The bytes that a case writes, and what it refuses to write.
use crate::tools::{EMPTY, MESSAGE, ORPHAN, Row, SC, ScCase, admit_rows, told};
use case::cases::Case;
use memory::clocks::NoClock;
use memory::models::Godson;
use memory::settings::Setting;
use memory::verdicts::Verdict;
use std::process::Abort;
use std::test::Fail;

const GODSON_NO_CLOCK: Setting<Godson, NoClock> = Setting {
    model: Godson,
    clock: NoClock,
};

// What the lent bytes hold before.
pub const OLD: u8 = 0xaa;

pub fn is_old(rt: &impl Abort, bytes: &[u8]) {
    assert!(rt; bytes.iter().all(|b| *b == OLD), "{bytes:?}");
}

const ORPHANED: [Row; 2] = [((0, 2, 16, 1, 0, 5), Ok(1)), ((0, 1, 16, 7, 10, 20), Ok(2))];

#[test]
fn run_slip_and_paper_are_these_bytes_and_the_rest_is_kept(rt: HostRuntime) -> Result<(), Fail> {
    let mut case = ScCase::new(rt.alloc(), SC)?;
    admit_rows(&rt, &mut case, &ORPHANED);
    let mut out = [OLD; 80];
    assert_eq!(rt; told(case.write_run(&mut out)), Ok(75));
    assert_eq!(rt; &out[0..75], &ORPHAN[..]);
    is_old(&rt, &out[75..80]);
    let mut out = [OLD; 20];
    assert_eq!(rt; told(case.write_slip(&mut out)), Ok(12));
    assert_eq!(rt; &out[0..12], &[0x1d, 0, 9, 0, 0, 0, 0, 0, 0, 0, 0, 0][..]);
    assert_eq!(rt; told(case.seal()), Ok(Some(Verdict::Orphan(2))));
    assert_eq!(rt; told(case.write_slip(&mut out)), Ok(12));
    assert_eq!(rt; &out[0..12], &[0x1d, 0, 9, 3, 0, 0, 0, 0, 0, 0, 0, 0][..]);
    is_old(&rt, &out[12..20]);
    assert_eq!(rt; told(case.write_paper(&mut out)), Ok(14));
    assert_eq!(rt;
        &out[0..14],
        &[0x10, 0, 4, 3, 1, 1, 2, 0x13, 0, 1, 2, 0x1f, 0, 0][..]
    );
    is_old(&rt, &out[14..20]);
    Ok(())
}

#[test]
fn one_byte_too_few_is_refused_and_nothing_is_written(rt: HostRuntime) -> Result<(), Fail> {
    let mut case = ScCase::new(rt.alloc(), SC)?;
    assert_eq!(rt; told(case.load(&ORPHAN)), Ok(Some(Verdict::Orphan(2))));
    let mut run = [OLD; 74];
    assert_eq!(rt; told(case.write_run(&mut run)), Err((15, 2, 3)));
    is_old(&rt, &run);
    let mut slip = [OLD; 11];
    assert_eq!(rt; told(case.write_slip(&mut slip)), Err((15, 2, 3)));
    is_old(&rt, &slip);
    let mut paper = [OLD; 13];
    assert_eq!(rt; told(case.write_paper(&mut paper)), Err((15, 2, 3)));
    is_old(&rt, &paper);
    assert_eq!(rt; told(case.write_run(&mut [])), Err((15, 2, 3)));
    // exactly enough
    assert_eq!(rt; told(case.write_run(&mut [OLD; 75])), Ok(75));
    assert_eq!(rt; told(case.write_slip(&mut [OLD; 12])), Ok(12));
    assert_eq!(rt; told(case.write_paper(&mut [OLD; 14])), Ok(14));
    Ok(())
}

// Too few bytes come after it.
#[test]
fn an_undecided_case_has_no_paper(rt: HostRuntime) -> Result<(), Fail> {
    let mut case = ScCase::new(rt.alloc(), SC)?;
    let mut out = [OLD; 40];
    assert_eq!(rt; told(case.write_paper(&mut out)), Err((14, 2, 1)));
    assert_eq!(rt; told(case.write_paper(&mut [])), Err((14, 2, 1)));
    assert_eq!(rt; told(case.load(&MESSAGE)), Ok(None));
    assert_eq!(rt; told(case.write_paper(&mut out)), Err((14, 2, 5)));
    assert_eq!(rt; told(case.write_paper(&mut [])), Err((14, 2, 5)));
    is_old(&rt, &out);
    Ok(())
}

// Loads a run and writes it.
fn comes_back(rt: &impl Abort, case: &mut ScCase, run: &[u8]) {
    let mut out = [OLD; 200];
    assert!(rt; case.load(run).is_ok());
    assert!(rt; run.len() < 200);
    assert_eq!(rt; told(case.write_run(&mut out)), Ok(run.len()));
    assert_eq!(rt; &out[0..run.len()], run);
}

// All bytes of every number differ, up to the largest that pass.
const WIDE: [Row; 4] = [
    (
        (
            15,
            2,
            0x01020304,
            0x1112131415161718,
            0x2122232425262728,
            0x3132333435363738,
        ),
        Ok(1),
    ),
    (
        (
            15,
            1,
            0x01020304,
            0x1112131415161718,
            4611686018427387903,
            4611686018427387903,
        ),
        Ok(2),
    ),
    ((0, 3, 0, 0, 0, 0), Ok(3)),
    ((0, 2, 4294967295, 18446744073709551615, 0, 1), Ok(4)),
];

#[test]
fn a_run_is_written_as_it_was_loaded_and_loads_as_it_was_written(
    rt: HostRuntime,
) -> Result<(), Fail> {
    let mut case = ScCase::new(rt.alloc(), SC)?;
    comes_back(&rt, &mut case, &MESSAGE);
    comes_back(&rt, &mut case, &ORPHAN);
    comes_back(&rt, &mut case, &EMPTY);
    assert_eq!(rt; told(case.open(16)), Ok(()));
    admit_rows(&rt, &mut case, &WIDE);
    let mut out = [OLD; 141];
    assert_eq!(rt; told(case.write_run(&mut out)), Ok(141));
    assert_eq!(rt; &out[0..6], &[1, 0, 3, 16, 1, 1][..]);
    assert_eq!(rt;
        &out[9..23],
        &[
            15, 2, 1, 2, 3, 4, 0x11, 0x12, 0x13, 0x14, 0x15, 0x16, 0x17, 0x18
        ][..]
    );
    let mut other = ScCase::new(rt.alloc(), SC)?;
    comes_back(&rt, &mut other, &out);
    assert_eq!(rt; (other.processors(), other.records().len()), (16, 4));
    Ok(())
}

#[test]
fn what_a_refused_loading_leaves_is_written(rt: HostRuntime) -> Result<(), Fail> {
    let mut case = ScCase::new(rt.alloc(), SC)?;
    let mut out = [OLD; 75];
    let mut bytes = MESSAGE;
    assert_eq!(rt; told(case.load(&ORPHAN)), Ok(Some(Verdict::Orphan(2))));
    // a head: the case as it was
    bytes[3] = 17;
    assert_eq!(rt; told(case.load(&bytes)), Err((7, 2, 0)));
    assert_eq!(rt; told(case.write_run(&mut out)), Ok(75));
    assert_eq!(rt; &out[..], &ORPHAN[..]);
    // the third record: the two before it
    bytes[3] = 2;
    bytes[75] = 2;
    assert_eq!(rt; told(case.load(&bytes)), Err((7, 2, 72)));
    assert_eq!(rt; told(case.write_run(&mut out)), Ok(75));
    assert_eq!(rt; &out[0..72], &MESSAGE[0..72]);
    assert_eq!(rt; &out[72..75], &MESSAGE[138..141]);
    Ok(())
}

#[test]
fn a_case_writes_and_takes_only_the_marks_of_its_model_and_clock(
    rt: HostRuntime,
) -> Result<(), Fail> {
    let mut case = Case::new(rt.alloc(), GODSON_NO_CLOCK)?;
    let mut out = [OLD; 20];
    assert_eq!(rt; told(case.write_run(&mut out)), Ok(9));
    assert_eq!(rt; &out[0..9], &[1, 0, 3, 1, 3, 3, 3, 0, 0][..]);
    assert_eq!(rt; told(case.load(&out[0..9])), Ok(Some(Verdict::Order)));
    assert_eq!(rt; told(case.load(&EMPTY)), Err((2, 2, 0)));
    assert_eq!(rt;
        told(case.load(&[1, 0, 3, 2, 3, 1, 3, 0, 0])),
        Err((2, 2, 0))
    );
    assert_eq!(rt;
        told(case.load(&[1, 0, 3, 2, 1, 3, 3, 0, 0])),
        Err((2, 2, 0))
    );
    assert_eq!(rt; case.processors(), 1);
    assert_eq!(rt;
        told(case.load(&[1, 0, 3, 2, 3, 3, 3, 0, 0])),
        Ok(Some(Verdict::Order))
    );
    assert_eq!(rt; case.processors(), 2);
    Ok(())
}

// Under each pair of marks, with one byte too few first.
#[test]
fn the_paper_of_an_empty_run_is_an_empty_order(rt: HostRuntime) -> Result<(), Fail> {
    let mut case = ScCase::new(rt.alloc(), SC)?;
    assert_eq!(rt; told(case.load(&EMPTY)), Ok(Some(Verdict::Order)));
    assert_eq!(rt; told(case.write_paper(&mut [OLD; 12])), Err((15, 2, 1)));
    let mut out = [OLD; 16];
    assert_eq!(rt; told(case.write_paper(&mut out)), Ok(13));
    assert_eq!(rt;
        &out[0..13],
        &[0x10, 0, 4, 1, 1, 1, 0, 0x12, 0, 0, 0x1f, 0, 0][..]
    );
    is_old(&rt, &out[13..16]);
    let mut case = Case::new(rt.alloc(), GODSON_NO_CLOCK)?;
    assert_eq!(rt; told(case.seal()), Ok(Some(Verdict::Order)));
    assert_eq!(rt; told(case.write_paper(&mut out)), Ok(13));
    assert_eq!(rt;
        &out[0..13],
        &[0x10, 0, 4, 1, 3, 3, 0, 0x12, 0, 0, 0x1f, 0, 0][..]
    );
    assert_eq!(rt; told(case.write_slip(&mut out)), Ok(12));
    assert_eq!(rt; &out[0..12], &[0x1d, 0, 9, 1, 0, 0, 0, 0, 0, 0, 0, 0][..]);
    Ok(())
}
