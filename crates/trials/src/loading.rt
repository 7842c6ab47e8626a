// What loading tells of bytes, and what it leaves in the case.
use crate::tools::{Admitted, EMPTY, MESSAGE, ORPHAN, Refused, SC, ScCase, entry, told};
use memory::verdicts::Verdict;
use std::fmt::Display;
use std::process::Abort;
use std::test::Fail;

// Loads bytes into a decided case of two records, and then admits a load of 0: a case that is as it was refuses that with
// 3 at place 3, a sealed one with 4, and an open one answers the number of the record.
fn load_then_admit(
    rt: &impl Abort,
    case: &mut ScCase,
    bytes: &[u8],
    load: Result<Option<Verdict>, Refused>,
    admit: Admitted,
) {
    load_noted(rt, case, bytes, load, admit, "");
}

// The same, with what a failed assertion tells of the bytes.
fn load_noted(
    rt: &impl Abort,
    case: &mut ScCase,
    bytes: &[u8],
    load: Result<Option<Verdict>, Refused>,
    admit: Admitted,
    note: impl Display + Drop,
) {
    assert_eq!(rt;
        told(case.load(&ORPHAN)),
        Ok(Some(Verdict::Orphan(2))),
        "{note}"
    );
    assert_eq!(rt; told(case.load(bytes)), load, "{note}");
    assert_eq!(rt; told(case.admit(entry(0, 1, 16, 0))), admit, "{note}");
}

const AS_IT_WAS: Admitted = Err((3, 2, 3));

// The place of the field that is cut where only so many bytes of the message run are left.
fn cut_field(left: usize) -> usize {
    if left < 6 {
        0
    } else if left >= 138 {
        138
    } else {
        6 + (left - 6) / 33 * 33
    }
}

// The records before it stay.
fn after_cut(left: u8) -> Admitted {
    if left < 6 {
        AS_IT_WAS
    } else {
        Ok((left - 6) / 33 + 1)
    }
}

#[test]
fn a_run_cut_at_any_length_is_refused_at_the_field_that_is_cut(
    rt: HostRuntime,
) -> Result<(), Fail> {
    let mut case = ScCase::new(rt.alloc(), SC)?;
    for left in 0..141u8 {
        let n = usize::from(left);
        let note = format_args!("cut to {n}");
        load_noted(
            &rt,
            &mut case,
            &MESSAGE[..n],
            Err((1, 1, cut_field(n))),
            after_cut(left),
            note,
        );
    }
    load_then_admit(&rt, &mut case, &MESSAGE, Ok(None), Err((4, 2, 5)));
    Ok(())
}

// A place in the message run and the byte that is put there, then what loading tells and a further admission; by place, since names
// would stand in every row.
type Change = (usize, u8, Result<Option<Verdict>, Refused>, Admitted);

const SHAPES: [Change; 24] = [
    // a first field that is a record, an end, a paper's head, or none
    (0, 0x02, Err((1, 1, 0)), AS_IT_WAS),
    (0, 0x03, Err((1, 1, 0)), AS_IT_WAS),
    (0, 0x10, Err((1, 1, 0)), AS_IT_WAS),
    (0, 0x00, Err((1, 1, 0)), AS_IT_WAS),
    (0, 0xff, Err((1, 1, 0)), AS_IT_WAS),
    // a head of length 259, 2 and 4
    (1, 1, Err((1, 1, 0)), AS_IT_WAS),
    (2, 2, Err((1, 1, 0)), AS_IT_WAS),
    (2, 4, Err((1, 1, 0)), AS_IT_WAS),
    // behind the head: another head, an end of length 30, unknown tags
    (6, 0x01, Err((1, 1, 6)), Ok(1)),
    (6, 0x03, Err((1, 1, 6)), Ok(1)),
    (6, 0x04, Err((1, 1, 6)), Ok(1)),
    (6, 0x11, Err((1, 1, 6)), Ok(1)),
    (6, 0x1e, Err((1, 1, 6)), Ok(1)),
    // records of length 286, 29 and 31
    (7, 1, Err((1, 1, 6)), Ok(1)),
    (8, 29, Err((1, 1, 6)), Ok(1)),
    (8, 31, Err((1, 1, 6)), Ok(1)),
    (41, 29, Err((1, 1, 39)), Ok(2)),
    (72, 0x01, Err((1, 1, 72)), Ok(3)),
    (105, 0x00, Err((1, 1, 105)), Ok(4)),
    // in place of the end a record of length 0, a paper's end, ends of length 1 and 256
    (138, 0x02, Err((1, 1, 138)), Ok(5)),
    (138, 0x1f, Err((1, 1, 138)), Ok(5)),
    (140, 1, Err((1, 1, 138)), Ok(5)),
    (139, 1, Err((1, 1, 138)), Ok(5)),
    // nothing is wrong
    (140, 0, Ok(None), Err((4, 2, 5))),
];

const CONTENTS: [Change; 24] = [
    // processors
    (3, 0, Err((7, 2, 0)), AS_IT_WAS),
    (3, 17, Err((7, 2, 0)), AS_IT_WAS),
    (3, 255, Err((7, 2, 0)), AS_IT_WAS),
    (3, 16, Ok(None), Err((4, 2, 5))),
    (3, 1, Err((7, 2, 72)), Ok(3)),
    // marks of model and clock
    (4, 0, Err((2, 2, 0)), AS_IT_WAS),
    (4, 2, Err((2, 2, 0)), AS_IT_WAS),
    (4, 3, Err((2, 2, 0)), AS_IT_WAS),
    (5, 3, Err((2, 2, 0)), AS_IT_WAS),
    (5, 0, Err((2, 2, 0)), AS_IT_WAS),
    // the second record: processor, kind, address, value, readings
    (42, 2, Err((7, 2, 39)), Ok(2)),
    (43, 0, Err((8, 2, 39)), Ok(2)),
    (43, 4, Err((8, 2, 39)), Ok(2)),
    (43, 3, Err((9, 2, 39)), Ok(2)),
    (55, 0, Err((9, 2, 39)), Ok(2)),
    (56, 64, Err((10, 2, 39)), Ok(2)),
    (64, 64, Err((10, 2, 39)), Ok(2)),
    (63, 9, Err((11, 2, 39)), Ok(2)),
    (71, 9, Err((11, 2, 39)), Ok(2)),
    (47, 16, Err((12, 2, 39)), Ok(2)),
    // it stores another value, which leaves the third an orphan
    (55, 2, Ok(Some(Verdict::Orphan(3))), Err((3, 2, 5))),
    // the last record
    (108, 9, Err((7, 2, 105)), Ok(4)),
    (109, 9, Err((8, 2, 105)), Ok(4)),
    (129, 9, Err((11, 2, 105)), Ok(4)),
];

fn load_changed(rt: &impl Abort, case: &mut ScCase, changes: &[Change]) -> Result<(), Fail> {
    for change in changes {
        let (at, byte, load, admit) = *change;
        let mut bytes = MESSAGE;
        *bytes.get_mut(at).ok_or("no such byte")? = byte;
        load_noted(
            rt,
            case,
            &bytes,
            load,
            admit,
            format_args!("{byte} at {at}"),
        );
    }
    Ok(())
}

#[test]
fn a_byte_that_is_changed_is_told_at_its_field_and_what_came_before_stays(
    rt: HostRuntime,
) -> Result<(), Fail> {
    let mut case = ScCase::new(rt.alloc(), SC)?;
    load_changed(&rt, &mut case, &SHAPES)?;
    load_changed(&rt, &mut case, &CONTENTS)
}

// No bytes, a run without its head, an end alone, and bytes behind the end.
#[test]
fn a_run_begins_with_its_head_and_ends_with_its_end(rt: HostRuntime) -> Result<(), Fail> {
    let mut case = ScCase::new(rt.alloc(), SC)?;
    load_then_admit(&rt, &mut case, &[], Err((1, 1, 0)), AS_IT_WAS);
    load_then_admit(&rt, &mut case, &MESSAGE[6..141], Err((1, 1, 0)), AS_IT_WAS);
    load_then_admit(
        &rt,
        &mut case,
        &MESSAGE[138..141],
        Err((1, 1, 0)),
        AS_IT_WAS,
    );
    let mut bytes = [0; 144];
    assert_eq!(rt; told(case.load(&MESSAGE)), Ok(None));
    assert_eq!(rt; told(case.write_run(&mut bytes)), Ok(141));
    load_then_admit(&rt, &mut case, &bytes[0..142], Err((1, 1, 141)), Ok(5));
    // a second end is no better
    bytes[141] = 0x03;
    load_then_admit(&rt, &mut case, &bytes, Err((1, 1, 141)), Ok(5));
    load_then_admit(&rt, &mut case, &bytes[0..141], Ok(None), Err((4, 2, 5)));
    load_then_admit(
        &rt,
        &mut case,
        &EMPTY,
        Ok(Some(Verdict::Order)),
        Err((3, 2, 1)),
    );
    assert_eq!(rt; case.processors(), 2);
    Ok(())
}

// Marks come before processors, a field's shape before its content, and its content before the next field.
#[test]
fn loading_tells_the_first_of_several_faults(rt: HostRuntime) -> Result<(), Fail> {
    let mut case = ScCase::new(rt.alloc(), SC)?;
    let mut bytes = MESSAGE;
    bytes[3] = 0;
    bytes[4] = 2;
    load_then_admit(&rt, &mut case, &bytes, Err((2, 2, 0)), AS_IT_WAS);
    bytes[2] = 4;
    load_then_admit(&rt, &mut case, &bytes, Err((1, 1, 0)), AS_IT_WAS);
    let mut bytes = MESSAGE;
    bytes[42] = 2;
    bytes[43] = 0;
    load_then_admit(&rt, &mut case, &bytes, Err((7, 2, 39)), Ok(2));
    load_then_admit(&rt, &mut case, &bytes[0..71], Err((1, 1, 39)), Ok(2));
    load_then_admit(&rt, &mut case, &bytes[0..72], Err((7, 2, 39)), Ok(2));
    bytes[22] = 0;
    load_then_admit(&rt, &mut case, &bytes[0..50], Err((9, 2, 6)), Ok(1));
    Ok(())
}
