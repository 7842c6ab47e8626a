// Which lines a case infers, in which order, what they decide, and the paper of opposed ones.
use crate::tools::{
    ALL, BROKEN, Done, EMPTY, GODSON, MESSAGE, Numbers, ORPHAN, Row, SC, SC_NO_CLOCK, SENDING,
    STALE, ScCase, admit_rows, are_lines, entry, inferred, numbers, sealed, told,
};
use crate::writing::{OLD, is_old};
use case::cases::Case;
use memory::clocks::Clock;
use memory::lines::Line;
use memory::models::Model;
use memory::verdicts::Verdict;
use std::process::Abort;
use std::test::Fail;

// Inferring k answers this, and the case then has these lines.
fn infers<M: Model, C: Clock>(
    rt: &impl Abort,
    case: &mut Case<M, C>,
    k: u64,
    want: Done,
    lines: &[Numbers],
) {
    assert_eq!(rt; inferred(case, k), want);
    are_lines(rt, case.lines(), lines);
}

// The lines of the message run: the last says that 1 comes before 4, and the fourth the opposite.
const SENT: [Numbers; 6] = [
    (2, 1, 2, 0),
    (2, 3, 4, 0),
    (3, 2, 3, 0),
    (4, 4, 1, 0),
    (7, 1, 3, 2),
    (7, 1, 4, 3),
];

// The message run decided by its lines: it refuses every call that would change it, and is as it was.
fn stays_broken(rt: &impl Abort, case: &mut ScCase) {
    infers(rt, case, ALL, Err((3, 2, 5)), &SENT);
    infers(rt, case, 0, Err((3, 2, 5)), &SENT);
    assert_eq!(rt; told(case.admit(entry(0, 1, 16, 0))), Err((3, 2, 5)));
    assert_eq!(rt; told(case.seal()), Err((3, 2, 5)));
    assert_eq!(rt; told(case.open(17)), Err((7, 2, 5)));
    are_lines(rt, case.lines(), &SENT);
    assert_eq!(rt; (case.processors(), case.records().len()), (2, 4));
    assert_eq!(rt; (case.stage().verdict(), case.steps()), (BROKEN, 0));
}

#[test]
fn the_message_run_has_six_lines_and_the_last_decides_it(rt: HostRuntime) -> Result<(), Fail> {
    let mut case = ScCase::new(rt.alloc(), SC)?;
    assert_eq!(rt; told(case.load(&MESSAGE)), Ok(None));
    infers(&rt, &mut case, ALL, Ok((6, BROKEN)), &SENT);
    stays_broken(&rt, &mut case);
    Ok(())
}

// Its slip and paper.
const ANSWER: [u8; 64] = [
    0x1d, 0, 9, 2, 0, 0, 0, 0, 0, 0, 0, 0, 0x10, 0, 4, 2, 1, 1, 4, 0x11, 0, 4, 2, 1, 2, 0, 0x11, 0,
    4, 2, 3, 4, 0, 0x11, 0, 4, 3, 2, 3, 0, 0x11, 0, 4, 4, 4, 1, 0, 0x11, 0, 4, 7, 1, 3, 2, 0x11, 0,
    4, 7, 1, 4, 3, 0x1f, 0, 0,
];

// With one byte too few first.
#[test]
fn the_paper_of_opposed_lines_is_these_bytes_and_the_rest_is_kept(
    rt: HostRuntime,
) -> Result<(), Fail> {
    let mut case = ScCase::new(rt.alloc(), SC)?;
    assert_eq!(rt; told(case.load(&MESSAGE)), Ok(None));
    infers(&rt, &mut case, ALL, Ok((6, BROKEN)), &SENT);
    let mut out = [OLD; 60];
    assert_eq!(rt; told(case.write_paper(&mut out[0..51])), Err((15, 2, 5)));
    is_old(&rt, &out);
    assert_eq!(rt; told(case.write_paper(&mut out)), Ok(52));
    assert_eq!(rt; &out[0..52], &ANSWER[12..64]);
    is_old(&rt, &out[52..60]);
    let mut out = [OLD; 70];
    assert_eq!(rt; told(case.write_slip(&mut out)), Ok(12));
    is_old(&rt, &out[12..70]);
    assert_eq!(rt; told(case.write_paper(&mut out[12..64])), Ok(52));
    assert_eq!(rt; &out[0..64], &ANSWER[..]);
    is_old(&rt, &out[64..70]);
    Ok(())
}

#[test]
fn lines_listed_in_pieces_are_the_same_and_the_last_decides(rt: HostRuntime) -> Result<(), Fail> {
    let mut case = ScCase::new(rt.alloc(), SC)?;
    assert_eq!(rt; told(case.load(&MESSAGE)), Ok(None));
    infers(&rt, &mut case, 0, Ok((0, None)), &[]);
    infers(&rt, &mut case, 1, Ok((1, None)), &SENT[0..1]);
    infers(&rt, &mut case, 2, Ok((2, None)), &SENT[0..3]);
    infers(&rt, &mut case, 100, Ok((3, BROKEN)), &SENT);
    stays_broken(&rt, &mut case);
    Ok(())
}

// It does not order the two loads, so that nothing leads from the stores to the load of 0.
#[test]
fn under_godson_the_message_run_has_six_other_lines_and_no_verdict(
    rt: HostRuntime,
) -> Result<(), Fail> {
    let mut case = Case::new(rt.alloc(), GODSON)?;
    let mut bytes = MESSAGE;
    bytes[4] = 3;
    assert_eq!(rt; told(case.load(&bytes)), Ok(None));
    let want = [
        (2, 1, 2, 0),
        (3, 2, 3, 0),
        (4, 4, 1, 0),
        (7, 1, 3, 2),
        (7, 4, 2, 1),
        (7, 4, 3, 1),
    ];
    infers(&rt, &mut case, ALL, Ok((6, None)), &want);
    // none follows any more, and a sealed case without a verdict may ask again
    infers(&rt, &mut case, ALL, Ok((0, None)), &want);
    infers(&rt, &mut case, 0, Ok((0, None)), &want);
    assert_eq!(rt; told(case.seal()), Err((4, 2, 5)));
    let mut out = [OLD; 60];
    assert_eq!(rt; told(case.write_paper(&mut out)), Err((14, 2, 5)));
    assert_eq!(rt; told(case.write_paper(&mut [])), Err((14, 2, 5)));
    is_old(&rt, &out);
    Ok(())
}

#[test]
fn a_load_of_a_stale_value_is_opposed_only_where_the_clock_speaks(
    rt: HostRuntime,
) -> Result<(), Fail> {
    let mut case = sealed(&rt, SC, 3, &STALE)?;
    let want = [(1, 1, 2, 0), (1, 1, 3, 0), (1, 2, 3, 0), (5, 2, 1, 3)];
    infers(&rt, &mut case, ALL, Ok((4, BROKEN)), &want);
    let mut case = sealed(&rt, SC_NO_CLOCK, 3, &STALE)?;
    infers(&rt, &mut case, ALL, Ok((1, None)), &[(3, 1, 3, 0)]);
    Ok(())
}

// Two loads of 0 on two processors: the first commits at 10, the second enters at 10 or 11.
#[test]
fn the_clock_lists_a_line_only_where_a_commit_is_below_an_enter(
    rt: HostRuntime,
) -> Result<(), Fail> {
    let mut case = ScCase::new(rt.alloc(), SC)?;
    for (enter, count) in [(10, 0usize), (11, 1)] {
        assert_eq!(rt; told(case.open(2)), Ok(()));
        let rows = [
            ((0, 1, 16, 0, 5, 10), Ok(1)),
            ((1, 1, 16, 0, enter, 20), Ok(2)),
        ];
        admit_rows(&rt, &mut case, &rows);
        let want = [(1, 1, 2, 0)];
        infers(
            &rt,
            &mut case,
            ALL,
            Ok((count as u64, None)),
            &want[0..count],
        );
    }
    Ok(())
}

// A line of a smaller rule comes behind those that were listed.
const GROWN: [Numbers; 6] = [
    (2, 1, 2, 0),
    (3, 2, 3, 0),
    (7, 1, 3, 2),
    (2, 3, 4, 0),
    (7, 1, 4, 3),
    (7, 2, 4, 3),
];

#[test]
fn lines_go_on_behind_more_records_and_are_never_sorted_again(rt: HostRuntime) -> Result<(), Fail> {
    let mut case = ScCase::new(rt.alloc(), SC)?;
    assert_eq!(rt; told(case.open(2)), Ok(()));
    infers(&rt, &mut case, ALL, Ok((0, None)), &[]);
    assert_eq!(rt; told(case.admit(entry(0, 2, 16, 5))), Ok(1));
    assert_eq!(rt; told(case.admit(entry(0, 2, 32, 6))), Ok(2));
    infers(&rt, &mut case, ALL, Ok((1, None)), &GROWN[0..1]);
    assert_eq!(rt; told(case.admit(entry(1, 1, 32, 6))), Ok(3));
    infers(&rt, &mut case, 1, Ok((1, None)), &GROWN[0..2]);
    // a record that is refused changes nothing
    assert_eq!(rt; told(case.admit(entry(0, 2, 32, 6))), Err((12, 2, 4)));
    infers(&rt, &mut case, ALL, Ok((1, None)), &GROWN[0..3]);
    assert_eq!(rt; told(case.admit(entry(1, 1, 48, 0))), Ok(4));
    infers(&rt, &mut case, 1, Ok((1, None)), &GROWN[0..4]);
    // neither does sealing
    assert_eq!(rt; told(case.seal()), Ok(None));
    infers(&rt, &mut case, ALL, Ok((2, None)), &GROWN);
    infers(&rt, &mut case, ALL, Ok((0, None)), &GROWN);
    Ok(())
}

#[test]
fn opposed_lines_decide_an_open_case_and_opening_drops_them(rt: HostRuntime) -> Result<(), Fail> {
    let mut case = ScCase::new(rt.alloc(), SC)?;
    assert_eq!(rt; told(case.open(2)), Ok(()));
    admit_rows(&rt, &mut case, &SENDING);
    infers(&rt, &mut case, ALL, Ok((6, BROKEN)), &SENT);
    stays_broken(&rt, &mut case);
    assert_eq!(rt; told(case.open(2)), Ok(()));
    infers(&rt, &mut case, ALL, Ok((0, None)), &[]);
    admit_rows(&rt, &mut case, &SENDING[0..2]);
    infers(&rt, &mut case, ALL, Ok((1, None)), &SENT[0..1]);
    Ok(())
}

// At the head it leaves the case as it was; behind the head the case was opened.
#[test]
fn loading_drops_the_lines_where_its_head_passes(rt: HostRuntime) -> Result<(), Fail> {
    let mut case = ScCase::new(rt.alloc(), SC)?;
    assert_eq!(rt; told(case.load(&MESSAGE)), Ok(None));
    infers(&rt, &mut case, ALL, Ok((6, BROKEN)), &SENT);
    assert_eq!(rt; told(case.load(&MESSAGE[0..5])), Err((1, 1, 0)));
    stays_broken(&rt, &mut case);
    assert_eq!(rt; told(case.load(&MESSAGE[0..72])), Err((1, 1, 72)));
    infers(&rt, &mut case, ALL, Ok((1, None)), &SENT[0..1]);
    assert_eq!(rt; told(case.load(&MESSAGE)), Ok(None));
    infers(&rt, &mut case, ALL, Ok((6, BROKEN)), &SENT);
    Ok(())
}

// A load before the store that it reads, on one processor, and an orphan.
const TWICE_BROKEN: [Row; 3] = [
    ((0, 1, 16, 1, 10, 90), Ok(1)),
    ((0, 2, 16, 1, 10, 90), Ok(2)),
    ((0, 1, 32, 7, 10, 90), Ok(3)),
];

#[test]
fn of_two_reasons_the_one_that_is_asked_for_first_decides(rt: HostRuntime) -> Result<(), Fail> {
    let mut case = ScCase::new(rt.alloc(), SC)?;
    admit_rows(&rt, &mut case, &TWICE_BROKEN);
    let want = [(2, 1, 2, 0), (2, 1, 3, 0), (2, 2, 3, 0), (3, 2, 1, 0)];
    infers(&rt, &mut case, ALL, Ok((4, BROKEN)), &want);
    assert_eq!(rt; told(case.seal()), Err((3, 2, 4)));
    assert_eq!(rt; told(case.open(1)), Ok(()));
    admit_rows(&rt, &mut case, &TWICE_BROKEN);
    assert_eq!(rt; told(case.seal()), Ok(Some(Verdict::Orphan(3))));
    infers(&rt, &mut case, ALL, Err((3, 2, 4)), &[]);
    Ok(())
}

#[test]
fn a_case_that_sealing_decided_infers_nothing(rt: HostRuntime) -> Result<(), Fail> {
    let mut case = ScCase::new(rt.alloc(), SC)?;
    assert_eq!(rt; told(case.load(&ORPHAN)), Ok(Some(Verdict::Orphan(2))));
    infers(&rt, &mut case, ALL, Err((3, 2, 3)), &[]);
    infers(&rt, &mut case, 0, Err((3, 2, 3)), &[]);
    assert_eq!(rt; told(case.load(&EMPTY)), Ok(Some(Verdict::Order)));
    infers(&rt, &mut case, 1, Err((3, 2, 1)), &[]);
    Ok(())
}

#[test]
fn a_load_comes_before_the_store_that_overwrites_what_it_reads(
    rt: HostRuntime,
) -> Result<(), Fail> {
    let mut case = ScCase::new(rt.alloc(), SC)?;
    assert_eq!(rt; told(case.open(2)), Ok(()));
    assert_eq!(rt; told(case.admit(entry(0, 2, 16, 1))), Ok(1));
    assert_eq!(rt; told(case.admit(entry(0, 2, 16, 2))), Ok(2));
    assert_eq!(rt; told(case.admit(entry(1, 1, 16, 1))), Ok(3));
    let want = [(2, 1, 2, 0), (3, 1, 3, 0), (6, 3, 2, 0)];
    infers(&rt, &mut case, ALL, Ok((3, None)), &want);
    Ok(())
}

// There are 190 lines, and they are those of the model for each pair of 1 to 20, in order.
fn are_all_pairs(rt: &impl Abort, lines: &[Line]) {
    assert_eq!(rt; lines.len(), 190);
    let pairs = (1..20u8).flat_map(|first| (first + 1..=20).map(move |second| (first, second)));
    for (line, (first, second)) in lines.iter().zip(pairs) {
        assert_eq!(rt; numbers(*line), (2, first, second, 0));
    }
}

#[test]
fn twenty_loads_of_one_processor_have_a_line_for_every_pair(rt: HostRuntime) -> Result<(), Fail> {
    let mut case = ScCase::new(rt.alloc(), SC)?;
    for number in 1..=20u8 {
        assert_eq!(rt; told(case.admit(entry(0, 1, 16, 0))), Ok(number));
    }
    assert_eq!(rt; inferred(&mut case, ALL), Ok((190, None)));
    are_all_pairs(&rt, case.lines());
    Ok(())
}
