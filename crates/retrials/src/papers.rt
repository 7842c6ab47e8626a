// Which papers are accepted, and what is told of the others, in the order of the checks.
use crate::tools::{
    Answer, EMPTY, EMPTY_PAPER, GODSON, GODSON_PAPER, MESSAGE, MESSAGE_PAPER, ORPHAN, ORPHAN_PAPER,
    SC, SC_NO_CLOCK, STALE, STALE_PAPER, ruled,
};
use memory::verdicts::Verdict;
use std::process::Abort;
use std::test::Fail;

#[test]
fn what_a_case_writes_is_accepted_under_its_setting(rt: HostRuntime) {
    let mut godson = MESSAGE;
    godson[4] = 3;
    assert_eq!(rt; ruled(SC, &MESSAGE, &MESSAGE_PAPER), Ok(Verdict::Opposed));
    assert_eq!(rt; ruled(GODSON, &godson, &GODSON_PAPER), Ok(Verdict::Order));
    assert_eq!(rt; ruled(SC, &STALE, &STALE_PAPER), Ok(Verdict::Opposed));
    assert_eq!(rt; ruled(SC, &ORPHAN, &ORPHAN_PAPER), Ok(Verdict::Orphan(2)));
    assert_eq!(rt; ruled(SC, &EMPTY, &EMPTY_PAPER), Ok(Verdict::Order));
}

// Another model or clock than the run marks is told of the run, and than the paper marks, of the paper.
#[test]
fn run_and_paper_are_of_the_setting_in_use(rt: HostRuntime) {
    let mut godson = MESSAGE;
    godson[4] = 3;
    let of_run = Err((2, 2, 0));
    assert_eq!(rt; ruled(GODSON, &MESSAGE, &MESSAGE_PAPER), of_run);
    assert_eq!(rt; ruled(SC_NO_CLOCK, &STALE, &STALE_PAPER), of_run);
    assert_eq!(rt; ruled(SC, &godson, &GODSON_PAPER), of_run);
    let mut no_clock = STALE;
    no_clock[5] = 3;
    assert_eq!(rt; ruled(SC, &no_clock, &STALE_PAPER), of_run);
    let of_paper = Err((2, 3, 0));
    assert_eq!(rt; ruled(SC, &MESSAGE, &GODSON_PAPER), of_paper);
    assert_eq!(rt; ruled(GODSON, &godson, &MESSAGE_PAPER), of_paper);
    assert_eq!(rt; ruled(SC_NO_CLOCK, &no_clock, &STALE_PAPER), of_paper);
    // of three records and of two, not of four
    assert_eq!(rt; ruled(SC, &MESSAGE, &STALE_PAPER), of_paper);
    assert_eq!(rt; ruled(SC, &MESSAGE, &ORPHAN_PAPER), of_paper);
}

// A place in a paper and the byte that is put there, then what is told; by place, since names would stand in every row.
type Change = (usize, u8, Answer);

// Of the message run's paper.
const LINES: [Change; 28] = [
    // a first field that is a run's head, a line, an end, or none; a head of length 3 and 260
    (0, 0x01, Err((1, 3, 0))),
    (0, 0x11, Err((1, 3, 0))),
    (0, 0x1f, Err((1, 3, 0))),
    (0, 0x00, Err((1, 3, 0))),
    (2, 3, Err((1, 3, 0))),
    (1, 1, Err((1, 3, 0))),
    // verdicts that have no paper; those that have another body
    (3, 0, Err((1, 3, 0))),
    (3, 4, Err((1, 3, 0))),
    (3, 255, Err((1, 3, 0))),
    (3, 1, Err((1, 3, 7))),
    (3, 3, Err((1, 3, 7))),
    // marks and count
    (4, 3, Err((2, 3, 0))),
    (5, 3, Err((2, 3, 0))),
    (6, 3, Err((2, 3, 0))),
    (6, 5, Err((2, 3, 0))),
    // in place of the second line an order, an orphan, a head and a run's record; lines of length 3 and 5
    (14, 0x12, Err((1, 3, 14))),
    (14, 0x13, Err((1, 3, 14))),
    (14, 0x10, Err((1, 3, 14))),
    (14, 0x02, Err((1, 3, 14))),
    (16, 3, Err((1, 3, 14))),
    (16, 5, Err((1, 3, 14))),
    // its rule, first, second and third: 0, above the records, first and second the same, a third where none is named
    (17, 0, Err((16, 4, 14))),
    (17, 8, Err((16, 4, 14))),
    (18, 0, Err((16, 4, 14))),
    (19, 5, Err((16, 4, 14))),
    (19, 3, Err((16, 4, 14))),
    (20, 1, Err((16, 4, 14))),
    // another founded line in place of the last, which is opposed to none: by rule 7, 2 before 4
    (46, 2, Err((17, 4, 49))),
];

// Of the message run's paper under Godson.
const ORDER: [Change; 10] = [
    // a line, an orphan and an end in place of the order; an order of length 3 and 5
    (7, 0x11, Err((1, 3, 7))),
    (7, 0x13, Err((1, 3, 7))),
    (7, 0x1f, Err((1, 3, 7))),
    (9, 3, Err((1, 3, 7))),
    (9, 5, Err((1, 3, 7))),
    // a number that no record has, and one that stands twice
    (10, 0, Err((17, 4, 14))),
    (10, 5, Err((17, 4, 14))),
    (10, 3, Err((17, 4, 14))),
    // an order where the end is due; an end with content
    (14, 0x12, Err((1, 3, 14))),
    (16, 1, Err((1, 3, 14))),
];

// Of the orphan's paper.
const ONE: [Change; 8] = [
    (7, 0x12, Err((1, 3, 7))),
    (7, 0x11, Err((1, 3, 7))),
    (9, 0, Err((1, 3, 7))),
    (9, 2, Err((1, 3, 7))),
    // the store, and numbers that no record has
    (10, 1, Err((17, 4, 11))),
    (10, 0, Err((17, 4, 11))),
    (10, 3, Err((17, 4, 11))),
    (11, 0x13, Err((1, 3, 11))),
];

// A paper of a run under SC and Global with a byte changed.
fn changed<const N: usize>(
    rt: &impl Abort,
    run: &[u8],
    paper: [u8; N],
    changes: &[Change],
) -> Result<(), Fail> {
    for change in changes {
        let (at, byte, want) = *change;
        let mut bytes = paper;
        *bytes.get_mut(at).ok_or("no such byte")? = byte;
        assert_eq!(rt; ruled(SC, run, &bytes), want, "{byte} at {at}");
    }
    Ok(())
}

#[test]
fn a_byte_of_a_paper_that_is_changed_is_told_at_its_field(rt: HostRuntime) -> Result<(), Fail> {
    changed(&rt, &MESSAGE, MESSAGE_PAPER, &LINES)?;
    changed(&rt, &ORPHAN, ORPHAN_PAPER, &ONE)
}

#[test]
fn a_byte_of_an_order_that_is_changed_is_told_at_its_field(rt: HostRuntime) -> Result<(), Fail> {
    let mut run = MESSAGE;
    run[4] = 3;
    for change in ORDER {
        let (at, byte, want) = change;
        let mut bytes = GODSON_PAPER;
        *bytes.get_mut(at).ok_or("no such byte")? = byte;
        assert_eq!(rt; ruled(GODSON, &run, &bytes), want, "{byte} at {at}");
    }
    Ok(())
}

// The place of the field that is cut where only so many bytes of the message run's paper are left.
fn cut_field(left: usize) -> usize {
    if left < 7 { 0 } else { left / 7 * 7 }
}

#[test]
fn a_paper_cut_at_any_length_is_refused_at_the_field_that_is_cut(rt: HostRuntime) {
    for left in 0..52usize {
        let want = Err((1, 3, cut_field(left)));
        assert_eq!(rt;
            ruled(SC, &MESSAGE, &MESSAGE_PAPER[..left]),
            want,
            "cut to {left}"
        );
    }
}

// The run is refused before the paper is looked at, a verdict before marks, a field before the next, bytes behind the end before the conclusion.
#[test]
fn the_referee_tells_the_first_of_several_faults(rt: HostRuntime) {
    assert_eq!(rt; ruled(SC, &MESSAGE[..140], &[]), Err((1, 1, 138)));
    let mut paper = MESSAGE_PAPER;
    paper[4] = 3;
    paper[17] = 8;
    assert_eq!(rt; ruled(SC, &MESSAGE, &paper[..20]), Err((2, 3, 0)));
    paper[3] = 9;
    assert_eq!(rt; ruled(SC, &MESSAGE, &paper), Err((1, 3, 0)));
    paper = MESSAGE_PAPER;
    paper[17] = 8;
    assert_eq!(rt; ruled(SC, &MESSAGE, &paper[..24]), Err((16, 4, 14)));
    assert_eq!(rt; ruled(SC, &MESSAGE, &paper[..20]), Err((1, 3, 14)));
    // an order with a number that no record has: its end missing, and whole
    let order = [0x10, 0, 4, 1, 1, 1, 4, 0x12, 0, 4, 0, 1, 2, 3, 0x1f, 0, 0];
    assert_eq!(rt; ruled(SC, &MESSAGE, &order[..14]), Err((1, 3, 14)));
    assert_eq!(rt; ruled(SC, &MESSAGE, &order), Err((17, 4, 14)));
    // an orphan field with a store, its end cut, whole, and with a byte behind it
    let orphan = [0x10, 0, 4, 3, 1, 1, 2, 0x13, 0, 1, 1, 0x1f, 0, 0, 0];
    assert_eq!(rt; ruled(SC, &ORPHAN, &orphan[..13]), Err((1, 3, 11)));
    assert_eq!(rt; ruled(SC, &ORPHAN, &orphan[..14]), Err((17, 4, 11)));
    assert_eq!(rt; ruled(SC, &ORPHAN, &orphan), Err((1, 3, 14)));
}

// A place in a paper, and the rule, first, second and third of the line that is put there, which is not founded.
type Unfounded = (usize, [u8; 4]);

// Of the message run's paper, by what the rules 1, 2, 4 and 7 ask.
const OF_MESSAGE: [Unfounded; 7] = [
    // the readings overlap
    (7, [1, 1, 3, 0]),
    // the first is later, and of another processor
    (7, [2, 2, 1, 0]),
    (7, [2, 1, 3, 0]),
    // the load is of 1, and the store to another address
    (7, [4, 3, 2, 0]),
    (7, [4, 4, 2, 0]),
    // 2 before 3 is not listed yet; no third is named
    (14, [7, 1, 3, 2]),
    (35, [7, 1, 3, 0]),
];

// Of the stale run's paper, by what the rules 5 and 6 ask.
const OF_STALE: [Unfounded; 3] = [
    // 2 before 3 is not listed yet, nor is 1 before 2
    (7, [5, 2, 1, 3]),
    (7, [6, 3, 2, 0]),
    // 1 before 3 is listed already, by another rule
    (28, [7, 1, 3, 2]),
];

// A paper with another line at a place, where it has one.
fn with_line<const N: usize>(mut paper: [u8; N], at: usize, line: [u8; 4]) -> Option<[u8; N]> {
    paper.get_mut(at..)?.get_mut(3..7)?.copy_from_slice(&line);
    Some(paper)
}

fn unfounded<const N: usize>(
    rt: &impl Abort,
    run: &[u8],
    paper: [u8; N],
    lines: &[Unfounded],
) -> Result<(), Fail> {
    for entry in lines {
        let (at, line) = *entry;
        let bytes = with_line(paper, at, line).ok_or("no such line")?;
        assert_eq!(rt;
            ruled(SC, run, &bytes),
            Err((16, 4, at)),
            "{line:?} at {at}"
        );
    }
    Ok(())
}

#[test]
fn a_line_that_its_rule_does_not_give_or_that_is_listed_is_unfounded(
    rt: HostRuntime,
) -> Result<(), Fail> {
    unfounded(&rt, &MESSAGE, MESSAGE_PAPER, &OF_MESSAGE)?;
    unfounded(&rt, &STALE, STALE_PAPER, &OF_STALE)
}

// No lines, the message run's in other orders, one twice, and lines behind an opposed one.
#[test]
fn lines_need_only_be_founded_and_the_last_decides(rt: HostRuntime) {
    let none = [0x10, 0, 4, 2, 1, 1, 4, 0x1f, 0, 0];
    assert_eq!(rt; ruled(SC, &MESSAGE, &none), Err((17, 4, 7)));
    // 3 before 4, 4 before 1, 1 before 2, 2 before 3; then 1 before 3, and 1 before 4
    let mut other = MESSAGE_PAPER;
    other[7..14].copy_from_slice(&MESSAGE_PAPER[14..21]);
    other[14..21].copy_from_slice(&MESSAGE_PAPER[28..35]);
    other[21..28].copy_from_slice(&MESSAGE_PAPER[7..14]);
    other[28..35].copy_from_slice(&MESSAGE_PAPER[21..28]);
    assert_eq!(rt; ruled(SC, &MESSAGE, &other), Ok(Verdict::Opposed));
    // the fifth line twice, in place of the sixth; the two swapped
    other[42..49].copy_from_slice(&MESSAGE_PAPER[35..42]);
    assert_eq!(rt; ruled(SC, &MESSAGE, &other), Err((16, 4, 42)));
    other[35..42].copy_from_slice(&MESSAGE_PAPER[42..49]);
    assert_eq!(rt; ruled(SC, &MESSAGE, &other), Err((16, 4, 35)));
    // behind the opposed line 2 before 4, over 3, and then 4 before 3, over 1
    let mut more = [0; 66];
    more[..49].copy_from_slice(&MESSAGE_PAPER[..49]);
    more[49..63].copy_from_slice(&[0x11, 0, 4, 7, 2, 4, 3, 0x11, 0, 4, 7, 4, 3, 1]);
    more[63] = 0x1f;
    assert_eq!(rt; ruled(SC, &MESSAGE, &more), Ok(Verdict::Opposed));
    more[56] = 0x1f;
    more[58] = 0;
    assert_eq!(rt; ruled(SC, &MESSAGE, &more[..59]), Err((17, 4, 56)));
}

// The orphan's run with its store made a load of 5, so that both records are orphans.
#[test]
fn any_orphan_will_do(rt: HostRuntime) {
    let mut run = ORPHAN;
    run[10] = 1;
    run[22] = 5;
    let mut paper = ORPHAN_PAPER;
    assert_eq!(rt; ruled(SC, &run, &paper), Ok(Verdict::Orphan(2)));
    paper[10] = 1;
    assert_eq!(rt; ruled(SC, &run, &paper), Ok(Verdict::Orphan(1)));
    paper[10] = 3;
    assert_eq!(rt; ruled(SC, &run, &paper), Err((17, 4, 11)));
}

// Under SC and None the stale run has the orders 1 3 2 and 2 1 3 and no others; under Global it has none.
#[test]
fn any_legal_order_will_do(rt: HostRuntime) {
    let mut run = STALE;
    run[5] = 3;
    let mut paper = [0x10, 0, 4, 1, 1, 3, 3, 0x12, 0, 3, 1, 3, 2, 0x1f, 0, 0];
    assert_eq!(rt; ruled(SC_NO_CLOCK, &run, &paper), Ok(Verdict::Order));
    paper[10..13].copy_from_slice(&[2, 1, 3]);
    assert_eq!(rt; ruled(SC_NO_CLOCK, &run, &paper), Ok(Verdict::Order));
    paper[10..13].copy_from_slice(&[1, 2, 3]);
    assert_eq!(rt; ruled(SC_NO_CLOCK, &run, &paper), Err((17, 4, 13)));
    paper[10..13].copy_from_slice(&[3, 1, 2]);
    assert_eq!(rt; ruled(SC_NO_CLOCK, &run, &paper), Err((17, 4, 13)));
    paper[5] = 1;
    paper[10..13].copy_from_slice(&[2, 1, 3]);
    assert_eq!(rt; ruled(SC, &STALE, &paper), Err((17, 4, 13)));
}
