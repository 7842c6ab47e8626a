// Lists that are too short, and what lists hold afterwards, place by place.
use crate::tools::{
    Answer, GODSON, GODSON_PAPER, MESSAGE, MESSAGE_LINES, MESSAGE_PAPER, MESSAGE_ROWS, OLD_LINE,
    OLD_RECORD, ORPHAN, ORPHAN_PAPER, SC, are_lines, are_records, told,
};
use memory::kinds::Kind;
use memory::records::Record;
use memory::verdicts::Verdict;
use referee::rulings::referee;
use std::process::Abort;
use std::test::Fail;
use wire::fields::RunHead;
use wire::writing::write_run;

// The referee over so many places for records and lines, and how many of each it fills; what is filled is of the message run and its paper.
fn fills(
    rt: &impl Abort,
    run: &[u8],
    paper: &[u8],
    places: (usize, usize),
    answer: Answer,
    filled: (usize, usize),
) -> Result<(), Fail> {
    let mut all_records = [OLD_RECORD; 6];
    let mut all_lines = [OLD_LINE; 8];
    let records = all_records.get_mut(..places.0).ok_or("too many records")?;
    let lines = all_lines.get_mut(..places.1).ok_or("too many lines")?;
    assert_eq!(rt; told(referee(SC, run, paper, records, lines)), answer);
    let rows = MESSAGE_ROWS.get(..filled.0).ok_or("no such record")?;
    let numbers = MESSAGE_LINES.get(..filled.1).ok_or("no such line")?;
    are_records(rt, &all_records, rows);
    are_lines(rt, &all_lines, numbers);
    Ok(())
}

#[test]
fn a_record_or_a_line_without_a_place_is_short_at_its_tag(rt: HostRuntime) -> Result<(), Fail> {
    let (run, paper) = (&MESSAGE, &MESSAGE_PAPER);
    fills(&rt, run, paper, (0, 8), Err((15, 2, 6)), (0, 0))?;
    fills(&rt, run, paper, (1, 8), Err((15, 2, 39)), (1, 0))?;
    fills(&rt, run, paper, (3, 8), Err((15, 2, 105)), (3, 0))?;
    fills(&rt, run, paper, (4, 0), Err((15, 4, 7)), (4, 0))?;
    fills(&rt, run, paper, (4, 1), Err((15, 4, 14)), (4, 1))?;
    fills(&rt, run, paper, (4, 5), Err((15, 4, 42)), (4, 5))?;
    // no place is left over, and one or two are
    fills(&rt, run, paper, (4, 6), Ok(Verdict::Opposed), (4, 6))?;
    fills(&rt, run, paper, (5, 7), Ok(Verdict::Opposed), (4, 6))?;
    fills(&rt, run, paper, (6, 8), Ok(Verdict::Opposed), (4, 6))
}

#[test]
fn the_lists_hold_what_came_before_a_fault(rt: HostRuntime) -> Result<(), Fail> {
    let (run, paper) = (&MESSAGE, &MESSAGE_PAPER);
    // the run cut in its head, in its second record and in its end, and a byte behind it: the paper is not read
    fills(&rt, &run[..5], paper, (6, 8), Err((1, 1, 0)), (0, 0))?;
    fills(&rt, &run[..71], paper, (6, 8), Err((1, 1, 39)), (1, 0))?;
    fills(&rt, &run[..140], paper, (6, 8), Err((1, 1, 138)), (4, 0))?;
    let mut longer = [0; 142];
    longer[..141].copy_from_slice(run);
    fills(&rt, &longer, paper, (6, 8), Err((1, 1, 141)), (4, 0))?;
    // the paper cut in its head, in its third line and in its end
    fills(&rt, run, &paper[..6], (6, 8), Err((1, 3, 0)), (4, 0))?;
    fills(&rt, run, &paper[..27], (6, 8), Err((1, 3, 21)), (4, 2))?;
    fills(&rt, run, &paper[..51], (6, 8), Err((1, 3, 49)), (4, 6))?;
    // the fourth line by rule 3, and the last opposed to none
    let mut unfounded = MESSAGE_PAPER;
    unfounded[31] = 3;
    fills(&rt, run, &unfounded, (6, 8), Err((16, 4, 28)), (4, 3))?;
    let mut hollow = [0; 45];
    hollow[..42].copy_from_slice(&paper[..42]);
    hollow[42] = 0x1f;
    fills(&rt, run, &hollow, (6, 8), Err((17, 4, 42)), (4, 5))
}

#[test]
fn an_order_and_an_orphan_fill_no_list(rt: HostRuntime) {
    let mut records = [OLD_RECORD; 6];
    let mut lines = [OLD_LINE; 2];
    let mut run = MESSAGE;
    run[4] = 3;
    let order = told(referee(GODSON, &run, &GODSON_PAPER, &mut records, &mut lines));
    assert_eq!(rt; order, Ok(Verdict::Order));
    are_records(&rt, &records, &MESSAGE_ROWS);
    are_lines(&rt, &lines, &[]);
    // the same records, of which 3 reads 2
    let paper = [0x10, 0, 4, 3, 3, 1, 4, 0x13, 0, 1, 3, 0x1f, 0, 0];
    let no_orphan = told(referee(GODSON, &run, &paper, &mut records, &mut lines));
    assert_eq!(rt; no_orphan, Err((17, 4, 11)));
    are_records(&rt, &records, &MESSAGE_ROWS);
    are_lines(&rt, &lines, &[]);
    records = [OLD_RECORD; 6];
    let orphan = told(referee(SC, &ORPHAN, &ORPHAN_PAPER, &mut records, &mut lines));
    assert_eq!(rt; orphan, Ok(Verdict::Orphan(2)));
    are_records(&rt, &records, &[(0, 2, 16, 1, 0, 5), (0, 1, 16, 7, 10, 20)]);
    are_lines(&rt, &lines, &[]);
}

// Bytes of the message run's last record, its tag at 105, and what is told where the list has three places.
const LAST: [(usize, u8, Answer); 6] = [
    (107, 29, Err((1, 1, 105))),
    (108, 2, Err((7, 2, 105))),
    (109, 0, Err((8, 2, 105))),
    (109, 2, Err((9, 2, 105))),
    (122, 64, Err((10, 2, 105))),
    (137, 9, Err((11, 2, 105))),
];

#[test]
fn a_record_that_is_refused_anyway_is_told_before_its_place(rt: HostRuntime) -> Result<(), Fail> {
    for (at, byte, want) in LAST {
        let mut run = MESSAGE;
        *run.get_mut(at).ok_or("no such byte")? = byte;
        fills(&rt, &run, &MESSAGE_PAPER, (3, 8), want, (3, 0))?;
    }
    // a store of 1 to address 16, as the first
    let mut twin = MESSAGE;
    twin[109] = 2;
    twin[121] = 1;
    fills(
        &rt,
        &twin,
        &MESSAGE_PAPER,
        (3, 8),
        Err((12, 2, 105)),
        (3, 0),
    )
}

#[test]
fn a_line_without_a_place_is_told_before_it_is_unfounded_and_behind_its_shape(
    rt: HostRuntime,
) -> Result<(), Fail> {
    let mut paper = MESSAGE_PAPER;
    paper[45] = 8;
    fills(&rt, &MESSAGE, &paper, (4, 5), Err((15, 4, 42)), (4, 5))?;
    fills(&rt, &MESSAGE, &paper, (4, 6), Err((16, 4, 42)), (4, 5))?;
    paper[44] = 3;
    fills(&rt, &MESSAGE, &paper, (4, 5), Err((1, 3, 42)), (4, 5))
}

// A load of 0.
const LOAD: Record = Record {
    processor: 0,
    kind: Kind::Load,
    address: 16,
    value: 0,
    enter: 10,
    commit: 90,
};

const ONE_PROCESSOR: RunHead = RunHead {
    processors: 1,
    model: 1,
    clock: 1,
};

// What the referee answers over so many places for records, of 70.
fn over(run: &[u8], places: usize) -> Result<Answer, Fail> {
    let mut all = [OLD_RECORD; 70];
    let records = all.get_mut(..places).ok_or("too many records")?;
    Ok(told(referee(SC, run, &[], records, &mut [])))
}

#[test]
fn the_sixty_fifth_record_is_full_however_many_places_are_left(
    rt: HostRuntime,
) -> Result<(), Fail> {
    let mut run = [0; 2154];
    assert!(rt; write_run(&mut run, ONE_PROCESSOR, &[LOAD; 65]).is_ok());
    assert_eq!(rt; over(&run, 63)?, Err((15, 2, 2085)));
    assert_eq!(rt; over(&run, 64)?, Err((6, 2, 2118)));
    assert_eq!(rt; over(&run, 70)?, Err((6, 2, 2118)));
    Ok(())
}
