// The referee under the model and the clock that the head of the run marks.
use crate::tools::{
    Answer, EMPTY, EMPTY_PAPER, GODSON_PAPER, MESSAGE, MESSAGE_PAPER, ORPHAN, ORPHAN_PAPER, STALE,
    STALE_PAPER, told,
};
use judging::judge;
use judging::marks::clock_mark;
use memory::kinds::Kind;
use memory::lines::{Line, Rule};
use memory::records::Record;
use memory::verdicts::Verdict;
use std::alloc::{AllocError, Global};
use std::test::Fail;
use wire::fields::RunHead;
use wire::writing::{Paper, PaperMarks, TooShort, write_paper, write_run};

fn judged(run: &[u8], paper: &[u8]) -> Answer {
    told(judge(run, paper))
}

#[test]
fn the_head_marks_model_and_clock(rt: HostRuntime) {
    assert_eq!(rt; clock_mark(&MESSAGE), Some(1));
    assert_eq!(rt; clock_mark(&MESSAGE[..5]), None);
    assert_eq!(rt; judged(&MESSAGE, &MESSAGE_PAPER), Ok(Verdict::Opposed));
    assert_eq!(rt; judged(&STALE, &STALE_PAPER), Ok(Verdict::Opposed));
    assert_eq!(rt; judged(&ORPHAN, &ORPHAN_PAPER), Ok(Verdict::Orphan(2)));
    assert_eq!(rt; judged(&EMPTY, &EMPTY_PAPER), Ok(Verdict::Order));
    let mut run = MESSAGE;
    run[4] = 3;
    assert_eq!(rt; judged(&run, &GODSON_PAPER), Ok(Verdict::Order));
    assert_eq!(rt; judged(&run, &MESSAGE_PAPER), Err((2, 3, 0)));
    // under Godson and None
    run[5] = 3;
    let mut paper = GODSON_PAPER;
    assert_eq!(rt; judged(&run, &paper), Err((2, 3, 0)));
    paper[5] = 3;
    assert_eq!(rt; judged(&run, &paper), Ok(Verdict::Order));
    // the message run under SC and None, and the stale run, which has an order then
    run = MESSAGE;
    run[5] = 3;
    assert_eq!(rt; judged(&run, &GODSON_PAPER), Err((2, 3, 0)));
    let mut stale = STALE;
    stale[5] = 3;
    let order = [0x10, 0, 4, 1, 1, 3, 3, 0x12, 0, 3, 2, 1, 3, 0x1f, 0, 0];
    assert_eq!(rt; judged(&stale, &order), Ok(Verdict::Order));
}

#[test]
fn unknown_marks_are_foreign_behind_the_shape_of_the_head(rt: HostRuntime) {
    for mark in [0, 2, 4, 255] {
        let mut run = MESSAGE;
        run[4] = mark;
        assert_eq!(rt;
            judged(&run, &MESSAGE_PAPER),
            Err((2, 2, 0)),
            "model {mark}"
        );
        run = MESSAGE;
        run[5] = mark;
        assert_eq!(rt;
            judged(&run, &MESSAGE_PAPER),
            Err((2, 2, 0)),
            "clock {mark}"
        );
        run[2] = 4;
        assert_eq!(rt;
            judged(&run, &MESSAGE_PAPER),
            Err((1, 1, 0)),
            "clock {mark}"
        );
    }
    assert_eq!(rt; judged(&[], &MESSAGE_PAPER), Err((1, 1, 0)));
    assert_eq!(rt; judged(&[1, 0, 3, 2, 2], &MESSAGE_PAPER), Err((1, 1, 0)));
    assert_eq!(rt; judged(&MESSAGE, &[]), Err((1, 3, 0)));
}

// On one processor a store, and loads of 0 from its address: SC orders all, but the loads come before the store.
const STORE: Record = Record {
    processor: 0,
    kind: Kind::Store,
    address: 16,
    value: 1,
    enter: 10,
    commit: 90,
};

const LOAD: Record = Record {
    processor: 0,
    kind: Kind::Load,
    address: 16,
    value: 0,
    enter: 10,
    commit: 90,
};

const ONE_PROCESSOR: RunHead = RunHead {
    processors: 1,
    model: 1,
    clock: 1,
};

// Of 64 records.
const MOST: PaperMarks = PaperMarks {
    model: 1,
    clock: 1,
    records: 64,
};

type Listed = Result<(), AllocError>;

fn list(lines: &mut Vec<Line>, rule: Rule, first: u8, second: u8, third: u8) -> Listed {
    lines.push(Line {
        rule,
        first,
        second,
        third,
    })?;
    Ok(())
}

// Each record before all later ones.
fn list_model(lines: &mut Vec<Line>, first: u8) -> Listed {
    for second in first..64 {
        list(lines, Rule::Model, first, second + 1, 0)?;
    }
    Ok(())
}

// Each record between first and last before the first, over the last, which was listed before it.
fn list_to_first(lines: &mut Vec<Line>) -> Listed {
    list(lines, Rule::InitialRead, 64, 1, 0)?;
    for first in 2..64 {
        list(lines, Rule::Transitive, first, 1, 64)?;
    }
    Ok(())
}

// Each record before all earlier ones, over the first.
fn list_back(lines: &mut Vec<Line>, second: u8) -> Listed {
    for first in second..64 {
        list(lines, Rule::Transitive, first + 1, second, 1)?;
    }
    Ok(())
}

// All pairs of two different ones of 64 records, each both ways round, each founded where it stands; the last is 64 before 63.
fn all_pairs(heap: Global) -> Result<Vec<Line>, AllocError> {
    let mut lines = Vec::new(heap);
    for first in 1..64 {
        list_model(&mut lines, first)?;
    }
    list_to_first(&mut lines)?;
    for second in 2..64 {
        list_back(&mut lines, second)?;
    }
    Ok(lines)
}

// Room for a paper with that many lines, and for one more.
type Room = [u8; 28241];

fn write_lines(room: &mut Room, lines: &[Line]) -> Result<usize, TooShort> {
    write_paper(room, MOST, Paper::Opposed(lines))
}

// A line field in place of the end, and an end behind it.
fn add_line(room: &mut Room) {
    room[28231] = 0x11;
    room[28233] = 4;
    room[28238] = 0x1f;
}

#[test]
fn there_is_a_place_for_each_line_that_a_paper_can_have(rt: HostRuntime) -> Result<(), Fail> {
    let mut records = [LOAD; 64];
    records[0] = STORE;
    let mut run = [0; 2121];
    assert!(rt; write_run(&mut run, ONE_PROCESSOR, &records).is_ok());
    let lines = all_pairs(rt.alloc())?;
    assert_eq!(rt; lines.len(), 4032);
    let mut room = [0; 28241];
    assert_eq!(rt; write_lines(&mut room, lines.as_slice()), Ok(28234));
    let paper = room.get(..28234).ok_or("too short")?;
    assert_eq!(rt; judged(&run, paper), Ok(Verdict::Opposed));
    // a line more has no place, whatever it says
    add_line(&mut room);
    assert_eq!(rt; judged(&run, &room), Err((15, 4, 28231)));
    Ok(())
}
