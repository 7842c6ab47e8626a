// What the tests share: runs and papers, and what is compared.
use memory::clocks::{Clock, GlobalClock, NoClock};
use memory::kinds::Kind;
use memory::lines::{Line, Rule};
use memory::models::{Godson, Model, Sc};
use memory::records::Record;
use memory::refusals::Fault;
use memory::settings::Setting;
use memory::verdicts::Verdict;
use referee::rulings::referee;
use std::process::Abort;

pub const SC: Setting<&Sc, &GlobalClock> = Setting {
    model: &Sc,
    clock: &GlobalClock,
};

pub const SC_NO_CLOCK: Setting<&Sc, &NoClock> = Setting {
    model: &Sc,
    clock: &NoClock,
};

pub const GODSON: Setting<&Godson, &GlobalClock> = Setting {
    model: &Godson,
    clock: &GlobalClock,
};

// SC and Global, two processors, all readings 10 and 90: two stores on the first, two loads on the second.
pub const MESSAGE: [u8; 141] = [
    1, 0, 3, 2, 1, 1, 2, 0, 30, 0, 2, 0, 0, 0, 16, 0, 0, 0, 0, 0, 0, 0, 1, 0, 0, 0, 0, 0, 0, 0, 10,
    0, 0, 0, 0, 0, 0, 0, 90, 2, 0, 30, 0, 2, 0, 0, 0, 32, 0, 0, 0, 0, 0, 0, 0, 1, 0, 0, 0, 0, 0, 0,
    0, 10, 0, 0, 0, 0, 0, 0, 0, 90, 2, 0, 30, 1, 1, 0, 0, 0, 32, 0, 0, 0, 0, 0, 0, 0, 1, 0, 0, 0,
    0, 0, 0, 0, 10, 0, 0, 0, 0, 0, 0, 0, 90, 2, 0, 30, 1, 1, 0, 0, 0, 16, 0, 0, 0, 0, 0, 0, 0, 0,
    0, 0, 0, 0, 0, 0, 0, 10, 0, 0, 0, 0, 0, 0, 0, 90, 3, 0, 0,
];

// A head at 0, six lines from 7 on, an end at 49.
pub const MESSAGE_PAPER: [u8; 52] = [
    16, 0, 4, 2, 1, 1, 4, 17, 0, 4, 2, 1, 2, 0, 17, 0, 4, 2, 3, 4, 0, 17, 0, 4, 3, 2, 3, 0, 17, 0,
    4, 4, 4, 1, 0, 17, 0, 4, 7, 1, 3, 2, 17, 0, 4, 7, 1, 4, 3, 31, 0, 0,
];

// Of the message run under Godson: a head at 0, the order 4 1 2 3 at 7, an end at 14.
pub const GODSON_PAPER: [u8; 17] = [16, 0, 4, 1, 3, 1, 4, 18, 0, 4, 4, 1, 2, 3, 31, 0, 0];

// SC and Global, one address: stores of 1 and 2 and a load of 1 on three processors, each done before the next begins.
pub const STALE: [u8; 108] = [
    1, 0, 3, 3, 1, 1, 2, 0, 30, 0, 2, 0, 0, 0, 16, 0, 0, 0, 0, 0, 0, 0, 1, 0, 0, 0, 0, 0, 0, 0, 0,
    0, 0, 0, 0, 0, 0, 0, 10, 2, 0, 30, 1, 2, 0, 0, 0, 16, 0, 0, 0, 0, 0, 0, 0, 2, 0, 0, 0, 0, 0, 0,
    0, 20, 0, 0, 0, 0, 0, 0, 0, 30, 2, 0, 30, 2, 1, 0, 0, 0, 16, 0, 0, 0, 0, 0, 0, 0, 1, 0, 0, 0,
    0, 0, 0, 0, 40, 0, 0, 0, 0, 0, 0, 0, 50, 3, 0, 0,
];

// A head at 0, four lines from 7 on, an end at 35.
pub const STALE_PAPER: [u8; 38] = [
    16, 0, 4, 2, 1, 1, 3, 17, 0, 4, 1, 1, 2, 0, 17, 0, 4, 1, 1, 3, 0, 17, 0, 4, 1, 2, 3, 0, 17, 0,
    4, 5, 2, 1, 3, 31, 0, 0,
];

// SC and Global, one processor: a store of 1, and a load of 7 that nobody wrote.
pub const ORPHAN: [u8; 75] = [
    1, 0, 3, 1, 1, 1, 2, 0, 30, 0, 2, 0, 0, 0, 16, 0, 0, 0, 0, 0, 0, 0, 1, 0, 0, 0, 0, 0, 0, 0, 0,
    0, 0, 0, 0, 0, 0, 0, 5, 2, 0, 30, 0, 1, 0, 0, 0, 16, 0, 0, 0, 0, 0, 0, 0, 7, 0, 0, 0, 0, 0, 0,
    0, 10, 0, 0, 0, 0, 0, 0, 0, 20, 3, 0, 0,
];

// A head at 0, record 2 at 7, an end at 11.
pub const ORPHAN_PAPER: [u8; 14] = [16, 0, 4, 3, 1, 1, 2, 19, 0, 1, 2, 31, 0, 0];

// SC and Global, two processors, no records.
pub const EMPTY: [u8; 9] = [1, 0, 3, 2, 1, 1, 3, 0, 0];

// A head at 0, an order of no records at 7, an end at 10.
pub const EMPTY_PAPER: [u8; 13] = [16, 0, 4, 1, 1, 1, 0, 18, 0, 0, 31, 0, 0];

// What stands in lent records and lines before the referee fills them; no run or paper here has the like.
pub const OLD_RECORD: Record = Record {
    processor: 9,
    kind: Kind::Fence,
    address: 77,
    value: 88,
    enter: 99,
    commit: 98,
};

pub const OLD_LINE: Line = Line {
    rule: Rule::FromRead,
    first: 91,
    second: 92,
    third: 93,
};

// A record's processor, its kind's number, address, value, enter and commit.
pub type Row = (u8, u8, u32, u64, u64, u64);

pub const OLD_ROW: Row = (9, 3, 77, 88, 99, 98);

pub const MESSAGE_ROWS: [Row; 4] = [
    (0, 2, 16, 1, 10, 90),
    (0, 2, 32, 1, 10, 90),
    (1, 1, 32, 1, 10, 90),
    (1, 1, 16, 0, 10, 90),
];

// A line's rule, first, second and third, as a paper has them.
pub type Numbers = (u8, u8, u8, u8);

pub const OLD_NUMBERS: Numbers = (6, 91, 92, 93);

pub const MESSAGE_LINES: [Numbers; 6] = [
    (2, 1, 2, 0),
    (2, 3, 4, 0),
    (3, 2, 3, 0),
    (4, 4, 1, 0),
    (7, 1, 3, 2),
    (7, 1, 4, 3),
];

// A refusal's number, its layer's number, and its place.
pub type Refused = (u8, u8, usize);

pub type Answer = Result<Verdict, Refused>;

// What is answered, or the numbers of its refusal.
pub fn told<T: Drop, E: Into<Fault> + Drop>(r: Result<T, E>) -> Result<T, Refused> {
    r.map_err(|e| {
        let f: Fault = e.into();
        (u8::from(f.refusal), u8::from(f.layer), f.place)
    })
}

// What the referee answers, with places for more records and lines than the runs and papers here have.
pub fn ruled<M: Model, C: Clock>(setting: Setting<&M, &C>, run: &[u8], paper: &[u8]) -> Answer {
    let mut records = [OLD_RECORD; 64];
    let mut lines = [OLD_LINE; 64];
    told(referee(setting, run, paper, &mut records, &mut lines))
}

fn row(r: Record) -> Row {
    let kind = match r.kind {
        Kind::Load => 1,
        Kind::Store => 2,
        Kind::Fence => 3,
    };
    (r.processor, kind, r.address, r.value, r.enter, r.commit)
}

// The records are these, and then as many old ones as there are more.
pub fn are_records(rt: &impl Abort, records: &[Record], rows: &[Row]) {
    for (i, record) in records.iter().enumerate() {
        let want = rows.get(i).copied().unwrap_or(OLD_ROW);
        assert_eq!(rt; row(*record), want, "record {i}");
    }
}

fn numbers(line: Line) -> Numbers {
    (u8::from(line.rule), line.first, line.second, line.third)
}

// The lines are these, and then as many old ones as there are more.
pub fn are_lines(rt: &impl Abort, lines: &[Line], rows: &[Numbers]) {
    for (i, line) in lines.iter().enumerate() {
        let want = rows.get(i).copied().unwrap_or(OLD_NUMBERS);
        assert_eq!(rt; numbers(*line), want, "line {i}");
    }
}
