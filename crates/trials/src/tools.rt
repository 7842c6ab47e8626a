// What the tests share.
use case::cases::Case;
use memory::clocks::{Clock, GlobalClock, NoClock};
use memory::lines::Line;
use memory::models::{Godson, Model, Sc};
use memory::records::Entry;
use memory::refusals::Fault;
use memory::settings::Setting;
use memory::verdicts::{Progress, Verdict};
use std::alloc::{AllocError, AllocGlobal};
use std::process::Abort;

pub type ScCase = Case<Sc, GlobalClock>;

pub const SC: Setting<Sc, GlobalClock> = Setting {
    model: Sc,
    clock: GlobalClock,
};

pub const SC_NO_CLOCK: Setting<Sc, NoClock> = Setting {
    model: Sc,
    clock: NoClock,
};

pub const GODSON: Setting<Godson, GlobalClock> = Setting {
    model: Godson,
    clock: GlobalClock,
};

// 2^62: no reading reaches it, and no total of steps passes it.
pub const LIMIT: u64 = 4611686018427387904;

// A refusal's number, its layer's number, and its place: what a notice says, which the tests pin.
pub type Refused = (u8, u8, usize);

// What admission answers: the number of the record, or the refusal.
pub type Admitted = Result<u8, Refused>;

// Processor, kind, address, value, enter and commit, then what admission answers. A table of entries would name every field in every row.
pub type Row = ((u8, u8, u32, u64, u64, u64), Admitted);

// Two processors, all readings 10 and 90: two stores on the first, two loads on the second.
pub const MESSAGE: [u8; 141] = [
    0x01, 0, 3, 2, 1, 1, 0x02, 0, 30, 0, 2, 0, 0, 0, 16, 0, 0, 0, 0, 0, 0, 0, 1, 0, 0, 0, 0, 0, 0,
    0, 10, 0, 0, 0, 0, 0, 0, 0, 90, 0x02, 0, 30, 0, 2, 0, 0, 0, 32, 0, 0, 0, 0, 0, 0, 0, 1, 0, 0,
    0, 0, 0, 0, 0, 10, 0, 0, 0, 0, 0, 0, 0, 90, 0x02, 0, 30, 1, 1, 0, 0, 0, 32, 0, 0, 0, 0, 0, 0,
    0, 1, 0, 0, 0, 0, 0, 0, 0, 10, 0, 0, 0, 0, 0, 0, 0, 90, 0x02, 0, 30, 1, 1, 0, 0, 0, 16, 0, 0,
    0, 0, 0, 0, 0, 0, 0, 0, 0, 0, 0, 0, 0, 10, 0, 0, 0, 0, 0, 0, 0, 90, 0x03, 0, 0,
];

// One processor: a store of 1, and a load of 7 that nobody wrote.
pub const ORPHAN: [u8; 75] = [
    0x01, 0, 3, 1, 1, 1, 0x02, 0, 30, 0, 2, 0, 0, 0, 16, 0, 0, 0, 0, 0, 0, 0, 1, 0, 0, 0, 0, 0, 0,
    0, 0, 0, 0, 0, 0, 0, 0, 0, 5, 0x02, 0, 30, 0, 1, 0, 0, 0, 16, 0, 0, 0, 0, 0, 0, 0, 7, 0, 0, 0,
    0, 0, 0, 0, 10, 0, 0, 0, 0, 0, 0, 0, 20, 0x03, 0, 0,
];

pub const EMPTY: [u8; 9] = [0x01, 0, 3, 2, 1, 1, 0x03, 0, 0];

// The records of the message run.
pub const SENDING: [Row; 4] = [
    ((0, 2, 16, 1, 10, 90), Ok(1)),
    ((0, 2, 32, 1, 10, 90), Ok(2)),
    ((1, 1, 32, 1, 10, 90), Ok(3)),
    ((1, 1, 16, 0, 10, 90), Ok(4)),
];

// On three processors: two stores and a load of the first, each done before the next begins.
pub const STALE: [Row; 3] = [
    ((0, 2, 16, 1, 0, 10), Ok(1)),
    ((1, 2, 16, 2, 20, 30), Ok(2)),
    ((2, 1, 16, 1, 40, 50), Ok(3)),
];

// What a call answers, or the numbers of its refusal.
pub fn told<T: Drop, E: Into<Fault> + Drop>(r: Result<T, E>) -> Result<T, Refused> {
    r.map_err(|e| {
        let f: Fault = e.into();
        (u8::from(f.refusal), u8::from(f.layer), f.place)
    })
}

// An entry with readings 10 and 90.
pub fn entry(processor: u8, kind: u8, address: u32, value: u64) -> Entry {
    Entry {
        processor,
        kind,
        address,
        value,
        enter: 10,
        commit: 90,
    }
}

// Admits row after row, and compares what is told.
pub fn admit_rows<M: Model, C: Clock>(rt: &impl Abort, case: &mut Case<M, C>, rows: &[Row]) {
    for (i, row) in rows.iter().enumerate() {
        let ((processor, kind, address, value, enter, commit), want) = *row;
        let e = Entry {
            processor,
            kind,
            address,
            value,
            enter,
            commit,
        };
        assert_eq!(rt; told(case.admit(e)), want, "row {i}");
    }
}

// Opens a case of so many processors, admits the rows and seals it, which leaves it undecided.
pub fn seal_rows<M: Model, C: Clock>(
    rt: &impl Abort,
    case: &mut Case<M, C>,
    processors: u8,
    rows: &[Row],
) {
    assert_eq!(rt; told(case.open(processors)), Ok(()));
    admit_rows(rt, case, rows);
    assert_eq!(rt; told(case.seal()), Ok(None));
}

// A new case of so many processors with the rows, sealed and undecided.
pub fn sealed<M: Model + Drop, C: Clock + Drop>(
    rt: &(impl Abort + AllocGlobal),
    setting: Setting<M, C>,
    processors: u8,
    rows: &[Row],
) -> Result<Case<M, C>, AllocError> {
    let mut case = Case::new(rt.alloc(), setting)?;
    seal_rows(rt, &mut case, processors, rows);
    Ok(case)
}

// How many lines were listed or steps made, and the verdict; or the refusal.
pub type Done = Result<(u64, Option<Verdict>), Refused>;

fn done(r: Result<Progress, Fault>) -> Done {
    told(r).map(|p| (p.done, p.verdict))
}

pub fn inferred<M: Model, C: Clock>(case: &mut Case<M, C>, k: u64) -> Done {
    done(case.infer(k))
}

pub fn searched<M: Model, C: Clock>(case: &mut Case<M, C>, k: u64) -> Done {
    done(case.search(k))
}

pub const BROKEN: Option<Verdict> = Some(Verdict::Opposed);

// More lines than any run has.
pub const ALL: u64 = u64::MAX;

// A line's rule, first, second and third: the four bytes of a paper, which the tests pin.
pub type Numbers = (u8, u8, u8, u8);

pub fn numbers(line: Line) -> Numbers {
    (u8::from(line.rule), line.first, line.second, line.third)
}

// The lines are these, in this order.
pub fn are_lines(rt: &impl Abort, lines: &[Line], rows: &[Numbers]) {
    assert_eq!(rt; lines.len(), rows.len());
    for (i, (line, row)) in lines.iter().zip(rows).enumerate() {
        assert_eq!(rt; numbers(*line), *row, "line {i}");
    }
}
