// Which lines follow from records and lines, and lists of lines over more records than a run may have.
use crate::tools::{ALL, Numbers, are_lines};
use inference::lines::{Lines, Listed};
use inference::premises::Premises;
use memory::clocks::GlobalClock;
use memory::kinds::Kind;
use memory::lines::{Line, Rule};
use memory::models::Sc;
use memory::records::Record;
use memory::refusals::Refusal;
use memory::settings::Setting;
use std::process::Abort;
use std::test::Fail;

// Lent, as a list of lines takes them.
const SC: Setting<&Sc, &GlobalClock> = Setting {
    model: &Sc,
    clock: &GlobalClock,
};

// A load of 0.
const LOAD: Record = Record {
    processor: 0,
    kind: Kind::Load,
    address: 16,
    value: 0,
    enter: 10,
    commit: 90,
};

// How many lines were listed and whether the last is opposed, or the refusal's number.
fn listed(r: Result<Listed, Refusal>) -> Result<(u64, bool), u8> {
    r.map(|l| (l.count, l.opposed)).map_err(u8::from)
}

#[test]
fn over_more_than_sixty_four_records_nothing_is_listed(rt: HostRuntime) -> Result<(), Fail> {
    let records = [LOAD; 65];
    let mut lines = Lines::new(rt.alloc())?;
    assert_eq!(rt;
        listed(lines.infer(SC, &records[0..2], ALL)),
        Ok((1, false))
    );
    assert_eq!(rt; listed(lines.infer(SC, &records, ALL)), Err(6));
    assert_eq!(rt; listed(lines.infer(SC, &records, 0)), Err(6));
    are_lines(&rt, lines.as_slice(), &[(2, 1, 2, 0)]);
    assert_eq!(rt; listed(lines.infer(SC, &records[0..64], 2)), Ok((2, false)));
    are_lines(
        &rt,
        lines.as_slice(),
        &[(2, 1, 2, 0), (2, 1, 3, 0), (2, 1, 4, 0)],
    );
    assert!(rt; Premises::new(SC, &records[0..64], &[]).is_ok());
    assert_eq!(rt;
        Premises::new(SC, &records, &[]).err().map(u8::from),
        Some(6)
    );
    Ok(())
}

// The stale run, a load of 0 behind its load, and a store to that address.
const RECORDS: [Record; 5] = [
    Record {
        processor: 0,
        kind: Kind::Store,
        address: 16,
        value: 1,
        enter: 0,
        commit: 10,
    },
    Record {
        processor: 1,
        kind: Kind::Store,
        address: 16,
        value: 2,
        enter: 20,
        commit: 30,
    },
    Record {
        processor: 2,
        kind: Kind::Load,
        address: 16,
        value: 1,
        enter: 40,
        commit: 50,
    },
    Record {
        processor: 2,
        kind: Kind::Load,
        address: 32,
        value: 0,
        enter: 40,
        commit: 70,
    },
    Record {
        processor: 1,
        kind: Kind::Store,
        address: 32,
        value: 7,
        enter: 20,
        commit: 80,
    },
];

// The clock's line of a pair.
fn given(first: u8, second: u8) -> Line {
    Line {
        rule: Rule::Clock,
        first,
        second,
        third: 0,
    }
}

// Lines as no run lists them: 1 and 2 oppose each other, and some name no record.
fn given_lines() -> [Line; 8] {
    [
        given(1, 2),
        given(2, 1),
        given(2, 3),
        given(0, 1),
        given(2, 0),
        given(0, 3),
        given(6, 1),
        given(2, 6),
    ]
}

// A line, and whether it follows from the records and the given lines.
const FOLLOWS: [(Numbers, bool); 43] = [
    // clock
    ((1, 1, 2, 0), true),
    ((1, 2, 1, 0), false),
    ((1, 2, 2, 0), false),
    ((1, 1, 2, 3), false),
    ((1, 0, 2, 0), false),
    ((1, 1, 6, 0), false),
    // model
    ((2, 3, 4, 0), true),
    ((2, 4, 3, 0), false),
    ((2, 1, 2, 0), false),
    ((2, 3, 3, 0), false),
    ((2, 3, 4, 1), false),
    ((2, 3, 0, 0), false),
    ((2, 3, 6, 0), false),
    // reads-from
    ((3, 1, 3, 0), true),
    ((3, 2, 3, 0), false),
    ((3, 1, 3, 3), false),
    ((3, 0, 3, 0), false),
    ((3, 6, 3, 0), false),
    // initial read
    ((4, 4, 5, 0), true),
    ((4, 4, 1, 0), false),
    ((4, 3, 1, 0), false),
    ((4, 4, 5, 5), false),
    ((4, 4, 6, 0), false),
    // coherence
    ((5, 2, 1, 3), true),
    ((5, 1, 2, 3), false),
    ((5, 1, 1, 3), false),
    ((5, 2, 1, 4), false),
    ((5, 2, 1, 0), false),
    ((5, 0, 1, 3), false),
    ((5, 2, 1, 6), false),
    // from-read
    ((6, 3, 2, 0), true),
    ((6, 3, 1, 0), false),
    ((6, 3, 2, 1), false),
    ((6, 3, 6, 0), false),
    // transitive
    ((7, 1, 3, 2), true),
    ((7, 1, 1, 2), false),
    ((7, 2, 3, 0), false),
    ((7, 2, 3, 1), false),
    ((7, 0, 2, 1), false),
    ((7, 1, 0, 2), false),
    ((7, 6, 2, 1), false),
    ((7, 1, 6, 2), false),
    ((7, 2, 1, 6), false),
];

fn follow_as_told(rt: &impl Abort, premises: &Premises<'_, Sc, GlobalClock>) -> Result<(), Fail> {
    for (i, row) in FOLLOWS.iter().enumerate() {
        let ((rule, first, second, third), want) = *row;
        let rule = Rule::try_from(rule).map_err(|_| "no rule")?;
        let line = Line {
            rule,
            first,
            second,
            third,
        };
        assert_eq!(rt; premises.follows(line), want, "row {i}");
    }
    Ok(())
}

#[test]
fn a_line_follows_only_with_two_records_and_a_third_where_its_rule_names_one(
    rt: HostRuntime,
) -> Result<(), Fail> {
    let lines = given_lines();
    let premises = Premises::new(SC, &RECORDS, &lines).map_err(|_| "5 records are refused")?;
    follow_as_told(&rt, &premises)
}
