// What a case searches: which records are placed and in how many steps, what that decides, what is refused, and the order's paper.
use crate::tools::{
    ALL, BROKEN, Done, EMPTY, GODSON, LIMIT, MESSAGE, ORPHAN, Row, SC, SC_NO_CLOCK, SENDING, STALE,
    ScCase, admit_rows, entry, inferred, seal_rows, sealed, searched, told,
};
use crate::writing::{OLD, is_old};
use case::cases::Case;
use memory::clocks::Clock;
use memory::models::Model;
use memory::verdicts::{Verdict, verdict_number};
use std::process::Abort;
use std::test::Fail;

const FOUND: Option<Verdict> = Some(Verdict::Order);

const EXHAUSTED: Option<Verdict> = Some(Verdict::Exhausted);

// The placed records, the mark, and the total of steps.
type Standing<'a> = (&'a [u8], Option<u8>, u64);

fn stands<M: Model, C: Clock>(rt: &impl Abort, case: &Case<M, C>, want: Standing<'_>) {
    let (placed, mark, total) = want;
    assert_eq!(rt; case.placed(), placed);
    assert_eq!(rt; (case.mark(), case.steps()), (mark, total));
}

// Searching k answers this, and the search then stands there.
fn searches<M: Model, C: Clock>(
    rt: &impl Abort,
    case: &mut Case<M, C>,
    k: u64,
    want: Done,
    standing: Standing<'_>,
) {
    assert_eq!(rt; searched(case, k), want, "{k} steps");
    stands(rt, case, standing);
}

// Searching k finds this order after so many steps, which makes so many in total.
fn finds<M: Model, C: Clock>(
    rt: &impl Abort,
    case: &mut Case<M, C>,
    k: u64,
    steps: u64,
    order: &[u8],
    total: u64,
) {
    searches(rt, case, k, Ok((steps, FOUND)), (order, None, total));
}

// A decided case of so many records refuses every search, and is not searched.
fn is_final<M: Model, C: Clock>(
    rt: &impl Abort,
    case: &mut Case<M, C>,
    records: usize,
    standing: Standing<'_>,
) {
    let want = (3, 2, records.saturating_add(1));
    for k in [0, 1, LIMIT + 1, u64::MAX] {
        searches(rt, case, k, Err(want), standing);
    }
    assert_eq!(rt; inferred(case, 1), Err(want));
    assert_eq!(rt; told(case.seal()), Err(want));
    assert_eq!(rt; told(case.admit(entry(0, 1, 16, 0))), Err(want));
    stands(rt, case, standing);
}

#[test]
fn the_message_run_under_sc_is_exhausted_by_seven_steps(rt: HostRuntime) -> Result<(), Fail> {
    let mut case = ScCase::new(rt.alloc(), SC)?;
    assert_eq!(rt; told(case.load(&MESSAGE)), Ok(None));
    stands(&rt, &case, (&[], None, 0));
    searches(&rt, &mut case, 100, Ok((7, EXHAUSTED)), (&[], Some(1), 7));
    assert_eq!(rt; verdict_number(case.stage().verdict()), 4);
    is_final(&rt, &mut case, 4, (&[], Some(1), 7));
    // it has no paper
    let mut out = [OLD; 20];
    assert_eq!(rt; told(case.write_paper(&mut out)), Err((14, 2, 5)));
    assert_eq!(rt; told(case.write_paper(&mut [])), Err((14, 2, 5)));
    is_old(&rt, &out);
    assert_eq!(rt; told(case.write_slip(&mut out)), Ok(12));
    assert_eq!(rt; &out[0..12], &[0x1d, 0, 9, 4, 0, 0, 0, 0, 0, 0, 0, 7][..]);
    Ok(())
}

// The order of the message run under Godson.
const ORDER: [u8; 4] = [4, 1, 2, 3];

// The steps before it is found: the placed records and the mark after each.
const TRACE: [(&[u8], Option<u8>); 9] = [
    (&[1], None),
    (&[1, 2], None),
    (&[1, 2, 3], None),
    (&[1, 2], Some(3)),
    (&[1], Some(2)),
    (&[], Some(1)),
    (&[4], None),
    (&[4, 1], None),
    (&[4, 1, 2], None),
];

#[test]
fn one_step_at_a_time_goes_the_way_of_all_at_once(rt: HostRuntime) -> Result<(), Fail> {
    let mut case = sealed(&rt, GODSON, 2, &SENDING)?;
    finds(&rt, &mut case, 100, 10, &ORDER, 10);
    is_final(&rt, &mut case, 4, (&ORDER, None, 10));
    seal_rows(&rt, &mut case, 2, &SENDING);
    for (total, (placed, mark)) in (1..=9u64).zip(&TRACE) {
        searches(&rt, &mut case, 1, Ok((1, None)), (placed, *mark, total));
    }
    finds(&rt, &mut case, 1, 1, &ORDER, 10);
    is_final(&rt, &mut case, 4, (&ORDER, None, 10));
    Ok(())
}

#[test]
fn a_search_in_two_pieces_goes_the_way_of_all_at_once(rt: HostRuntime) -> Result<(), Fail> {
    let mut case = sealed(&rt, GODSON, 2, &SENDING)?;
    searches(&rt, &mut case, 3, Ok((3, None)), (&[1, 2, 3], None, 3));
    finds(&rt, &mut case, 100, 7, &ORDER, 10);
    let mut case = sealed(&rt, SC, 2, &SENDING)?;
    searches(&rt, &mut case, 3, Ok((3, None)), (&[1, 2, 3], None, 3));
    searches(&rt, &mut case, 100, Ok((4, EXHAUSTED)), (&[], Some(1), 7));
    Ok(())
}

#[test]
fn a_search_goes_on_from_where_it_stood(rt: HostRuntime) -> Result<(), Fail> {
    let mut case = sealed(&rt, GODSON, 2, &SENDING)?;
    searches(&rt, &mut case, 0, Ok((0, None)), (&[], None, 0));
    searches(&rt, &mut case, 3, Ok((3, None)), (&[1, 2, 3], None, 3));
    searches(&rt, &mut case, 2, Ok((2, None)), (&[1], Some(2), 5));
    // what changes nothing leaves it there
    searches(&rt, &mut case, 0, Ok((0, None)), (&[1], Some(2), 5));
    assert_eq!(rt; told(case.admit(entry(0, 1, 16, 0))), Err((4, 2, 5)));
    assert_eq!(rt; told(case.seal()), Err((4, 2, 5)));
    assert_eq!(rt; told(case.open(17)), Err((7, 2, 5)));
    assert_eq!(rt; told(case.load(&MESSAGE)), Err((2, 2, 0)));
    stands(&rt, &case, (&[1], Some(2), 5));
    finds(&rt, &mut case, 100, 5, &ORDER, 10);
    Ok(())
}

// They bind what is not placed: 2 must now wait for 4, so that 1 is taken back at once.
#[test]
fn lines_before_or_between_searches_shorten_them(rt: HostRuntime) -> Result<(), Fail> {
    let mut case = sealed(&rt, GODSON, 2, &SENDING)?;
    assert_eq!(rt; inferred(&mut case, ALL), Ok((6, None)));
    finds(&rt, &mut case, 100, 4, &ORDER, 4);
    seal_rows(&rt, &mut case, 2, &SENDING);
    searches(&rt, &mut case, 1, Ok((1, None)), (&[1], None, 1));
    assert_eq!(rt; inferred(&mut case, ALL), Ok((6, None)));
    stands(&rt, &case, (&[1], None, 1));
    searches(&rt, &mut case, 1, Ok((1, None)), (&[], Some(1), 2));
    finds(&rt, &mut case, 100, 4, &ORDER, 6);
    Ok(())
}

// The total of steps stays in the slip, beside a paper of the lines.
#[test]
fn opposed_lines_decide_a_search_that_is_under_way(rt: HostRuntime) -> Result<(), Fail> {
    let mut case = ScCase::new(rt.alloc(), SC)?;
    assert_eq!(rt; told(case.load(&MESSAGE)), Ok(None));
    searches(&rt, &mut case, 5, Ok((5, None)), (&[1], Some(2), 5));
    assert_eq!(rt; inferred(&mut case, ALL), Ok((6, BROKEN)));
    is_final(&rt, &mut case, 4, (&[1], Some(2), 5));
    let mut out = [OLD; 64];
    assert_eq!(rt; told(case.write_slip(&mut out)), Ok(12));
    assert_eq!(rt; told(case.write_paper(&mut out[12..64])), Ok(52));
    assert_eq!(rt;
        &out[0..16],
        &[0x1d, 0, 9, 2, 0, 0, 0, 0, 0, 0, 0, 5, 0x10, 0, 4, 2][..]
    );
    Ok(())
}

#[test]
fn a_stale_value_is_read_before_the_store_that_overwrites_it(rt: HostRuntime) -> Result<(), Fail> {
    let mut case = sealed(&rt, SC_NO_CLOCK, 3, &STALE)?;
    assert_eq!(rt; inferred(&mut case, ALL), Ok((1, None)));
    searches(&rt, &mut case, 3, Ok((3, None)), (&[1], Some(2), 3));
    finds(&rt, &mut case, 100, 2, &[1, 3, 2], 5);
    // where the clock speaks it is too late
    let mut case = sealed(&rt, SC, 3, &STALE)?;
    searches(&rt, &mut case, 100, Ok((5, EXHAUSTED)), (&[], Some(1), 5));
    Ok(())
}

// Two stores to one address on one processor, and loads of 0, of the first and of the second on another.
const GROWING: [Row; 5] = [
    ((0, 2, 16, 1, 10, 90), Ok(1)),
    ((0, 2, 16, 2, 10, 90), Ok(2)),
    ((1, 1, 16, 0, 10, 90), Ok(3)),
    ((1, 1, 16, 1, 10, 90), Ok(4)),
    ((1, 1, 16, 2, 10, 90), Ok(5)),
];

#[test]
fn each_load_is_placed_behind_the_store_of_its_value(rt: HostRuntime) -> Result<(), Fail> {
    let mut case = sealed(&rt, SC, 2, &GROWING)?;
    searches(&rt, &mut case, 4, Ok((4, None)), (&[], Some(1), 4));
    searches(&rt, &mut case, 4, Ok((4, None)), (&[3, 1], Some(2), 8));
    finds(&rt, &mut case, 100, 3, &[3, 1, 4, 2, 5], 11);
    Ok(())
}

// Two loads of 0 on two processors: the second commits at 10, the first enters at 10 or 11.
#[test]
fn the_clock_binds_only_where_a_commit_is_below_an_enter(rt: HostRuntime) -> Result<(), Fail> {
    let mut case = ScCase::new(rt.alloc(), SC)?;
    let orders: [(u64, &[u8]); 2] = [(10, &[1, 2]), (11, &[2, 1])];
    for (enter, order) in orders {
        let rows = [
            ((1, 1, 16, 0, enter, 20), Ok(1)),
            ((0, 1, 16, 0, 5, 10), Ok(2)),
        ];
        seal_rows(&rt, &mut case, 2, &rows);
        finds(&rt, &mut case, 100, 2, order, 2);
    }
    Ok(())
}

// On each of two processors a store, then a load that does not see the other's.
const BUFFERED: [Row; 4] = [
    ((0, 2, 16, 1, 10, 90), Ok(1)),
    ((0, 1, 32, 0, 10, 90), Ok(2)),
    ((1, 2, 32, 1, 10, 90), Ok(3)),
    ((1, 1, 16, 0, 10, 90), Ok(4)),
];

// A fence between store and load on both.
const FENCED: [Row; 6] = [
    ((0, 2, 16, 1, 10, 90), Ok(1)),
    ((0, 3, 0, 0, 10, 90), Ok(2)),
    ((0, 1, 32, 0, 10, 90), Ok(3)),
    ((1, 2, 32, 1, 10, 90), Ok(4)),
    ((1, 3, 0, 0, 10, 90), Ok(5)),
    ((1, 1, 16, 0, 10, 90), Ok(6)),
];

#[test]
fn stores_are_buffered_under_godson_up_to_a_fence(rt: HostRuntime) -> Result<(), Fail> {
    let mut case = sealed(&rt, SC, 2, &BUFFERED)?;
    searches(&rt, &mut case, 100, Ok((17, EXHAUSTED)), (&[], Some(3), 17));
    let mut case = sealed(&rt, GODSON, 2, &BUFFERED)?;
    finds(&rt, &mut case, 100, 18, &[2, 3, 4, 1], 18);
    seal_rows(&rt, &mut case, 2, &FENCED);
    searches(&rt, &mut case, 100, Ok((49, EXHAUSTED)), (&[], Some(4), 49));
    Ok(())
}

#[test]
fn an_open_case_is_not_searched(rt: HostRuntime) -> Result<(), Fail> {
    let mut case = ScCase::new(rt.alloc(), SC)?;
    for k in [0, 1, LIMIT + 1, u64::MAX] {
        searches(&rt, &mut case, k, Err((5, 2, 1)), (&[], None, 0));
    }
    assert_eq!(rt; told(case.open(2)), Ok(()));
    admit_rows(&rt, &mut case, &SENDING[0..3]);
    searches(&rt, &mut case, 100, Err((5, 2, 4)), (&[], None, 0));
    Ok(())
}

#[test]
fn a_case_that_sealing_or_inferring_decided_is_not_searched(rt: HostRuntime) -> Result<(), Fail> {
    let mut case = ScCase::new(rt.alloc(), SC)?;
    assert_eq!(rt; told(case.load(&ORPHAN)), Ok(Some(Verdict::Orphan(2))));
    is_final(&rt, &mut case, 2, (&[], None, 0));
    assert_eq!(rt; told(case.load(&EMPTY)), Ok(FOUND));
    is_final(&rt, &mut case, 0, (&[], None, 0));
    // an open case too
    assert_eq!(rt; told(case.open(2)), Ok(()));
    admit_rows(&rt, &mut case, &SENDING);
    assert_eq!(rt; inferred(&mut case, ALL), Ok((6, BROKEN)));
    is_final(&rt, &mut case, 4, (&[], None, 0));
    Ok(())
}

#[test]
fn a_total_that_could_pass_the_most_is_refused(rt: HostRuntime) -> Result<(), Fail> {
    let mut case = sealed(&rt, GODSON, 2, &SENDING)?;
    for k in [LIMIT + 1, u64::MAX] {
        searches(&rt, &mut case, k, Err((13, 2, 5)), (&[], None, 0));
    }
    searches(&rt, &mut case, 3, Ok((3, None)), (&[1, 2, 3], None, 3));
    for k in [LIMIT - 2, LIMIT, u64::MAX - 2, u64::MAX] {
        searches(&rt, &mut case, k, Err((13, 2, 5)), (&[1, 2, 3], None, 3));
    }
    finds(&rt, &mut case, LIMIT - 3, 7, &ORDER, 10);
    // all at once
    seal_rows(&rt, &mut case, 2, &SENDING);
    finds(&rt, &mut case, LIMIT, 10, &ORDER, 10);
    Ok(())
}

#[test]
fn opening_and_loading_begin_the_search_anew(rt: HostRuntime) -> Result<(), Fail> {
    let mut case = ScCase::new(rt.alloc(), SC)?;
    assert_eq!(rt; told(case.load(&MESSAGE)), Ok(None));
    searches(&rt, &mut case, 5, Ok((5, None)), (&[1], Some(2), 5));
    assert_eq!(rt; told(case.open(2)), Ok(()));
    stands(&rt, &case, (&[], None, 0));
    seal_rows(&rt, &mut case, 2, &SENDING);
    searches(&rt, &mut case, 100, Ok((7, EXHAUSTED)), (&[], Some(1), 7));
    assert_eq!(rt; told(case.load(&MESSAGE)), Ok(None));
    stands(&rt, &case, (&[], None, 0));
    searches(&rt, &mut case, 2, Ok((2, None)), (&[1, 2], None, 2));
    // a loading that is refused behind the head has opened the case
    assert_eq!(rt; told(case.load(&MESSAGE[0..72])), Err((1, 1, 72)));
    searches(&rt, &mut case, 1, Err((5, 2, 3)), (&[], None, 0));
    Ok(())
}

// Its slip and paper: 10 steps, and the order 4 1 2 3.
const ORDERED: [u8; 29] = [
    0x1d, 0, 9, 1, 0, 0, 0, 0, 0, 0, 0, 10, 0x10, 0, 4, 1, 3, 1, 4, 0x12, 0, 4, 4, 1, 2, 3, 0x1f,
    0, 0,
];

// With one byte too few first.
#[test]
fn slip_and_paper_of_an_order_are_these_bytes_and_the_rest_is_kept(
    rt: HostRuntime,
) -> Result<(), Fail> {
    let mut case = sealed(&rt, GODSON, 2, &SENDING)?;
    searches(&rt, &mut case, 9, Ok((9, None)), (&[4, 1, 2], None, 9));
    assert_eq!(rt; told(case.write_paper(&mut [])), Err((14, 2, 5)));
    finds(&rt, &mut case, 1, 1, &ORDER, 10);
    let mut short = [OLD; 16];
    assert_eq!(rt; told(case.write_paper(&mut short)), Err((15, 2, 5)));
    is_old(&rt, &short);
    let mut out = [OLD; 32];
    assert_eq!(rt; told(case.write_slip(&mut out)), Ok(12));
    is_old(&rt, &out[12..32]);
    assert_eq!(rt; told(case.write_paper(&mut out[12..32])), Ok(17));
    assert_eq!(rt; &out[0..29], &ORDERED[..]);
    is_old(&rt, &out[29..32]);
    Ok(())
}

// The message run with three stores on three more processors, which nobody reads: 727 steps are two bytes of a slip.
#[test]
fn a_slip_has_the_total_of_all_searches(rt: HostRuntime) -> Result<(), Fail> {
    let mut case = ScCase::new(rt.alloc(), SC)?;
    assert_eq!(rt; told(case.open(5)), Ok(()));
    admit_rows(&rt, &mut case, &SENDING);
    for i in 2..5u8 {
        assert_eq!(rt; told(case.admit(entry(i, 2, 48, u64::from(i)))), Ok(i + 3));
    }
    assert_eq!(rt; told(case.seal()), Ok(None));
    assert_eq!(rt; searched(&mut case, 700), Ok((700, None)));
    searches(
        &rt,
        &mut case,
        700,
        Ok((27, EXHAUSTED)),
        (&[], Some(7), 727),
    );
    let mut out = [OLD; 12];
    assert_eq!(rt; told(case.write_slip(&mut out)), Ok(12));
    assert_eq!(rt; &out[..], &[0x1d, 0, 9, 4, 0, 0, 0, 0, 0, 0, 2, 0xd7][..]);
    Ok(())
}

// Its loads of 0 are placed one after the other.
#[test]
fn sixty_four_records_are_placed_in_as_many_steps(rt: HostRuntime) -> Result<(), Fail> {
    let mut case = ScCase::new(rt.alloc(), SC)?;
    for number in 1..=64u8 {
        assert_eq!(rt; told(case.admit(entry(0, 1, 16, 0))), Ok(number));
    }
    assert_eq!(rt; told(case.seal()), Ok(None));
    assert_eq!(rt; searched(&mut case, 63), Ok((63, None)));
    assert_eq!(rt; searched(&mut case, 63), Ok((1, FOUND)));
    assert_eq!(rt; case.placed().len(), 64);
    for (number, placed) in (1..=64u8).zip(case.placed()) {
        assert_eq!(rt; *placed, number);
    }
    let mut out = [OLD; 77];
    assert_eq!(rt; told(case.write_paper(&mut out)), Ok(77));
    assert_eq!(rt; &out[0..10], &[0x10, 0, 4, 1, 1, 1, 64, 0x12, 0, 64][..]);
    assert_eq!(rt; &out[10..74], case.placed());
    Ok(())
}
