// What is told of a run, however good the paper is.
use crate::tools::{Answer, MESSAGE, MESSAGE_PAPER, SC, ruled};
use std::test::Fail;

// A place in the message run and the byte that is put there, then what is told.
const CHANGES: [(usize, u8, Answer); 5] = [
    // too few processors, and too many
    (3, 0, Err((7, 2, 0))),
    (3, 17, Err((7, 2, 0))),
    // a paper's head, and a second head, in place of the first record
    (6, 0x10, Err((1, 1, 6))),
    (6, 0x01, Err((1, 1, 6))),
    // the second record's enter below that of the first
    (63, 9, Err((11, 2, 39))),
];

#[test]
fn a_byte_of_a_run_that_is_changed_is_told_at_its_field(rt: HostRuntime) -> Result<(), Fail> {
    for change in CHANGES {
        let (at, byte, want) = change;
        let mut run = MESSAGE;
        *run.get_mut(at).ok_or("no such byte")? = byte;
        assert_eq!(rt; ruled(SC, &run, &MESSAGE_PAPER), want, "{byte} at {at}");
    }
    Ok(())
}

#[test]
fn marks_are_told_before_the_number_of_processors(rt: HostRuntime) {
    let mut run = MESSAGE;
    run[3] = 0;
    run[4] = 3;
    assert_eq!(rt; ruled(SC, &run, &MESSAGE_PAPER), Err((2, 2, 0)));
    run[4] = 1;
    run[5] = 3;
    assert_eq!(rt; ruled(SC, &run, &MESSAGE_PAPER), Err((2, 2, 0)));
}
