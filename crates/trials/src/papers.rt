// Fields of a paper as the reader hands them on, and the bytes of a notice.
use memory::refusals::{Fault, Layer, Refusal};
use std::process::Abort;
use wire::faults::ByteFault;
use wire::fields::{Field, Part, Reader, Text};
use wire::writing::write_notice;

fn part(place: usize, content: &[u8]) -> Part<'_> {
    Part { place, content }
}

// The place of the first byte that is left, if one is.
fn rest(reader: &Reader<'_>) -> Option<usize> {
    reader.finish().err().map(|e| e.place)
}

// A head at 0, lines at 7 and 14, an order at 21, an orphan at 26, an end at 30.
const PAPER: [u8; 33] = [
    0x10, 0, 4, 2, 1, 1, 9, 0x11, 0, 4, 1, 2, 3, 4, 0x11, 0, 4, 5, 6, 7, 8, 0x12, 0, 2, 11, 12,
    0x13, 0, 1, 13, 0x1f, 0, 0,
];

#[test]
fn a_paper_is_read_field_by_field(rt: HostRuntime) {
    let mut reader = Reader::over(Text::Paper, &PAPER);
    assert_eq!(rt; rest(&reader), Some(0));
    assert_eq!(rt; reader.next(), Ok(Field::Head(part(0, &[2, 1, 1, 9]))));
    assert_eq!(rt; reader.next(), Ok(Field::Line(part(7, &[1, 2, 3, 4]))));
    assert_eq!(rt; reader.next(), Ok(Field::Line(part(14, &[5, 6, 7, 8]))));
    assert_eq!(rt; rest(&reader), Some(21));
    assert_eq!(rt; reader.next(), Ok(Field::Order(part(21, &[11, 12]))));
    assert_eq!(rt; reader.next(), Ok(Field::Orphan(part(26, &[13]))));
    assert_eq!(rt; reader.next(), Ok(Field::End { place: 30 }));
    assert_eq!(rt; rest(&reader), None);
    assert_eq!(rt; reader.next(), Err(ByteFault { place: 33 }));
}

// The first field of a paper is this.
fn first_is(rt: &impl Abort, bytes: &[u8], field: Field<'_>) {
    assert_eq!(rt;
        Reader::over(Text::Paper, bytes).next(),
        Ok(field),
        "{bytes:?}"
    );
}

fn first_fails(rt: &impl Abort, bytes: &[u8]) {
    let fault = ByteFault { place: 0 };
    assert_eq!(rt;
        Reader::over(Text::Paper, bytes).next(),
        Err(fault),
        "{bytes:?}"
    );
}

#[test]
fn a_paper_has_no_field_of_a_run_and_no_end_with_content(rt: HostRuntime) {
    first_is(&rt, &[0x1f, 0, 0], Field::End { place: 0 });
    first_fails(&rt, &[0x1f, 0, 1, 7]);
    first_is(&rt, &[0x12, 0, 0], Field::Order(part(0, &[])));
    first_fails(&rt, &[0x13, 0, 1]);
    first_fails(&rt, &[0x12, 1, 0, 7]);
    first_fails(&rt, &[0x1f, 0]);
    first_fails(&rt, &[]);
    for tag in [0x00, 0x01, 0x02, 0x03, 0x0f, 0x14, 0x1d, 0x1e, 0x20, 0xff] {
        first_fails(&rt, &[tag, 0, 0]);
    }
    // a fault leaves the reader where it was
    let mut reader = Reader::over(Text::Paper, &[0x12, 0, 1, 5, 0x1f, 0, 1, 7]);
    assert_eq!(rt; reader.next(), Ok(Field::Order(part(0, &[5]))));
    assert_eq!(rt; reader.next(), Err(ByteFault { place: 4 }));
    assert_eq!(rt; reader.next(), Err(ByteFault { place: 4 }));
    assert_eq!(rt; rest(&reader), Some(4));
}

#[test]
fn a_notice_is_these_bytes_and_the_rest_is_kept(rt: HostRuntime) {
    let twin = Fault {
        refusal: Refusal::Twin,
        layer: Layer::Content,
        place: 0x01020327,
    };
    let mut out = [0xaa; 10];
    assert!(rt; write_notice(&mut out[0..8], twin).is_err());
    assert_eq!(rt; &out[..], &[0xaa; 10][..]);
    assert_eq!(rt; write_notice(&mut out, twin).ok(), Some(9));
    assert_eq!(rt; &out[..], &[0x1e, 0, 6, 12, 2, 1, 2, 3, 0x27, 0xaa][..]);
}
