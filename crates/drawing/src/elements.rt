// The elements of a picture, a line each.
ghost use Rattle.std.specs.Prelude.{◌++◌, IfOk};
ghost use Rattle.std.specs.Io.KnownBytes.{Appends};
ghost use Rattle.drawing.specs.Elements.{number_words, done_words, place_words, lane_words, column_words, reading_words, label_words};

use crate::arrows::Arrow;
use crate::curves::Curve;
use crate::geometry::{NAME_X, NUMBER_X, PLACE_X, RECORD_X, TICK_Y};
use crate::words::{Ordinal, RuleName};
use memory::records::Record;
use std::io;
use std::io::Write;
use telling::words::{Logged, Operation};

// Where a rectangle stands, and how large it is.
#[derive(Clone, Copy)]
pub struct Frame {
    pub x: usize,
    pub y: usize,
    pub width: usize,
    pub height: usize,
}

// The bar of a record. The record as it was logged is shown where a pointer rests on it.
pub fn bar<W: Write>(out: &mut W, class: &str, frame: Frame, logged: Logged) -> io::Result<()> {
    let Frame {
        x,
        y,
        width,
        height,
    } = frame;
    writeln!(
        out,
        "<rect class='{class}' x='{x}' y='{y}' width='{width}' height='{height}'><title>{logged}</title></rect>"
    )
}

// The number of a record.
fn number_text<W: Write>(out: &mut W, y: usize, number: usize) -> io::Result<()>
    ensures { IfOk result (λ _. Appends (W.contents out.old) (W.contents out.new) (number_words y number)) }
{
    write!(
        out,
        "<text class='number' x='{NUMBER_X}' y='{y}'>{number}</text>"
    )
}

// What a record did.
fn operation_text<W: Write>(out: &mut W, y: usize, drawn: Record) -> io::Result<()>
    ensures { IfOk result (λ _. Appends (W.contents out.old) (W.contents out.new) (done_words y drawn)) }
{
    let operation = Operation(drawn);
    writeln!(
        out,
        "<text class='record' x='{RECORD_X}' y='{y}'>{operation}</text>"
    )
}

// The number of a record and what it did, on the left of its row.
pub fn operation<W: Write>(out: &mut W, y: usize, number: usize, drawn: Record) -> io::Result<()>
    ensures { IfOk result (λ _. Appends (W.contents out.old) (W.contents out.new) (number_words y number ++ done_words y drawn)) }
{
    number_text(out, y, number)?;
    operation_text(out, y, drawn)
}

// The place of a record in an order, on the right of its row.
pub fn place<W: Write>(out: &mut W, y: usize, place: usize) -> io::Result<()>
    ensures { IfOk result (λ _. Appends (W.contents out.old) (W.contents out.new) (place_words y place)) }
{
    let place = Ordinal(place);
    writeln!(
        out,
        "<text class='place' x='{PLACE_X}' y='{y}'>{place}</text>"
    )
}

// The lane of a processor, with its name at a height.
pub fn lane<W: Write>(
    out: &mut W,
    class: &str,
    frame: Frame,
    name_y: usize,
    processor: u8,
) -> io::Result<()>
    ensures { IfOk result (λ _. Appends (W.contents out.old) (W.contents out.new) (lane_words class.now frame name_y processor)) }
{
    let Frame {
        x,
        y,
        width,
        height,
    } = frame;
    writeln!(
        out,
        "<rect class='{class}' x='{x}' y='{y}' width='{width}' height='{height}'/><text class='name' x='{NAME_X}' y='{name_y}'>P{processor}</text>"
    )
}

// A column, from the readings down to the last lane.
fn column_line<W: Write>(out: &mut W, x: usize, top: usize, bottom: usize) -> io::Result<()>
    ensures { IfOk result (λ _. Appends (W.contents out.old) (W.contents out.new) (column_words x top bottom)) }
{
    write!(out, "<path class='grid' d='M{x} {top}V{bottom}'/>")
}

// A reading, above its column.
fn reading_text<W: Write>(out: &mut W, x: usize, reading: u64) -> io::Result<()>
    ensures { IfOk result (λ _. Appends (W.contents out.old) (W.contents out.new) (reading_words x reading)) }
{
    writeln!(
        out,
        "<text class='tick' x='{x}' y='{TICK_Y}'>{reading}</text>"
    )
}

// A reading above its column, which goes down from there.
pub fn tick<W: Write>(
    out: &mut W,
    x: usize,
    top: usize,
    bottom: usize,
    reading: u64,
) -> io::Result<()>
    ensures { IfOk result (λ _. Appends (W.contents out.old) (W.contents out.new) (column_words x top bottom ++ reading_words x reading)) }
{
    column_line(out, x, top, bottom)?;
    reading_text(out, x, reading)
}

// An arrow along a curve. What it says is shown where a pointer rests on it.
pub fn arrow<W: Write>(out: &mut W, class: &str, arrow: Arrow, curve: Curve) -> io::Result<()> {
    let Arrow { first, second, .. } = arrow;
    let rule = RuleName(arrow.rule);
    writeln!(
        out,
        "<path class='{class}' d='M{} {}C{} {} {} {} {} {}'><title>{first} before {second}: {rule}</title></path>",
        curve.from.x,
        curve.from.y,
        curve.leaving.x,
        curve.leaving.y,
        curve.entering.x,
        curve.entering.y,
        curve.to.x,
        curve.to.y
    )
}

// The rule of an arrow, beside it.
pub fn label<W: Write>(out: &mut W, x: usize, y: usize, name: &str) -> io::Result<()>
    ensures { IfOk result (λ _. Appends (W.contents out.old) (W.contents out.new) (label_words x y name.now)) }
{
    writeln!(out, "<text class='rule' x='{x}' y='{y}'>{name}</text>")
}
