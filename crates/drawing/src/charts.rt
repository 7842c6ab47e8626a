// What is on the chart: lanes, readings, bars, places and arrows.
ghost use Rattle.std.specs.Prelude.{◌<◌};

use crate::arrows::{Arrow, Ink, arrows_of};
use crate::axis::Axis;
use crate::bars::place_of;
use crate::curves::{Curve, Label, Span, curve_of};
use crate::elements::{Frame, arrow, bar, label, lane, operation, place, tick};
use crate::geometry::{
    AXIS_WIDTH, BAR_HEIGHT, BAR_TOP, BASE, DIGIT, DIGITS_APART, LABEL_BASE, LEAST_BAR, MARGIN, ROW,
    TICK, TOP, WIDTH, column_x, row_top,
};
use crate::lanes::{lane_rows, rows_above};
use crate::layouts::{Layout, lane_top};
use crate::words::rule_name;
use deciding::Report;
use memory::kinds::Kind;
use memory::verdicts::Verdict;
use std::alloc::{AllocError, Global};
use std::io;
use std::io::Write;
use telling::words::Logged;

// In a row, words stand on this line.
fn base(top: usize) -> usize {
    top.saturating_add(BASE)
}

// One lane is darker than the next.
pub fn lanes<W: Write>(out: &mut W, report: &Report) -> io::Result<()> {
    for processor in 0..report.processors {
        let class = if processor % 2 == 0 { "lane" } else { "other" };
        let y = lane_top(&report.records, processor);
        let frame = Frame {
            x: MARGIN,
            y,
            width: WIDTH - 2 * MARGIN,
            height: lane_rows(&report.records, processor).saturating_mul(ROW),
        };
        lane(out, class, frame, base(y), processor)?;
    }
    Ok(())
}

// Every so many columns have their reading written above them, that the words of none reach into another's.
fn columns_apart(last: usize, reading: u64) -> usize
    ensures { 0 < result }
{
    let digits = reading.checked_ilog10().unwrap_or(0) as usize + 1;
    let width = digits * DIGIT + DIGITS_APART;
    width.saturating_mul(last) / AXIS_WIDTH + 1
}

// The readings of columns in equal distances, the first and the last among them.
pub fn ticks<W: Write>(out: &mut W, axis: &Axis, bottom: usize) -> io::Result<()> {
    let last = axis.columns().saturating_sub(1);
    let apart = columns_apart(last, axis.reading(last).unwrap_or(0));
    for column in 0..axis.columns() {
        let shown = column % apart == 0 && column.saturating_add(apart) <= last;
        if let Some(reading) = axis.reading(column)
            && (shown || column == last)
        {
            tick(out, column_x(column, last), TOP - TICK, bottom, reading)?;
        }
    }
    Ok(())
}

// What a bar looks like; the load that is an orphan is drawn as one.
fn bar_class(verdict: Option<Verdict>, number: usize, kind: Kind) -> &'static str {
    match (verdict, kind) {
        (Some(Verdict::Orphan(orphan)), _) if usize::from(orphan) == number => "orphan",
        (_, Kind::Load) => "load",
        (_, Kind::Store) => "store",
        (_, Kind::Fence) => "fence",
    }
}

// A bar of one column has a width, too.
fn bar_frame(span: Span) -> Frame {
    Frame {
        x: span.left.saturating_sub(LEAST_BAR / 2),
        y: span.top.saturating_add(BAR_TOP),
        width: span
            .right
            .saturating_sub(span.left)
            .saturating_add(LEAST_BAR),
        height: BAR_HEIGHT,
    }
}

// The bars of the records, and what the records did.
pub fn bars<W: Write>(
    out: &mut W,
    report: &Report,
    verdict: Option<Verdict>,
    layout: &Layout,
) -> io::Result<()> {
    for (index, (drawn, span)) in report.records.iter().zip(&layout.spans).enumerate() {
        let number = index + 1;
        let logged = Logged {
            number,
            record: *drawn,
        };
        let class = bar_class(verdict, number, drawn.kind);
        bar(out, class, bar_frame(*span), logged)?;
        operation(out, base(span.top), number, *drawn)?;
    }
    Ok(())
}

// Each record's place in the order that was found.
pub fn places<W: Write>(out: &mut W, order: &[u8], layout: &Layout) -> io::Result<()> {
    for (index, span) in layout.spans.iter().enumerate() {
        if let Some(found) = place_of(order, index + 1) {
            place(out, base(span.top), found)?;
        }
    }
    Ok(())
}

// An arrow with its curve, where both its records are drawn.
fn curve_in(layout: &Layout, arrow: Arrow, track: usize, tracks: usize) -> Option<Curve> {
    let first = layout.span(arrow.first)?;
    let second = layout.span(arrow.second)?;
    Some(curve_of(first, second, track, tracks))
}

// The label of an arrow by which lines are opposed, where it hides none of the others.
fn add_label(
    labels: &mut Vec<Label>,
    drawn: Arrow,
    curve: Curve,
    rows: usize,
) -> Result<(), AllocError> {
    if drawn.ink == Ink::Opposed {
        let label = Label::beside(curve, rule_name(drawn.rule)).settled(labels, rows);
        labels.push(label)?;
    }
    Ok(())
}

fn ink_class(ink: Ink) -> &'static str {
    match ink {
        Ink::Reads => "reads",
        Ink::Opposed => "opposed",
    }
}

fn tell_labels<W: Write>(out: &mut W, labels: &[Label]) -> io::Result<()> {
    for settled in labels {
        label(
            out,
            settled.x,
            row_top(settled.row) + LABEL_BASE,
            settled.name,
        )?;
    }
    Ok(())
}

// The arrows, and over them their labels.
pub fn arrows<W: Write>(
    heap: Global,
    out: &mut W,
    report: &Report,
    layout: &Layout,
) -> io::Result<()> {
    let arrows = arrows_of(heap, report)?;
    let rows = rows_above(&report.records, report.processors);
    let mut labels = Vec::new(heap);
    for (track, drawn) in arrows.iter().enumerate() {
        if let Some(curve) = curve_in(layout, *drawn, track, arrows.len()) {
            arrow(out, ink_class(drawn.ink), *drawn, curve)?;
            add_label(&mut labels, *drawn, curve, rows)?;
        }
    }
    tell_labels(out, &labels)
}
