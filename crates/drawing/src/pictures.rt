// The picture of a report.
use crate::charts::{arrows, bars, lanes, places, ticks};
use crate::geometry::WIDTH;
use crate::layouts::{Layout, lane_top};
use crate::legends::{legend, legend_height};
use crate::words::Title;
use deciding::Report;
use memory::verdicts::{Verdict, verdict_number};
use std::alloc::Global;
use std::io;
use std::io::Write;
use telling::words::{ClockName, ModelName, VerdictName};

const STYLE: &str = "<style>
@media print { svg:root { width: 100vw; height: 100vh } }
text { font-family: sans-serif; font-size: 12px; fill: #000000 }
.title { font-size: 17px; font-weight: bold }
.record, .number { font-family: monospace; font-size: 10px }
.number { text-anchor: end }
.tick { font-size: 10px; text-anchor: middle; fill: #404040 }
.name { font-weight: bold }
.place { font-weight: bold; text-anchor: end }
.rule { font-size: 10px; font-weight: bold; fill: #b00000; stroke: #ffffff; stroke-width: 3px; stroke-linejoin: round; paint-order: stroke }
.lane { fill: #f0f0f0 }
.other { fill: #fafafa }
.grid { fill: none; stroke: #c8c8c8; stroke-width: 1px }
.store, .load, .fence { stroke: #303030; stroke-width: 1px }
.store { fill: #a9bcd0 }
.load { fill: #ffffff }
.fence { fill: #505050 }
.orphan { fill: #ffd0d0; stroke: #b00000; stroke-width: 3px }
.reads { fill: none; stroke: #1050b0; stroke-width: 1.2px; stroke-dasharray: 5 2; marker-start: url(#reads-tail); marker-end: url(#reads-head) }
.opposed { fill: none; stroke: #b00000; stroke-width: 2.2px; marker-start: url(#opposed-tail); marker-end: url(#opposed-head) }
</style>
<defs>
<marker id='reads-head' viewBox='0 0 8 8' refX='7' refY='4' markerWidth='8' markerHeight='8' markerUnits='userSpaceOnUse' orient='auto'><path d='M0 1L8 4L0 7z' fill='#1050b0'/></marker>
<marker id='reads-tail' viewBox='0 0 4 4' refX='2' refY='2' markerWidth='4' markerHeight='4' markerUnits='userSpaceOnUse'><circle cx='2' cy='2' r='2' fill='#1050b0'/></marker>
<marker id='opposed-head' viewBox='0 0 10 10' refX='8' refY='5' markerWidth='10' markerHeight='10' markerUnits='userSpaceOnUse' orient='auto'><path d='M0 1L10 5L0 9z' fill='#b00000'/></marker>
<marker id='opposed-tail' viewBox='0 0 6 6' refX='3' refY='3' markerWidth='6' markerHeight='6' markerUnits='userSpaceOnUse'><circle cx='3' cy='3' r='3' fill='#b00000'/></marker>
</defs>
";

// Between the lanes and the legend.
const ABOVE_LEGEND: usize = 26;

fn verdict_of(report: &Report) -> Option<Verdict> {
    report.ruling.unwrap_or(None)
}

// Where the last lane ends.
fn bottom(report: &Report) -> usize {
    lane_top(&report.records, report.processors)
}

fn begin<W: Write>(out: &mut W, report: &Report) -> io::Result<()> {
    let height = bottom(report)
        .saturating_add(ABOVE_LEGEND)
        .saturating_add(legend_height(verdict_of(report)));
    writeln!(
        out,
        "<svg xmlns='http://www.w3.org/2000/svg' width='{WIDTH}' height='{height}' viewBox='0 0 {WIDTH} {height}'>"
    )?;
    out.write_all(STYLE.as_bytes())?;
    writeln!(
        out,
        "<rect width='{WIDTH}' height='{height}' fill='#ffffff'/>"
    )
}

// What the verdict claims, and what the run is.
fn heading<W: Write>(out: &mut W, report: &Report) -> io::Result<()> {
    let verdict = verdict_of(report);
    let number = verdict_number(verdict);
    writeln!(
        out,
        "<text class='title' x='10' y='26'>{}</text>",
        Title(verdict)
    )?;
    writeln!(
        out,
        "<text x='10' y='46'>Verdict {number}, {}. Model {}, clock {}. Processors: {}. Records: {}. Lines: {}. Steps of search: {}.</text>",
        VerdictName(number),
        ModelName(report.model),
        ClockName(report.clock),
        report.processors,
        report.records.len(),
        report.lines.len(),
        report.steps
    )
}

// Writes the picture of a report.
pub fn draw<W: Write>(heap: Global, out: &mut W, report: &Report) -> io::Result<()> {
    let layout = Layout::of(heap, &report.records)?;
    let verdict = verdict_of(report);
    begin(out, report)?;
    heading(out, report)?;
    lanes(out, report)?;
    ticks(out, &layout.axis, bottom(report))?;
    bars(out, report, verdict, &layout)?;
    if verdict == Some(Verdict::Order) {
        places(out, &report.placed, &layout)?;
    }
    arrows(heap, out, report, &layout)?;
    let below = bottom(report).saturating_add(ABOVE_LEGEND);
    legend(out, below, verdict)?;
    writeln!(out, "</svg>")
}
