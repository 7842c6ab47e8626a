// Draws a run and all that comes of it as a picture in SVG.
#![tactic(auto)]

ghost use Rattle.std.specs.Prelude.{IfOk};
ghost use Rattle.draw.specs.Drawn.{Draws, DrawsKnown};

use anyhow::{Context, bail};
use checker::counted;
use deciding::Report;
use drawing::pictures::draw;
use intake::{SearchRequest, arguments, ended, read_input};
use memory::refusals::Fault;
use std::alloc::Global;
use std::io::{Read, Write};
use std::process::ExitCode;
use telling::words::Refused;

const USAGE: &str = "draw: draws a run and what comes of it as a picture in SVG

usage: draw [--steps N] < RUN > RUN.svg
       draw --help

It reads the bytes of a run from standard input; only the first 4,096 count.
Byte 4 marks the memory model (1 SC, 3 Godson), byte 5 the clock (1 Global,
3 None); any other mark is refused.
Inference goes to its end, and the search makes N steps at most, 1,000,000 where
none are given; N goes from 0 to 2^62.

It draws a lane for each processor, in it a row for each record with its pending
period on an axis of readings, arrows from stores to the loads that read them,
and what decides the run: the lines that oppose each other as red arrows, or each
record's place in a legal order, or the load that reads what nobody wrote.
docs/DRAWING.md says how to read it.

Exit status: 0 where the run was drawn, and after --help; 1 where the run was
refused, which standard error tells, at any other arguments, or where something
failed. Nothing is then drawn.";

// Draws the run in these bytes, as far as they count, unless it is refused; then it writes nothing and gives why.
fn picture<W: Write>(
    heap: Global,
    input: &[u8],
    steps: u64,
    out: &mut W,
) -> anyhow::Result<Option<Fault>>
    ensures { IfOk result (Draws input.now steps (W.contents out.old) (W.contents out.new)) }
{
    let report = Report::of(heap, counted(input), steps)?;
    if let Some(fault) = report.refusal() {
        return Ok(Some(fault));
    }
    draw(heap, out, &report)?;
    Ok(None)
}

// The same, of what is read.
fn respond<R: Read + Drop, W: Write>(
    heap: Global,
    input: R,
    steps: u64,
    out: &mut W,
) -> anyhow::Result<Option<Fault>>
    ensures { IfOk result (DrawsKnown (R.remaining input) steps (W.contents out.old) (W.contents out.new)) }
{
    let input = read_input(heap, input)?;
    picture(heap, &input, steps, out)
}

fn run(rt: &HostRuntime) -> anyhow::Result<ExitCode> {
    let unknown = "takes nothing, or --steps with a number from 0 to 2^62, or --help alone";
    let words = arguments(rt)?;
    match SearchRequest::of(&words).context(unknown)? {
        SearchRequest::Run { steps } => {
            if let Some(fault) = respond(rt.alloc(), rt.stdin(), steps, &mut rt.stdout())? {
                bail!("the run is {}", Refused(fault));
            }
        }
        SearchRequest::Help => rt.println(USAGE)?,
    }
    Ok(ExitCode::SUCCESS)
}

// What goes wrong, and that a run is refused, is told on standard error.
fn main(rt: HostRuntime) -> ExitCode {
    ended(&rt, "draw", run(&rt))
}
