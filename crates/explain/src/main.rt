// Tells in plain words all that comes of a run, from its bytes to the checker's answer.
#![tactic(auto)]

ghost use Rattle.std.specs.Prelude.{IfOk};
ghost use Rattle.explain.specs.Told.{Tells, TellsKnown};

use anyhow::{Context, bail};
use checker::counted;
use deciding::Report;
use explaining::accounts::Account;
use intake::{SearchRequest, arguments, ended, read_input};
use memory::refusals::Fault;
use std::alloc::Global;
use std::io::{Read, Write};
use std::process::ExitCode;
use telling::words::Refused;

const USAGE: &str = "explain: tells in plain words what comes of a run, and why

usage: explain < RUN
       explain --steps N < RUN
       explain --help

It reads the bytes of a run from standard input; only the first 4,096 count. The
run marks its memory model in byte 4 (1 SC, 3 Godson) and its clock in byte 5
(1 Global, 3 None). All lines are inferred, then at most N steps are searched;
without N 1,000,000, as the checker zielwart does. N is 0 to 2^62.

It prints the verdict in a sentence, the records, why the verdict stands, the
lines with their reasons, and the checker's answer. Of a refused run it prints
the records before the fault, and what is wrong where. docs/EXPLAIN.md says how
to read it.

Exit status: 0 where the run was loaded, and after --help; 1 where the run was
refused, which standard error says too, at any other argument, or where something
failed.";

// Tells the input and the account of what comes of it, and gives why it is refused.
fn tell<W: Write>(
    heap: Global,
    input: &[u8],
    steps: u64,
    out: &mut W,
) -> anyhow::Result<Option<Fault>>
    ensures { IfOk result (Tells input.now steps (W.contents out.old) (W.contents out.new)) }
{
    let report = Report::of(heap, counted(input), steps)?;
    let account = Account::of(heap, &report, input.len())?;
    account.tell(out)?;
    Ok(report.refusal())
}

// Of a reader and a writer whose bytes are known, it tells all that counts of what the reader has.
fn respond<R: Read + Drop, W: Write>(
    heap: Global,
    input: R,
    steps: u64,
    out: &mut W,
) -> anyhow::Result<Option<Fault>>
    ensures { IfOk result (TellsKnown (R.remaining input) steps (W.contents out.old) (W.contents out.new)) }
{
    let input = read_input(heap, input)?;
    tell(heap, &input, steps, out)
}

fn run(rt: &HostRuntime) -> anyhow::Result<ExitCode> {
    let unknown = "takes no argument but --steps N, where N is 0 to 2^62, or --help";
    let words = arguments(rt)?;
    match SearchRequest::of(&words).context(unknown)? {
        SearchRequest::Run { steps } => {
            if let Some(fault) = respond(rt.alloc(), rt.stdin(), steps, &mut rt.stdout())? {
                bail!("the run is {}", Refused(fault));
            }
        }
        SearchRequest::Help => rt.println(USAGE)?,
    }
    Ok(ExitCode::SUCCESS)
}

// What goes wrong, and that a run is refused, is told on standard error.
fn main(rt: HostRuntime) -> ExitCode {
    ended(&rt, "explain", run(&rt))
}
