// The referee as a program: a run and a paper in two files, and one line of what the referee says of them.
#![tactic(auto)]

ghost use Rattle.std.specs.Prelude.{IfOk};
ghost use Rattle.recheck.specs.Told.{Tells, TellsKnown};

use anyhow::Context;
use intake::{Errand, Source, arguments, ended_or, open_file};
use judging::judge;
use memory::verdicts::{Verdict, verdict_number};
use referee::faults::RefereeFault;
use std::alloc::Global;
use std::io;
use std::io::{Read, Write};
use std::process::ExitCode;
use telling::words::{Refused, VerdictName};

const USAGE: &str = "recheck: checks a run's paper, and prints one line

usage: recheck RUN PAPER
       recheck --help

It reads the bytes of a run and of a paper from two files. The run marks its
memory model in byte 4 (3 is Godson, anything else SC) and its clock in byte 5
(3 is None, anything else Global). Nothing is inferred or searched. Two words are
always the names of the files, as they stand: -- and --help are then names, too.

  accepted V WORD                  the paper shows the verdict V of the run
  refused N WORD layer L place P   the run or its paper is refused, and why

docs/REFEREE.md has the rules, docs/REFUSALS.md the refusals.

Exit status: 0 where the paper was accepted, and after --help; 1 where it or the
run was refused; 2 at any other arguments, or where something failed.";

// One line of what the referee answers; of a writer whose bytes are known, behind them.
fn tell<W: Write>(out: &mut W, answer: Result<Verdict, RefereeFault>) -> io::Result<ExitCode>
    ensures { IfOk result (Tells answer (W.contents out.old) (W.contents out.new)) }
{
    match answer {
        Ok(verdict) => {
            let number = verdict_number(Some(verdict));
            writeln!(out, "accepted {number} {}", VerdictName(number))?;
            Ok(ExitCode::SUCCESS)
        }
        Err(fault) => {
            writeln!(out, "{}", Refused(fault.into()))?;
            Ok(ExitCode::FAILURE)
        }
    }
}

// Reads a run and a paper, and tells what the referee answers of them. Of readers whose bytes are known, it is the answer to the first 65,536 of each.
fn respond<R: Read + Drop, W: Write>(
    heap: Global,
    run: Source<'_, R>,
    paper: Source<'_, R>,
    out: &mut W,
) -> anyhow::Result<ExitCode>
    ensures { IfOk result (TellsKnown (R.remaining run.entry.reader) (R.remaining paper.entry.reader) (W.contents out.old) (W.contents out.new)) }
{
    let run = run.read(heap)?;
    let paper = paper.read(heap)?;
    Ok(tell(out, judge(&run, &paper))?)
}

fn recheck(rt: &HostRuntime, run: &str, paper: &str) -> anyhow::Result<ExitCode> {
    let run = open_file(rt, run)?;
    let paper = open_file(rt, paper)?;
    respond(rt.alloc(), run, paper, &mut rt.stdout())
}

fn run(rt: &HostRuntime) -> anyhow::Result<ExitCode> {
    let unknown = "takes the names of two files, a run and a paper, or --help alone";
    let words = arguments(rt)?;
    match Errand::of(&words).context(unknown)? {
        Errand::Files { run, paper } => recheck(rt, run, paper),
        Errand::Help => {
            rt.println(USAGE)?;
            Ok(ExitCode::SUCCESS)
        }
    }
}

// What goes wrong with the program itself is told on standard error; a refused run or paper has been told by then.
fn main(rt: HostRuntime) -> ExitCode {
    ended_or(&rt, "recheck", run(&rt), ExitCode::from(2))
}
