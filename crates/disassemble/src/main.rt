// The bytes of a run on standard input, its text log on standard output.
#![tactic(auto)]

ghost use Rattle.std.specs.Prelude.{◌≡◌, IfOk, IfSome, take};
ghost use Rattle.memory.specs.Limits.{input_limit};
ghost use Rattle.assembling.specs.Disassembly.{disassembled};
ghost use Rattle.disassemble.specs.Told.{Tells};

use anyhow::{Context, bail};
use assembling::disassembly::disassemble;
use assembling::troubles::{BadRun, Undisassembled};
use checker::counted;
use intake::{Request, arguments, ended, read_input};
use std::alloc::Global;
use std::io::{Read, Write};
use std::process::ExitCode;

const USAGE: &str = "disassemble: makes a text log from the bytes of a run

usage: disassemble < RUN > LOG
       disassemble --help

It reads the bytes of a run from standard input, of which the first 4,096 count,
and writes the run as a text log to standard output. Where the run is refused, it
writes nothing there, and says on standard error why, and where. Byte 4 marks the
memory model (1 SC, 3 Godson) and byte 5 the clock (1 Global, 3 None); any other
mark is refused.

docs/LOGS.md has the text, docs/FORMAT.md the bytes, docs/REFUSALS.md the refusals.
The program assemble is the way back.

Exit status: 0 where a log was written, and after --help; 1 where the run was
refused, at any other argument, or where something failed.";

// Writes the log of the run, or tells why the run is refused. Of a reader and writers whose bytes are known, it is the run in the first bytes that the
// reader has, as many as count, and what is written stands behind what was written before.
fn respond<R: Read + Drop, W: Write, E: Write>(
    heap: Global,
    input: R,
    output: &mut W,
    errors: &mut E,
) -> anyhow::Result<ExitCode>
    ensures { IfOk result (λ status. IfSome (R.remaining input) (λ xs. Tells (disassembled (take input_limit xs)) (W.contents output.old) (W.contents output.new) (E.contents errors.old) (E.contents errors.new) status)) }
{
    let input = read_input(heap, input)?;
    match disassemble(heap, counted(&input)) {
        Ok(text) => {
            output.write_all(&text)?;
            Ok(ExitCode::SUCCESS)
        }
        Err(Undisassembled::Run(fault)) => {
            writeln!(errors, "disassemble: {}", BadRun(fault))?;
            Ok(ExitCode::FAILURE)
        }
        Err(Undisassembled::OutOfMemory) => bail!("out of memory"),
    }
}

fn run(rt: &HostRuntime) -> anyhow::Result<ExitCode> {
    let words = arguments(rt)?;
    match Request::of(&words).context("takes no argument but --help")? {
        Request::Run => respond(rt.alloc(), rt.stdin(), &mut rt.stdout(), &mut rt.stderr()),
        Request::Help => {
            rt.println(USAGE)?;
            Ok(ExitCode::SUCCESS)
        }
    }
}

// What goes wrong with the program itself is told on standard error, too.
fn main(rt: HostRuntime) -> ExitCode {
    ended(&rt, "disassemble", run(&rt))
}
