// A text log on standard input, the bytes of the run that it says on standard output.
#![tactic(auto)]

ghost use Rattle.std.specs.Prelude.{◌≡◌, IfOk, IfSome};
ghost use Rattle.assembling.specs.Assembly.{assembled};
ghost use Rattle.assemble.specs.Told.{Tells};

use anyhow::{Context, bail, ensure};
use assembling::assembly::assemble;
use assembling::troubles::Unassembled;
use intake::{Request, arguments, ended, front};
use std::alloc::Global;
use std::io::{Read, Write};
use std::process::ExitCode;

const USAGE: &str = "assemble: makes the bytes of a run from a text log

usage: assemble < LOG > RUN
       assemble --help

It reads a text log of at most 1,048,576 bytes from standard input, and writes the
bytes of the run that the log says to standard output. Where a line cannot be read,
or a record is refused, it writes nothing there, and says on standard error in which
line, and why.

docs/LOGS.md has the text, docs/FORMAT.md the bytes, docs/REFUSALS.md the refusals.
The program disassemble is the way back.

Exit status: 0 where a run was written, and after --help; 1 where the log was
refused, at any other argument, or where something failed.";

// So many bytes a text may have.
const MOST_TEXT: usize = 1_048_576;

// The whole text: where there is more than may come, it is refused, and not cut.
fn read_text<R: Read + Drop>(heap: Global, input: R) -> anyhow::Result<Vec<u8>>
    ensures { IfOk result (λ text. IfSome (R.remaining input) (λ xs. text.items ≡ xs)) }
{
    let text = front(heap, input, MOST_TEXT + 1).context("cannot read standard input")?;
    ensure!(
        text.len() <= MOST_TEXT,
        "the log has more than {MOST_TEXT} bytes"
    );
    Ok(text)
}

// Writes the run that the text says, or tells what is wrong with the text. Of a reader and writers whose bytes are known, it is all that the reader
// has, and what is written stands behind what was written before.
fn respond<R: Read + Drop, W: Write, E: Write>(
    heap: Global,
    input: R,
    output: &mut W,
    errors: &mut E,
) -> anyhow::Result<ExitCode>
    ensures { IfOk result (λ status. IfSome (R.remaining input) (λ xs. Tells (assembled xs) (W.contents output.old) (W.contents output.new) (E.contents errors.old) (E.contents errors.new) status)) }
{
    let text = read_text(heap, input)?;
    match assemble(heap, &text) {
        Ok(run) => {
            output.write_all(&run)?;
            Ok(ExitCode::SUCCESS)
        }
        Err(Unassembled::Log(bad)) => {
            writeln!(errors, "assemble: {bad}")?;
            Ok(ExitCode::FAILURE)
        }
        Err(Unassembled::OutOfMemory) => bail!("out of memory"),
    }
}

fn run(rt: &HostRuntime) -> anyhow::Result<ExitCode> {
    let words = arguments(rt)?;
    match Request::of(&words).context("takes no argument but --help")? {
        Request::Run => respond(rt.alloc(), rt.stdin(), &mut rt.stdout(), &mut rt.stderr()),
        Request::Help => {
            rt.println(USAGE)?;
            Ok(ExitCode::SUCCESS)
        }
    }
}

// What goes wrong with the program itself is told on standard error, too.
fn main(rt: HostRuntime) -> ExitCode {
    ended(&rt, "assemble", run(&rt))
}
