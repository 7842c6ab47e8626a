// The checker as a program: a run's bytes on standard input, slip and paper or a notice on standard output.
#![tactic(auto)]

ghost use Rattle.std.specs.Prelude.{◌≡◌, ◌==◌, IfOk, IfSome, slice_index};
ghost use Rattle.std.specs.Io.KnownBytes.{Appends};
ghost use Rattle.checker.specs.Output.{answer_to};
ghost use Rattle.wire.specs.Tags.{notice_tag};

use anyhow::{Context, ensure};
use checker::answer;
use intake::{Request, arguments, ended, read_input};
use std::alloc::Global;
use std::io::{Read, Write};
use std::process::ExitCode;
use wire::tags::Tag;

const USAGE: &str = "usage: zielwart < RUN > ANSWER
Reads a run in bytes from standard input, of which the first 4,096 count. Infers what must come
before what, and searches for a legal order, for 1,000,000 steps at most. Writes the slip and the
paper, if there is one, or a notice of the refusal, to standard output.
docs/FORMAT.md has the bytes; the program explain says the same in words.
Exit status: 0 where a slip was written, and after --help; 1 where a notice was, at any other
argument, or where something failed.";

// Writes the answer to what is read, and says whether it is a notice, which its first byte tells. Of a reader and a writer whose bytes are known, the
// answer to all that the reader has is written behind what was written before.
fn respond<R: Read + Drop, W: Write>(heap: Global, input: R, output: &mut W) -> anyhow::Result<bool>
    ensures written { IfOk result (λ _. IfSome (R.remaining input) (λ xs. Appends (W.contents output.old) (W.contents output.new) (answer_to xs))) }
    ensures notice { IfOk result (λ is_notice. IfSome (R.remaining input) (λ xs. is_notice ≡ (slice_index (answer_to xs) 0 == notice_tag))) }
{
    let input = read_input(heap, input)?;
    let bytes = answer(heap, &input)?;
    output.write_all(&bytes)?;
    Ok(bytes.first().copied() == Some(u8::from(Tag::Notice)))
}

fn run(rt: &HostRuntime) -> anyhow::Result<ExitCode> {
    let words = arguments(rt)?;
    match Request::of(&words).context("takes no argument but --help")? {
        Request::Run => {
            let refused = respond(rt.alloc(), rt.stdin(), &mut rt.stdout())?;
            ensure!(!refused, "the run is refused, and the notice says why");
        }
        Request::Help => rt.println(USAGE)?,
    }
    Ok(ExitCode::SUCCESS)
}

// What goes wrong, and that a run is refused, is told on standard error.
fn main(rt: HostRuntime) -> ExitCode {
    ended(&rt, "zielwart", run(&rt))
}
