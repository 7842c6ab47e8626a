// Makes the calls that its input names on one case, and prints what each answers and how the case then stands.
#![tactic(auto)]

ghost use Rattle.std.specs.Prelude.{◌≤◌, length};

mod made;
mod words;

use crate::made::{Answer, make};
use crate::words::{Hex, Listed, Marked, Named, Placed, Ruled, Staged};
use anyhow::{Context, bail, ensure};
use case::cases::Case;
use histories::invocations::{Invocation, next_call};
use intake::{Request, arguments, ended, front};
use memory::clocks::{Clock, GlobalClock, NoClock};
use memory::models::{Godson, Model, Sc};
use memory::refusals::Fault;
use memory::settings::Setting;
use std::io;
use std::process::ExitCode;
use telling::words::Refused;

const USAGE: &str = "calls: makes a list of calls on one case, and prints each answer

usage: calls < CALLS
       calls --help

It reads at most 65,536 bytes from standard input: the mark of the memory model
(01 SC, 03 Godson), the mark of the clock (01 Global, 03 None), then calls.

  01 open P     02 admit RECORD  03 infer K  04 seal  05 search K
  06 load N RUN 07 write-run N   08 write-slip N      09 write-paper N

P has 1 byte, RECORD 30, K 8, N 2. After each call it prints the answer, the bytes
that were lent, and how the case stands. docs/CALLS.md has it all.

Exit status: 0 where all calls were made, refused ones included, and after --help;
1 where the input cannot be read as calls, at any other argument, or where
something failed.";

// So many bytes of input there may be.
const MOST_BYTES: usize = 65_536;

// What stands in bytes that are lent.
const LENT: u8 = 0xAB;

// One byte more is read than may come, to see whether it does.
fn read_calls(rt: &HostRuntime) -> anyhow::Result<Vec<u8>> {
    let bytes = front(rt.alloc(), rt.stdin(), MOST_BYTES + 1);
    let bytes = bytes.context("cannot read standard input")?;
    ensure!(
        bytes.len() <= MOST_BYTES,
        "takes at most {MOST_BYTES} bytes"
    );
    Ok(bytes)
}

// How a case stands.
fn tell_case<M: Model, C: Clock>(rt: &HostRuntime, case: &Case<M, C>) -> io::Result<()> {
    println!(rt;
        "state {} {} processors {} records {} mark {} total {}",
        Staged(case.stage()),
        Ruled(case.stage().verdict()),
        case.processors(),
        case.records().len(),
        Marked(case.mark()),
        case.steps()
    )?;
    println!(rt; "lines{}", Listed(case.lines()))?;
    println!(rt; "placed{}", Placed(case.placed()))
}

fn tell_answer(rt: &HostRuntime, answer: Result<Answer, Fault>) -> io::Result<()> {
    match answer {
        Ok(answer) => println!(rt; "answer ok{answer}"),
        Err(fault) => println!(rt; "answer {}", Refused(fault)),
    }
}

// Makes a call, and tells it.
fn call_once<M: Model, C: Clock>(
    rt: &HostRuntime,
    case: &mut Case<M, C>,
    call: Invocation<'_>,
) -> anyhow::Result<()> {
    let room = call.room();
    let mut lent = vec![in rt.alloc(); LENT; usize::from(room.unwrap_or(0))]?;
    tell_answer(rt, make(case, call, &mut lent))?;
    if room.is_some() {
        println!(rt; "bytes{}", Hex(&lent))?;
    }
    Ok(tell_case(rt, case)?)
}

// Makes the calls with which the input ends on a new case.
fn call_all<M: Model + Drop, C: Clock + Drop>(
    rt: &HostRuntime,
    setting: Setting<M, C>,
    input: &[u8],
    calls: &[u8],
) -> anyhow::Result<()>
    requires { length calls.now ≤ length input.now }
{
    let mut case = Case::new(rt.alloc(), setting)?;
    println!(rt; "call 0 new")?;
    println!(rt; "answer ok")?;
    tell_case(rt, &case)?;
    let mut rest = calls;
    let mut number = 1u64;
    loop {
        let place = input.len() - rest.len();
        let next = next_call(rest).context(format_args!("call {number}, at byte {place}"))?;
        let Some((invocation, behind)) = next else {
            return Ok(());
        };
        println!(rt; "call {number} {}", Named(invocation))?;
        call_once(rt, &mut case, invocation)?;
        rest = behind;
        number = number.saturating_add(1);
    }
}

fn setting<M, C>(model: M, clock: C) -> Setting<M, C> {
    Setting { model, clock }
}

// The four settings are four types.
fn call_under_marks(rt: &HostRuntime, input: &[u8]) -> anyhow::Result<()> {
    let [model, clock, calls @ ..] = input else {
        bail!("the input has no two marks");
    };
    match (*model, *clock) {
        (Sc::MARK, GlobalClock::MARK) => call_all(rt, setting(Sc, GlobalClock), input, calls),
        (Sc::MARK, NoClock::MARK) => call_all(rt, setting(Sc, NoClock), input, calls),
        (Godson::MARK, GlobalClock::MARK) => call_all(
            rt,
            setting(Godson, GlobalClock),
            input,
            calls,
        ),
        (Godson::MARK, NoClock::MARK) => call_all(rt, setting(Godson, NoClock), input, calls),
        (model, clock) => bail!("no model and clock have the marks {model:02X} and {clock:02X}"),
    }
}

fn run(rt: &HostRuntime) -> anyhow::Result<ExitCode> {
    let words = arguments(rt)?;
    match Request::of(&words).context("takes no argument but --help")? {
        Request::Run => call_under_marks(rt, &read_calls(rt)?)?,
        Request::Help => rt.println(USAGE)?,
    }
    Ok(ExitCode::SUCCESS)
}

// What goes wrong is told on standard error; what a call refuses is an answer.
fn main(rt: HostRuntime) -> ExitCode {
    ended(&rt, "calls", run(&rt))
}
