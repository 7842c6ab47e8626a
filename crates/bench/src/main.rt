// Measures the checker: what is answered goes to standard output, the best times to standard error.
#![tactic(auto)]

use anyhow::{Context, bail, ensure};
use case::cases::Case;
use checker::answer;
use intake::{arguments, ended, open_file};
use judging::judge;
use memory::clocks::{Clock, GlobalClock};
use memory::limits::PROGRAM_STEPS;
use memory::models::{Model, Sc};
use memory::refusals::Fault;
use memory::settings::Setting;
use memory::verdicts::{Verdict, verdict_number};
use std::io;
use std::io::Write;
use std::process::ExitCode;
use std::time::{CpuClock, Duration};

const USAGE: &str = "bench: measures the checker's parts on a run, as often as is said

usage: bench case REPEATS RUN
       bench whole REPEATS RUN
       bench referee REPEATS RUN PAPER
       bench --help

  case      inference to the end and 1,000,000 steps of search, each on its own,
            of a run under SC and Global; prints lines, placed records, verdict and steps
  whole     from the bytes of a run to those of the answer, which it writes
  referee   a run and a paper; prints the verdict, or the refusal by its numbers

The best time of all repeats, two of case, comes on standard error: nanoseconds
of processor time. bench/run calls it, and docs/BENCHMARK.md tells more.

Exit status: 0 where all was measured, and after --help; else 1.";

const UNKNOWN: &str =
    "takes case, whole or referee, how often, a run and, for the referee, a paper; --help says more";

// The better of the best time so far and that since the start.
fn better(rt: &HostRuntime, best: Duration, start: Duration) -> io::Result<Duration> {
    let now = rt.process_cpu_time()?;
    Ok(best.min(now.saturating_sub(start)))
}

fn tell_case<M: Model, C: Clock>(rt: &HostRuntime, case: &Case<M, C>) -> io::Result<()> {
    for line in case.lines() {
        let rule = u8::from(line.rule);
        println!(rt; "line {rule} {} {} {}", line.first, line.second, line.third)?;
    }
    for number in case.placed() {
        println!(rt; "placed {number}")?;
    }
    let verdict = verdict_number(case.stage().verdict());
    println!(rt; "verdict {verdict} steps {}", case.steps())
}

// Inference to the end, and then the search, each time anew from the run.
fn measure_case(rt: &HostRuntime, repeats: u32, run: &[u8]) -> anyhow::Result<()> {
    let setting = Setting {
        model: Sc,
        clock: GlobalClock,
    };
    let mut case = Case::new(rt.alloc(), setting)?;
    let mut infer = Duration::MAX;
    let mut search = Duration::MAX;
    for _ in 0..repeats {
        ensure!(case.load(run).is_ok(), "the run is refused");
        let start = rt.process_cpu_time()?;
        let _ = case.infer(u64::MAX);
        infer = better(rt, infer, start)?;
        let middle = rt.process_cpu_time()?;
        let _ = case.search(PROGRAM_STEPS);
        search = better(rt, search, middle)?;
    }
    tell_case(rt, &case)?;
    Ok(eprintln!(rt; "{} {}", infer.as_nanos(), search.as_nanos())?)
}

// From the run's bytes to the answer's.
fn measure_whole(rt: &HostRuntime, repeats: u32, run: &[u8]) -> anyhow::Result<()> {
    let mut best = Duration::MAX;
    let mut output = Vec::new(rt.alloc());
    for _ in 0..repeats {
        let start = rt.process_cpu_time()?;
        output = answer(rt.alloc(), run)?;
        best = better(rt, best, start)?;
    }
    rt.stdout().write_all(output.as_slice())?;
    Ok(eprintln!(rt; "{}", best.as_nanos())?)
}

fn measure_referee(rt: &HostRuntime, repeats: u32, run: &[u8], paper: &[u8]) -> anyhow::Result<()> {
    let mut best = Duration::MAX;
    let mut ruling = judge(run, paper);
    for _ in 0..repeats {
        let start = rt.process_cpu_time()?;
        ruling = judge(run, paper);
        best = better(rt, best, start)?;
    }
    tell_ruling(rt, ruling.map_err(Fault::from))?;
    Ok(eprintln!(rt; "{}", best.as_nanos())?)
}

fn tell_ruling(rt: &HostRuntime, ruling: Result<Verdict, Fault>) -> io::Result<()> {
    match ruling {
        Ok(verdict) => println!(rt; "accepted {}", verdict_number(Some(verdict))),
        Err(fault) => {
            let Fault {
                refusal,
                layer,
                place,
            } = fault;
            println!(rt;
                "refused {} layer {} place {place}",
                u8::from(refusal),
                u8::from(layer)
            )
        }
    }
}

fn read(rt: &HostRuntime, path: &str) -> anyhow::Result<Vec<u8>> {
    open_file(rt, path)?.read(rt.alloc())
}

// A number of repeats above 0.
fn repeats_of(word: &str) -> anyhow::Result<u32> {
    let repeats = word.parse::<u32>().context(UNKNOWN)?;
    ensure!(repeats != 0, "{UNKNOWN}");
    Ok(repeats)
}

fn measure(rt: &HostRuntime, part: &str, repeats: u32, files: &[String]) -> anyhow::Result<()> {
    match (part, files) {
        ("case", [run]) => measure_case(rt, repeats, &read(rt, run)?),
        ("whole", [run]) => measure_whole(rt, repeats, &read(rt, run)?),
        ("referee", [run, paper]) => measure_referee(
            rt,
            repeats,
            &read(rt, run)?,
            &read(rt, paper)?,
        ),
        _ => bail!("{UNKNOWN}"),
    }
}

fn run(rt: &HostRuntime) -> anyhow::Result<ExitCode> {
    let words = arguments(rt)?;
    match words.as_slice() {
        [word] if word.as_str() == "--help" => rt.println(USAGE)?,
        [part, repeats, files @ ..] => measure(rt, part, repeats_of(repeats)?, files)?,
        _ => bail!("{UNKNOWN}"),
    }
    Ok(ExitCode::SUCCESS)
}

fn main(rt: HostRuntime) -> ExitCode {
    ended(&rt, "bench", run(&rt))
}
