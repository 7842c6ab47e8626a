// What the programs take and how they end: their arguments, the bytes of standard input and of files, and the exit status.
#![tactic(auto)]

ghost use Rattle.std.specs.Prelude.{◌≡◌, ℕ, ◌+◌, ◌≤◌, IfOk, IfSome, MatchOption, MatchResult, length, take};
ghost use Rattle.memory.specs.Limits.{input_limit};
ghost use Rattle.intake.specs.Limits.{file_limit};
ghost use Rattle.intake.specs.Arguments.{request_words, errand_words, texts, NamesSteps, AsksSearch};
ghost use Rattle.std.specs.Process.{exit_status};

use anyhow::Context;
use memory::limits::{INPUT_LIMIT, MOST_STEPS, PROGRAM_STEPS};
use std::alloc::Global;
use std::fs::File;
use std::io::Read;
use std::process::ExitCode;
use std::{env, fs, io};

// One byte more than count, to see whether there are more.
const INPUT_ROOM: usize = INPUT_LIMIT + 1;

// So many bytes of a file are read at most, more than count of a run. docs/REFEREE.md says why no further byte changes what the referee answers.
const FILE_ROOM: usize = 65_536;

// The words behind the program's own name.
pub fn arguments(rt: &HostRuntime) -> anyhow::Result<Vec<String>> {
    let mut words = env::args(rt).context("an argument cannot be read")?;
    let _ = words.next();
    let mut behind = Vec::new(rt.alloc());
    for word in words {
        behind.push(word)?;
    }
    Ok(behind)
}

// What a program that reads standard input is asked for.
#[derive(Clone, Copy)]
pub enum Request {
    Run,
    Help,
}

impl Request {
    // What these words ask for.
    pub fn of(words: &[String]) -> Option<Request>
        ensures { MatchOption result ((x : Request) → request_words x ≡ texts words.now → ⊥) (λ x. request_words x ≡ texts words.now) }
    {
        match words {
            [] => Some(Request::Run),
            [word] if word.as_str() == "--help" => Some(Request::Help),
            _ => None,
        }
    }
}

// How many steps a word asks for: decimal digits alone, of a number up to 2^62.
pub fn steps_in(word: &str) -> Option<u64>
    ensures { MatchOption result ((n : ℕ) → NamesSteps n word.now → ⊥) (λ n. NamesSteps n word.now) }
{
    if word.starts_with('+') {
        return None;
    }
    let steps = word.parse::<u64>().ok()?;
    (steps <= MOST_STEPS).then_some(steps)
}

// What a program that reads standard input and searches is asked for.
#[derive(Clone, Copy)]
pub enum SearchRequest {
    Run { steps: u64 },
    Help,
}

impl SearchRequest {
    // What these words ask for: with none, as many steps as the checker searches.
    pub fn of(words: &[String]) -> Option<SearchRequest>
        ensures { MatchOption result ((x : SearchRequest) → AsksSearch x (texts words.now) → ⊥) (λ x. AsksSearch x (texts words.now)) }
    {
        match words {
            [] => Some(SearchRequest::Run {
                steps: PROGRAM_STEPS,
            }),
            [word] if word.as_str() == "--help" => Some(SearchRequest::Help),
            [flag, number] if flag.as_str() == "--steps" => {
                let steps = steps_in(number.as_str())?;
                Some(SearchRequest::Run { steps })
            }
            _ => None,
        }
    }
}

// What a program that reads two files is asked for.
#[derive(Clone, Copy)]
pub enum Errand<'a> {
    Files { run: &'a str, paper: &'a str },
    Help,
}

impl<'a> Errand<'a> {
    // What these words ask for.
    pub fn of(words: &'a [String]) -> Option<Errand<'a>>
        ensures { MatchOption result ((x : Errand) → errand_words x ≡ texts words.now → ⊥) (λ x. errand_words x ≡ texts words.now) }
    {
        match words {
            [word] if word.as_str() == "--help" => Some(Errand::Help),
            [run, paper] => Some(Errand::Files {
                run: run.as_str(),
                paper: paper.as_str(),
            }),
            _ => None,
        }
    }
}

// The first bytes of a reader, up to the room.
pub fn front<R: Read + Drop>(heap: Global, reader: R, room: usize) -> io::Result<Vec<u8>>
    ensures within { IfOk result (λ v. length v.items ≤ room) }
    ensures bytes { IfOk result (λ v. IfSome (R.remaining reader) (λ xs. v.items ≡ take room xs)) }
{
    let mut bytes = Vec::new(heap);
    reader.take(room as u64).read_to_end(&mut bytes)?;
    // cuts nothing off: of a reader whose bytes are not known, no contract says that `take` ends it
    bytes.truncate(room);
    Ok(bytes)
}

// The bytes of standard input, one more at most than count.
pub fn read_input<R: Read + Drop>(heap: Global, input: R) -> anyhow::Result<Vec<u8>>
    ensures within { IfOk result (λ v. length v.items ≤ input_limit + 1) }
    ensures bytes { IfOk result (λ v. IfSome (R.remaining input) (λ xs. v.items ≡ take (input_limit + 1) xs)) }
{
    front(heap, input, INPUT_ROOM).context("standard input cannot be read")
}

// What is read from a place that has a name, which errors tell.
#[derive(Drop)]
pub struct Source<'a, R> {
    pub name: &'a str,
    pub reader: R,
}

pub fn open_file<'a>(rt: &HostRuntime, path: &'a str) -> anyhow::Result<Source<'a, File>> {
    let reader = fs::open(rt, path).context(format_args!("cannot read \"{path}\""))?;
    Ok(Source { name: path, reader })
}

impl<R: Read + Drop> Source<'_, R> {
    // The first bytes, as many as can matter. What an error keeps of a long name is its beginning, so the words come first.
    pub fn read(self, heap: Global) -> anyhow::Result<Vec<u8>>
        ensures within { IfOk result (λ v. length v.items ≤ file_limit) }
        ensures bytes { IfOk result (λ v. IfSome (R.remaining self.entry.reader) (λ xs. v.items ≡ take file_limit xs)) }
    {
        let Source { name, reader } = self;
        front(heap, reader, FILE_ROOM).context(format_args!("cannot read \"{name}\""))
    }
}

// The exit status of a program, which is the other where something went wrong; that is told on standard error.
pub fn ended_or(
    rt: &HostRuntime,
    program: &str,
    outcome: anyhow::Result<ExitCode>,
    otherwise: ExitCode,
) -> ExitCode
    ensures { MatchResult outcome (λ status. result ≡ status) (λ _. result ≡ otherwise) }
{
    outcome.unwrap_or_else(|error| {
        let _ = eprintln!(rt; "{program}: {error:#}");
        otherwise
    })
}

// The same, with 1 where something went wrong.
pub fn ended(rt: &HostRuntime, program: &str, outcome: anyhow::Result<ExitCode>) -> ExitCode
    ensures { MatchResult outcome (λ status. result ≡ status) (λ _. exit_status result ≡ 1) }
{
    ended_or(rt, program, outcome, ExitCode::FAILURE)
}
