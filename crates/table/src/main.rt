// Many runs in one table.
#![tactic(auto)]

ghost use Rattle.std.specs.Prelude.{◌≡◌, IfOk};
ghost use Rattle.std.specs.List.{list_all};
ghost use Rattle.table.specs.Told.{TellsTable};

use anyhow::Context;
use intake::{arguments, ended, open_file};
use std::alloc::Global;
use std::io;
use std::io::Write;
use std::process::ExitCode;
use tables::forms::{Form, table};
use tables::requests::{Runs, TableRequest};
use tables::rows::Row;
use tables::texts::shown;

const USAGE: &str = "table: many runs in one table, a row for each

usage: table [--steps N] [--csv | --latex] [--quiet] [--] RUN..
       table --help

It reads each run in bytes from the file of that name; of each the first 4,096
bytes count. A run is read under the model and the clock that its head marks,
inferred to the end and searched.

  --steps N   search each run N steps, 0 to 2^62; without it 1,000,000
  --csv       comma-separated values
  --latex     a tabular of LaTeX
  --quiet     do not tell on standard error which run comes next
  --          what follows are names

Of two forms, or two numbers of steps, the later counts. A refused run and a file
that cannot be read have their rows too. docs/TABLES.md says what stands in the
columns.

Exit status: 0 where each run has a verdict or stays undecided, and after --help;
1 where one is refused or cannot be read, at any other arguments, or where
something failed.";

fn are_all_judged(rows: &[Row]) -> bool
    ensures { result ≡ list_all (λ row. row.judged) rows.now }
{
    rows.iter().all(|row| row.judged)
}

// The table of these rows, behind what was written before. It ends well where all runs were judged.
fn tell<W: Write>(heap: Global, out: &mut W, form: Form, rows: &[Row]) -> io::Result<ExitCode>
    ensures { IfOk result (TellsTable form rows.now (W.contents out.old) (W.contents out.new)) }
{
    out.write_all(&table(heap, form, rows)?)?;
    if are_all_judged(rows) {
        Ok(ExitCode::SUCCESS)
    } else {
        Ok(ExitCode::FAILURE)
    }
}

// The row of the file with a name. One that cannot be read is told on standard error.
fn row_in(rt: &HostRuntime, name: &str, steps: u64) -> anyhow::Result<Row> {
    let heap = rt.alloc();
    let read = open_file(rt, name).and_then(|source| source.read(heap));
    let row = match read {
        Ok(input) => Row::of_run(heap, name, &input, steps)?,
        Err(error) => {
            let told = format!(in heap; "{error:#}")?;
            eprintln!(rt; "table: {}", shown(heap, &told)?)?;
            Row::unreadable(heap, name)?
        }
    };
    Ok(row)
}

// The rows in the order of the names. Which of them comes next is told on standard error, so that long work is seen to go on.
fn rows_of(rt: &HostRuntime, asked: Runs) -> anyhow::Result<Vec<Row>> {
    let mut rows = Vec::new(rt.alloc());
    let count = asked.names.len();
    for (done, name) in asked.names.iter().enumerate() {
        if count > 1 && !asked.options.quiet {
            let number = done + 1;
            eprintln!(rt; "table: {number} of {count}: {}", shown(rt.alloc(), name)?)?;
        }
        rows.push(row_in(rt, name, asked.options.steps)?)?;
    }
    Ok(rows)
}

fn run(rt: &HostRuntime) -> anyhow::Result<ExitCode> {
    let unknown =
        "takes --steps N (0 to 2^62), --csv, --latex, --quiet or --, then names of runs; or --help alone";
    let words = arguments(rt)?;
    match TableRequest::of(&words).context(unknown)? {
        TableRequest::Table(asked) => {
            let rows = rows_of(rt, asked)?;
            Ok(tell(rt.alloc(), &mut rt.stdout(), asked.options.form, &rows)?)
        }
        TableRequest::Help => {
            rt.println(USAGE)?;
            Ok(ExitCode::SUCCESS)
        }
    }
}

fn main(rt: HostRuntime) -> ExitCode {
    ended(&rt, "table", run(&rt))
}
