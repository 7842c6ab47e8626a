// Texts read as logs.
ghost use Rattle.std.specs.Prelude.{◌≡◌, ◌==◌, ◌++◌, map, List, Ok, Err, IfOk, MatchResult};
ghost use Rattle.std.specs.List.{All, before_first};
ghost use Rattle.memory.specs.declared.records.Record.{Record};
ghost use Rattle.logs.specs.Reading.{access_at, line_read, lines_of, log_of, said_by, IsRefusal};
ghost use Rattle.logs.specs.Sayable.{Sayable, SaysSayable};
ghost use Rattle.logs.specs.Printing.{entry_of, on_lines, printed};

use crate::headings::Heading;
use crate::heads::Head;
use crate::statements::{Statement, statement_of};
use crate::troubles::{BadLine, Unread};
use memory::records::Entry;
use std::alloc::{AllocError, Global};

// An access as it was logged, and the line that says it.
#[derive(Clone, Copy)]
pub struct Access {
    pub line: usize,
    pub entry: Entry,
}

// A log that was read; nothing of its entries is judged.
#[derive(Drop)]
pub struct Log {
    pub head: Head,
    pub accesses: Vec<Access>,
}

// The heading with what a line says, and that; of the line with a number.
#[tactic(auto, unfolding(crate::specs::Reading::line_read))]
fn read_line(number: usize, heading: Heading, line: &[u8]) -> Result<(Heading, Statement), BadLine>
    ensures said { result ≡ line_read number heading line.now }
    ensures sayable { IfOk result (λ x. SaysSayable x.1) }
{
    let bad = |expected| BadLine {
        line: number,
        expected,
    };
    let statement = statement_of(line).map_err(bad)?;
    let next = heading.with(statement).map_err(bad)?;
    Ok((next, statement))
}

// Keeps the access of a line, if it says one.
fn keep(accesses: &mut Vec<Access>, line: usize, statement: Statement) -> Result<(), AllocError>
    ensures { IfOk result (λ _. accesses.new.items ≡ accesses.old.items ++ access_at line statement) }
{
    if let Statement::Access(entry) = statement {
        accesses.push(Access { line, entry })?;
    }
    Ok(())
}

// The log that a text says, or its first bad line. What stands behind a # says nothing. Printed, the log reads as itself, on lines 4, 5 and so on.
#[tactic(auto, using(crate::proofs::Comments::comments_say_nothing), unfolding(crate::specs::Reading::log_of))]
pub fn read_log(heap: Global, text: &[u8]) -> Result<Log, Unread>
    ensures said { MatchResult result
        (λ log. log_of text.now ≡ Ok (record { head = log.head; accesses = log.accesses.items }))
        (IsRefusal text.now) }
    ensures comments { log_of text.now ≡ said_by (map (before_first (λ b. b == 35)) (lines_of text.now)) }
    ensures sayable { IfOk result (λ log. All (λ a. Sayable a.entry) log.accesses.items) }
    ensures reads_back { IfOk result (λ log. (records : List Record) → map entry_of records ≡ map (λ a. a.entry) log.accesses.items
        → log_of (printed log.head records) ≡ Ok (record { head = log.head; accesses = on_lines 4 (map (λ a. a.entry) log.accesses.items) })) }
{
    let mut heading = Heading {
        model: None,
        clock: None,
        processors: None,
        named: 0,
    };
    let mut accesses = Vec::new(heap);
    for (i, line) in text.split(|b| *b == b'\n').enumerate() {
        let (next, statement) = read_line(i + 1, heading, line)?;
        keep(&mut accesses, i + 1, statement)?;
        heading = next;
    }
    Ok(Log {
        head: heading.head(),
        accesses,
    })
}
