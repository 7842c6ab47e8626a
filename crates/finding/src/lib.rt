// What lines and orders leave unsaid: the store that a load reads, the first line that is opposed to a line, and the lines that opposed lines rest on.
#![tactic(auto)]

ghost use Rattle.std.specs.Prelude.{◌≡◌, length};
ghost use Rattle.memory.specs.Reading.{Least};
ghost use Rattle.inference.specs.Rules.{has_pair};
ghost use Rattle.finding.specs.Finding.{read_by, opposed_to};

pub mod resting;

use memory::lines::Line;
use memory::reading::reads_from;
use memory::records::Record;

// The number of the store that a load reads, if it reads one.
pub fn source_of(load: Record, records: &[Record]) -> Option<usize>
    ensures { Least (read_by load records.now) (length records.now) result }
{
    records
        .iter()
        .position(|store| reads_from(load, *store))
        .map(|index| index + 1)
}

// The line says that the first comes before the second.
fn has_pair(line: Line, first: u8, second: u8) -> bool
    ensures { result ≡ has_pair first second line }
{
    line.first == first && line.second == second
}

// The number of the first line that is opposed to this one, if there is one.
pub fn opposed_line(line: Line, lines: &[Line]) -> Option<usize>
    ensures { Least (opposed_to line lines.now) (length lines.now) result }
{
    lines
        .iter()
        .position(|other| has_pair(*other, line.second, line.first))
        .map(|index| index + 1)
}
