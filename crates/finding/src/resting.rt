// What opposed lines rest on: the short cycle in a list of lines that ends with opposed ones.
ghost use Rattle.std.specs.Prelude.{◌≡◌, ◌<◌, ◌≤◌, ◌⊎◌, ℕ, true, false, ◌-◌, ◌+◌, length, All, IfOk, IfSome, slice_index_or, slice_set, MatchOption, filter};
ghost use Rattle.finding.specs.Marks.{numbers_to, marked, MarksOpposed, MarksPremises, ClosesMarks, MarksNeeded};
ghost use Rattle.finding.specs.Resting.{reads_number, gives_first, gives_second, FirstPremise, SecondPremise, LastOpposed, AreNeeded, lines_at, StandAlone, EndsOpposed};

use crate::{has_pair, opposed_line};
use memory::lines::{Line, Rule};
use memory::reading::reads_from;
use memory::records::{Record, record_at};
use std::alloc::{AllocError, Global};

// The record with the number `load` is a load that reads the record with the number `store`.
fn reads(records: &[Record], load: u8, store: u8) -> bool
    ensures { result ≡ reads_number records.now load store }
{
    match (record_at(records, load), record_at(records, store)) {
        (Some(load), Some(store)) => reads_from(load, store),
        _ => false,
    }
}

// The other line is what the line asks for: its first before its third, or a store that its first reads before its second.
fn gives_first(records: &[Record], line: Line, other: Line) -> bool
    ensures { result ≡ gives_first records.now line.rule line other }
{
    match line.rule {
        Rule::Clock | Rule::Model | Rule::ReadsFrom | Rule::InitialRead => false,
        Rule::Coherence | Rule::Transitive => has_pair(other, line.first, line.third),
        Rule::FromRead => other.second == line.second && reads(records, line.first, other.first),
    }
}

// The other line is the second that a transitive line asks for: its third before its second.
fn gives_second(line: Line, other: Line) -> bool
    ensures { result ≡ gives_second line.rule line other }
{
    line.rule == Rule::Transitive && has_pair(other, line.third, line.second)
}

// The number of the first line before this one that gives what it asks for.
fn first_premise(records: &[Record], lines: &[Line], index: usize) -> Option<usize>
    requires { index < length lines.now }
    ensures { FirstPremise records.now lines.now (index + 1) result }
{
    let line = lines[index];
    lines[..index]
        .iter()
        .position(|other| gives_first(records, line, *other))
        .map(|index| index + 1)
}

fn second_premise(lines: &[Line], index: usize) -> Option<usize>
    requires { index < length lines.now }
    ensures { SecondPremise lines.now (index + 1) result }
{
    let line = lines[index];
    lines[..index]
        .iter()
        .position(|other| gives_second(line, *other))
        .map(|index| index + 1)
}

// Marks the line with this number, if there is one.
fn mark(marks: &mut [bool], number: Option<usize>)
    requires { IfSome number (λ k. (0 < k) × (k ≤ length marks.old)) }
    ensures { MatchOption number (marks.new ≡ marks.old) (λ k. marks.new ≡ slice_set marks.old (k - 1) true) }
{
    if let Some(number) = number {
        marks[number - 1] = true;
    }
}

// Marks what the line at this index rests on.
fn mark_premises(records: &[Record], lines: &[Line], index: usize, marks: &mut [bool])
    requires within { index < length lines.now }
    requires each { length marks.old ≡ length lines.now }
    ensures { MarksPremises records.now lines.now (index + 1) marks.old marks.new }
{
    mark(marks, first_premise(records, lines, index));
    mark(marks, second_premise(lines, index));
}

// Marks what the marked lines rest on, what those rest on, and so on: from the last line down, since a line rests on lines before it.
fn mark_all(records: &[Record], lines: &[Line], marks: &mut [bool])
    requires { length marks.old ≡ length lines.now }
    ensures { ClosesMarks records.now lines.now 0 marks.old marks.new }
{
    for index in (0..lines.len()).rev() {
        if marks[index] {
            mark_premises(records, lines, index, marks);
        }
    }
}

// The number of the line that the last line is opposed to, if there is one.
fn opposed_to_last(lines: &[Line]) -> Option<usize>
    ensures { LastOpposed lines.now result }
{
    let (last, before) = lines.split_last()?;
    opposed_line(*last, before)
}

// A mark for each line, whether it is the last line, or the one that this is opposed to.
fn opposed_lines(heap: Global, lines: &[Line]) -> Result<Vec<bool>, AllocError>
    ensures { IfOk result (λ v. MarksOpposed lines.now v.items) }
{
    let mut marks = vec![in heap; false; lines.len()]?;
    if let Some(opposed) = opposed_to_last(lines) {
        marks[opposed - 1] = true;
        marks[lines.len() - 1] = true;
    }
    Ok(marks)
}

// A mark for each line, whether it is needed.
fn needed_lines(heap: Global, records: &[Record], lines: &[Line]) -> Result<Vec<bool>, AllocError>
    ensures { IfOk result (λ v. MarksNeeded records.now lines.now v.items) }
{
    let mut marks = opposed_lines(heap, lines)?;
    mark_all(records, lines, &mut marks);
    Ok(marks)
}

// The numbers of the marked lines, in order.
fn marked_lines(heap: Global, marks: &[bool]) -> Result<Vec<usize>, AllocError>
    ensures { IfOk result (λ v. v.items ≡ filter (marked marks.now) (numbers_to (length marks.now))) }
{
    let mut numbers = Vec::new(heap);
    for (index, is_marked) in marks.iter().enumerate() {
        if *is_marked {
            numbers.push(index + 1)?;
        }
    }
    Ok(numbers)
}

// The numbers, from 1 and in order, of the last line, the line that it is opposed to, the lines that these two rest on, the lines that those rest
// on, and so on; none where the last line is opposed to none. Where the list is founded, these lines are so by themselves, and end opposed.
pub fn cycle(heap: Global, records: &[Record], lines: &[Line]) -> Result<Vec<usize>, AllocError>
    ensures needed { IfOk result (λ v. AreNeeded records.now lines.now v.items) }
    ensures within { IfOk result (λ v. All (λ k. (0 < k) × (k ≤ length lines.now)) v.items) }
    ensures founded { IfOk result (λ v. StandAlone records.now lines.now (lines_at lines.now v.items)) }
    ensures opposed { IfOk result (λ v. EndsOpposed lines.now → EndsOpposed (lines_at lines.now v.items)) }
{
    let marks = needed_lines(heap, records, lines)?;
    marked_lines(heap, &marks)
}
