// The arrows of a picture: what loads read, and the lines that opposed lines rest on.
use deciding::Report;
use finding::resting::cycle;
use finding::source_of;
use memory::lines::Rule;
use memory::records::Record;
use memory::verdicts::Verdict;
use std::alloc::{AllocError, Global};

// Whether an arrow says what a load reads, or is of the lines that opposed lines rest on.
#[derive(Clone, Copy, PartialEq, Eq)]
pub enum Ink {
    Reads,
    Opposed,
}

// An arrow from one record to another, by their numbers.
#[derive(Clone, Copy)]
pub struct Arrow {
    pub first: usize,
    pub second: usize,
    pub rule: Rule,
    pub ink: Ink,
}

// The lines that opposed lines rest on, without those that put two others together.
fn opposed_arrows(heap: Global, report: &Report) -> Result<Vec<Arrow>, AllocError> {
    let mut arrows = Vec::new(heap);
    for number in cycle(heap, &report.records, &report.lines)? {
        if let Some(line) = report.lines.get(number.saturating_sub(1))
            && line.rule != Rule::Transitive
        {
            arrows.push(Arrow {
                first: usize::from(line.first),
                second: usize::from(line.second),
                rule: line.rule,
                ink: Ink::Opposed,
            })?;
        }
    }
    Ok(arrows)
}

fn says(arrow: Arrow, first: usize, second: usize) -> bool {
    arrow.rule == Rule::ReadsFrom && arrow.first == first && arrow.second == second
}

// From the stores to the loads that read them, unless one of the others says so.
fn reads_arrows(
    heap: Global,
    records: &[Record],
    others: &[Arrow],
) -> Result<Vec<Arrow>, AllocError> {
    let mut arrows = Vec::new(heap);
    for (index, load) in records.iter().enumerate() {
        let second = index + 1;
        if let Some(first) = source_of(*load, records)
            && !others.iter().any(|other| says(*other, first, second))
        {
            arrows.push(Arrow {
                first,
                second,
                rule: Rule::ReadsFrom,
                ink: Ink::Reads,
            })?;
        }
    }
    Ok(arrows)
}

// All arrows of a report; those of opposed lines are drawn over the others.
pub fn arrows_of(heap: Global, report: &Report) -> Result<Vec<Arrow>, AllocError> {
    let opposed = match report.ruling {
        Ok(Some(Verdict::Opposed)) => opposed_arrows(heap, report)?,
        _ => Vec::new(heap),
    };
    let mut arrows = reads_arrows(heap, &report.records, &opposed)?;
    arrows.extend_from_slice(&opposed)?;
    Ok(arrows)
}
