// What is said at the end: what to do with an undecided run, where a refusal's place is, and what the checker answers.
ghost use Rattle.std.specs.Prelude.{◌≡◌, ◌*◌, ◌^◌, ◌≤◌, Some, MatchOption};
ghost use Rattle.search.specs.Steps.{F};
ghost use Rattle.explaining.specs.Ends.{IsEnough, next_steps, IsUndecided, enough_words, undecided_words, IsSpot, spot_words, answer_told, answer_words};

use memory::clocks::{Clock, GlobalClock};
use memory::limits::{MOST_STEPS, PROGRAM_STEPS};
use memory::refusals::{Fault, Layer};
use memory::verdicts::Verdict;
use std::fmt;
use telling::words::Records;

// F(n), the number of lists of different ones of n records, if it fits.
fn lists_of(records: usize) -> Option<u64>
    ensures { MatchOption result (2 ^ 64 ≤ F records) (λ lists. lists ≡ F records) }
{
    let mut lists = 1u64;
    for n in 0..records {
        lists = lists.checked_mul(n as u64 + 1)?.checked_add(1)?;
    }
    Some(lists)
}

// So many steps surely decide a run of so many records, if they may be asked for.
fn enough_steps(records: usize) -> Option<u64>
    ensures { IsEnough records result }
{
    let steps = lists_of(records)?.checked_mul(2)?;
    if steps <= MOST_STEPS {
        Some(steps)
    } else {
        None
    }
}

// So many steps to ask for next, where so many did not decide a run.
fn next_steps(steps: u64, enough: Option<u64>) -> u64
    ensures { result ≡ next_steps steps enough }
{
    let more = steps.max(100_000).saturating_mul(10).min(MOST_STEPS);
    match enough {
        Some(enough) => more.min(enough),
        None => more,
    }
}

// Which field of a run stands at a place.
#[derive(Clone, Copy)]
pub enum Spot {
    Head,
    // the record with this number
    Record(usize),
    // behind so many records
    Field(usize),
    BehindEnd,
}

// A head has 6 bytes, a record 33.
const HEAD_LEN: usize = 6;

const RECORD_LEN: usize = 33;

impl Spot {
    // Of a fault of a run, before which so many records were admitted: the content of a record, or the shape of a field.
    pub(crate) fn of(fault: Fault, records: usize) -> Spot
        ensures { IsSpot records fault result }
    {
        let Some(behind) = fault.place.checked_sub(HEAD_LEN) else {
            return Spot::Head;
        };
        if records.checked_mul(RECORD_LEN) != Some(behind) {
            Spot::BehindEnd
        } else if fault.layer == Layer::Content {
            Spot::Record(records + 1)
        } else {
            Spot::Field(records)
        }
    }
}

impl fmt::Display for Spot {
    ghost output = { λ s. Some (spot_words s) };

    fn fmt<W: fmt::Write>(&self, f: &mut fmt::Formatter<W>) -> fmt::Result {
        match *self {
            Spot::Head => f.write_str(
                "  That is the head, with which the run begins: nothing was admitted.",
            ),
            Spot::Record(record) => write!(
                f,
                "  There record {record} begins, which was not admitted."
            ),
            Spot::Field(records) => {
                let records = Records(records);
                write!(
                    f,
                    "  There another record should begin, or the end, behind {records}."
                )
            }
            Spot::BehindEnd => f.write_str("  That is the first byte behind the end."),
        }
    }
}

// That a run stays undecided after so many steps, how many to ask for next, and how many are enough.
#[derive(Clone, Copy)]
pub struct Undecided {
    pub steps: u64,
    pub next: u64,
    pub records: usize,
    pub enough: Option<u64>,
}

impl Undecided {
    // Of a run of so many records, after so many steps.
    pub(crate) fn of(steps: u64, records: usize) -> Undecided
        ensures { IsUndecided steps records result }
    {
        let enough = enough_steps(records);
        Undecided {
            steps,
            next: next_steps(steps, enough),
            records,
            enough,
        }
    }
}

#[derive(Clone, Copy)]
struct Enough {
    records: usize,
    steps: Option<u64>,
}

impl fmt::Display for Enough {
    ghost output = { λ e. Some (enough_words e.records e.steps) };

    fn fmt<W: fmt::Write>(&self, f: &mut fmt::Formatter<W>) -> fmt::Result {
        let records = self.records;
        match self.steps {
            Some(steps) => write!(
                f,
                "{steps} steps surely decide it. They are 2 x F({records}), where F(0) = 1 and F(n) = 1 + n x F(n - 1)."
            ),
            None => write!(
                f,
                "The steps that surely decide it, 2 x F({records}) where F(0) = 1 and F(n) = 1 + n x F(n - 1), are above 2^62."
            ),
        }
    }
}

impl fmt::Display for Undecided {
    ghost output = { λ u. Some (undecided_words u.steps u.next u.records u.enough) };

    fn fmt<W: fmt::Write>(&self, f: &mut fmt::Formatter<W>) -> fmt::Result {
        let (steps, next) = (self.steps, self.next);
        let enough = Enough {
            records: self.records,
            steps: self.enough,
        };
        write!(
            f,
            "\nNothing is claimed after {steps} steps: the run may have a legal order or none. To search further:\n\n  explain --steps {next} < RUN\n\n{enough}"
        )
    }
}

// What the checker answers to a run that is not refused.
#[derive(Clone, Copy)]
pub enum Answer {
    // a slip, and a paper of so many bytes
    Paper(usize),
    Slip,
    // it searches further
    Further,
    // it stops sooner
    Stops,
    // it does not serve the clock
    Unserved,
}

impl Answer {
    // To a run under the mark of a clock, of this verdict after so many steps, whose paper has this size, if there is one.
    pub(crate) fn to(
        clock: u8,
        paper: Option<usize>,
        verdict: Option<Verdict>,
        steps: u64,
    ) -> Answer
        ensures { result ≡ answer_told clock paper verdict steps }
    {
        if clock != GlobalClock::MARK {
            return Answer::Unserved;
        }
        if steps > PROGRAM_STEPS {
            return Answer::Stops;
        }
        match (paper, verdict) {
            (Some(size), _) => Answer::Paper(size),
            (None, None) if steps < PROGRAM_STEPS => Answer::Further,
            _ => Answer::Slip,
        }
    }
}

impl fmt::Display for Answer {
    ghost output = { λ a. Some (answer_words a) };

    fn fmt<W: fmt::Write>(&self, f: &mut fmt::Formatter<W>) -> fmt::Result {
        match *self {
            Answer::Paper(size) => write!(
                f,
                "\nThe checker's answer is a slip of 12 bytes and then the paper, of {size}. To recheck it:\n\n  zielwart < RUN > ANSWER\n  tail -c +13 ANSWER > PAPER\n  recheck RUN PAPER"
            ),
            Answer::Slip => f.write_str(
                "\nThe checker's answer is a slip of 12 bytes alone: this verdict has no paper.",
            ),
            Answer::Further => write!(
                f,
                "\nThe checker, zielwart, searches {PROGRAM_STEPS} steps, and so it may decide this run."
            ),
            Answer::Stops => write!(
                f,
                "\nThe checker, zielwart, stops after {PROGRAM_STEPS} steps: its answer to this run is a slip that says undecided."
            ),
            Answer::Unserved => f.write_str(
                "\nThe checker, zielwart, serves the clock Global alone, and refuses this run.",
            ),
        }
    }
}
