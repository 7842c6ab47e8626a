// The sentence that says what came of a run, and what else stands at the head.
ghost use Rattle.std.specs.Prelude.{Some};
ghost use Rattle.explaining.specs.Headings.{under_words, heading_words, refusal_heading, verdict_lines, refusal_lines, bytes_words, reading_lines};

use memory::limits::INPUT_LIMIT;
use memory::refusals::Fault;
use memory::verdicts::{Verdict, verdict_number};
use std::fmt;
use telling::words::{ClockName, ModelName, RefusalName, VerdictName};

// The model and the clock under which a run was read, by their marks.
#[derive(Clone, Copy)]
pub struct Under {
    pub model: u8,
    pub clock: u8,
}

impl fmt::Display for Under {
    ghost output = { λ u. Some (under_words u.model u.clock) };

    fn fmt<W: fmt::Write>(&self, f: &mut fmt::Formatter<W>) -> fmt::Result {
        let model = ModelName(self.model);
        let clock = ClockName(self.clock);
        write!(f, "under {model} with the clock {clock}")
    }
}

// What came of a run that is not refused.
#[derive(Clone, Copy)]
pub struct Heading {
    pub under: Under,
    pub verdict: Option<Verdict>,
    pub steps: u64,
}

impl fmt::Display for Heading {
    ghost output = { λ h. Some (heading_words h.under.model h.under.clock h.steps h.verdict) };

    fn fmt<W: fmt::Write>(&self, f: &mut fmt::Formatter<W>) -> fmt::Result {
        let under = self.under;
        let steps = self.steps;
        match self.verdict {
            Some(Verdict::Order) => write!(
                f,
                "A legal order: {under}, the records of this run have one."
            ),
            Some(Verdict::Opposed) => write!(
                f,
                "No legal order: {under}, two lines of this run oppose each other."
            ),
            Some(Verdict::Orphan(load)) => write!(
                f,
                "No legal order: {under}, record {load} of this run loads what nobody wrote."
            ),
            Some(Verdict::Exhausted) => write!(
                f,
                "No legal order: {under}, the search of this run has gone through everything."
            ),
            None => write!(
                f,
                "Undecided: {under}, {steps} steps of search did not decide this run."
            ),
        }
    }
}

// That a run is refused.
#[derive(Clone, Copy)]
pub struct RefusalHeading(pub Fault);

impl fmt::Display for RefusalHeading {
    ghost output = { λ h. Some (refusal_heading h.0) };

    fn fmt<W: fmt::Write>(&self, f: &mut fmt::Formatter<W>) -> fmt::Result {
        let place = self.0.place;
        write!(
            f,
            "Refused: at byte {place} these bytes are not a run that may be read."
        )
    }
}

// The verdict by its number and word, and the steps that were searched.
#[derive(Clone, Copy)]
pub struct VerdictLines {
    pub verdict: Option<Verdict>,
    pub steps: u64,
}

impl fmt::Display for VerdictLines {
    ghost output = { λ l. Some (verdict_lines l.verdict l.steps) };

    fn fmt<W: fmt::Write>(&self, f: &mut fmt::Formatter<W>) -> fmt::Result {
        let number = verdict_number(self.verdict);
        let word = VerdictName(number);
        let steps = self.steps;
        write!(f, "Verdict: {number}, {word}\n  steps: {steps}")
    }
}

// The refusal by its number and word, its layer and its place, and what it means.
#[derive(Clone, Copy)]
pub struct RefusalLines(pub Fault);

impl fmt::Display for RefusalLines {
    ghost output = { λ l. Some (refusal_lines l.0) };

    fn fmt<W: fmt::Write>(&self, f: &mut fmt::Formatter<W>) -> fmt::Result {
        let Fault {
            refusal,
            layer,
            place,
        } = self.0;
        let number = u8::from(refusal);
        let word = RefusalName(refusal);
        let layer_number = u8::from(layer);
        write!(
            f,
            "  refusal: {number}, {word}\n  layer: {layer_number}, {layer}\n  place: byte {place}\n  {refusal}"
        )
    }
}

// So many bytes came.
#[derive(Clone, Copy)]
pub struct Bytes(pub usize);

impl fmt::Display for Bytes {
    ghost output = { λ b. Some (bytes_words b.0) };

    fn fmt<W: fmt::Write>(&self, f: &mut fmt::Formatter<W>) -> fmt::Result {
        let given = self.0;
        if given <= INPUT_LIMIT {
            write!(f, "{given}")
        } else {
            write!(
                f,
                "{INPUT_LIMIT}, which are the first of more: the rest does not count"
            )
        }
    }
}

// Under what the bytes were read, and how many came.
#[derive(Clone, Copy)]
pub struct ReadingLines {
    pub under: Under,
    pub given: usize,
}

impl fmt::Display for ReadingLines {
    ghost output = { λ l. Some (reading_lines l.under.model l.under.clock l.given) };

    fn fmt<W: fmt::Write>(&self, f: &mut fmt::Formatter<W>) -> fmt::Result {
        let Under { model, clock } = self.under;
        let (model_name, clock_name) = (ModelName(model), ClockName(clock));
        let bytes = Bytes(self.given);
        write!(
            f,
            "  model: {model_name} (mark {model})\n  clock: {clock_name} (mark {clock})\n  bytes: {bytes}"
        )
    }
}
