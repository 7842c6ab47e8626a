// Words for records, verdicts, and the numbers and marks that stand in bytes.
ghost use Rattle.std.specs.Prelude.{Some};
ghost use Rattle.telling.specs.Words.{operation_words, logged_words, source_words, records_words, model_name, clock_name, verdict_name, refusal_name, refused_words, claim_words};

use memory::clocks::{Clock, GlobalClock, NoClock};
use memory::kinds::Kind;
use memory::models::{Godson, Model, Sc};
use memory::records::Record;
use memory::refusals::{Fault, Refusal};
use memory::verdicts::Verdict;
use std::fmt;

// What a record did, in words; a fence has no address and no value.
#[derive(Clone, Copy)]
pub struct Operation(pub Record);

impl fmt::Display for Operation {
    ghost output = { λ o. Some (operation_words o.0) };

    fn fmt<W: fmt::Write>(&self, f: &mut fmt::Formatter<W>) -> fmt::Result {
        let address = self.0.address;
        let value = self.0.value;
        match self.0.kind {
            Kind::Load => write!(f, "load of {value} from 0x{address:x}"),
            Kind::Store => write!(f, "store of {value} to 0x{address:x}"),
            Kind::Fence => write!(f, "fence"),
        }
    }
}

// A record with its number, as it was logged.
#[derive(Clone, Copy)]
pub struct Logged {
    pub number: usize,
    pub record: Record,
}

impl fmt::Display for Logged {
    ghost output = { λ l. Some (logged_words l.number l.record) };

    fn fmt<W: fmt::Write>(&self, f: &mut fmt::Formatter<W>) -> fmt::Result {
        let Logged { number, record } = *self;
        let processor = record.processor;
        let operation = Operation(record);
        let (enter, commit) = (record.enter, record.commit);
        write!(
            f,
            "record {number}: P{processor} {operation}, enter {enter}, commit {commit}"
        )
    }
}

// Where a load's value in a legal order is from: the store with a number or, where it reads none, the start. Other records read nothing.
#[derive(Clone, Copy)]
pub struct Source {
    pub record: Record,
    pub store: Option<usize>,
}

impl fmt::Display for Source {
    ghost output = { λ s. Some (source_words s.record.kind s.store) };

    fn fmt<W: fmt::Write>(&self, f: &mut fmt::Formatter<W>) -> fmt::Result {
        match (self.record.kind, self.store) {
            (Kind::Load, Some(store)) => write!(f, "; reads the store {store}"),
            (Kind::Load, None) => f.write_str("; finds the value at the start"),
            _ => Ok(()),
        }
    }
}

// So many records.
#[derive(Clone, Copy)]
pub struct Records(pub usize);

impl fmt::Display for Records {
    ghost output = { λ n. Some (records_words n.0) };

    fn fmt<W: fmt::Write>(&self, f: &mut fmt::Formatter<W>) -> fmt::Result {
        match self.0 {
            1 => write!(f, "1 record"),
            n => write!(f, "{n} records"),
        }
    }
}

// The model with a mark; the byte of a head may be any.
#[derive(Clone, Copy)]
pub struct ModelName(pub u8);

impl fmt::Display for ModelName {
    ghost output = { λ m. Some (model_name m.0) };

    fn fmt<W: fmt::Write>(&self, f: &mut fmt::Formatter<W>) -> fmt::Result {
        f.write_str(match self.0 {
            Sc::MARK => "SC",
            Godson::MARK => "Godson",
            _ => "unknown",
        })
    }
}

// The clock with a mark; the byte of a head may be any.
#[derive(Clone, Copy)]
pub struct ClockName(pub u8);

impl fmt::Display for ClockName {
    ghost output = { λ c. Some (clock_name c.0) };

    fn fmt<W: fmt::Write>(&self, f: &mut fmt::Formatter<W>) -> fmt::Result {
        f.write_str(match self.0 {
            GlobalClock::MARK => "Global",
            NoClock::MARK => "None",
            _ => "unknown",
        })
    }
}

// The verdict with a number, as `verdict_number` gives it; the byte of a paper may be any.
#[derive(Clone, Copy)]
pub struct VerdictName(pub u8);

impl fmt::Display for VerdictName {
    ghost output = { λ v. Some (verdict_name v.0) };

    fn fmt<W: fmt::Write>(&self, f: &mut fmt::Formatter<W>) -> fmt::Result {
        f.write_str(match self.0 {
            0 => "undecided",
            1 => "order",
            2 => "opposed lines",
            3 => "orphan",
            4 => "exhausted",
            _ => "unknown",
        })
    }
}

// A refusal in one word.
#[derive(Clone, Copy)]
pub struct RefusalName(pub Refusal);

impl fmt::Display for RefusalName {
    ghost output = { λ n. Some (refusal_name n.0) };

    fn fmt<W: fmt::Write>(&self, f: &mut fmt::Formatter<W>) -> fmt::Result {
        f.write_str(match self.0 {
            Refusal::Malformed => "Malformed",
            Refusal::Foreign => "Foreign",
            Refusal::Decided => "Decided",
            Refusal::Sealed => "Sealed",
            Refusal::Unsealed => "Unsealed",
            Refusal::Full => "Full",
            Refusal::Stranger => "Stranger",
            Refusal::Kind => "Kind",
            Refusal::Blank => "Blank",
            Refusal::Range => "Range",
            Refusal::Backward => "Backward",
            Refusal::Twin => "Twin",
            Refusal::Spent => "Spent",
            Refusal::Bare => "Bare",
            Refusal::Short => "Short",
            Refusal::Unfounded => "Unfounded",
            Refusal::Hollow => "Hollow",
        })
    }
}

// A fault in one line.
#[derive(Clone, Copy)]
pub struct Refused(pub Fault);

impl fmt::Display for Refused {
    ghost output = { λ r. Some (refused_words r.0) };

    fn fmt<W: fmt::Write>(&self, f: &mut fmt::Formatter<W>) -> fmt::Result {
        let Fault {
            refusal,
            layer,
            place,
        } = self.0;
        let number = u8::from(refusal);
        let word = RefusalName(refusal);
        let layer = u8::from(layer);
        write!(f, "refused {number} {word} layer {layer} place {place}")
    }
}

// What a verdict claims, in a sentence.
#[derive(Clone, Copy)]
pub struct Claim(pub Option<Verdict>);

impl fmt::Display for Claim {
    ghost output = { λ c. Some (claim_words c.0) };

    fn fmt<W: fmt::Write>(&self, f: &mut fmt::Formatter<W>) -> fmt::Result {
        f.write_str(match self.0 {
            None => "Nothing is claimed: the run may have a legal order or none.",
            Some(Verdict::Order) => "The run has a legal order, which the paper shows.",
            Some(Verdict::Opposed) =>
                "The run has no legal order: two records would each have to come before the other.",
            Some(Verdict::Orphan(_)) =>
                "The run has no legal order: a load read what nobody wrote.",
            Some(Verdict::Exhausted) =>
                "The run has no legal order: the search has gone through everything.",
        })
    }
}
