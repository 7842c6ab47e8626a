// What a case can be decided by.
ghost use Rattle.std.specs.Prelude.{◌≡◌};
ghost use Rattle.memory.specs.Numbers.{verdict_number};

// A case that is not decided has no verdict, which has the number 0. An orphan is named by the number of its record.
#[derive(Clone, Copy, Debug, PartialEq, Eq)]
pub enum Verdict {
    Order,
    Opposed,
    Orphan(u8),
    Exhausted,
}

// What a call that goes on for a while has done: how many lines it listed, or steps it made, and the verdict.
#[derive(Clone, Copy)]
pub struct Progress {
    pub done: u64,
    pub verdict: Option<Verdict>,
}

// A function, since `From` cannot be implemented for std's `Option`.
pub fn verdict_number(verdict: Option<Verdict>) -> u8
    ensures { result ≡ verdict_number verdict }
{
    match verdict {
        None => 0,
        Some(Verdict::Order) => 1,
        Some(Verdict::Opposed) => 2,
        Some(Verdict::Orphan(_)) => 3,
        Some(Verdict::Exhausted) => 4,
    }
}
