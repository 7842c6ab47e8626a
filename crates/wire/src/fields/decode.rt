// What the content of a field says.
ghost use Rattle.std.specs.Prelude.{◌≡◌, ℕ, cond, ◌==◌, List, length, Some, None, IfOk, IfSome};
ghost use Rattle.wire.specs.Bytes.{entry_bytes, entry_in};
ghost use Rattle.wire.specs.Fields.{content_of, run_head_in, run_head_content, paper_head_in, paper_head_content, line_in, line_content};

use crate::faults::ByteFault;
use crate::fields::{PaperHead, Part, RunHead, WrittenLine};
use memory::records::Entry;

// What so many bytes say; written again, it is these bytes. Other lengths say nothing.
pub trait Content: Sized {
    ghost size: { ℕ };

    ghost said: { List ℕ → Self };

    ghost bytes: { Self → List ℕ };

    fn read(content: &[u8]) -> Option<Self>
        ensures value { result ≡ cond (length content.now == size) (Some (said content.now)) None }
        ensures back { IfSome result (λ x. bytes x ≡ content.now) };
}

impl Content for Entry {
    ghost size = { 30 };

    ghost said = { entry_in };

    ghost bytes = { entry_bytes };

    fn read(content: &[u8]) -> Option<Entry> {
        let (front, rest) = content.split_first_chunk::<2>()?;
        let (address, rest) = rest.split_first_chunk::<4>()?;
        let (value, rest) = rest.split_first_chunk::<8>()?;
        let (enter, rest) = rest.split_first_chunk::<8>()?;
        let commit = rest.as_array::<8>()?;
        let [processor, kind] = *front;
        Some(Entry {
            processor,
            kind,
            address: u32::from_be_bytes(*address),
            value: u64::from_be_bytes(*value),
            enter: u64::from_be_bytes(*enter),
            commit: u64::from_be_bytes(*commit),
        })
    }
}

impl Content for RunHead {
    ghost size = { 3 };

    ghost said = { run_head_in };

    ghost bytes = { run_head_content };

    fn read(content: &[u8]) -> Option<RunHead> {
        let [processors, model, clock] = *content else {
            return None;
        };
        Some(RunHead {
            processors,
            model,
            clock,
        })
    }
}

impl Content for PaperHead {
    ghost size = { 4 };

    ghost said = { paper_head_in };

    ghost bytes = { paper_head_content };

    fn read(content: &[u8]) -> Option<PaperHead> {
        let [verdict, model, clock, records] = *content else {
            return None;
        };
        Some(PaperHead {
            verdict,
            model,
            clock,
            records,
        })
    }
}

impl Content for WrittenLine {
    ghost size = { 4 };

    ghost said = { line_in };

    ghost bytes = { line_content };

    fn read(content: &[u8]) -> Option<WrittenLine> {
        let [rule, first, second, third] = *content else {
            return None;
        };
        Some(WrittenLine {
            rule,
            first,
            second,
            third,
        })
    }
}

impl Part<'_> {
    // What the content says; written again, it is the same bytes.
    pub fn read<T: Content>(self) -> Result<T, ByteFault>
        ensures value { result ≡ content_of T.size T.said self.entry.place self.entry.content.now }
        ensures back { IfOk result (λ x. T.bytes x ≡ self.entry.content.now) }
    {
        T::read(self.content).ok_or(ByteFault { place: self.place })
    }
}
