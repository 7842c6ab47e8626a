// Encoders into lent bytes. Where the bytes are too few, nothing is written.
ghost use Rattle.std.specs.Prelude.{◌≡◌, ◌+◌, ◌^◌, ◌<◌, ◌≤◌, ◌∷◌, length, refl, MatchResult};
ghost use Rattle.memory.specs.Admission.{logged};
ghost use Rattle.memory.specs.Numbers.{verdict_number, refusal_number, layer_number};
ghost use Rattle.wire.specs.Bytes.{digits, entry_bytes, line_bytes, run_bytes, slip_bytes, paper_bytes, notice_bytes};
ghost use Rattle.wire.specs.Encoded.{encoded};
ghost use Rattle.wire.specs.Pens.{HasRoom, Put};
ghost use Rattle.wire.specs.Written.{Written, paper_verdict, paper_number, paper_body};
ghost use Rattle.wire.specs.declared.tags.Tag.TheVariants as tag;

mod pen;

use crate::fields::RunHead;
use crate::tags::Tag;
use memory::limits::MOST_LINES;
use memory::lines::Line;
use memory::records::Record;
use memory::refusals::Fault;
use memory::verdicts::{Verdict, verdict_number};
use pen::{Encode, Pen};

// The most bytes that the paper of a case has: a head of 7 and an end of 3, and 7 for each line.
pub const MOST_PAPER: usize = 10 + 7 * MOST_LINES;

// The lent bytes are too few.
#[derive(Clone, Copy, Debug, PartialEq, Eq)]
pub struct TooShort;

// What a verdict rests on: an order of the records, lines that oppose each other, or a load that reads no store of the run.
#[derive(Clone, Copy)]
pub enum Paper<'a> {
    Order(&'a [u8]),
    Opposed(&'a [Line]),
    Orphan(u8),
}

// What the head of a paper says besides its verdict: the marks of a model and a clock and the number of records, byte by byte.
#[derive(Clone, Copy)]
pub struct PaperMarks {
    pub model: u8,
    pub clock: u8,
    pub records: u8,
}

// The verdict and the total of steps.
#[derive(Clone, Copy)]
struct Slip {
    verdict: Option<Verdict>,
    steps: u64,
}

impl Encode for Record {
    const TAG: Tag = Tag::Record;

    const LEN: u16 = 30;

    ghost TAG = { tag.Record };

    ghost LEN = { 30 };

    ghost bytes = { λ r. entry_bytes (logged r) };

    ghost long = { λ r. refl };

    fn put(self, pen: &mut Pen<'_>) {
        pen.put(&[self.processor, u8::from(self.kind)]);
        pen.put(&self.address.to_be_bytes());
        pen.put(&self.value.to_be_bytes());
        pen.put(&self.enter.to_be_bytes());
        pen.put(&self.commit.to_be_bytes());
    }
}

impl Encode for Line {
    const TAG: Tag = Tag::Line;

    const LEN: u16 = 4;

    ghost TAG = { tag.Line };

    ghost LEN = { 4 };

    ghost bytes = { line_bytes };

    ghost long = { λ l. refl };

    fn put(self, pen: &mut Pen<'_>) {
        pen.put(&[u8::from(self.rule), self.first, self.second, self.third]);
    }
}

impl Encode for Slip {
    const TAG: Tag = Tag::Slip;

    const LEN: u16 = 9;

    ghost TAG = { tag.Slip };

    ghost LEN = { 9 };

    ghost bytes = { λ s. verdict_number s.verdict ∷ digits 8 s.steps };

    ghost long = { λ s. refl };

    fn put(self, pen: &mut Pen<'_>) {
        pen.put(&[verdict_number(self.verdict)]);
        pen.put(&self.steps.to_be_bytes());
    }
}

// Its refusal's number, its layer and its place, of which four bytes are written.
impl Encode for Fault {
    const TAG: Tag = Tag::Notice;

    const LEN: u16 = 6;

    ghost TAG = { tag.Notice };

    ghost LEN = { 6 };

    ghost bytes = { λ f. refusal_number f.refusal ∷ layer_number f.layer ∷ digits 4 f.place };

    ghost long = { λ f. refl };

    fn put(self, pen: &mut Pen<'_>) {
        let [.., a, b, c, d] = self.place.to_be_bytes();
        pen.put(&[u8::from(self.refusal), u8::from(self.layer), a, b, c, d]);
    }
}

// Whether so many bytes are lent.
fn check_room(out: &[u8], size: usize) -> Result<(), TooShort>
    ensures { MatchResult result (λ _. size ≤ length out.now) (λ _. length out.now < size) }
{
    if out.len() < size {
        return Err(TooShort);
    }
    Ok(())
}

// One field.
fn write_field<T: Encode>(out: &mut [u8], x: T) -> Result<usize, TooShort>
    ensures { Written (encoded T.Encode x) out.old out.new result }
{
    check_room(out, 3 + usize::from(T::LEN))?;
    let mut pen = Pen::over(out);
    pen.write(x);
    Ok(pen.written())
}

// A head, the records, an end.
pub fn write_run(out: &mut [u8], head: RunHead, records: &[Record]) -> Result<usize, TooShort>
    ensures { Written (run_bytes head.processors head.model head.clock records.now) out.old out.new result }
{
    check_room(out, 9 + 33 * records.len())?;
    let mut pen = Pen::over(out);
    pen.put_field(Tag::RunHead, &[head.processors, head.model, head.clock]);
    pen.write_all(records);
    pen.put_field(Tag::RunEnd, &[]);
    Ok(pen.written())
}

// The verdict and the total of steps.
pub fn write_slip(out: &mut [u8], verdict: Option<Verdict>, steps: u64) -> Result<usize, TooShort>
    ensures { Written (slip_bytes verdict steps) out.old out.new result }
{
    write_field(out, Slip { verdict, steps })
}

// The refusal's number, its layer and its place, of which four bytes are written.
pub fn write_notice(out: &mut [u8], fault: Fault) -> Result<usize, TooShort>
    ensures { Written (notice_bytes fault) out.old out.new result }
{
    write_field(out, fault)
}

// The verdict that rests on a paper.
impl From<Paper<'_>> for Verdict {
    ghost from_gives = { λ paper r. r ≡ paper_verdict paper };

    fn from(paper: Paper<'_>) -> Verdict {
        match paper {
            Paper::Order(_) => Verdict::Order,
            Paper::Opposed(_) => Verdict::Opposed,
            Paper::Orphan(load) => Verdict::Orphan(load),
        }
    }
}

impl Paper<'_> {
    // Counted before anything is written, since nothing is written where the bytes are too few.
    #[tactic(auto, using(crate::proofs::InOrder::lines_long))]
    fn body_len(self) -> usize
        ensures length { result ≡ length (paper_body self.entry) }
        ensures small { result + 10 < 2 ^ 64 }
    {
        match self {
            Paper::Order(order) => 3 + order.len(),
            Paper::Opposed(lines) => 7 * lines.len(),
            Paper::Orphan(_) => 4,
        }
    }

    fn put_body(self, pen: &mut Pen<'_>)
        requires { HasRoom pen.old (length (paper_body self)) }
        ensures { Put pen.old pen.new (paper_body self.entry) }
    {
        match self {
            Paper::Order(order) => pen.put_field(Tag::Order, order),
            Paper::Opposed(lines) => pen.write_all(lines),
            Paper::Orphan(load) => pen.put_field(Tag::Orphan, &[load]),
        }
    }
}

// A head, a body, an end.
pub fn write_paper(out: &mut [u8], head: PaperMarks, paper: Paper<'_>) -> Result<usize, TooShort>
    ensures { Written (paper_bytes (paper_number paper.entry) head.model head.clock head.records (paper_body paper.entry)) out.old out.new result }
{
    check_room(out, 10 + paper.body_len())?;
    let number = verdict_number(Some(Verdict::from(paper)));
    let mut pen = Pen::over(out);
    pen.put_field(
        Tag::PaperHead,
        &[number, head.model, head.clock, head.records],
    );
    paper.put_body(&mut pen);
    pen.put_field(Tag::PaperEnd, &[]);
    Ok(pen.written())
}
