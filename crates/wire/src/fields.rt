// The reader and the fields that it hands on.
ghost use Rattle.std.specs.Prelude.{◌≤◌, length};

mod decode;
mod walk;

pub use decode::Content;

// What the bytes are to be; the tags differ.
#[derive(Clone, Copy)]
pub enum Text {
    Run,
    Paper,
}

// The part of the bytes that a field's content fills, with the place of the field's tag.
#[derive(Clone, Copy, Debug, PartialEq, Eq)]
pub struct Part<'a> {
    pub place: usize,
    pub content: &'a [u8],
}

#[derive(Clone, Copy, Debug, PartialEq, Eq)]
pub enum Field<'a> {
    Head(Part<'a>),
    Record(Part<'a>),
    Line(Part<'a>),
    Order(Part<'a>),
    Orphan(Part<'a>),
    End { place: usize },
}

// The content of a run's head: the number of processors, and the marks of a model and a clock, byte by byte as the format has them.
#[derive(Clone, Copy)]
pub struct RunHead {
    pub processors: u8,
    pub model: u8,
    pub clock: u8,
}

// The content of a paper's head: the number of the verdict, the marks of a model and a clock, and the number of records, byte by byte.
#[derive(Clone, Copy)]
pub struct PaperHead {
    pub verdict: u8,
    pub model: u8,
    pub clock: u8,
    pub records: u8,
}

// The content of a line, byte by byte: nothing of it is judged, and its rule is any number.
#[derive(Clone, Copy)]
pub struct WrittenLine {
    pub rule: u8,
    pub first: u8,
    pub second: u8,
    pub third: u8,
}

// A reader over lent bytes, which stands at a place and copies nothing.
#[derive(Drop)]
pub struct Reader<'a> {
    bytes: &'a [u8],
    at: usize,
    text: Text,
    ghost within: { at ≤ length bytes.now },
}
