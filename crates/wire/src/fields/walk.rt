// Reading, field by field.
ghost use Rattle.std.specs.Prelude.{◌≡◌, ◌<◌, length, MatchOption, MatchResult};
ghost use Rattle.wire.specs.Fields.{sort_of, tag_of, named, next_field, fault_at};
ghost use Rattle.wire.specs.Seen.{seen, shown, left, Passed};
ghost use Rattle.wire.specs.Framed.{Framed, Unframed};

use crate::faults::ByteFault;
use crate::fields::{Field, Part, Reader, Text};
use crate::tags::Tag;

// The field of a text that a tag and a content make.
fn field_named<'a>(text: Text, tag: u8, part: Part<'a>) -> Result<Field<'a>, ByteFault>
    ensures value { seen result ≡ named (sort_of text tag) part.entry.place part.entry.content.now }
    ensures whole { MatchResult result
        (λ f. (tag ≡ tag_of text (shown f).sort) × ((shown f).place ≡ part.entry.place) × ((shown f).content ≡ part.entry.content.now))
        (λ e. e ≡ fault_at part.entry.place) }
{
    match (text, Tag::try_from(tag)) {
        (Text::Run, Ok(Tag::RunHead)) | (Text::Paper, Ok(Tag::PaperHead)) => Ok(Field::Head(part)),
        (Text::Run, Ok(Tag::Record)) => Ok(Field::Record(part)),
        (Text::Paper, Ok(Tag::Line)) => Ok(Field::Line(part)),
        (Text::Paper, Ok(Tag::Order)) => Ok(Field::Order(part)),
        (Text::Paper, Ok(Tag::Orphan)) => Ok(Field::Orphan(part)),
        (Text::Run, Ok(Tag::RunEnd)) | (Text::Paper, Ok(Tag::PaperEnd))
            if part.content.is_empty() => Ok(Field::End { place: part.place }),
        _ => Err(ByteFault { place: part.place }),
    }
}

impl Field<'_> {
    // What is wrong where this field may not stand, or not with this length.
    pub fn misplaced(self) -> ByteFault
        ensures { result ≡ fault_at (shown self.entry).place }
    {
        match self {
            Field::Head(part)
            | Field::Record(part)
            | Field::Line(part)
            | Field::Order(part)
            | Field::Orphan(part) => ByteFault { place: part.place },
            Field::End { place } => ByteFault { place },
        }
    }
}

impl<'a> Reader<'a> {
    // The tag and the content of the whole field that stands at the reader's place, if one does.
    fn frame(&self) -> Option<(u8, Part<'a>)>
        ensures { MatchOption result
            (Unframed self.now.bytes.now self.now.at)
            (λ x. Framed self.now.bytes.now self.now.at x.0 x.1.content.now × (x.1.place ≡ self.now.at)) }
    {
        let place = self.at;
        let (front, rest) = self.bytes[place..].split_first_chunk::<3>()?;
        let [tag, high, low] = *front;
        let size = u16::from_be_bytes([high, low]);
        let content = rest.get(..usize::from(size))?;
        Some((tag, Part { place, content }))
    }

    // The field that stands at the reader's place, which moves on behind it; a fault leaves the reader as it was.
    pub fn next(&mut self) -> Result<Field<'a>, ByteFault>
        ensures answer { seen result ≡ next_field self.old.text self.old.at (left self.old) }
        ensures passed { MatchResult result (λ f. Passed self.old self.new (shown f)) (λ e. (self.new.at ≡ self.old.at) × (e ≡ fault_at self.old.at)) }
        ensures bytes { self.new.bytes ≡ self.old.bytes }
        ensures text { self.new.text ≡ self.old.text }
    {
        let (tag, part) = self.frame().ok_or(ByteFault { place: self.at })?;
        let field = field_named(self.text, tag, part)?;
        self.at = part.place + 3 + part.content.len();
        Ok(field)
    }

    // No byte is left; the fault has the place of the first that is.
    pub fn finish(&self) -> Result<(), ByteFault>
        ensures { MatchResult result (λ _. self.now.at ≡ length self.now.bytes.now) (λ e. (self.now.at < length self.now.bytes.now) × (e ≡ fault_at self.now.at)) }
    {
        if self.at < self.bytes.len() {
            return Err(ByteFault { place: self.at });
        }
        Ok(())
    }

    // A reader at the first byte.
    pub fn over(text: Text, bytes: &'a [u8]) -> Reader<'a>
        ensures bytes { result.bytes.now ≡ bytes.now }
        ensures start { result.at ≡ 0 }
        ensures text { result.text ≡ text }
    {
        Reader { bytes, at: 0, text }
    }
}
