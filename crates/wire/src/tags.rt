// The tags of fields; specs/Tags.antt has the same numbers.
ghost use Rattle.std.specs.Prelude.{◌≡◌};
ghost use Rattle.std.specs.Result.{result_ok};
ghost use Rattle.wire.specs.Tags.{tag_number, tag_at};

use memory::numbers::UnknownNumber;

#[derive(Clone, Copy, Debug, PartialEq, Eq)]
pub enum Tag {
    RunHead = 0x01,
    Record = 0x02,
    RunEnd = 0x03,
    PaperHead = 0x10,
    Line = 0x11,
    Order = 0x12,
    Orphan = 0x13,
    Slip = 0x1d,
    Notice = 0x1e,
    PaperEnd = 0x1f,
}

impl From<Tag> for u8 {
    ghost from_gives = { λ tag r. r ≡ tag_number tag };

    fn from(tag: Tag) -> u8 {
        tag as u8
    }
}

impl TryFrom<u8> for Tag {
    type Error = UnknownNumber;

    ghost try_from_gives = { λ number r. result_ok r ≡ tag_at number };

    fn try_from(number: u8) -> Result<Tag, UnknownNumber> {
        match number {
            0x01 => Ok(Tag::RunHead),
            0x02 => Ok(Tag::Record),
            0x03 => Ok(Tag::RunEnd),
            0x10 => Ok(Tag::PaperHead),
            0x11 => Ok(Tag::Line),
            0x12 => Ok(Tag::Order),
            0x13 => Ok(Tag::Orphan),
            0x1d => Ok(Tag::Slip),
            0x1e => Ok(Tag::Notice),
            0x1f => Ok(Tag::PaperEnd),
            _ => Err(UnknownNumber),
        }
    }
}
