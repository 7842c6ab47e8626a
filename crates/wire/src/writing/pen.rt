// A pen over lent bytes.
ghost use Rattle.std.specs.Prelude.{◌≡◌, ◌+◌, ℕ, List, ◌∷◌, length};
ghost use Rattle.wire.specs.Bytes.{digits, field};
ghost use Rattle.wire.specs.Tags.{tag_number};
ghost use Rattle.wire.specs.Pens.{HasRoom, Put};
ghost use Rattle.wire.specs.declared.tags.Tag.{Tag};

use crate::tags::Tag;

// Lent bytes that are written up to a place. std's `Cursor` would answer each writing with a `Result`, and a pen cannot fail.
#[derive(Drop)]
pub(crate) struct Pen<'a> {
    out: &'a mut [u8],
    at: usize,
}

// What is written as the content of a field.
pub(crate) trait Encode: Copy {
    const TAG: Tag;

    const LEN: u16;

    ghost TAG: { Tag };

    ghost LEN: { ℕ };

    ghost bytes: { Self → List ℕ };

    fn put(self, pen: &mut Pen<'_>)
        requires { HasRoom pen.old LEN }
        ensures { Put pen.old pen.new (bytes self) };

    ghost long: { (x : Self) → length (bytes x) ≡ LEN };
}

impl<'a> Pen<'a> {
    // here, since these words name the trait above
    ghost use Rattle.wire.specs.Encoded.{encoded, all_encoded};

    pub(crate) fn over(out: &'a mut [u8]) -> Pen<'a>
        ensures same { result.out.ghost_name ≡ out.entry.ghost_name }
        ensures bytes { result.out.now ≡ out.old }
        ensures start { result.at ≡ 0 }
    {
        Pen { out, at: 0 }
    }

    // How many bytes are written.
    pub(crate) fn written(&self) -> usize
        ensures { result ≡ self.now.at }
    {
        self.at
    }

    pub(crate) fn put(&mut self, bytes: &[u8])
        requires { HasRoom self.old (length bytes.now) }
        ensures { Put self.old self.new bytes.now }
    {
        let end = self.at + bytes.len();
        self.out[self.at..end].copy_from_slice(bytes);
        self.at = end;
    }

    // A tag, and a length in two bytes.
    fn put_head(&mut self, tag: Tag, len: usize)
        requires { HasRoom self.old 3 }
        ensures { Put self.old self.new (tag_number tag ∷ digits 2 len) }
    {
        let [.., high, low] = len.to_be_bytes();
        self.put(&[u8::from(tag), high, low]);
    }

    pub(crate) fn put_field(&mut self, tag: Tag, content: &[u8])
        requires { HasRoom self.old (3 + length content.now) }
        ensures { Put self.old self.new (field (tag_number tag) content.now) }
    {
        self.put_head(tag, content.len());
        self.put(content);
    }

    pub(crate) fn write<T: Encode>(&mut self, x: T)
        requires { HasRoom self.old (3 + T.LEN) }
        ensures { Put self.old self.new (encoded T.Encode x) }
    {
        self.put_head(T::TAG, usize::from(T::LEN));
        x.put(self);
    }

    // A loop, since each turn writes to what is lent.
    pub(crate) fn write_all<T: Encode>(&mut self, xs: &[T])
        requires { HasRoom self.old (length (all_encoded T.Encode xs.now)) }
        ensures { Put self.old self.new (all_encoded T.Encode xs.now) }
    {
        for x in xs {
            self.write(*x);
        }
    }
}
