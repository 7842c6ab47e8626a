// Text line by line.
ghost use Rattle.std.specs.Prelude.{IfOk, IfSome};
ghost use Rattle.std.specs.Io.KnownBytes.{Appends};
ghost use Rattle.explaining.specs.Rows.{each};

use std::io::Write;
use std::{fmt, io};

// Each item on a line of its own.
pub(crate) fn tell_each<T: fmt::Display, W: Write>(out: &mut W, items: &[T]) -> io::Result<()>
    ensures { IfOk result (λ _. IfSome (each T.output items.now) (Appends (W.contents out.old) (W.contents out.new))) }
{
    for item in items {
        writeln!(out, "{item}")?;
    }
    Ok(())
}
