// How the text of a cell is written: shown as it is, in a field of CSV, or in LaTeX.
ghost use Rattle.std.specs.Prelude.{◌≡◌, ◌++◌, IfOk, OnOk, string_bytes};
ghost use Rattle.std.specs.List.{flat_map, list_any};
ghost use Rattle.tables.specs.Texts.{shown, asks_quotes, doubled, csv_field, latex_byte, latex_text};
ghost use Rattle.tables.specs.Printing.{Prints};

use std::alloc::{AllocError, Global};

// A text in which each control character is a question mark, so that a terminal shows it in one line.
pub fn shown(heap: Global, text: &str) -> Result<String, AllocError>
    ensures { IfOk result (λ s. string_bytes s ≡ shown text.now) }
{
    text.chars()
        .map(|c| if c.is_control() { '?' } else { c })
        .collect(heap)
}

// A text of which each quote stands twice, behind what was written.
fn push_doubled(out: &mut Vec<u8>, text: &[u8]) -> Result<(), AllocError>
    ensures { OnOk result (out.new.items ≡ out.old.items ++ flat_map doubled text.now) }
{
    for byte in text {
        match *byte {
            b'"' => out.extend_from_slice(b"\"\"")?,
            other => out.push(other)?,
        }
    }
    Ok(())
}

// Whether a text cannot stand in a field of CSV as it is.
fn asks_quotes(text: &[u8]) -> bool
    ensures { result ≡ list_any asks_quotes text.now }
{
    text.iter()
        .any(|b| matches!(*b, b',' | b'"' | b'\r' | b'\n'))
}

// A field of CSV, behind what was written: in quotes where the text has a comma, a quote or the end of a line.
pub(crate) fn push_csv_field(out: &mut Vec<u8>, text: &str) -> Result<(), AllocError>
    ensures { OnOk result (out.new.items ≡ out.old.items ++ csv_field text.now) }
{
    let bytes = text.as_bytes();
    if asks_quotes(bytes) {
        out.push(b'"')?;
        push_doubled(out, bytes)?;
        out.push(b'"')?;
    } else {
        out.extend_from_slice(bytes)?;
    }
    Ok(())
}

fn push_latex_byte(out: &mut Vec<u8>, byte: u8) -> Result<(), AllocError>
    ensures { OnOk result (out.new.items ≡ out.old.items ++ latex_byte byte) }
{
    match byte {
        b'\\' => out.extend_from_slice(b"\\textbackslash{}")?,
        b'~' => out.extend_from_slice(b"\\textasciitilde{}")?,
        b'^' => out.extend_from_slice(b"\\textasciicircum{}")?,
        b'{' | b'}' | b'$' | b'&' | b'#' | b'_' | b'%' => out.extend_from_slice(&[b'\\', byte])?,
        b'[' | b'*' => out.extend_from_slice(&[b'{', byte, b'}'])?,
        _ => out.push(byte)?,
    }
    Ok(())
}

// A text in LaTeX, behind what was written: it prints each character as it is.
pub(crate) fn push_latex(out: &mut Vec<u8>, text: &str) -> Result<(), AllocError>
    ensures text { OnOk result (out.new.items ≡ out.old.items ++ latex_text text.now) }
    ensures prints { OnOk result (Prints text.now (latex_text text.now)) }
{
    for byte in text.as_bytes() {
        push_latex_byte(out, *byte)?;
    }
    Ok(())
}
