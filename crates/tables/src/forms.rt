// A table in bytes, in one of its forms.
ghost use Rattle.std.specs.Prelude.{◌≡◌, ◌∷◌, ◌++◌, IfOk, OnOk, Some, map};
ghost use Rattle.std.specs.List.{flat_map};
ghost use Rattle.tables.specs.Rows.{cells, headings};
ghost use Rattle.tables.specs.Reading.{csv_rows};
ghost use Rattle.tables.specs.declared.forms.Form.TheVariants.{Aligned, Csv};
ghost use Rattle.tables.specs.Widths.{width_list, fitted};
ghost use Rattle.tables.specs.Forms.{cell_in, gap_of, end_of, opening_of, rule_of, closing_of, line_in, lines_in, shown_rows, aligned_in, table_in, InColumns};

use crate::rows::Row;
use crate::texts::{push_csv_field, push_latex};
use crate::widths::Widths;
use std::alloc::{AllocError, Global};

// Text whose columns stand under each other, comma-separated values, or a tabular of LaTeX.
#[derive(Clone, Copy)]
pub enum Form {
    Aligned,
    Csv,
    Latex,
}

impl Form {
    // The text of a cell, behind what was written.
    fn push_cell(self, out: &mut Vec<u8>, text: &str) -> Result<(), AllocError>
        ensures { OnOk result (out.new.items ≡ out.old.items ++ cell_in self text.now) }
    {
        match self {
            Form::Aligned => out.extend_from_slice(text.as_bytes()),
            Form::Csv => push_csv_field(out, text),
            Form::Latex => push_latex(out, text),
        }
    }

    // What stands between two cells.
    fn gap(self) -> &'static [u8]
        ensures { result.now ≡ gap_of self }
    {
        match self {
            Form::Aligned => b"  ",
            Form::Csv => b",",
            Form::Latex => b" & ",
        }
    }

    // What stands behind the last cell of a line.
    fn end(self) -> &'static [u8]
        ensures { result.now ≡ end_of self }
    {
        match self {
            Form::Aligned => b"\n",
            Form::Csv => b"\r\n",
            Form::Latex => b" \\\\\n",
        }
    }

    // What stands before the headings.
    fn opening(self) -> &'static [u8]
        ensures { result.now ≡ opening_of self }
    {
        match self {
            Form::Latex => b"\\begin{tabular}{lrrlllrr}\n",
            Form::Aligned | Form::Csv => b"",
        }
    }

    // What stands below the headings.
    fn rule(self) -> &'static [u8]
        ensures { result.now ≡ rule_of self }
    {
        match self {
            Form::Latex => b"\\hline\n",
            Form::Aligned | Form::Csv => b"",
        }
    }

    // What stands behind the last row.
    fn closing(self) -> &'static [u8]
        ensures { result.now ≡ closing_of self }
    {
        match self {
            Form::Latex => b"\\end{tabular}\n",
            Form::Aligned | Form::Csv => b"",
        }
    }

    // The cells behind the first one, each with a gap before it.
    fn push_others(self, out: &mut Vec<u8>, cells: &[&str]) -> Result<(), AllocError>
        ensures { OnOk result (out.new.items ≡ out.old.items ++ flat_map (λ d. gap_of self ++ cell_in self d) (map (λ s. s.now) cells.now)) }
    {
        for cell in cells {
            out.extend_from_slice(self.gap())?;
            self.push_cell(out, cell)?;
        }
        Ok(())
    }

    // A row in one line, behind what was written.
    fn push_line(self, out: &mut Vec<u8>, row: &Row) -> Result<(), AllocError>
        ensures { OnOk result (out.new.items ≡ out.old.items ++ line_in self (cells row.now)) }
    {
        let cells = row.cells();
        self.push_cell(out, cells[0])?;
        self.push_others(out, &cells[1..])?;
        out.extend_from_slice(self.end())?;
        Ok(())
    }

    fn push_lines(self, out: &mut Vec<u8>, rows: &[Row]) -> Result<(), AllocError>
        ensures { OnOk result (out.new.items ≡ out.old.items ++ flat_map (line_in self) (map cells rows.now)) }
    {
        for row in rows {
            self.push_line(out, row)?;
        }
        Ok(())
    }

    // The headings and the rows, line after line.
    fn lines(self, heap: Global, headings: &Row, rows: &[Row]) -> Result<Vec<u8>, AllocError>
        ensures { IfOk result (λ v. v.items ≡ lines_in self (cells headings.now) (map cells rows.now)) }
    {
        let mut out = Vec::new(heap);
        out.extend_from_slice(self.opening())?;
        self.push_line(&mut out, headings)?;
        out.extend_from_slice(self.rule())?;
        self.push_lines(&mut out, rows)?;
        out.extend_from_slice(self.closing())?;
        Ok(out)
    }
}

fn shown_rows(heap: Global, rows: &[Row]) -> Result<Vec<Row>, AllocError>
    ensures { IfOk result (λ v. map cells v.items ≡ shown_rows (map cells rows.now)) }
{
    let mut shown = Vec::new(heap);
    for row in rows {
        shown.push(row.shown(heap)?)?;
    }
    Ok(shown)
}

fn fitted_rows(heap: Global, widths: Widths, rows: &[Row]) -> Result<Vec<Row>, AllocError>
    ensures { IfOk result (λ v. map cells v.items ≡ map (fitted (width_list widths)) (map cells rows.now)) }
{
    let mut fitted = Vec::new(heap);
    for row in rows {
        fitted.push(widths.fit(heap, row)?)?;
    }
    Ok(fitted)
}

fn aligned(heap: Global, heads: &Row, rows: &[Row]) -> Result<Vec<u8>, AllocError>
    ensures { IfOk result (λ v. v.items ≡ aligned_in (cells heads.now) (map cells rows.now)) }
{
    let widths = Widths::of(heads, rows);
    let heads = widths.fit(heap, heads)?;
    let rows = fitted_rows(heap, widths, rows)?;
    Form::Aligned.lines(heap, &heads, &rows)
}

// A table of these rows, with the headings above them. What it says in CSV, a reader reads back; as text, it stands in columns.
pub fn table(heap: Global, form: Form, rows: &[Row]) -> Result<Vec<u8>, AllocError>
    ensures text { IfOk result (λ v. v.items ≡ table_in form (map cells rows.now)) }
    ensures reads { IfOk result (λ v. form ≡ Csv → csv_rows v.items ≡ Some (headings ∷ map cells rows.now)) }
    ensures columns { IfOk result (λ v. form ≡ Aligned → InColumns (headings ∷ shown_rows (map cells rows.now)) v.items) }
{
    let heads = Row::headings(heap)?;
    match form {
        Form::Aligned => aligned(heap, &heads, &shown_rows(heap, rows)?),
        Form::Csv => form.lines(heap, &heads, rows),
        Form::Latex => form.lines(heap, &heads, &shown_rows(heap, rows)?),
    }
}
