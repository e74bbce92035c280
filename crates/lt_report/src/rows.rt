//! Rows, each on its line.
ghost use Rattle.std.specs.Prelude.{◌≤◌, length};
ghost use Rattle.std.specs.List.{AllByRecursion};
ghost use Rattle.lt_face.specs.Limits.{most_columns};
ghost use Rattle.lt_face.specs.Rows.{IsRow};
ghost use Rattle.lt_model.specs.Report.{cell_texts, line as line_of, rows_text};
ghost use Rattle.lt_report.specs.Puts.{Puts};
ghost use Rattle.lt_report.specs.Texts.{joined};

use crate::line::{put_word, write_all};
use lt_edges::{Failed, Sink};
use lt_face::key::Key;
use lt_face::row::Row;
use lt_model::kind::Kind;
use lt_values::cell_text;

/// Writes the texts of cells as the words of a line, after so many others.
pub fn put_cells<K: Sink>(
    sink: &mut K,
    before: usize,
    kinds: &[Kind],
    cells: &[Key],
) -> Result<(), Failed>
    requires few { before ≤ most_columns }
    requires row { IsRow (length kinds.now) cells.now }
    ensures { Puts result (K.holds sink.old) (K.holds sink.new) (K.faults sink.old) (K.faults sink.new) (joined before (cell_texts kinds.now cells.now)) }
{
    let mut place = before;
    'cells: for (i, cell) in cells.iter().enumerate() {
        let text = cell_text(kinds[i], *cell);
        put_word(sink, place, text.as_bytes())?;
        place += 1;
    }
    Ok(())
}

/// Writes a row on its line.
pub fn put_row<K: Sink>(sink: &mut K, kinds: &[Kind], row: &Row) -> Result<(), Failed>
    requires { IsRow (length kinds.now) row.now }
    ensures { Puts result (K.holds sink.old) (K.holds sink.new) (K.faults sink.old) (K.faults sink.new) (line_of (cell_texts kinds.now row.now)) }
{
    put_cells(sink, 0, kinds, row.cells())?;
    write_all(sink, b"\n")
}

/// Writes the rows of a list, each on its line.
pub fn put_list<K: Sink>(sink: &mut K, kinds: &[Kind], rows: &[Row]) -> Result<(), Failed>
    requires { AllByRecursion (IsRow (length kinds.now)) rows.now }
    ensures { Puts result (K.holds sink.old) (K.holds sink.new) (K.faults sink.old) (K.faults sink.new) (rows_text kinds.now rows.now) }
{
    'rows: for row in rows {
        put_row(sink, kinds, row)?;
    }
    Ok(())
}
