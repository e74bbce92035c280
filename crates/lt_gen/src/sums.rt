//! Sums of columns.
ghost use Rattle.std.specs.Prelude.{◌≡◌, slice_index};
ghost use Rattle.lt_model.specs.Cells.{int_or_none};
ghost use Rattle.lt_report.specs.Texts.{held};
ghost use Rattle.lt_gen.specs.Summaries.{column_sum, int_or_zero};

use lt_face::key::Key;
use lt_face::row::Row;
use lt_face::row_set::RowReads;
use lt_face::walk::RowWalk;
use lt_values::int_of;
use std::alloc::Global;

/// The cell of the greatest int: 2^64.
const LAST_INT: Key = 18_446_744_073_709_551_616;

// The int of a cell; 0 where it is none.
fn int_of_cell(cell: Key) -> i64
    ensures { result ≡ int_or_zero (int_or_none cell) }
{
    if cell == 0 {
        return 0;
    }
    if cell > LAST_INT {
        return 0;
    }
    int_of(cell)
}

// The cell in a column; 0 where there is none.
fn cell_at(row: &Row, column: usize) -> Key
    ensures { result ≡ slice_index row.now column }
{
    let cells = row.cells();
    if column < cells.len() {
        cells[column]
    } else {
        0
    }
}

// The int in a column of a row; 0 where there is none.
fn int_at(row: &Row, column: usize) -> i64
    ensures { result ≡ int_or_zero (int_or_none (slice_index row.now column)) }
{
    int_of_cell(cell_at(row, column))
}

// The sum of the ints in a column of a set.
fn set_sum<R: RowReads>(alloc: Global, rows: &R, column: usize) -> i128
    ensures { result ≡ column_sum column (R.rows rows.now) }
{
    let mut walk = RowWalk::over(alloc, rows);
    let mut sum = 0;
    'rows: for _place in 0..walk.len() {
        let row = walk.next_row().unwrap();
        sum += i128::from(int_at(row, column));
    }
    sum
}

/// The sum of the ints in a column of a relation, from 0 on; 0 where there is no relation. The row from which the next one
/// is sought has this allocator; it lies inline.
pub fn column_sum<R: RowReads>(alloc: Global, rows: Option<&R>, column: usize) -> i128
    ensures { result ≡ column_sum column (held R.rows rows.entry) }
{
    match rows {
        Some(rows) => set_sum(alloc, rows, column),
        None => 0,
    }
}
