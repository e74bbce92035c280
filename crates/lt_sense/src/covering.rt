//! The two kinds of thing that cover rows: gaps and hits.
ghost use Rattle.std.specs.Prelude.{◌≡◌, ◌≤◌, length, slice_index};
ghost use Rattle.lt_face.specs.Limits.{most_columns};
ghost use Rattle.lt_face.specs.State.{permuted};

use lt_face::items::Perm;
use lt_face::key::Key;
use lt_face::row::Row;
use std::alloc::Global;

/// A gap that a move left: in the relation, with its columns in this order, no row began with the prefix and had a next
/// cell from `lo` to below `hi`.
#[derive(Drop)]
pub struct KeptGap {
    pub relation: u32,
    pub columns: Perm,
    pub prefix: Row,
    pub lo: Key,
    pub hi: Key,
}

/// A row that was met.
#[derive(Drop)]
pub struct Hit {
    pub relation: u32,
    pub row: Row,
}

/// The cell in a column, 0 past the last.
pub(crate) fn cell_at(row: &Row, column: u32) -> Key
    ensures { result ≡ slice_index row.now column }
{
    let column = column as usize;
    if column < row.width() {
        row.cell(column)
    } else {
        0
    }
}

/// The row's cells in an order of columns.
pub(crate) fn cells_in(alloc: Global, columns: &[u32], row: &Row) -> Row
    requires { length columns.now ≤ most_columns }
    ensures { result ≡ permuted columns.now row.now }
{
    let mut cells = Row::from_cells(alloc, &[]);
    for column in columns {
        cells.push(cell_at(row, *column));
    }
    cells
}
