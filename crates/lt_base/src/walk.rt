//! The rows of a set, one after another.
ghost use Rattle.std.specs.Prelude.{◌≡◌, ◌≤◌, map, IfOk};
ghost use Rattle.lt_face.specs.State.{permuted};
ghost use Rattle.lt_delta.specs.Columns.{IsPermOf};

use lt_delta::permuted_row;
use lt_face::memory::NoMemory;
use lt_face::row::Row;
use lt_face::row_set::RowReads;
use lt_face::walk::RowWalk;
use std::alloc::Global;

/// The rows of a set in their order, each with its cells in the order of the columns.
pub(crate) fn permuted_rows<R: RowReads>(
    alloc: Global,
    rows: &R,
    columns: &[u32],
) -> Result<Vec<Row>, NoMemory>
    requires some { 1 ≤ R.width_of rows.now }
    requires perm { IsPermOf (R.width_of rows.now) columns.now }
    ensures { IfOk result (λ list. list.items ≡ map (permuted columns.now) (R.rows rows.now)) }
{
    let _width = rows.width();
    let mut list = Vec::new(alloc);
    let mut walk = RowWalk::over(alloc, rows);
    while let Some(row) = walk.next_row() {
        list.push(permuted_row(alloc, columns, row))?;
    }
    Ok(list)
}
