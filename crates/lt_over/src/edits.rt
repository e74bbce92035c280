//! Edits of the rows that are laid over a set, without a look at the set.
ghost use Rattle.std.specs.Prelude.{◌≡◌, ◌<◌, ◌≤◌, ◌+◌, ◌^◌, IsTrue, List, ℕ, length, OnOk, OnErr};
ghost use Rattle.lt_face.specs.Rows.{IsAscending, IsRow, has_row, with_row, without_row};
ghost use Rattle.lt_over.specs.Layers.{under};
ghost use Rattle.lt_over.specs.Overlaid.{overlaid};

use crate::layer::Layer;
use lt_face::{NoMemory, Row, RowReads, RowSet};
use lt_flat::FlatRows;

/// Whether the number of rows fits a `usize` with one more.
pub(crate) fn has_room(rows: usize, more: usize) -> bool
    ensures { IsTrue result → rows + more + 1 < 2 ^ 64 }
{
    rows < usize::MAX - more
}

/// Whether the set has the row with the layer laid over it.
pub(crate) fn has_over<B: RowReads>(base: &B, layer: &Layer, row: &Row) -> bool
    ensures { result ≡ has_row (under (B.rows base.now) layer.now) row.now }
{
    layer.puts(row) || base.has(row) && !layer.takes(row)
}

/// Puts a row in over a set of so many rows. Want of memory changes nothing.
pub(crate) fn put_row(rows: usize, layer: &mut Layer, row: Row) -> Result<(), NoMemory>
    requires { IsRow layer.old.width row }
    ensures ok { OnOk result (layer.new ≡ record { width = layer.old.width; gone = layer.old.gone; come = with_row layer.old.come row }) }
    ensures room { OnOk result (rows + length layer.new.come < 2 ^ 64) }
    ensures err { OnErr result (layer.new ≡ layer.old) }
{
    if !has_room(rows, layer.come().len()) {
        return Err(NoMemory);
    }
    layer.put(row)?;
    Ok(())
}

/// Takes a row out, wherever it is. After want of memory it is hidden in the base where it was put in, and so is there still.
pub(crate) fn take_row(gone: &mut FlatRows, come: &mut FlatRows, row: &Row) -> Result<(), NoMemory>
    requires { IsRow gone.old.width row.now }
    ensures ok { OnOk result ((base : List (List ℕ)) → IsAscending base → overlaid base gone.new.rows come.new.rows ≡ without_row (overlaid base gone.old.rows come.old.rows) row.now) }
    ensures err { OnErr result ((base : List (List ℕ)) → IsAscending base → overlaid base gone.new.rows come.new.rows ≡ overlaid base gone.old.rows come.old.rows) }
    ensures fewer { length come.new.rows ≤ length come.old.rows }
    ensures gone_width { gone.new.width ≡ gone.old.width }
    ensures come_width { come.new.width ≡ come.old.width }
{
    gone.insert(row.copy_row())?;
    if come.has(row) {
        come.remove(row)?;
    }
    Ok(())
}
