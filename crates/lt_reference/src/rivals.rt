//! Rows that have one key: the same cells in the first columns.
ghost use Rattle.std.specs.Prelude.{◌≡◌, ◌++◌, take, filter, OnOk, IfOk};
ghost use Rattle.std.specs.List.{list_any};
ghost use Rattle.lt_model.specs.Effect.{contend as contend_in, has_clash as clash_in};
ghost use Rattle.lt_reference.specs.Rivals.{is_rival as is_rival_of, rivals_of};

use lt_answers::ascending::ascending;
use lt_face::items::RowList;
use lt_face::key::Key;
use lt_face::memory::NoMemory;
use lt_face::row::Row;
use std::alloc::Global;

/// The row's first cells, so many, or all where it has fewer.
fn key_of(row: &Row, keys: usize) -> &[Key]
    ensures { result.now ≡ take keys row.now }
{
    let cells = row.cells();
    if keys >= cells.len() {
        return cells;
    }
    cells.split_at(keys).0
}

/// Whether two rows have one key, and aren't the same.
fn contend(keys: usize, a: &Row, b: &Row) -> bool
    ensures { result ≡ contend_in keys a.now b.now }
{
    if key_of(a, keys) != key_of(b, keys) {
        return false;
    }
    *a != *b
}

/// Whether one of the rows has this one's key, and isn't the same.
fn has_rival(keys: usize, row: &Row, rows: &[Row]) -> bool
    ensures { result ≡ list_any (contend_in keys row.now) rows.now }
{
    for other in rows {
        if contend(keys, row, other) {
            return true;
        }
    }
    false
}

/// Whether two of the rows have one key.
pub(crate) fn has_clash(keys: usize, rows: &[Row]) -> bool
    ensures { result ≡ clash_in keys rows.now }
{
    for row in rows {
        if has_rival(keys, row, rows) {
            return true;
        }
    }
    false
}

/// Whether a row is as wide as this one and has its key, and isn't the same.
fn is_rival(keys: usize, row: &Row, other: &Row) -> bool
    ensures { result ≡ is_rival_of keys row.now other.now }
{
    if other.width() != row.width() {
        return false;
    }
    contend(keys, other, row)
}

/// Adds those of the rows that are as wide as this one and have its key, and aren't the same.
fn add_rivals(keys: usize, row: &Row, there: &[Row], found: &mut Vec<Row>) -> Result<(), NoMemory>
    ensures { OnOk result (found.new.items ≡ found.old.items ++ filter (is_rival_of keys row.now) there.now) }
{
    for other in there {
        if is_rival(keys, row, other) {
            found.push(other.copy_row())?;
        }
    }
    Ok(())
}

/// Those of the rows that have the key of one of these, ascending, each once.
pub(crate) fn rivals(
    alloc: Global,
    keys: usize,
    rows: &[Row],
    there: &[Row],
) -> Result<RowList, NoMemory>
    ensures { IfOk result (λ found. found ≡ rivals_of keys rows.now there.now) }
{
    let mut found = Vec::new(alloc);
    for row in rows {
        add_rivals(keys, row, there, &mut found)?;
    }
    let found = ascending(found)?;
    Ok(found)
}
