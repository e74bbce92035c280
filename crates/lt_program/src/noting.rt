//! Gaps around rows: regions in which no row of a relation lies, kept in a sense gap by gap.
ghost use Rattle.std.specs.Prelude.{◌≡◌, ◌<◌, ◌≤◌, length, take, slice_index, OnOk};
ghost use Rattle.std.specs.List.{AllByRecursion};
ghost use Rattle.std.specs.declared.cmp.Ordering.TheVariants.{Less};
ghost use Rattle.lt_face.specs.Limits.{most_columns};
ghost use Rattle.lt_face.specs.Rows.{IsAscending, row_cmp};
ghost use Rattle.lt_program.specs.Displacing.{AreOwn, IsBeside, Notes, Within, Above, Below, Between, Lacking};

use lt_face::items::{Perm, RowList};
use lt_face::key::{END, Key};
use lt_face::memory::NoMemory;
use lt_face::row::Row;
use lt_sense::Gathering;

/// A relation, and its columns in their own order.
#[derive(Drop)]
pub(crate) struct Place {
    pub relation: u32,
    pub columns: Perm,
}

/// The row's cells before a column.
fn first_cells(row: &Row, column: usize) -> &[Key]
    requires { column ≤ length row.now }
    ensures first { result.now ≡ take column row.now }
    ensures narrow { length result.now ≤ most_columns }
{
    row.cells().split_at(column).0
}

/// Keeps that no row begins with these cells and has one of the gap behind them.
fn note_gap(
    place: &Place,
    prefix: &[Key],
    lo: Key,
    hi: Key,
    sense: &mut Gathering,
) -> Result<(), NoMemory>
    requires own { AreOwn place.now.columns }
    requires narrow { length prefix.now ≤ most_columns }
    ensures { OnOk result (Notes (Within prefix.now lo hi) place.now.relation (length place.now.columns) sense.old sense.new) }
{
    sense.add_gap(place.relation, &place.columns, prefix, lo, hi)?;
    Ok(())
}

/// Keeps that no row lies above this one, of those with its cells before a column.
fn note_above(place: &Place, row: &Row, from: usize, sense: &mut Gathering) -> Result<(), NoMemory>
    requires own { AreOwn place.now.columns }
    requires row { IsBeside (length place.now.columns) row.now }
    requires within { from ≤ length row.now }
    ensures { OnOk result (Notes (Above row.now from) place.now.relation (length place.now.columns) sense.old sense.new) }
{
    for column in from..row.width() {
        let prefix = first_cells(row, column);
        note_gap(place, prefix, row.cell(column) + 1, END, sense)?;
    }
    Ok(())
}

/// Keeps that no row lies below this one, of those with its cells before a column.
fn note_below(place: &Place, row: &Row, from: usize, sense: &mut Gathering) -> Result<(), NoMemory>
    requires own { AreOwn place.now.columns }
    requires row { IsBeside (length place.now.columns) row.now }
    requires within { from ≤ length row.now }
    ensures { OnOk result (Notes (Below row.now from) place.now.relation (length place.now.columns) sense.old sense.new) }
{
    for column in from..row.width() {
        let prefix = first_cells(row, column);
        note_gap(place, prefix, 0, row.cell(column), sense)?;
    }
    Ok(())
}

/// The first column in which two rows have different cells.
fn first_difference(low: &Row, high: &Row) -> usize
    requires wide { length high.now ≡ length low.now }
    requires rise { row_cmp low.now high.now ≡ Less }
    ensures within { result < length low.now }
    ensures same { take result low.now ≡ take result high.now }
    ensures rise { slice_index low.now result < slice_index high.now result }
{
    let width = low.width();
    for column in 0..width {
        if low.cell(column) != high.cell(column) {
            return column;
        }
    }
    width
}

/// Keeps that no row lies between these two.
fn note_between(place: &Place, low: &Row, high: &Row, sense: &mut Gathering) -> Result<(), NoMemory>
    requires own { AreOwn place.now.columns }
    requires low { IsBeside (length place.now.columns) low.now }
    requires high { IsBeside (length place.now.columns) high.now }
    requires rise { row_cmp low.now high.now ≡ Less }
    ensures { OnOk result (Notes (Between low.now high.now) place.now.relation (length place.now.columns) sense.old sense.new) }
{
    let column = first_difference(low, high);
    note_above(place, low, column + 1, sense)?;
    let prefix = first_cells(low, column);
    note_gap(
        place,
        prefix,
        low.cell(column) + 1,
        high.cell(column),
        sense,
    )?;
    note_below(place, high, column + 1, sense)?;
    Ok(())
}

/// Keeps that no row has the row's key.
fn note_none(place: &Place, keys: usize, row: &Row, sense: &mut Gathering) -> Result<(), NoMemory>
    requires own { AreOwn place.now.columns }
    requires row { IsBeside (length place.now.columns) row.now }
    requires some { 1 ≤ keys }
    requires within { keys ≤ length row.now }
    ensures { OnOk result (Notes (λ other. take keys other ≡ take keys row.now) place.now.relation (length place.now.columns) sense.old sense.new) }
{
    let last = keys - 1;
    let prefix = first_cells(row, last);
    let cell = row.cell(last);
    note_gap(place, prefix, cell, cell + 1, sense)?;
    Ok(())
}

/// Keeps that no row with the row's key lies before the first of these, between two of them, or behind the last.
fn note_around(
    place: &Place,
    keys: usize,
    _row: &Row,
    alike: &[Row],
    sense: &mut Gathering,
) -> Result<(), NoMemory>
    requires own { AreOwn place.now.columns }
    requires some { 0 < length alike.now }
    requires ascend { IsAscending alike.now }
    requires wide { AllByRecursion (IsBeside (length place.now.columns)) alike.now }
    requires within { keys ≤ length place.now.columns }
    requires key { AllByRecursion (λ other. take keys other ≡ take keys _row.now) alike.now }
    ensures { OnOk result (Notes (Lacking keys _row.now alike.now) place.now.relation (length place.now.columns) sense.old sense.new) }
{
    note_below(place, &alike[0], keys, sense)?;
    for i in 1..alike.len() {
        note_between(place, &alike[i - 1], &alike[i], sense)?;
    }
    note_above(place, &alike[alike.len() - 1], keys, sense)?;
    Ok(())
}

/// Keeps that no row but these has the row's key.
pub(crate) fn note_others(
    place: &Place,
    keys: usize,
    row: &Row,
    alike: &RowList,
    sense: &mut Gathering,
) -> Result<(), NoMemory>
    requires own { AreOwn place.now.columns }
    requires row { IsBeside (length place.now.columns) row.now }
    requires some { 1 ≤ keys }
    requires within { keys ≤ length row.now }
    requires ascend { IsAscending alike.now }
    requires wide { AllByRecursion (IsBeside (length place.now.columns)) alike.now }
    requires key { AllByRecursion (λ other. take keys other ≡ take keys row.now) alike.now }
    ensures { OnOk result (Notes (Lacking keys row.now alike.now) place.now.relation (length place.now.columns) sense.old sense.new) }
{
    let alike = alike.as_slice();
    if alike.len() == 0 {
        note_none(place, keys, row, sense)?;
        return Ok(());
    }
    note_around(place, keys, row, alike, sense)?;
    Ok(())
}
