//! The rows that a row displaces: the other rows of its relation with its key. They are looked up in the relation's own index, by a
//! seek under the key. What is said of moves holds also where memory is refused.
ghost use Rattle.std.specs.Prelude.{◌≡◌, ◌+◌, ◌≤◌, ◌++◌, true, false, map, not, filter, length, slice_get, take, Some, OnOk, IfOk};
ghost use Rattle.std.specs.List.{AllByRecursion, sum_by};
ghost use Rattle.lt_face.specs.Rows.{IsAscending, IsRow};
ghost use Rattle.lt_face.specs.State.{State, rows_in};
ghost use Rattle.lt_model.specs.Answers.{answers as answers_of};
ghost use Rattle.lt_model.specs.Effect.{same_row, has_clash, key_terms, key_body, displaced_by, displaced as displaced_in};
ghost use Rattle.lt_model.specs.Fits.{IsWide};
ghost use Rattle.lt_model.specs.State.{IsState};
ghost use Rattle.lt_base.specs.Tables.{state_of};
ghost use Rattle.lt_sense.specs.Sense.{IsTight};
ghost use Rattle.lt_join.specs.Certify.{Certifies};
ghost use Rattle.lt_join.specs.Walked.{Grows};
ghost use Rattle.lt_program.specs.Displacing.{AreOwn, HaveOneWidth, has_key_of, with_key};

use crate::noting::{Place, note_others};
use lt_answers::ascending::ascending;
use lt_base::{Database, Rows};
use lt_face::items::{Items, RowList};
use lt_face::memory::NoMemory;
use lt_face::moves::Moves;
use lt_face::near::Near;
use lt_face::row::Row;
use lt_face::row_set::RowReads;
use lt_face::walk::row_above;
use lt_query::own_columns;
use lt_sense::Gathering;
use std::alloc::Global;

/// Whether a row has the key of another: its first cells, so many.
fn has_key(other: &Row, row: &Row, keys: usize) -> bool
    requires { keys ≤ length row.now }
    ensures { result ≡ has_key_of keys row.now other.now }
{
    let (other, row) = (other.cells(), row.cells());
    if keys > other.len() {
        return false;
    }
    other.split_at(keys).0 == row.split_at(keys).0
}

/// Whether two of the rows, which ascend, have one key. Those stand side by side.
pub(crate) fn clash(rows: &RowList, keys: usize) -> bool
    requires ascend { IsAscending rows.now }
    requires wide { HaveOneWidth rows.now }
    ensures { result ≡ has_clash keys rows.now }
{
    let all = rows.as_slice();
    for i in 1..all.len() {
        if keys <= all[i].width() && has_key(&all[i - 1], &all[i], keys) {
            return true;
        }
    }
    false
}

/// Whether two rows are the same.
fn is_same(other: &Row, row: &Row) -> bool
    ensures { result ≡ same_row other.now row.now }
{
    other.cells() == row.cells()
}

/// The row's cells before a column.
fn front(alloc: Global, row: &Row, column: usize) -> Row
    requires { column ≤ length row.now }
    ensures { result ≡ take column row.now }
{
    Row::from_cells(alloc, row.cells().split_at(column).0)
}

/// The rows with the row's key, by a seek under it. Each row that is found is a move, and the search that ends is one.
fn rows_with_key<R: RowReads, L>(
    alloc: Global,
    rows: &R,
    keys: usize,
    row: &Row,
    moves: &mut Moves<L>,
) -> Result<RowList, NoMemory>
    requires within { keys ≤ R.width_of rows.now }
    requires wide { length row.now ≡ R.width_of rows.now }
    ensures rows { IfOk result (λ alike. alike ≡ with_key keys row.now (R.rows rows.now)) }
    ensures cost { moves.new ≤ moves.old + (1 + length (with_key keys row.now (R.rows rows.now))) }
    ensures moves { moves.old ≤ moves.new }
{
    let _width = rows.width();
    let mut alike = Items::new(alloc);
    let mut near = Near::start();
    moves.tick();
    let mut next = rows.row_at_least(&front(alloc, row, keys));
    while let Some(found) = next {
        if !has_key(found, row, keys) {
            return Ok(alike);
        }
        moves.tick();
        alike.push(found.copy_row())?;
        next = row_above(rows, &mut near, found);
    }
    Ok(alike)
}

/// Keeps that the relation has these rows.
fn add_hits(relation: u32, rows: &[Row], sense: &mut Gathering) -> Result<(), NoMemory>
    ensures gaps { OnOk result (sense.new.gaps ≡ sense.old.gaps) }
    ensures hits { OnOk result (sense.new.hits ≡ sense.old.hits ++ map (λ row. record { relation = relation; row = row }) rows.now) }
{
    for row in rows {
        sense.add_hit(relation, row)?;
    }
    Ok(())
}

/// Adds those of the rows with a row's key that aren't the row itself.
fn add_others(row: &Row, alike: &[Row], displaced: &mut Vec<Row>) -> Result<(), NoMemory>
    ensures { OnOk result (displaced.new.items ≡ displaced.old.items ++ filter (λ other. not (same_row other row.now)) alike.now) }
{
    for other in alike {
        if !is_same(other, row) {
            displaced.push(other.copy_row())?;
        }
    }
    Ok(())
}

/// Keeps which rows have the row's key: these, and no others.
fn note_key(
    place: &Place,
    keys: usize,
    row: &Row,
    alike: &RowList,
    sense: &mut Gathering,
) -> Result<(), NoMemory>
    requires own { AreOwn place.now.columns }
    requires row { IsRow (length place.now.columns) row.now }
    requires some { 1 ≤ keys }
    requires within { keys ≤ length place.now.columns }
    requires alike { (state : State) × IsState state × IsWide state place.now.relation (length place.now.columns) × (alike.now ≡ with_key keys row.now (rows_in state place.now.relation)) }
    ensures grows { OnOk result (Grows sense.old sense.new) }
    ensures certified { OnOk result ((state : State) → alike.now ≡ with_key keys row.now (rows_in state place.now.relation) → Certifies sense.new (key_body place.now.relation keys row.now) state) }
    ensures tight { OnOk result ((state : State) → IsState state → IsWide state place.now.relation (length place.now.columns) → alike.now ≡ with_key keys row.now (rows_in state place.now.relation) → IsTight sense.old state → IsTight sense.new state) }
{
    note_others(place, keys, row, alike, sense)?;
    add_hits(place.relation, alike.as_slice(), sense)?;
    Ok(())
}

/// Adds the rows that a row displaces. What that is sensitive to goes into the sense.
fn add_displaced<L>(
    alloc: Global,
    _tables: &Database,
    rows: &Rows,
    place: &Place,
    keys: usize,
    row: &Row,
    displaced: &mut Vec<Row>,
    sense: &mut Gathering,
    moves: &mut Moves<L>,
) -> Result<(), NoMemory>
    requires state { IsState (state_of _tables.now) }
    requires own { AreOwn place.now.columns }
    requires wide { IsWide (state_of _tables.now) place.now.relation (length place.now.columns) }
    requires rows { slice_get (state_of _tables.now) place.now.relation ≡ Some rows.now }
    requires row { IsRow (length place.now.columns) row.now }
    requires some { 1 ≤ keys }
    requires within { keys ≤ length place.now.columns }
    ensures rows { OnOk result (displaced.new.items ≡ displaced.old.items ++ displaced_by place.now.relation keys (state_of _tables.now) row.now) }
    ensures grows { OnOk result (Grows sense.old sense.new) }
    ensures certified { OnOk result (Certifies sense.new (key_body place.now.relation keys row.now) (state_of _tables.now)) }
    ensures tight { OnOk result (IsTight sense.old (state_of _tables.now) → IsTight sense.new (state_of _tables.now)) }
    ensures cost { moves.new ≤ moves.old + (1 + length (answers_of (key_terms keys row.now) (key_body place.now.relation keys row.now) (state_of _tables.now))) }
    ensures moves { moves.old ≤ moves.new }
{
    let alike = rows_with_key(alloc, rows, keys, row, moves)?;
    add_others(row, alike.as_slice(), displaced)?;
    note_key(place, keys, row, &alike, sense)?;
    Ok(())
}

/// The rows that these displace: the other rows of the relation with their keys. What that is sensitive to goes into the sense.
pub(crate) fn displaced_by_all<L>(
    alloc: Global,
    tables: &Database,
    relation: u32,
    keys: usize,
    width: usize,
    come: &RowList,
    sense: &mut Gathering,
    moves: &mut Moves<L>,
) -> Result<RowList, NoMemory>
    requires some { 1 ≤ keys }
    requires within { keys ≤ width }
    requires wide { IsWide (state_of tables.now) relation width }
    requires rows { AllByRecursion (IsRow width) come.now }
    ensures rows { IfOk result (λ displaced. displaced ≡ displaced_in relation keys (state_of tables.now) come.now) }
    ensures grows { OnOk result (Grows sense.old sense.new) }
    ensures certified { OnOk result (AllByRecursion (λ row. Certifies sense.new (key_body relation keys row) (state_of tables.now)) come.now) }
    ensures tight { OnOk result (IsTight sense.old (state_of tables.now) → IsTight sense.new (state_of tables.now)) }
    ensures cost { moves.new ≤ moves.old + sum_by (λ row. 1 + length (answers_of (key_terms keys row) (key_body relation keys row) (state_of tables.now))) come.now }
    ensures moves { moves.old ≤ moves.new }
{
    tables.look_over();
    let columns = own_columns(alloc, width)?;
    let place = Place { relation, columns };
    let rows = tables.rows(relation).unwrap();
    let mut displaced = Vec::new(alloc);
    for row in come.as_slice() {
        add_displaced(
            alloc,
            tables,
            rows,
            &place,
            keys,
            row,
            &mut displaced,
            sense,
            moves,
        )?;
    }
    let all = ascending(displaced)?;
    Ok(all)
}
