//! A database by hand, of one relation with two columns.
ghost use Rattle.std.specs.Prelude.{◌≡◌, [], ◌∷◌, true, IfOk};
ghost use Rattle.lt_model.specs.Fits.{IsWide};
ghost use Rattle.lt_base.specs.Tables.{state_of};

use crate::agree::{holds, same};
use lt_base::{Database, Rows};
use lt_delta::{Mark, Marks};
use lt_face::{Changes, Indexes, Items, Key, NoMemory, Perm, Row, RowReads, RowSet};
use std::alloc::Global;
use std::thread::Threads;

/// The mark + on one row of the first relation.
fn mark_on(alloc: Global, a: Key, b: Key) -> Result<Marks, NoMemory>
    ensures { IfOk result (λ marks. marks ≡ record { relation = 0; row = a ∷ b ∷ []; plus = true } ∷ []) }
{
    let mut list = Items::new(alloc);
    let row = Row::from_cells(alloc, &[a, b]);
    list.push(Mark {
        relation: 0,
        row,
        plus: true,
    })?;
    let marks = Marks::from_list(list)?;
    Ok(marks)
}

/// The second column before the first.
fn swapped(alloc: Global) -> Result<Perm, NoMemory>
    ensures { IfOk result (λ perm. perm ≡ 1 ∷ 0 ∷ []) }
{
    let mut perm = Items::new(alloc);
    perm.push(1)?;
    perm.push(0)?;
    Ok(perm)
}

fn has(alloc: Global, database: &Database, relation: u32, a: Key, b: Key) -> bool {
    database.has(relation, &Row::from_cells(alloc, &[a, b]))
}

/// Where there is an index, whether it has this row, and how many it has.
fn found(
    alloc: Global,
    database: &Database,
    relation: u32,
    perm: &Perm,
    cells: (Key, Key),
) -> Option<(bool, usize)> {
    let rows = database.index(relation, perm)?;
    let there = rows.has(&Row::from_cells(alloc, &[cells.0, cells.1]));
    Some((there, rows.len()))
}

/// One relation of two columns.
fn plain(alloc: Global) -> Result<Database, NoMemory>
    ensures { IfOk result (λ db. state_of db ≡ record { width = 2; rows = [] } ∷ []) }
{
    let none = Database::empty(alloc);
    let db = none.declared(2)?;
    Ok(db)
}

/// The same with the row (3, 7).
fn laid(alloc: Global, db: &Database) -> Result<Database, NoMemory>
    requires { IsWide (state_of db.now) 0 2 }
{
    let marks = mark_on(alloc, 3, 7)?;
    let laid = db.laid(&marks)?;
    laid.share()
}

/// One relation of two columns with this index.
fn indexed<R: Threads + Sync>(rt: &R, alloc: Global, perm: &Perm) -> Result<Database, NoMemory>
    requires { perm.now ≡ 1 ∷ 0 ∷ [] }
    ensures { IfOk result (λ db. IsWide (state_of db) 0 2) }
{
    let plain = plain(alloc)?;
    let db = plain.with_index(rt, 0, perm)?;
    Ok(db)
}

/// Whether the database has the row (3, 7), also in its index, and no other.
fn has_the_row(alloc: Global, db: &Database, perm: &Perm) -> bool {
    db.count() == 1
        && has(alloc, db, 0, 3, 7)
        && !has(alloc, db, 0, 7, 3)
        && !has(alloc, db, 1, 3, 7)
        && db.rows(0).is_some()
        && db.rows(1).is_none()
        && found(alloc, db, 1, perm, (7, 3)).is_none()
        && found(alloc, db, 0, perm, (7, 3)) == Some((true, 1))
}

/// Whether a database without the row has it once it is marked, and the old one is as it was.
fn takes_the_marks<R: Threads + Sync>(rt: &R, alloc: Global) -> Result<bool, NoMemory> {
    let perm = swapped(alloc)?;
    let before = indexed(rt, alloc, &perm)?;
    let after = laid(alloc, &before)?;
    let was_there = has(alloc, &before, 0, 3, 7);
    let is_there = has_the_row(alloc, &after, &perm);
    Ok(!was_there && is_there)
}

#[test]
fn each_index_takes_the_marks(rt: HostRuntime) -> Result<(), NoMemory> {
    let is_so = takes_the_marks(&rt, rt.alloc())?;
    holds(&rt, is_so);
    Ok(())
}

/// Whether rows on which the marks of a relation of this number were laid have the row (3, 7), and how many they are then.
fn taken(
    alloc: Global,
    relation: u32,
    rows: &Rows,
    marks: &Marks,
) -> Result<(bool, usize), NoMemory>
    requires width { rows.now.width ≡ 2 }
    requires marks { marks.now ≡ record { relation = 0; row = 3 ∷ 7 ∷ []; plus = true } ∷ [] }
{
    let laid = marks.lay_on(relation, rows)?;
    let found = (laid.has(&Row::from_cells(alloc, &[3, 7])), laid.len());
    drop(laid);
    Ok(found)
}

/// The same of no rows, and how many these are afterwards.
fn taken_by_none(alloc: Global, relation: u32) -> Result<((bool, usize), usize), NoMemory> {
    let marks = mark_on(alloc, 3, 7)?;
    let rows = Rows::empty(alloc, 2)?;
    let found = taken(alloc, relation, &rows, &marks);
    let left = rows.len();
    drop(rows);
    drop(marks);
    Ok((found?, left))
}

#[test]
fn rows_take_the_marks(rt: HostRuntime) -> Result<(), NoMemory> {
    for (relation, found) in [(0, (true, 1)), (1, (false, 0))] {
        same(&rt, taken_by_none(rt.alloc(), relation)?, (found, 0));
    }
    Ok(())
}

/// Whether the row that a database takes in place is there, also in its index, and not in one that shares its relations.
fn takes_marks_in_place<R: Threads + Sync>(rt: &R, alloc: Global) -> Result<bool, NoMemory> {
    let perm = swapped(alloc)?;
    let before = indexed(rt, alloc, &perm)?;
    let mut after = before.share()?;
    let marks = mark_on(alloc, 3, 7)?;
    after.lay(&marks)?;
    let was_there = has(alloc, &before, 0, 3, 7);
    Ok(!was_there && has_the_row(alloc, &after, &perm))
}

#[test]
fn each_index_takes_the_marks_in_place(rt: HostRuntime) -> Result<(), NoMemory> {
    let is_so = takes_marks_in_place(&rt, rt.alloc())?;
    holds(&rt, is_so);
    Ok(())
}

/// Rows of the first relation: one that no mark is on, and twice the one that is marked.
fn named(alloc: Global) -> Result<Changes, NoMemory> {
    let mut named = Items::new(alloc);
    for (a, b) in [(7, 3), (3, 7), (3, 7)] {
        named.push((0, Row::from_cells(alloc, &[a, b])))?;
    }
    Ok(named)
}

/// Whether these are twice the row (3, 7).
fn are_twice(alloc: Global, changes: &[(u32, Row)]) -> bool {
    let row = Row::from_cells(alloc, &[3, 7]);
    match changes {
        [first, second] => first.1 == row && second.1 == row,
        _ => false,
    }
}

/// Whether of the named rows those that came are told, in their order, and none where nothing came.
fn tells_what_came<R: Threads + Sync>(rt: &R, alloc: Global) -> Result<bool, NoMemory> {
    let perm = swapped(alloc)?;
    let before = indexed(rt, alloc, &perm)?;
    let after = laid(alloc, &before)?;
    let named = named(alloc)?;
    let came = Database::changes(&before, &after, &named)?;
    let none = Database::changes(&after, &after, &named)?;
    Ok(are_twice(alloc, came.as_slice()) && none.len() == 0)
}

#[test]
fn named_rows_that_changed_are_told(rt: HostRuntime) -> Result<(), NoMemory> {
    let is_so = tells_what_came(&rt, rt.alloc())?;
    holds(&rt, is_so);
    Ok(())
}
