//! Rows that were met, as ranges: in a list of all columns each is one key under its other cells.
ghost use Rattle.std.specs.Prelude.{◌≡◌, ◌≢◌, ◌<◌, ◌≤◌, ◌+◌, true, length, IfOk, IfSome, OnOk, OnErr};
ghost use Rattle.std.specs.List.{AllByRecursion};
ghost use Rattle.lt_face.specs.Limits.{most_columns};
ghost use Rattle.lt_sense.specs.Gathered.{ranges_in, IsOrder, IsOfAllColumns, IsWholeListOf, HaveRow};
ghost use Rattle.lt_sense.specs.Held.{held_in, indexes, first_columns, MoreIndexes};
ghost use Rattle.lt_sense.specs.Spans.{HaveSameRows, IsSpans};

use crate::covering::{cell_at, cells_in};
use crate::gathering::{add_new, is_order, place_of};
use crate::spans::Spans;
use lt_face::items::Perm;
use lt_face::key::END;
use lt_face::memory::NoMemory;
use lt_face::row::Row;
use std::alloc::Global;

/// Whether a list has all columns of those rows of the relation that are as wide.
fn has_all(list: &Spans, relation: u32, width: usize) -> bool
    ensures { result ≡ true → IsOfAllColumns relation width list.now }
{
    if list.relation != relation {
        return false;
    }
    if list.columns.len() != width {
        return false;
    }
    is_order(list.columns.as_slice())
}

/// Whether a list has all columns, and the row lies at the end of the range that grows there, or in it.
fn goes_on(list: &Spans, relation: u32, row: &Row) -> bool
    ensures { result ≡ true → IsOfAllColumns relation (length row.now) list.now }
{
    if !has_all(list, relation, row.width()) {
        return false;
    }
    let columns = list.columns.as_slice();
    let depth = list.at.width();
    if columns.len() <= depth {
        return false;
    }
    for i in 0..depth {
        if cell_at(row, columns[i]) != list.at.cell(i) {
            return false;
        }
    }
    let next = cell_at(row, columns[depth]);
    list.lo <= next && next <= list.hi
}

/// The place of a list of all columns whose range goes on with the row.
fn next_place(lists: &Vec<Spans>, relation: u32, row: &Row) -> Option<usize>
    ensures { IfSome result (IsWholeListOf lists.now.items relation (length row.now)) }
{
    for at in 0..lists.len() {
        if goes_on(&lists[at], relation, row) {
            return Some(at);
        }
    }
    None
}

/// The place of a list of all columns.
fn any_place(lists: &Vec<Spans>, relation: u32, row: &Row) -> Option<usize>
    ensures { IfSome result (IsWholeListOf lists.now.items relation (length row.now)) }
{
    for at in 0..lists.len() {
        if has_all(&lists[at], relation, row.width()) {
            return Some(at);
        }
    }
    None
}

/// The columns of a row as wide, one after another.
fn columns_of(alloc: Global, width: usize) -> Result<Perm, NoMemory>
    requires { width ≤ most_columns }
    ensures width { IfOk result (λ columns. length columns ≡ width) }
    ensures order { IfOk result IsOrder }
    ensures first { IfOk result (λ columns. columns ≡ first_columns width) }
{
    let mut columns = Perm::new(alloc);
    for column in 0..width {
        columns.push(column as u32)?;
    }
    Ok(columns)
}

/// Adds the row to a list of all columns. A row with a cell that none can have is left out.
fn add_row_at(
    alloc: Global,
    lists: &mut Vec<Spans>,
    at: usize,
    relation: u32,
    row: &Row,
) -> Result<(), NoMemory>
    requires sound { AllByRecursion IsSpans lists.old.items }
    requires place { IsWholeListOf lists.old.items relation (length row.now) at }
    requires some { 0 < length row.now }
    ensures sound { AllByRecursion IsSpans lists.new.items }
    ensures added { OnOk result (HaveRow (ranges_in lists.old.items) (ranges_in lists.new.items) (record { relation = relation; row = row.now })) }
    ensures err { OnErr result (HaveSameRows (ranges_in lists.new.items) (ranges_in lists.old.items)) }
    ensures indexes { indexes lists.new.items ≡ indexes lists.old.items }
    ensures few { OnOk result (held_in lists.new.items ≤ held_in lists.old.items + 1) }
    ensures left { OnErr result (held_in lists.new.items ≤ held_in lists.old.items) }
{
    let last = row.width() - 1;
    let cells = cells_in(alloc, lists[at].columns.as_slice(), row);
    let cell = cells.cell(last);
    if cell == END {
        return Ok(());
    }
    lists[at].add(&cells.cells()[..last], cell, cell + 1)
}

/// Adds the row to a new list of the relation's columns one after another.
fn add_row_new(
    alloc: Global,
    lists: &mut Vec<Spans>,
    relation: u32,
    columns: &Perm,
    row: &Row,
) -> Result<(), NoMemory>
    requires sound { AllByRecursion IsSpans lists.old.items }
    requires some { 0 < length row.now }
    requires columns { columns.now ≡ first_columns (length row.now) }
    requires narrow { length columns.now ≤ most_columns }
    requires absent { AllByRecursion (λ i. i ≢ (relation, columns.now)) (indexes lists.old.items) }
    ensures sound { AllByRecursion IsSpans lists.new.items }
    ensures added { OnOk result (HaveRow (ranges_in lists.old.items) (ranges_in lists.new.items) (record { relation = relation; row = row.now })) }
    ensures err { OnErr result (HaveSameRows (ranges_in lists.new.items) (ranges_in lists.old.items)) }
    ensures indexes { OnOk result (MoreIndexes (indexes lists.old.items) (indexes lists.new.items) (relation, first_columns (length row.now))) }
    ensures same { OnErr result (indexes lists.new.items ≡ indexes lists.old.items) }
    ensures few { OnOk result (held_in lists.new.items ≤ held_in lists.old.items + 1) }
    ensures left { OnErr result (held_in lists.new.items ≤ held_in lists.old.items) }
{
    let last = row.width() - 1;
    let cells = cells_in(alloc, columns.as_slice(), row);
    let cell = cells.cell(last);
    if cell == END {
        return Ok(());
    }
    add_new(
        alloc,
        lists,
        relation,
        columns,
        &cells.cells()[..last],
        cell,
        cell + 1,
    )
}

/// Adds the first row of the relation, where no list has all columns.
fn add_first_row(
    alloc: Global,
    lists: &mut Vec<Spans>,
    relation: u32,
    row: &Row,
) -> Result<(), NoMemory>
    requires sound { AllByRecursion IsSpans lists.old.items }
    requires some { 0 < length row.now }
    ensures sound { AllByRecursion IsSpans lists.new.items }
    ensures added { OnOk result (HaveRow (ranges_in lists.old.items) (ranges_in lists.new.items) (record { relation = relation; row = row.now })) }
    ensures err { OnErr result (HaveSameRows (ranges_in lists.new.items) (ranges_in lists.old.items)) }
    ensures indexes { OnOk result (MoreIndexes (indexes lists.old.items) (indexes lists.new.items) (relation, first_columns (length row.now))) }
    ensures same { OnErr result (indexes lists.new.items ≡ indexes lists.old.items) }
    ensures few { OnOk result (held_in lists.new.items ≤ held_in lists.old.items + 1) }
    ensures left { OnErr result (held_in lists.new.items ≤ held_in lists.old.items) }
{
    let columns = columns_of(alloc, row.width())?;
    match place_of(lists, relation, &columns) {
        Some(at) => add_row_at(alloc, lists, at, relation, row),
        None => add_row_new(alloc, lists, relation, &columns, row),
    }
}

/// Adds a row of the relation that was met.
pub(crate) fn add_row(
    alloc: Global,
    lists: &mut Vec<Spans>,
    relation: u32,
    row: &Row,
) -> Result<(), NoMemory>
    requires { AllByRecursion IsSpans lists.old.items }
    ensures sound { AllByRecursion IsSpans lists.new.items }
    ensures added { OnOk result (HaveRow (ranges_in lists.old.items) (ranges_in lists.new.items) (record { relation = relation; row = row.now })) }
    ensures err { OnErr result (HaveSameRows (ranges_in lists.new.items) (ranges_in lists.old.items)) }
    ensures indexes { OnOk result (MoreIndexes (indexes lists.old.items) (indexes lists.new.items) (relation, first_columns (length row.now))) }
    ensures same { OnErr result (indexes lists.new.items ≡ indexes lists.old.items) }
    ensures few { OnOk result (held_in lists.new.items ≤ held_in lists.old.items + 1) }
    ensures left { OnErr result (held_in lists.new.items ≤ held_in lists.old.items) }
{
    if row.width() == 0 {
        return Ok(());
    }
    if let Some(at) = next_place(lists, relation, row) {
        return add_row_at(alloc, lists, at, relation, row);
    }
    if let Some(at) = any_place(lists, relation, row) {
        return add_row_at(alloc, lists, at, relation, row);
    }
    add_first_row(alloc, lists, relation, row)
}
