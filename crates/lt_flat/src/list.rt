//! Sorted vectors of rows behind an `Arc`: searched in place, and edited in place where nobody else owns them.
ghost use Rattle.std.specs.Prelude.{◌≡◌, ◌<◌, ◌≤◌, ◌++◌, ◌∷◌, [], true, length, IfOk, IfErr, IfSome, OnOk, OnErr, slice_get};
ghost use Rattle.std.specs.List.{insert, remove, AllByRecursion};
ghost use Rattle.std.specs.Ordering.{is_lt};
ghost use Rattle.std.specs.Arc.{arc_value};
ghost use Rattle.lt_face.specs.Rows.{IsAscending, first_from, has_row, row_cmp};
ghost use Rattle.lt_flat.specs.Flat.{IsFound, IsAbsent, AreBelow, AreNotBelow};

use lt_face::{Fraction, Key, NoMemory, Row};
use std::alloc::Global;
use std::sync::Arc;

/// Where the row is, or where it would go.
pub(crate) fn search(rows: &[Row], row: &Row) -> Result<usize, usize>
    requires { IsAscending rows.now }
    ensures found { IfOk result (IsFound rows.now row.now) }
    ensures absent { IfErr result (IsAbsent rows.now row.now) }
{
    rows.binary_search(row)
}

/// The place of the first row that is at least `from`.
pub(crate) fn place_from(rows: &[Row], from: &Row) -> usize
    requires { IsAscending rows.now }
    ensures { first_from rows.now from.now ≡ slice_get rows.now result }
{
    rows.partition_point(|row| row.cmp(from).is_lt())
}

/// The row so far along the rows, where there are rows.
pub(crate) fn row_along(rows: &[Row], along: Fraction) -> Option<&Row>
    ensures { IfSome result (λ row. has_row rows.now row.now ≡ true) }
{
    if rows.is_empty() {
        return None;
    }
    let row = &rows[along.place(rows.len())];
    Some(row)
}

/// Whether the row comes before the prefix and then the bound.
#[inline]
pub fn is_below(row: &Row, prefix: &[Key], bound: Key) -> bool
    requires { length prefix.now < length row.now }
    ensures { result ≡ is_lt (row_cmp row.now (prefix.now ++ bound ∷ [])) }
{
    let cells = row.cells();
    for i in 0..prefix.len() {
        let cell = cells[i];
        if cell != prefix[i] {
            return cell < prefix[i];
        }
    }
    cells[prefix.len()] < bound
}

/// The place of the first row that is at least the prefix and then the bound, where it is known to lie from `low` to `high`.
fn place_between(rows: &[Row], mut low: usize, mut high: usize, prefix: &[Key], bound: Key) -> usize
    requires rises { IsAscending rows.now }
    requires wide { AllByRecursion (λ row. length prefix.now < length row) rows.now }
    requires order { low ≤ high }
    requires within { high ≤ length rows.now }
    requires below { AreBelow rows.now (prefix.now ++ bound ∷ []) low }
    requires above { AreNotBelow rows.now (prefix.now ++ bound ∷ []) high }
    ensures found { first_from rows.now (prefix.now ++ bound ∷ []) ≡ slice_get rows.now result }
    ensures bound { result ≤ length rows.now }
{
    while low < high {
        let middle = low + (high - low) / 2;
        if is_below(&rows[middle], prefix, bound) {
            low = middle + 1;
        } else {
            high = middle;
        }
    }
    low
}

/// The place of the first row that is at least the prefix and then the bound, where it is known to lie at or before `high`.
fn place_before(rows: &[Row], high: usize, prefix: &[Key], bound: Key) -> usize
    requires rises { IsAscending rows.now }
    requires wide { AllByRecursion (λ row. length prefix.now < length row) rows.now }
    requires within { high ≤ length rows.now }
    requires above { AreNotBelow rows.now (prefix.now ++ bound ∷ []) high }
    ensures found { first_from rows.now (prefix.now ++ bound ∷ []) ≡ slice_get rows.now result }
    ensures bound { result ≤ length rows.now }
{
    if high == 0 {
        return high;
    }
    let last = high - 1;
    if is_below(&rows[last], prefix, bound) {
        return high;
    }
    place_between(rows, 0, last, prefix, bound)
}

/// The place of the first row that is at least the prefix and then the bound, sought from a place on by strides that double.
pub fn place_near(rows: &[Row], near: usize, prefix: &[Key], bound: Key) -> usize
    requires rises { IsAscending rows.now }
    requires wide { AllByRecursion (λ row. length prefix.now < length row) rows.now }
    ensures found { first_from rows.now (prefix.now ++ bound ∷ []) ≡ slice_get rows.now result }
    ensures bound { result ≤ length rows.now }
{
    let at = near.min(rows.len());
    if at == rows.len() {
        return place_before(rows, at, prefix, bound);
    }
    if !is_below(&rows[at], prefix, bound) {
        return place_before(rows, at, prefix, bound);
    }
    let mut low = at + 1;
    let mut stride = 1;
    while stride <= rows.len() - low {
        let next = low + stride;
        if !is_below(&rows[next - 1], prefix, bound) {
            return place_between(rows, low, next - 1, prefix, bound);
        }
        low = next;
        stride *= 2;
    }
    place_between(rows, low, rows.len(), prefix, bound)
}

/// Copies of more rows at the end.
pub(crate) fn append(rows: &mut Vec<Row>, more: &[Row]) -> Result<(), NoMemory>
    ensures { OnOk result (rows.new.items ≡ rows.old.items ++ more.now) }
{
    for row in more {
        rows.push(row.copy_row())?;
    }
    Ok(())
}

/// A vector of equal rows, with room for this many.
fn copied(alloc: Global, rows: &[Row], room: usize) -> Result<Vec<Row>, NoMemory>
    ensures { IfOk result (λ copy. copy.items ≡ rows.now) }
{
    let mut copy = Vec::with_capacity(alloc, room)?;
    append(&mut copy, rows)?;
    Ok(copy)
}

/// Puts a row in at a place: in a copy, where the rows have another owner.
pub(crate) fn insert_at(rows: &mut Arc<Vec<Row>>, at: usize, row: Row) -> Result<(), NoMemory>
    requires { at ≤ length (arc_value rows.old).items }
    ensures ok { OnOk result ((arc_value rows.new).items ≡ insert (arc_value rows.old).items at row) }
    ensures err { OnErr result ((arc_value rows.new).items ≡ (arc_value rows.old).items) }
{
    match Arc::get_mut(rows) {
        Some(alone) => {
            alone.insert(at, row)?;
            Ok(())
        }
        None => {
            let alloc = *rows.allocator();
            let mut copy = copied(alloc, rows, rows.len() + 1)?;
            copy.insert(at, row)?;
            *rows = Arc::new(alloc, copy)?;
            Ok(())
        }
    }
}

/// Takes the row at a place out: of a copy, where the rows have another owner.
pub(crate) fn remove_at(rows: &mut Arc<Vec<Row>>, at: usize) -> Result<(), NoMemory>
    requires { at < length (arc_value rows.old).items }
    ensures ok { OnOk result ((arc_value rows.new).items ≡ remove (arc_value rows.old).items at) }
    ensures err { OnErr result ((arc_value rows.new).items ≡ (arc_value rows.old).items) }
{
    match Arc::get_mut(rows) {
        Some(alone) => {
            alone.remove(at);
            Ok(())
        }
        None => {
            let alloc = *rows.allocator();
            let mut copy = copied(alloc, rows, rows.len())?;
            copy.remove(at);
            *rows = Arc::new(alloc, copy)?;
            Ok(())
        }
    }
}
