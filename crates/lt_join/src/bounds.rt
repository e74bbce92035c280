//! Where ranges of the keys of a plan's first level begin and end.
ghost use Rattle.std.specs.Prelude.{◌≡◌, ◌<◌, ◌≤◌, ◌+◌, ◌-◌, ◌^◌, ◌∷◌, [], length, IfOk, IfSome, OnOk};
ghost use Rattle.std.specs.List.{AllByRecursion};
ghost use Rattle.lt_face.specs.Keys.{end_key};
ghost use Rattle.lt_query.specs.Lists.{IsRising};
ghost use Rattle.lt_join.specs.Parts.{AreBounds, bound_at};

use lt_face::indexes::Indexes;
use lt_face::key::{CELL_LIMIT, END, Key};
use lt_face::memory::NoMemory;
use lt_face::row::Row;
use lt_face::row_set::RowReads;
use lt_query::Plan;
use std::alloc::Global;

/// The rows of the first index that the first level goes through, where that level may have several keys: it has no pin.
fn first_rows<'a, I: Indexes>(plan: &Plan, tables: &'a I) -> Option<&'a I::Rows> {
    let level = plan.levels.as_slice().first()?;
    if level.pins.len() > 0 {
        return None;
    }
    let first = plan.guides.at_level(0).first()?;
    let guide = &plan.guides.as_slice()[*first];
    tables.index(guide.relation, &guide.columns)
}

/// The first cell of a row, 0 where it has none.
fn first_cell(row: &Row) -> Key {
    if row.width() == 0 { 0 } else { row.cell(0) }
}

/// The first cell of a row, where it is a key above the last bound.
fn key_above(row: &Row, last: Key) -> Option<Key>
    ensures above { IfSome result (λ key. last < key) }
    ensures low { IfSome result (λ key. key < 2 ^ 120) }
{
    let key = first_cell(row);
    if last < key && key < CELL_LIMIT {
        Some(key)
    } else {
        None
    }
}

/// Adds the first cells of the rows, but those that aren't above the last bound.
fn add_firsts(bounds: &mut Vec<Key>, rows: &[Row]) -> Result<(), NoMemory>
    requires { bounds.old.items ≡ 0 ∷ [] }
    ensures rising { OnOk result (IsRising bounds.new.items) }
    ensures low { OnOk result (AllByRecursion (λ k. k < 2 ^ 120) bounds.new.items) }
    ensures first { OnOk result ((0 < length bounds.new.items) × (bound_at bounds.new.items 0 ≡ 0)) }
    ensures few { OnOk result (length bounds.new.items ≤ length rows.now + 1) }
{
    let mut last = 0;
    for row in rows {
        match key_above(row, last) {
            Some(key) => {
                bounds.push(key)?;
                last = key;
            }
            None => {}
        }
    }
    Ok(())
}

/// Where at most so many ranges begin: at 0, and at keys of the first level.
fn lower_bounds<I: Indexes>(
    alloc: Global,
    plan: &Plan,
    tables: &I,
    parts: u32,
) -> Result<Vec<Key>, NoMemory>
    requires some { 0 < parts }
    ensures rising { IfOk result (λ bounds. IsRising bounds.items) }
    ensures low { IfOk result (λ bounds. AllByRecursion (λ k. k < 2 ^ 120) bounds.items) }
    ensures first { IfOk result (λ bounds. (0 < length bounds.items) × (bound_at bounds.items 0 ≡ 0)) }
    ensures few { IfOk result (λ bounds. length bounds.items ≤ parts) }
{
    let mut bounds = Vec::new(alloc);
    bounds.push(0)?;
    let Some(rows) = first_rows(plan, tables) else {
        return Ok(bounds);
    };
    let cuts = rows.cuts(alloc, parts)?;
    add_firsts(&mut bounds, cuts.as_slice())?;
    Ok(bounds)
}

/// The bounds of at most so many ranges: where they begin, and `END`.
pub(crate) fn bounds_of<I: Indexes>(
    alloc: Global,
    plan: &Plan,
    tables: &I,
    parts: u32,
) -> Result<Vec<Key>, NoMemory>
    requires some { 0 < parts }
    ensures bounds { IfOk result (λ bounds. AreBounds bounds.items) }
    ensures few { IfOk result (λ bounds. length bounds.items ≤ parts + 1) }
    ensures first { IfOk result (λ bounds. bound_at bounds.items 0 ≡ 0) }
    ensures last { IfOk result (λ bounds. bound_at bounds.items (length bounds.items - 1) ≡ end_key) }
{
    let mut bounds = lower_bounds(alloc, plan, tables, parts)?;
    bounds.push(END)?;
    Ok(bounds)
}
