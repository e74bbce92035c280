//! The answers of a statement's heads by a join of its body, and those of two heads out of the answers of the terms of both.
//! What is said of moves holds also where memory is refused.
ghost use Rattle.std.specs.Prelude.{◌≡◌, ◌+◌, ◌≤◌, ◌++◌, length, map, take, drop, nat_le, IfOk};
ghost use Rattle.lt_face.specs.Limits.{most_columns};
ghost use Rattle.lt_model.specs.Answers.{answers as answers_of, ascending as ascending_rows};
ghost use Rattle.lt_base.specs.Tables.{state_of};
ghost use Rattle.lt_sense.specs.Sense.{IsTight};
ghost use Rattle.lt_join.specs.Certify.{Certifies};
ghost use Rattle.lt_program.specs.Asked.{CanFollow};
ghost use Rattle.lt_program.specs.Planned.{ArePicked};

use crate::joining::Joiner;
use lt_answers::ascending::ascending;
use lt_base::Database;
use lt_face::items::RowList;
use lt_face::limits::MOST_COLUMNS;
use lt_face::memory::NoMemory;
use lt_face::moves::Moves;
use lt_face::row::Row;
use lt_model::normal::{Body, TermList};
use lt_query::Plan;
use lt_sense::Gathering;
use std::alloc::Global;

/// The answers of two heads, and what they were sensitive to.
#[derive(Drop)]
pub(crate) struct Pair {
    pub first: RowList,
    pub second: RowList,
    pub sense: Gathering,
}

/// Whether the cells of both lists have room in one row.
pub(crate) fn have_room(first: &TermList, second: &TermList) -> bool
    requires first { length first.now ≤ most_columns }
    requires second { length second.now ≤ most_columns }
    ensures { result ≡ nat_le (length first.now + length second.now) most_columns }
{
    first.len() + second.len() <= MOST_COLUMNS
}

/// The terms of both heads, in this order.
pub(crate) fn terms_of_both(first: &TermList, second: &TermList) -> Result<TermList, NoMemory>
    ensures { IfOk result (λ both. both ≡ first.now ++ second.now) }
{
    let mut both = first.copy()?;
    for term in second.as_slice() {
        both.push(*term)?;
    }
    Ok(both)
}

/// The row's cells before a column, and those from it on.
fn cut(alloc: Global, row: &Row, at: usize) -> (Row, Row)
    ensures before { result.0 ≡ take at row.now }
    ensures from { result.1 ≡ drop at row.now }
{
    let cells = row.cells();
    if at > cells.len() {
        return (row.copy_row(), Row::from_cells(alloc, &[]));
    }
    let (before, from) = cells.split_at(at);
    (Row::from_cells(alloc, before), Row::from_cells(alloc, from))
}

/// The rows' cells before a column, and those from it on.
fn parted(alloc: Global, rows: &RowList, at: usize) -> Result<(Vec<Row>, Vec<Row>), NoMemory>
    ensures before { IfOk result (λ parts. parts.0.items ≡ map (take at) rows.now) }
    ensures from { IfOk result (λ parts. parts.1.items ≡ map (drop at) rows.now) }
{
    let mut before = Vec::with_capacity(alloc, rows.len())?;
    let mut from = Vec::with_capacity(alloc, rows.len())?;
    for row in rows.as_slice() {
        let halves = cut(alloc, row, at);
        before.push(halves.0)?;
        from.push(halves.1)?;
    }
    Ok((before, from))
}

/// The answers of two heads, of those of the terms of both: the cells before a column are the first head's.
pub(crate) fn split_answers(
    alloc: Global,
    rows: &RowList,
    at: usize,
) -> Result<(RowList, RowList), NoMemory>
    ensures first { IfOk result (λ parts. parts.0 ≡ ascending_rows (map (take at) rows.now)) }
    ensures second { IfOk result (λ parts. parts.1 ≡ ascending_rows (map (drop at) rows.now)) }
{
    let parts = parted(alloc, rows, at)?;
    let (before, from) = parts;
    let first = ascending(before)?;
    let second = ascending(from)?;
    Ok((first, second))
}

/// The answers of two heads: by one join for the terms of both, where their cells have room in one row.
pub(crate) fn found_both<J: Joiner<L>, L>(
    by: &J,
    alloc: Global,
    tables: &Database,
    body: &Body,
    plan: &Plan,
    first: &TermList,
    second: &TermList,
    moves: &mut Moves<L>,
) -> Result<Pair, NoMemory>
    requires ready { J.is_ready by.now }
    requires can_follow { CanFollow tables.now body.now plan.now }
    requires first { ArePicked body.now first.now }
    requires second { ArePicked body.now second.now }
    ensures first { IfOk result (λ pair. pair.first ≡ answers_of first.now body.now (state_of tables.now)) }
    ensures second { IfOk result (λ pair. pair.second ≡ answers_of second.now body.now (state_of tables.now)) }
    ensures certified { IfOk result (λ pair. Certifies pair.sense body.now (state_of tables.now)) }
    ensures tight { IfOk result (λ pair. IsTight pair.sense (state_of tables.now)) }
    ensures cost { moves.new ≤ moves.old + (J.most by.now body.now (state_of tables.now) + J.most by.now body.now (state_of tables.now)) }
    ensures moves { moves.old ≤ moves.new }
{
    if have_room(first, second) {
        let terms = terms_of_both(first, second)?;
        let (rows, sense) = by.found(alloc, tables, body, plan, &terms, moves)?;
        let (first, second) = split_answers(alloc, &rows, first.len())?;
        return Ok(Pair {
            first,
            second,
            sense,
        });
    }
    let one = by.found(alloc, tables, body, plan, first, moves)?;
    let other = by.found(alloc, tables, body, plan, second, moves)?;
    let (first, sense) = one;
    let (second, _) = other;
    Ok(Pair {
        first,
        second,
        sense,
    })
}
