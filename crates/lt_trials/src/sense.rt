//! The first of changed rows that a sense covers, and how few ranges are left once it is sealed.
ghost use Rattle.std.specs.Prelude.{◌≤◌, length, IfOk};

use crate::agree::{holds, same};
use lt_face::{END, Items, Key, NoMemory, Perm, Row};
use lt_sense::{Changes, Gathering, Sense};
use std::alloc::Global;

/// The row of these cells.
fn row(alloc: Global, cells: &[Key]) -> Row
    requires { length cells.now ≤ 8 }
{
    Row::from_cells(alloc, cells)
}

/// The list of these columns.
fn columns(alloc: Global, columns: &[u32]) -> Result<Perm, NoMemory>
    requires { length columns.now ≤ 8 }
    ensures { IfOk result (λ perm. length perm ≤ 8) }
{
    let columns = Vec::from_slice(alloc, columns)?;
    Ok(Items::from_vec(columns))
}

/// Adds gaps of a relation, below a prefix in an order of columns.
fn add_gaps(
    alloc: Global,
    sense: &mut Gathering,
    relation: u32,
    order: &[u32],
    prefix: &[Key],
    gaps: &[(Key, Key)],
) -> Result<(), NoMemory>
    requires order { length order.now ≤ 8 }
    requires prefix { length prefix.now ≤ 8 }
{
    let order = columns(alloc, order)?;
    for (lo, hi) in gaps {
        sense.add_gap(relation, &order, prefix, *lo, *hi)?;
    }
    Ok(())
}

/// Adds hits of relation 3.
fn add_hits(alloc: Global, sense: &mut Gathering, cells: &[Key]) -> Result<(), NoMemory> {
    for cell in cells {
        sense.add_hit(3, &row(alloc, &[*cell]))?;
    }
    Ok(())
}

/// What the search for rows (x) of relation 3 above 3 met where it has 1 and 9.
fn ones_and_nines(alloc: Global) -> Result<Sense, NoMemory> {
    let mut sense = Gathering::new(alloc);
    let gaps = [(0, 1), (2, 9), (10, END), (9, 9)];
    add_gaps(alloc, &mut sense, 3, &[0], &[], &gaps)?;
    add_hits(alloc, &mut sense, &[1, 9])?;
    sense.seal()
}

/// Rows of one cell, each with its relation.
fn changes(alloc: Global, table: &[(u32, Key)]) -> Result<Changes, NoMemory> {
    let mut changes = Items::new(alloc);
    for (relation, cell) in table {
        changes.push((*relation, Row::from_cells(alloc, &[*cell])))?;
    }
    Ok(changes)
}

/// The place of the first of these changes that is covered.
fn first_covered(alloc: Global, table: &[(u32, Key)]) -> Result<Option<usize>, NoMemory> {
    let sense = ones_and_nines(alloc)?;
    let changes = changes(alloc, table)?;
    Ok(sense.first_covered(&changes))
}

#[test]
fn the_first_changed_row_that_is_covered_is_found(rt: HostRuntime) -> Result<(), NoMemory> {
    let alloc = rt.alloc();
    let in_a_gap = first_covered(alloc, &[(2, 5), (3, 5), (3, 1)])?;
    same(&rt, in_a_gap, Some(1));
    let at_a_hit = first_covered(alloc, &[(2, 9), (3, 9)])?;
    same(&rt, at_a_hit, Some(1));
    let elsewhere = first_covered(alloc, &[(2, 5), (4, 9)])?;
    holds(&rt, elsewhere.is_none());
    Ok(())
}

/// Gaps and hits in no order; some gaps overlap or adjoin, and a hit comes twice.
fn unordered(alloc: Global) -> Result<Sense, NoMemory> {
    let mut sense = Gathering::new(alloc);
    let first = [(7, 9), (2, 5), (20, END), (4, 6), (6, 7)];
    add_gaps(alloc, &mut sense, 3, &[0], &[], &first)?;
    add_gaps(alloc, &mut sense, 1, &[1, 0], &[4], &[(3, 5), (0, 3)])?;
    add_gaps(alloc, &mut sense, 1, &[0, 1], &[4], &[(9, 10)])?;
    add_gaps(alloc, &mut sense, 1, &[1, 0], &[], &[(8, 9)])?;
    sense.add_hit(1, &row(alloc, &[4, 7]))?;
    add_hits(alloc, &mut sense, &[9, 1, 9])?;
    sense.seal()
}

#[test]
fn a_sealed_sense_has_few_ranges(rt: HostRuntime) -> Result<(), NoMemory> {
    let alloc = rt.alloc();
    let sense = unordered(alloc)?;
    same(&rt, sense.weight(), 6);
    let covered: [&[Key]; 5] = [&[4, 7], &[4, 9], &[4, 4], &[5, 8], &[0, 4]];
    for cells in covered {
        holds(&rt, sense.covers(1, &row(alloc, cells)));
    }
    let others: [&[Key]; 4] = [&[4, 6], &[5, 4], &[5, 7], &[7, 4]];
    for cells in others {
        holds(&rt, !sense.covers(1, &row(alloc, cells)));
    }
    Ok(())
}
