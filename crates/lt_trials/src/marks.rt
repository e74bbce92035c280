//! Marks by hand: the later one of two on a row stays.
use crate::agree::holds;
use lt_delta::{Mark, MarkList, Marks};
use lt_face::{Items, Key, NoMemory, Row};
use std::alloc::Global;

/// A mark on the row of one cell.
fn mark(alloc: Global, relation: u32, cell: Key, plus: bool) -> Mark {
    Mark {
        relation,
        row: Row::from_cells(alloc, &[cell]),
        plus,
    }
}

/// The marks of a table of (relation, cell, plus).
fn marks(alloc: Global, table: &[(u32, Key, bool)]) -> Result<Marks, NoMemory> {
    let mut list: MarkList = Items::new(alloc);
    for (relation, cell, plus) in table {
        list.push(mark(alloc, *relation, *cell, *plus))?;
    }
    Marks::from_list(list)
}

/// Whether the marks, one list after the other, are these.
fn make(first: &Marks, second: &Marks, both: &Marks) -> Result<bool, NoMemory> {
    Ok(Marks::equal(&Marks::and_then(first, second)?, both))
}

#[test]
fn the_later_mark_of_a_row_stays(rt: HostRuntime) -> Result<(), NoMemory> {
    let gone = marks(rt.alloc(), &[(1, 1, false)])?;
    let come = marks(rt.alloc(), &[(1, 1, true)])?;
    holds(&rt, make(&gone, &come, &come)?);
    holds(&rt, make(&come, &gone, &gone)?);
    holds(&rt, !Marks::equal(&gone, &come));
    Ok(())
}
