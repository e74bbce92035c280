//! Sets of rows are cut into parts.

use crate::agree::{holds, same};
use crate::pages::{copies, pairs_below};
use lt_face::{Key, NoMemory, Row, RowReads, RowSet};
use lt_flat::FlatRows;
use lt_over::SharedOver;
use lt_shared::SharedRows;
use std::alloc::Global;
use std::process::Abort;

/// Whether each row is below the next.
fn ascend(rows: &[Row]) -> bool {
    for i in 1..rows.len() {
        if !rows[i - 1].cmp(&rows[i]).is_lt() {
            return false;
        }
    }
    true
}

/// Whether the set has each of the rows.
fn has_all<S: RowReads>(set: &S, rows: &[Row]) -> bool {
    for row in rows {
        if !set.has(row) {
            return false;
        }
    }
    true
}

/// Cuts the set into so many parts, and answers how many cuts there are.
fn cut<S: RowReads>(
    rt: &impl Abort,
    alloc: Global,
    set: &S,
    parts: u32,
) -> Result<usize, NoMemory> {
    let cuts = set.cuts(alloc, parts)?;
    holds(rt, ascend(cuts.as_slice()));
    holds(rt, has_all(set, cuts.as_slice()));
    holds(rt, cuts.len() < parts.max(1) as usize);
    Ok(cuts.len())
}

/// Cuts the pairs below this one into 0 to 16 parts: where they are many, into half as many at least.
fn cut_often<S: RowSet>(rt: &impl Abort, alloc: Global, end: Key) -> Result<(), NoMemory> {
    let rows = pairs_below(rt, alloc, end)?;
    let width = rows.width();
    let set = S::from_sorted(width, copies(alloc, rows.as_slice())?)?;
    for parts in 0..17 {
        let cuts = cut(rt, alloc, &set, parts)?;
        holds(rt, rows.len() < 100 || parts as usize / 2 <= cuts);
    }
    Ok(())
}

#[test]
fn sets_are_cut(rt: HostRuntime) -> Result<(), NoMemory> {
    for end in [1, 2, 3, 4, 101, 10001] {
        cut_often::<FlatRows>(&rt, rt.alloc(), end)?;
        cut_often::<SharedRows>(&rt, rt.alloc(), end)?;
        cut_often::<SharedOver>(&rt, rt.alloc(), end)?;
    }
    Ok(())
}

/// Takes the rows at which a set is cut out of it.
fn take_cuts(
    rt: &impl Abort,
    alloc: Global,
    set: &mut SharedOver,
    parts: u32,
) -> Result<(), NoMemory> {
    let cuts = set.cuts(alloc, parts)?;
    for row in cuts.as_slice() {
        holds(rt, set.remove(row)?);
    }
    Ok(())
}

/// The pairs below this one.
fn over_below(rt: &impl Abort, alloc: Global, end: Key) -> Result<SharedOver, NoMemory> {
    let rows = pairs_below(rt, alloc, end)?;
    let width = rows.width();
    SharedOver::from_sorted(width, copies(alloc, rows.as_slice())?)
}

#[test]
fn a_cut_that_goes_is_no_cut(rt: HostRuntime) -> Result<(), NoMemory> {
    let alloc = rt.alloc();
    let mut set = over_below(&rt, alloc, 1001)?;
    let taken = take_cuts(&rt, alloc, &mut set, 8);
    let left = set.len();
    let cuts = cut(&rt, alloc, &set, 8);
    drop(set);
    taken?;
    same(&rt, (left, cuts?), (993, 7));
    Ok(())
}
