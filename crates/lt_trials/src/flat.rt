//! Sets of rows of each kind are edited and shared.
ghost use Rattle.std.specs.Prelude.{◌≡◌, [], ◌∷◌};

use crate::agree::{holds, same};
use lt_face::{CELL_LIMIT, Key, NoMemory, Row, RowReads, RowSet};
use lt_flat::FlatRows;
use lt_over::SharedOver;
use lt_shared::SharedRows;
use std::alloc::Global;
use std::process::Abort;

/// A row of two cells.
pub(crate) type Pair = (Key, Key);

/// One row goes in, or out.
#[derive(Clone, Copy)]
pub(crate) enum Edit {
    Insert(Pair),
    Remove(Pair),
}

use Edit::{Insert, Remove};

/// The row of two cells.
pub(crate) fn row(alloc: Global, pair: Pair) -> Row
    ensures { result ≡ pair.0 ∷ pair.1 ∷ [] }
{
    Row::from_cells(alloc, &[pair.0, pair.1])
}

/// The cells of a row.
fn pair_of(row: Option<&Row>) -> Option<Pair> {
    match row?.cells() {
        [a, b] => Some((*a, *b)),
        _ => None,
    }
}

/// The first pair of a set from this one on.
fn pair_from<S: RowReads>(alloc: Global, set: &S, from: Pair) -> Option<Pair> {
    let from = row(alloc, from);
    let pair = pair_of(set.row_at_least(&from));
    drop(from);
    pair
}

/// The pairs of a set, as a walk by `row_at_least` meets them.
fn pairs<S: RowReads>(alloc: Global, set: &S) -> Result<Vec<Pair>, NoMemory> {
    let mut found = Vec::new(alloc);
    let mut from = (0, 0);
    for _ in 0..set.len() {
        if let Some(pair) = pair_from(alloc, set, from) {
            found.push(pair)?;
            from = (pair.0, pair.1.saturating_add(1));
        }
    }
    Ok(found)
}

/// Makes an edit on a set of pairs.
pub(crate) fn made<S: RowSet>(
    rt: &impl Abort,
    alloc: Global,
    set: &mut S,
    edit: Edit,
) -> Result<bool, NoMemory> {
    match edit {
        Insert((a, b)) => {
            holds(rt, 1 <= a && a < CELL_LIMIT && 1 <= b && b < CELL_LIMIT);
            holds(rt, set.width() == 2);
            set.insert(row(alloc, (a, b)))
        }
        Remove(pair) => set.remove(&row(alloc, pair)),
    }
}

/// Makes an edit on a set, and compares its answer and the set after it. An owner of the rows from before it keeps them.
fn check<S: RowSet>(
    rt: &impl Abort,
    alloc: Global,
    set: &mut S,
    edit: Edit,
    changes: bool,
    rows: (&[Pair], &[Pair]),
) -> Result<(), NoMemory> {
    let (before, after) = rows;
    let other = set.share()?;
    same(rt, made(rt, alloc, set, edit)?, changes);
    same(rt, (set.len(), other.len()), (after.len(), before.len()));
    same(rt, pairs(alloc, set)?.as_slice(), after);
    same(rt, pairs(alloc, &other)?.as_slice(), before);
    Ok(())
}

/// Makes the edits of a table on a set.
fn takes<S: RowSet>(
    rt: &impl Abort,
    alloc: Global,
    edits: &[(Edit, bool, &[Pair])],
) -> Result<(), NoMemory> {
    let mut set = S::empty(alloc, 2)?;
    let mut before: &[Pair] = &[];
    for (edit, changes, after) in edits {
        check(rt, alloc, &mut set, *edit, *changes, (before, after))?;
        before = after;
    }
    Ok(())
}

#[test]
fn takes_edits(rt: HostRuntime) -> Result<(), NoMemory> {
    let edits: [(Edit, bool, &[Pair]); 12] = [
        (Remove((2, 7)), false, &[]),
        (Insert((2, 7)), true, &[(2, 7)]),
        (Insert((1, 7)), true, &[(1, 7), (2, 7)]),
        (Insert((2, 7)), false, &[(1, 7), (2, 7)]),
        (Insert((1, 9)), true, &[(1, 7), (1, 9), (2, 7)]),
        (Insert((3, 1)), true, &[(1, 7), (1, 9), (2, 7), (3, 1)]),
        (Remove((1, 8)), false, &[(1, 7), (1, 9), (2, 7), (3, 1)]),
        (Remove((2, 7)), true, &[(1, 7), (1, 9), (3, 1)]),
        (Remove((2, 7)), false, &[(1, 7), (1, 9), (3, 1)]),
        (Insert((2, 6)), true, &[(1, 7), (1, 9), (2, 6), (3, 1)]),
        (Remove((1, 7)), true, &[(1, 9), (2, 6), (3, 1)]),
        (Insert((1, 1)), true, &[(1, 1), (1, 9), (2, 6), (3, 1)]),
    ];
    takes::<FlatRows>(&rt, rt.alloc(), &edits)?;
    takes::<SharedOver>(&rt, rt.alloc(), &edits)?;
    takes::<SharedRows>(&rt, rt.alloc(), &edits)
}
