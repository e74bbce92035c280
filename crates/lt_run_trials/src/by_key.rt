//! What a print is kept by, key by key of its body's first variable: the rows that it hangs on, and its own; and these mended.
use crate::agree::holds_at;
use crate::restatement::restated_by;
use lt_face::memory::NoMemory;
use lt_face::row::Row;
use lt_join::{Slices, rows_of_slices};
use lt_program::{Part, Tally};
use lt_values::cell_of_int;
use std::alloc::Global;
use std::thread::Threads;

/// The relations by their numbers: r of one column and e of two.
const ONES: u32 = 0;

const PAIRS: u32 = 1;

/// What a print is kept by: of the rows of a relation whose ints are from 0 to 7 it hangs on just those that begin with one of these
/// ints, and these are its own.
#[derive(Clone, Copy)]
struct Want<'a> {
    relation: u32,
    firsts: &'a [i64],
    rows: &'a [&'a [i64]],
}

/// The row of these ints, of which there are two at most.
pub(crate) fn row_of(alloc: Global, ints: &[i64]) -> Row {
    match ints {
        [x] => Row::from_cells(alloc, &[cell_of_int(*x)]),
        [x, y, ..] => Row::from_cells(alloc, &[cell_of_int(*x), cell_of_int(*y)]),
        [] => Row::from_cells(alloc, &[]),
    }
}

/// Whether the part hangs on the row of the relation that begins so and, where it has two cells, ends so.
fn hangs_on(alloc: Global, part: &Part, relation: u32, x: i64, y: i64) -> bool {
    if relation == ONES {
        return part.covers(ONES, &row_of(alloc, &[x]));
    }
    part.covers(PAIRS, &row_of(alloc, &[x, y]))
}

/// Whether the part hangs on all rows that begin with this int, or else on none, as is said.
fn hangs_on_all(alloc: Global, part: &Part, relation: u32, x: i64, does: bool) -> bool {
    for y in 0..8 {
        if hangs_on(alloc, part, relation, x, y) != does {
            return false;
        }
    }
    true
}

/// Whether it hangs on just the rows that begin with one of these ints.
fn hangs_on_just(alloc: Global, part: &Part, relation: u32, firsts: &[i64]) -> bool {
    for x in 0..8 {
        if !hangs_on_all(alloc, part, relation, x, firsts.contains(&x)) {
            return false;
        }
    }
    true
}

/// Whether these are the rows of the ints.
fn are_rows(alloc: Global, rows: &[Row], want: &[&[i64]]) -> bool {
    if rows.len() != want.len() {
        return false;
    }
    for (i, ints) in want.iter().enumerate() {
        if rows[i] != row_of(alloc, ints) {
            return false;
        }
    }
    true
}

/// Whether these are the rows of all slices.
fn have_rows(alloc: Global, slices: Option<&Slices>, want: &[&[i64]]) -> Result<bool, NoMemory> {
    let Some(slices) = slices else {
        return Ok(false);
    };
    let rows = rows_of_slices(alloc, slices)?;
    Ok(are_rows(alloc, rows.as_slice(), want))
}

/// Whether the first statement is kept so.
fn is_kept_by(alloc: Global, tally: &Tally, want: &Want) -> Result<bool, NoMemory> {
    let Some(shared) = tally.parts().get(0) else {
        return Ok(false);
    };
    let part: &Part = shared.part();
    let own = have_rows(alloc, part.slices(), want.rows)?;
    Ok(own && hangs_on_just(alloc, part, want.relation, want.firsts))
}

/// Whether a print on the rows that other statements left is kept so once more is inserted.
fn keeps<R: Threads + Sync>(
    rt: &R,
    alloc: Global,
    stock: &str,
    print: &str,
    inserts: &str,
    want: &Want,
) -> Result<bool, NoMemory> {
    let out = restated_by(rt, alloc, stock, print, "", inserts)?;
    let is_so = is_kept_by(alloc, &out.new, want);
    drop(out);
    is_so
}

const EDGES: &str = "insert e(1, 2); insert e(3, 4);";

/// Where the first variable may be any int, a print hangs on all rows.
const ALL: [i64; 8] = [0, 1, 2, 3, 4, 5, 6, 7];

/// A key that came, one that went, a level that ends at hits, a pin that ends the first level with its find and forbids what was passed
/// without a look, and a range.
const TABLE: [(&str, &str, &str, u32, &[i64], &[&[i64]]); 7] = [
    (
        EDGES,
        "print (x, y) where e(x, y);",
        "",
        PAIRS,
        &ALL,
        &[&[1, 2], &[3, 4]],
    ),
    (
        EDGES,
        "print (x, y) where e(x, y);",
        "insert e(5, 6);",
        PAIRS,
        &ALL,
        &[&[1, 2], &[3, 4], &[5, 6]],
    ),
    (
        EDGES,
        "print (x, y) where e(x, y);",
        "delete e(1, 2);",
        PAIRS,
        &ALL,
        &[&[3, 4]],
    ),
    (
        "insert r(1); insert r(3);",
        "print (x) where r(x), x > 1;",
        "",
        ONES,
        &ALL,
        &[&[3]],
    ),
    (
        "insert e(1, 2); insert e(3, 4); insert e(5, 6);",
        "print (y) where e(x, y), x = 3;",
        "",
        PAIRS,
        &[0, 3],
        &[&[4]],
    ),
    (
        "insert e(1, 2); insert e(3, 4); insert e(5, 6);",
        "print (y) where e(x, y), x = 3;",
        "insert e(3, 1); insert e(4, 4);",
        PAIRS,
        &[0, 3],
        &[&[1], &[4]],
    ),
    (
        "insert e(1, 2); insert e(3, 4); insert e(5, 6);",
        "print (x) where e(x, y), x <= 3;",
        "insert e(2, 2);",
        PAIRS,
        &[0, 1, 2, 3, 4],
        &[&[1], &[2], &[3]],
    ),
];

#[test]
fn each_key_has_its_rows(rt: HostRuntime) -> Result<(), NoMemory> {
    for (stock, print, inserts, relation, firsts, rows) in TABLE {
        let want = Want {
            relation,
            firsts,
            rows,
        };
        let is_so = keeps(&rt, rt.alloc(), stock, print, inserts, &want)?;
        holds_at(&rt, is_so, print);
    }
    Ok(())
}
