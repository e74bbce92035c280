//! Rows in their order.
ghost use Rattle.std.specs.List.Sorted.{IsPermutation, IsSorted};
ghost use Rattle.lt_face.specs.Rows.{row_cmp};

use lt_face::row::Row;
use rayon::prelude::*;
use std::thread::Threads;

/// Fewer rows than these are sorted by the thread that has them.
const MANY: usize = 8192;

/// Sorts the rows: in as many threads as there are processors, where they are many.
pub(crate) fn sort_rows<R: Threads + Sync>(rt: &R, rows: &mut Vec<Row>)
    ensures permutation { IsPermutation rows.old.items rows.new.items }
    ensures sorted { IsSorted row_cmp rows.new.items }
{
    if rows.len() < MANY {
        rows.sort_unstable();
        return;
    }
    par_sort_unstable(rt, rows.as_mut_slice());
}
