//! The rows of a set, one after another.
ghost use Rattle.std.specs.Prelude.{◌≡◌, true, length, slice_get, drop, IfSome};
ghost use Rattle.std.specs.Option.{option_copied};
ghost use Rattle.lt_face.specs.Rows.{behind, first_above, has_row};

use crate::near::Near;
use crate::row::Row;
use crate::row_set::RowReads;
use std::alloc::Global;
use std::marker::Model;

/// The least row of a set that is above one of its rows, or None where that is the last.
pub fn row_above<'a, R: RowReads>(rows: &'a R, near: &mut Near, row: &Row) -> Option<&'a Row>
    requires { has_row (R.rows rows.now) row.now ≡ true }
    ensures { option_copied result ≡ first_above (R.rows rows.now) row.now }
{
    let _width = rows.width();
    let cells = row.cells();
    match cells.split_last() {
        Some((last, prefix)) => rows.row_near(near, prefix, *last + 1),
        None => None,
    }
}

/// The least row above one that was found, where one was.
fn row_behind<'a, R: RowReads>(
    rows: &'a R,
    near: &mut Near,
    found: Option<&'a Row>,
) -> Option<&'a Row>
    requires { IfSome found (λ row. has_row (R.rows rows.now) row.now ≡ true) }
    ensures { option_copied result ≡ behind (R.rows rows.now) (option_copied found.entry) }
{
    match found {
        Some(row) => row_above(rows, near, row),
        None => None,
    }
}

/// A walk over the rows of a set, ascending. Clauses see it as the rows that are still to come. A step begins where the
/// last one ended, and takes no memory.
#[derive(Drop)]
pub struct RowWalk<'a, R: RowReads> {
    rows: &'a R,
    near: Near,
    next: Option<&'a Row>,
    left: usize,
}

impl<'a, R: RowReads> Model for RowWalk<'a, R> {
    ghost use Rattle.std.specs.Prelude.{◌≡◌, ◌≤◌, ◌-◌, ℕ, List, length, slice_get, drop};
    ghost use Rattle.std.specs.Option.{option_copied};

    ghost Value = { List (List ℕ) };

    ghost view = { λ w. drop (length (R.rows w.rows.now) - w.left) (R.rows w.rows.now) };

    ghost invariant = { λ w. (w.left ≤ length (R.rows w.rows.now)) × (option_copied w.next ≡ slice_get (R.rows w.rows.now) (length (R.rows w.rows.now) - w.left)) };
}

impl<'a, R: RowReads> RowWalk<'a, R> {
    /// Before the first row.
    pub fn over(alloc: Global, rows: &'a R) -> RowWalk<'a, R>
        ensures { result ≡ R.rows rows.now }
    {
        let first = rows.row_at_least(&Row::from_cells(alloc, &[]));
        RowWalk {
            rows,
            near: Near::start(),
            next: first,
            left: rows.len(),
        }
    }

    /// How many rows are still to come.
    pub fn len(&self) -> usize
        ensures { result ≡ length self.now }
    {
        self.left
    }

    /// The next row, or None after the last.
    pub fn next_row(&mut self) -> Option<&'a Row>
        ensures row { option_copied result ≡ slice_get self.old 0 }
        ensures rest { self.new ≡ drop 1 self.old }
    {
        let _width = self.rows.width();
        if self.left == 0 {
            return None;
        }
        let row = self.next;
        self.next = row_behind(self.rows, &mut self.near, row);
        self.left -= 1;
        row
    }
}
