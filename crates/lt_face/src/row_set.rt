//! Sets of rows, however they are kept.
ghost use Rattle.std.specs.Prelude.{◌≡◌, ◌<◌, ◌≤◌, ◌-◌, ℕ, List, [], ◌∷◌, ◌++◌, true, length, IfOk, IfSome, OnOk, OnErr, not, slice_get};
ghost use Rattle.std.specs.List.{AllByRecursion};
ghost use Rattle.std.specs.Option.{option_copied};
ghost use Rattle.lt_face.specs.Limits.{most_columns};
ghost use Rattle.lt_face.specs.Rows.{IsAscending, IsRow, IsRowSet, IsRun, has_row, first_from, with_row, without_row};

use crate::cutting::push_above;
use crate::fraction::Fraction;
use crate::items::{Items, RowList};
use crate::key::Key;
use crate::memory::NoMemory;
use crate::near::Near;
use crate::row::Row;
use std::alloc::Global;

/// What is read of a set of rows of one width, in ascending order. It asks for no threads: a join over it may run in any.
pub trait RowReads: Sized {
    /// The rows, ascending.
    ghost rows: { Self → List (List ℕ) };

    /// How many cells each row has.
    ghost width_of: { Self → ℕ };

    /// How many cells each row has: at most 8.
    fn width(&self) -> usize
        ensures value { result ≡ width_of self.now }
        ensures bound { result ≤ most_columns }
        ensures is_set { IsRowSet (width_of self.now) (rows self.now) };

    /// How many rows there are.
    fn len(&self) -> usize
        ensures { result ≡ length (rows self.now) };

    /// Whether the set has the row.
    fn has(&self, row: &Row) -> bool
        ensures { result ≡ has_row (rows self.now) row.now };

    /// The least row that is at least `from`, or None where there is none. `from` may have any width.
    fn row_at_least(&self, from: &Row) -> Option<&Row>
        ensures { option_copied result ≡ first_from (rows self.now) from.now };

    /// The least row that is at least the prefix and then the bound, or None where there is none. The search begins where
    /// `near` says, and tells it where it ends.
    fn row_near(&self, near: &mut Near, prefix: &[Key], bound: Key) -> Option<&Row>
        requires { length prefix.now < width_of self.now }
        ensures { option_copied result ≡ first_from (rows self.now) (prefix.now ++ bound ∷ []) }
    {
        self.rows_near(near, prefix, bound).first()
    }

    /// Rows of the set that follow one another, of which the first is what `row_near` answers: no row where that is None. How
    /// many follow it is free.
    fn rows_near(&self, near: &mut Near, prefix: &[Key], bound: Key) -> &[Row]
        requires { length prefix.now < width_of self.now }
        ensures first { slice_get result.now 0 ≡ first_from (rows self.now) (prefix.now ++ bound ∷ []) }
        ensures run { IsRun (rows self.now) result.now };

    /// A row about so far along the set, found without a walk over its rows. It is None where no row is near.
    fn row_about(&self, along: Fraction) -> Option<&Row>
        ensures { IfSome result (λ row. has_row (rows self.now) row.now ≡ true) };

    /// Rows at which the set may be cut into so many parts of about the same size: at most one fewer than the parts, strictly
    /// ascending, and rows of the set. Which ones they are is free.
    fn cuts(&self, alloc: Global, parts: u32) -> Result<RowList, NoMemory>
        ensures few { IfOk result (λ cuts. length cuts ≤ parts - 1) }
        ensures rises { IfOk result (λ cuts. IsAscending cuts) }
        ensures each { IfOk result (λ cuts. AllByRecursion (λ row. has_row (rows self.now) row ≡ true) cuts) }
    {
        let mut cuts = Items::new(alloc);
        for part in 1..parts {
            push_above(&mut cuts, self.row_about(Fraction::new(part, parts)))?;
        }
        Ok(cuts)
    }
}

/// A set of rows of one width, in ascending order.
pub trait RowSet: RowReads + Drop + Send + Sync {
    /// The empty set for rows of this width.
    fn empty(alloc: Global, width: usize) -> Result<Self, NoMemory>
        requires { width ≤ most_columns }
        ensures rows { IfOk result (λ set. Self.rows set ≡ []) }
        ensures width { IfOk result (λ set. Self.width_of set ≡ width) };

    /// The set of these rows, which ascend strictly and have this width; it is the set's, also where there is no row. A set
    /// of n rows is made by one sort and this call, without n inserts.
    fn from_sorted(width: usize, rows: RowList) -> Result<Self, NoMemory>
        requires narrow { width ≤ most_columns }
        requires sorted { IsRowSet width rows }
        ensures rows { IfOk result (λ set. Self.rows set ≡ rows) }
        ensures width { IfOk result (λ set. Self.width_of set ≡ width) };

    /// Adds a row, and answers whether it was new. Want of memory leaves the set as it was.
    fn insert(&mut self, row: Row) -> Result<bool, NoMemory>
        requires { IsRow (Self.width_of self.old) row }
        ensures ok { OnOk result (Self.rows self.new ≡ with_row (Self.rows self.old) row) }
        ensures new { IfOk result (λ new. new ≡ not (has_row (Self.rows self.old) row)) }
        ensures err { OnErr result (Self.rows self.new ≡ Self.rows self.old) }
        ensures width { Self.width_of self.new ≡ Self.width_of self.old };

    /// Removes a row, and answers whether it was there. Want of memory leaves the set as it was.
    fn remove(&mut self, row: &Row) -> Result<bool, NoMemory>
        ensures ok { OnOk result (Self.rows self.new ≡ without_row (Self.rows self.old) row.now) }
        ensures there { IfOk result (λ there. there ≡ has_row (Self.rows self.old) row.now) }
        ensures err { OnErr result (Self.rows self.new ≡ Self.rows self.old) }
        ensures width { Self.width_of self.new ≡ Self.width_of self.old };

    /// A second owner of the same rows. What either does later, the other does not see.
    fn share(&self) -> Result<Self, NoMemory>
        ensures rows { IfOk result (λ set. Self.rows set ≡ Self.rows self.now) }
        ensures width { IfOk result (λ set. Self.width_of set ≡ Self.width_of self.now) };
}
