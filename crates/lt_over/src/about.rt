//! Rows about so far along a set of rows that has edits laid over it. Which row it is is free, so nothing is said of it here:
//! who asks seeks the first row of the set that is at least this one.

use lt_face::{Fraction, Row, RowReads};
use lt_flat::FlatRows;

/// A row about so far along the base, which has at most so many rows, or along those that are put in, where these are more.
pub(crate) fn near_either<'a, B: RowReads>(
    base: &'a B,
    most: usize,
    put: &'a FlatRows,
    along: Fraction,
) -> Option<&'a Row> {
    if most < put.len() {
        return put.row_about(along);
    }
    base.row_about(along)
}
