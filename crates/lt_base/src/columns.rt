//! Orders of columns.
ghost use Rattle.std.specs.Prelude.{◌≡◌, ◌≢◌, ◌≤◌, true, false};
ghost use Rattle.lt_face.specs.Limits.{most_columns};
ghost use Rattle.lt_face.specs.State.{row_eq};
ghost use Rattle.lt_delta.specs.Columns.{numbers};

use lt_delta::Columns;
use std::alloc::Global;

/// Whether the columns are in their own order.
pub(crate) fn is_own_order(columns: &[u32], width: usize) -> bool
    ensures { result ≡ row_eq columns.now (numbers 0 width) }
{
    if columns.len() != width {
        return false;
    }
    for i in 0..columns.len() {
        if columns[i] as usize != i {
            return false;
        }
    }
    true
}

/// The columns of a relation in their own order.
pub(crate) fn own_columns(alloc: Global, width: usize) -> Columns
    requires { width ≤ most_columns }
    ensures { result ≡ numbers 0 width }
{
    let mut columns = Columns::new(alloc);
    for i in 0..width {
        columns.push(i as u32);
    }
    columns
}

/// Whether two orders are one.
pub(crate) fn is_same_order(a: &[u32], b: &[u32]) -> bool
    ensures same { result ≡ true → a.now ≡ b.now }
    ensures differ { result ≡ false → a.now ≢ b.now }
{
    a == b
}
