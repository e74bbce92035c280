//! Ints and their cells.
ghost use Rattle.std.specs.Prelude.{◌≡◌, ◌≤◌, pos, ◌+ℤ◌};
ghost use Rattle.lt_model.specs.Cells.{zero_cell, last_int, cell_int};

use lt_face::key::Key;

/// The cell of the int 0: 2^63 + 1. So every int's cell lies above the key 0.
pub(crate) const ZERO_CELL: Key = 9_223_372_036_854_775_809;

/// The cell of the greatest int: 2^64.
pub(crate) const LAST_INT: Key = 18_446_744_073_709_551_616;

/// The cell of an int, from 1 to 2^64: the int and 2^63 + 1.
pub fn cell_of_int(n: i64) -> Key
    ensures cell { pos result ≡ n +ℤ pos zero_cell }
    ensures back { cell_int result ≡ n }
    ensures least { 1 ≤ result }
    ensures most { result ≤ last_int }
{
    (i128::from(n) + ZERO_CELL as i128) as Key
}

/// The int of a cell from 1 to 2^64.
pub fn int_of(cell: Key) -> i64
    requires least { 1 ≤ cell }
    requires most { cell ≤ last_int }
    ensures { result ≡ cell_int cell }
{
    (cell as i128 - ZERO_CELL as i128) as i64
}
