//! Sums and differences of ints, by their cells.
ghost use Rattle.std.specs.Prelude.{◌≡◌, ◌↔◌, true, false, IsSome, IfSome, ◌+ℤ◌, ◌-ℤ◌, FitsSigned};
ghost use Rattle.std.specs.Int.{w64};
ghost use Rattle.lt_model.specs.Cells.{cell_int, sum_of, int_or_none};
ghost use Rattle.lt_values.specs.Ints.{IsIntCell};

use crate::ints::{LAST_INT, ZERO_CELL};
use lt_face::key::Key;

/// The cell of the sum of two ints; None exactly where the sum isn't from -2^63 to 2^63 - 1.
pub fn sum(t: Key, u: Key) -> Option<Key>
    ensures value { result ≡ sum_of false t u }
    ensures in_range { IsSome result ↔ FitsSigned w64 (cell_int t +ℤ cell_int u) }
    ensures int { IfSome result (λ cell. cell_int cell ≡ cell_int t +ℤ cell_int u) }
    ensures cell { IfSome result IsIntCell }
{
    int_cell(t.checked_add(u)?.saturating_sub(ZERO_CELL))
}

/// The cell of the difference of two ints; None exactly where it isn't from -2^63 to 2^63 - 1.
pub fn difference(t: Key, u: Key) -> Option<Key>
    ensures value { result ≡ sum_of true t u }
    ensures in_range { IsSome result ↔ FitsSigned w64 (cell_int t -ℤ cell_int u) }
    ensures int { IfSome result (λ cell. cell_int cell ≡ cell_int t -ℤ cell_int u) }
    ensures cell { IfSome result IsIntCell }
{
    if u <= t {
        int_cell((t - u).saturating_add(ZERO_CELL))
    } else {
        int_cell(ZERO_CELL.saturating_sub(u - t))
    }
}

// The key, where it is an int's cell.
fn int_cell(key: Key) -> Option<Key>
    ensures { result ≡ int_or_none key }
{
    (1..=LAST_INT).contains(&key).then_some(key)
}
