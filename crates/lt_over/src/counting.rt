//! How many rows of a list a set has or lacks.
ghost use Rattle.std.specs.Prelude.{◌≡◌, length, filter, not};
ghost use Rattle.lt_face.specs.Rows.{has_row};
ghost use Rattle.lt_over.specs.Overlaid.{stays};

use lt_face::{Row, RowReads};
use lt_flat::FlatRows;

/// How many of the rows the set lacks.
pub(crate) fn count_lacked<B: RowReads>(base: &B, rows: &[Row]) -> usize
    ensures { result ≡ length (filter (λ r. not (has_row (B.rows base.now) r)) rows.now) }
{
    let mut count = 0;
    for row in rows {
        if !base.has(row) {
            count += 1;
        }
    }
    count
}

/// Whether the set has the row, and it isn't hidden.
fn is_staying<B: RowReads>(base: &B, hidden: &FlatRows, row: &Row) -> bool
    ensures { result ≡ stays (B.rows base.now) hidden.now.rows row.now }
{
    base.has(row) && !hidden.has(row)
}

/// How many of the rows the set has, without those that are hidden.
pub(crate) fn count_staying<B: RowReads>(base: &B, hidden: &FlatRows, rows: &[Row]) -> usize
    ensures { result ≡ length (filter (stays (B.rows base.now) hidden.now.rows) rows.now) }
{
    let mut count = 0;
    for row in rows {
        if is_staying(base, hidden, row) {
            count += 1;
        }
    }
    count
}
