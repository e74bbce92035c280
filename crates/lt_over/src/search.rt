//! Searches past rows that go.
ghost use Rattle.std.specs.Prelude.{◌≡◌, true, List, ℕ};
ghost use Rattle.std.specs.Option.{option_copied};
ghost use Rattle.lt_face.specs.Rows.{first_above, first_from, has_row};
ghost use Rattle.lt_flat.specs.Flat.{kept};
ghost use Rattle.lt_over.specs.Overlaid.{is_reached, lesser};

use crate::layer::Layer;
use lt_face::{Near, Row, RowReads, row_above};

/// Whether the row is at least one that is put in.
pub(crate) fn reaches(more: Option<&Row>, row: &Row) -> bool
    ensures { result ≡ is_reached (option_copied more.entry) row.now }
{
    match more {
        None => false,
        Some(put) => !row.cmp(put).is_lt(),
    }
}

/// The least of the rows that stay above a row of the set, and of one that is put in.
fn least_above<'a, B: RowReads>(
    base: &'a B,
    layer: &Layer,
    near: &mut Near,
    row: &'a Row,
    more: Option<&'a Row>,
) -> Option<&'a Row>
    requires { has_row (B.rows base.now) row.now ≡ true }
    ensures { option_copied result ≡ lesser (first_above (kept (B.rows base.now) layer.now.gone) row.now) (option_copied more.entry) }
{
    let _width = base.width();
    let mut from = row;
    loop {
        match row_above(base, near, from) {
            None => return more,
            Some(next) => {
                if reaches(more, next) {
                    return more;
                }
                if !layer.takes(next) {
                    return Some(next);
                }
                from = next;
            }
        }
    }
}

/// The least of the rows that stay, where the set's least row is known, and of one that is put in.
pub(crate) fn least_from<'a, B: RowReads>(
    base: &'a B,
    layer: &Layer,
    near: &mut Near,
    first: Option<&'a Row>,
    more: Option<&'a Row>,
) -> Option<&'a Row>
    requires { (q : List ℕ) × (option_copied first ≡ first_from (B.rows base.now) q) }
    ensures { (q : List ℕ) → option_copied first.entry ≡ first_from (B.rows base.now) q → option_copied result ≡ lesser (first_from (kept (B.rows base.now) layer.now.gone) q) (option_copied more.entry) }
{
    let _width = base.width();
    match first {
        None => more,
        Some(row) => {
            if reaches(more, row) {
                return more;
            }
            if layer.takes(row) {
                least_above(base, layer, near, row, more)
            } else {
                Some(row)
            }
        }
    }
}
