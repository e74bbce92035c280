//! The order of marks.
ghost use Rattle.std.specs.Prelude.{◌≡◌, ◌↔◌, IsTrue};
ghost use Rattle.lt_model.specs.Marks.{mark_cmp};

use lt_model::mark::Mark;
use std::cmp::Ordering;

/// By relation, then by row.
pub(crate) fn compare(a: &Mark, b: &Mark) -> Ordering
    ensures { result ≡ mark_cmp a.now b.now }
{
    match a.relation.cmp(&b.relation) {
        Ordering::Less => Ordering::Less,
        Ordering::Equal => a.row.cmp(&b.row),
        Ordering::Greater => Ordering::Greater,
    }
}

/// Whether two marks are one and the same.
pub(crate) fn is_same(a: &Mark, b: &Mark) -> bool
    ensures { IsTrue result ↔ (a.now ≡ b.now) }
{
    a.relation == b.relation && a.plus == b.plus && a.row == b.row
}
