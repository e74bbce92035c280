//! The mark on a row.
ghost use Rattle.std.specs.Prelude.{◌≡◌, [], ◌∷◌, map};
ghost use Rattle.std.specs.Arc.{arc_value};
ghost use Rattle.lt_model.specs.Laws.{mark_on};
ghost use Rattle.lt_model.specs.Marks.{AreMarks};
ghost use Rattle.lt_delta.specs.Finding.{is_before as comes_before, IsPlaceFor};

use lt_face::row::Row;
use lt_model::mark::Mark;
use std::cmp::Ordering;
use std::sync::Arc;

/// Whether the mark is on a row before this one.
pub(crate) fn is_before(mark: &Mark, relation: u32, row: &Row) -> bool
    ensures { result ≡ comes_before relation row.now mark.now }
{
    match mark.relation.cmp(&relation) {
        Ordering::Less => true,
        Ordering::Equal => mark.row.cmp(row).is_lt(),
        Ordering::Greater => false,
    }
}

/// The place of the first mark that isn't on a row before this one, by a binary search.
pub(crate) fn place_for(marks: &[Arc<Mark>], relation: u32, row: &Row) -> usize
    requires { AreMarks (map arc_value marks.now) }
    ensures { IsPlaceFor (map arc_value marks.now) relation row.now result }
{
    marks.partition_point(|mark| is_before(mark, relation, row))
}

/// Whether the mark is a plus, where it is on the row.
fn sign_if_on(mark: &Mark, relation: u32, row: &Row) -> Option<bool>
    ensures { result ≡ mark_on (mark.now ∷ []) relation row.now }
{
    if mark.relation != relation {
        return None;
    }
    if mark.row.cmp(row).is_eq() {
        Some(mark.plus)
    } else {
        None
    }
}

/// Whether the mark on the row is a plus, where there is one.
pub(crate) fn sign_on(marks: &[Arc<Mark>], relation: u32, row: &Row) -> Option<bool>
    requires { AreMarks (map arc_value marks.now) }
    ensures { result ≡ mark_on (map arc_value marks.now) relation row.now }
{
    let place = place_for(marks, relation, row);
    if place >= marks.len() {
        return None;
    }
    let mark = &marks[place];
    sign_if_on(mark, relation, row)
}
