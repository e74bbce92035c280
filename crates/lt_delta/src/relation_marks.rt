//! The marks of one relation, among others.
ghost use Rattle.std.specs.Prelude.{◌≡◌, ◌≢◌, ◌<◌, ◌≤◌, ℕ, false, length, slice_get, Some, IsTrue};
ghost use Rattle.std.specs.List.{AllByRecursion};
ghost use Rattle.lt_face.specs.Lists.{AnyByRecursion};
ghost use Rattle.lt_model.specs.declared.mark.Mark.{Mark as MarkView};

use crate::marks::Marks;
use lt_face::row::Row;

impl Marks {
    /// The place of the first mark on a row of the relation or of one behind it, by a binary search.
    pub(crate) fn start_of(&self, relation: u32) -> usize
        ensures within { result ≤ length self.now }
        ensures before { (p : ℕ) (m : MarkView) → slice_get self.now p ≡ Some m → p < result → m.relation < relation }
        ensures after { (p : ℕ) (m : MarkView) → slice_get self.now p ≡ Some m → result ≤ p → relation ≤ m.relation }
    {
        let least = Row::from_cells(self.allocator(), &[]);
        self.place_for(relation, &least)
    }

    /// Whether a mark is on a row of the relation.
    pub fn is_on(&self, relation: u32) -> bool
        ensures on { IsTrue result → AnyByRecursion (λ (m : MarkView). m.relation ≡ relation) self.now }
        ensures off { result ≡ false → AllByRecursion (λ (m : MarkView). m.relation ≢ relation) self.now }
    {
        let place = self.start_of(relation);
        if place >= self.len() {
            return false;
        }
        let mark = self.mark(place);
        mark.relation == relation
    }
}
