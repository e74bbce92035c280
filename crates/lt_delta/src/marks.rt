//! `Marks`: a list of marks, shared by count, and each of them too.
ghost use Rattle.std.specs.Prelude.{◌≡◌, ◌<◌, ◌≤◌, ◌↔◌, ℕ, [], true, false, map, length, slice_get, Some, IfOk, OnOk, OnErr, IsTrue};
ghost use Rattle.std.specs.Arc.{arc_value};
ghost use Rattle.lt_model.specs.declared.mark.Mark.{Mark as MarkView};
ghost use Rattle.lt_model.specs.Laws.{mark_on};
ghost use Rattle.lt_model.specs.Marks.{AreMarks, and_then};
ghost use Rattle.lt_delta.specs.Finding.{is_before};

use crate::adding::put_all;
use crate::finding::{place_for, sign_on};
use crate::merging::merged_lists;
use crate::order::is_same;
use crate::sorting::in_order;
use lt_face::memory::NoMemory;
use lt_face::row::Row;
use lt_model::mark::{Mark, MarkList};
use std::alloc::Global;
use std::marker::Model;
use std::sync::Arc;

/// So many marks are put among others one by one.
const FEW: usize = 8;

/// Marks, strictly ascending by (relation, row): one for each row at most.
#[derive(Drop)]
pub struct Marks {
    list: Arc<Vec<Arc<Mark>>>,
}

impl Model for Marks {
    ghost use Rattle.std.specs.Prelude.{List, map};
    ghost use Rattle.std.specs.Arc.{arc_value};
    ghost use Rattle.lt_model.specs.declared.mark.Mark.{Mark};
    ghost use Rattle.lt_model.specs.Marks.{AreMarks};

    ghost Value = { List Mark };

    ghost view = { λ m. map arc_value (arc_value m.list).items };

    ghost invariant = { λ m. AreMarks (map arc_value (arc_value m.list).items) };
}

impl Marks {
    /// No marks.
    pub fn empty(alloc: Global) -> Result<Marks, NoMemory>
        ensures { IfOk result (λ marks. marks ≡ []) }
    {
        let list = Arc::new(alloc, Vec::new(alloc))?;
        Ok(Marks { list })
    }

    /// The marks of a list, in order. Of several on one row the last stays.
    pub fn from_list(list: MarkList) -> Result<Marks, NoMemory>
        ensures { IfOk result (λ marks. marks ≡ and_then [] list) }
    {
        let alloc = list.allocator();
        let marks = in_order(list.into_vec())?;
        let marks = each_shared(alloc, marks)?;
        let list = Arc::new(alloc, marks)?;
        Ok(Marks { list })
    }

    /// A second owner of the same marks.
    pub fn share(&self) -> Result<Marks, NoMemory>
        ensures { IfOk result (λ marks. marks ≡ self.now) }
    {
        let list = self.list.clone()?;
        Ok(Marks { list })
    }

    /// The marks of both, the second's where both have one on a row.
    pub fn and_then(first: &Marks, second: &Marks) -> Result<Marks, NoMemory>
        ensures { IfOk result (λ marks. marks ≡ and_then first.now second.now) }
    {
        if second.len() == 0 {
            return first.share();
        }
        if first.len() == 0 {
            return second.share();
        }
        let alloc = first.allocator();
        let marks = merged_lists(alloc, &first.list, &second.list)?;
        let list = Arc::new(alloc, marks)?;
        Ok(Marks { list })
    }

    /// What the marks take their memory from.
    pub(crate) fn allocator(&self) -> Global {
        *self.list.allocator()
    }

    /// Puts the later marks among these, each in place of the one on its row: a few one by one, and more by a merge. Want of
    /// memory leaves the marks as they were.
    pub fn add(&mut self, later: &Marks) -> Result<(), NoMemory>
        ensures ok { OnOk result (self.new ≡ and_then self.old later.now) }
        ensures err { OnErr result (self.new ≡ self.old) }
    {
        if later.len() <= FEW {
            let there: &mut Arc<Vec<Arc<Mark>>> = &mut self.list;
            match Arc::get_mut(there) {
                Some(list) => {
                    put_all(list, &later.list)?;
                    return Ok(());
                }
                None => {}
            }
        }
        *self = Marks::and_then(self, later)?;
        Ok(())
    }

    /// How many marks there are. They ascend strictly.
    pub fn len(&self) -> usize
        ensures count { result ≡ length self.now }
        ensures ascending { AreMarks self.now }
    {
        self.list.len()
    }

    /// The mark at a place in their order.
    pub fn mark(&self, i: usize) -> &Mark
        requires { i < length self.now }
        ensures { slice_get self.now i ≡ Some result.now }
    {
        let mark: &Arc<Mark> = &self.list[i];
        mark
    }

    /// Whether the mark on the row is a plus, where there is one. It is found by a binary search.
    pub fn sign(&self, relation: u32, row: &Row) -> Option<bool>
        ensures { result ≡ mark_on self.now relation row.now }
    {
        sign_on(&self.list, relation, row)
    }

    /// The place of the first mark that isn't on a row before this one, by a binary search.
    pub fn place_for(&self, relation: u32, row: &Row) -> usize
        ensures within { result ≤ length self.now }
        ensures before { (p : ℕ) (m : MarkView) → slice_get self.now p ≡ Some m → p < result → is_before relation row.now m ≡ true }
        ensures after { (p : ℕ) (m : MarkView) → slice_get self.now p ≡ Some m → result ≤ p → is_before relation row.now m ≡ false }
    {
        place_for(&self.list, relation, row)
    }

    /// Whether both have the same marks.
    pub fn equal(first: &Marks, second: &Marks) -> bool
        ensures { IsTrue result ↔ (first.now ≡ second.now) }
    {
        are_same(&first.list, &second.list)
    }
}

/// The marks, each with owners of its own.
fn each_shared(alloc: Global, marks: Vec<Mark>) -> Result<Vec<Arc<Mark>>, NoMemory>
    ensures { IfOk result (λ shared. map arc_value shared.items ≡ marks.items) }
{
    let mut shared = Vec::with_capacity(alloc, marks.len())?;
    for mark in marks {
        let mark = Arc::new(alloc, mark)?;
        shared.push(mark)?;
    }
    Ok(shared)
}

/// Whether two lists have the same marks.
fn are_same(a: &[Arc<Mark>], b: &[Arc<Mark>]) -> bool
    ensures { IsTrue result ↔ (map arc_value a.now ≡ map arc_value b.now) }
{
    if a.len() != b.len() {
        return false;
    }
    for (i, x) in a.iter().enumerate() {
        if !is_same(x, &b[i]) {
            return false;
        }
    }
    true
}
