//! Marks in order, one for each row.
ghost use Rattle.std.specs.Prelude.{◌≡◌, ◌≢◌, ◌<◌, [], length, IfOk, OnOk, IsTrue};
ghost use Rattle.std.specs.List.{AllByRecursion};
ghost use Rattle.std.specs.List.Sorted.{IsSorted};
ghost use Rattle.std.specs.declared.cmp.Ordering.TheVariants.{Greater};
ghost use Rattle.lt_model.specs.Marks.{mark_cmp, AreMarks, with_mark, and_then};
ghost use Rattle.lt_delta.specs.LastRow.{ends_tied};

use crate::order::compare;
use lt_face::memory::NoMemory;
use lt_model::mark::Mark;
use std::alloc::Global;

/// Whether the last of the marks is on the mark's row.
fn ends_on(marks: &[Mark], mark: &Mark) -> bool
    ensures value { result ≡ ends_tied marks.now mark.now }
    ensures some { IsTrue result → 0 < length marks.now }
{
    match marks.last() {
        Some(last) => compare(last, mark).is_eq(),
        None => false,
    }
}

/// One more mark, that none is above. Of two on one row the new one stays.
fn put(marks: &mut Vec<Mark>, mark: Mark) -> Result<(), NoMemory>
    requires ascending { AreMarks marks.old.items }
    requires none_above { AllByRecursion (λ m. mark_cmp m mark ≢ Greater) marks.old.items }
    ensures { OnOk result (marks.new.items ≡ with_mark marks.old.items mark) }
{
    if ends_on(marks, &mark) {
        let last = marks.len() - 1;
        marks[last] = mark;
    } else {
        marks.push(mark)?;
    }
    Ok(())
}

/// The last of the marks on each row.
fn last_of_each(alloc: Global, sorted: Vec<Mark>) -> Result<Vec<Mark>, NoMemory>
    requires { IsSorted mark_cmp sorted.items }
    ensures { IfOk result (λ marks. marks.items ≡ and_then [] sorted.items) }
{
    let mut marks = Vec::new(alloc);
    for mark in sorted {
        put(&mut marks, mark)?;
    }
    Ok(marks)
}

/// The marks in order; of several on one row the last stays.
pub(crate) fn in_order(mut list: Vec<Mark>) -> Result<Vec<Mark>, NoMemory>
    ensures { IfOk result (λ marks. marks.items ≡ and_then [] list.items) }
{
    let alloc = *list.allocator();
    list.sort_by(compare)?;
    last_of_each(alloc, list)
}
