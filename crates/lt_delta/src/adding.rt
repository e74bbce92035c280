//! Marks put among others, in place.
ghost use Rattle.std.specs.Prelude.{◌≡◌, ◌+◌, ◌<◌, ◌≤◌, true, map, length, IfOk, OnOk, OnErr, IsOk, IsTrue};
ghost use Rattle.std.specs.Arc.{arc_value};
ghost use Rattle.std.specs.List.{AllByRecursion};
ghost use Rattle.std.specs.Vec.{vec_len, vec_capacity};
ghost use Rattle.lt_model.specs.Marks.{AreMarks, with_mark, and_then};
ghost use Rattle.lt_delta.specs.Finding.{IsPlaceFor, is_before as is_before_row, tied_at};

use crate::finding::{is_before, place_for};
use crate::order::compare;
use lt_face::memory::NoMemory;
use lt_model::mark::Mark;
use lt_over::sharing::append;
use std::alloc::Global;
use std::sync::Arc;

/// Whether all marks are on rows before the mark's.
fn are_before(marks: &[Arc<Mark>], mark: &Mark) -> bool
    requires { AreMarks (map arc_value marks.now) }
    ensures { IsTrue result → AllByRecursion (λ m. is_before_row mark.now.relation mark.now.row m ≡ true) (map arc_value marks.now) }
{
    match marks.last() {
        Some(last) => is_before(last, mark.relation, &mark.row),
        None => true,
    }
}

/// The place of the mark among the others: at their end, or found by a binary search.
fn place_among(marks: &[Arc<Mark>], mark: &Mark) -> usize
    requires { AreMarks (map arc_value marks.now) }
    ensures { IsPlaceFor (map arc_value marks.now) mark.now.relation mark.now.row result }
{
    if are_before(marks, mark) {
        return marks.len();
    }
    place_for(marks, mark.relation, &mark.row)
}

/// Whether the mark at the place is on the same row.
pub(crate) fn is_taken(marks: &[Arc<Mark>], place: usize, mark: &Mark) -> bool
    ensures value { result ≡ tied_at (map arc_value marks.now) place mark.now }
    ensures within { IsTrue result → place < length marks.now }
{
    if place >= marks.len() {
        return false;
    }
    let there = &marks[place];
    compare(there, mark).is_eq()
}

/// One more mark at its place. Of two on one row the new one stays.
fn put(marks: &mut Vec<Arc<Mark>>, mark: Arc<Mark>) -> Result<(), NoMemory>
    requires { AreMarks (map arc_value marks.old.items) }
    ensures ok { OnOk result (map arc_value marks.new.items ≡ with_mark (map arc_value marks.old.items) (arc_value mark)) }
    ensures err { OnErr result (marks.new.items ≡ marks.old.items) }
    ensures grows { vec_len marks.new ≤ vec_len marks.old + 1 }
    ensures room { vec_capacity marks.old ≤ vec_capacity marks.new }
    ensures succeeds { vec_len marks.old < vec_capacity marks.old → IsOk result }
{
    let place = place_among(marks, &mark);
    if is_taken(marks, place, &mark) {
        marks[place] = mark;
    } else {
        marks.insert(place, mark)?;
    }
    Ok(())
}

/// Second owners of the marks.
fn shared(alloc: Global, marks: &[Arc<Mark>]) -> Result<Vec<Arc<Mark>>, NoMemory>
    ensures { IfOk result (λ shared. map arc_value shared.items ≡ map arc_value marks.now) }
{
    let mut shared = Vec::with_capacity(alloc, marks.len())?;
    append(&mut shared, marks)?;
    Ok(shared)
}

/// More marks, each at its place. There is room for them, so none is refused.
fn put_each(marks: &mut Vec<Arc<Mark>>, more: Vec<Arc<Mark>>) -> Result<(), NoMemory>
    requires ascend { AreMarks (map arc_value marks.old.items) }
    requires room { vec_len marks.old + length more.items ≤ vec_capacity marks.old }
    ensures ok { OnOk result (map arc_value marks.new.items ≡ and_then (map arc_value marks.old.items) (map arc_value more.items)) }
    ensures succeeds { IsOk result }
{
    for mark in more {
        put(marks, mark)?;
    }
    Ok(())
}

/// One more mark at its place, with a second owner. Want of memory leaves the marks as they were.
fn put_one(marks: &mut Vec<Arc<Mark>>, mark: &Arc<Mark>) -> Result<(), NoMemory>
    requires { AreMarks (map arc_value marks.old.items) }
    ensures ok { OnOk result (map arc_value marks.new.items ≡ with_mark (map arc_value marks.old.items) (arc_value mark.now)) }
    ensures err { OnErr result (marks.new.items ≡ marks.old.items) }
{
    let mark = mark.clone()?;
    put(marks, mark)?;
    Ok(())
}

/// More marks, each at its place. The room for them is taken first, so want of memory leaves the marks as they were.
pub(crate) fn put_all(marks: &mut Vec<Arc<Mark>>, more: &[Arc<Mark>]) -> Result<(), NoMemory>
    requires { AreMarks (map arc_value marks.old.items) }
    ensures ok { OnOk result (map arc_value marks.new.items ≡ and_then (map arc_value marks.old.items) (map arc_value more.now)) }
    ensures err { OnErr result (marks.new.items ≡ marks.old.items) }
{
    if more.len() == 1 {
        put_one(marks, &more[0])?;
        return Ok(());
    }
    let more = shared(*marks.allocator(), more)?;
    marks.reserve(more.len())?;
    put_each(marks, more)?;
    Ok(())
}
