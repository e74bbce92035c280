//! One list of marks after another.
ghost use Rattle.std.specs.Prelude.{◌≡◌, ◌∷◌, false, map, IfOk};
ghost use Rattle.std.specs.Arc.{arc_value};
ghost use Rattle.std.specs.List.{AllByRecursion};
ghost use Rattle.lt_model.specs.Marks.{Marks as MarksView, AreMarks, and_then};
ghost use Rattle.lt_delta.specs.Finding.{is_before};

use crate::adding::is_taken;
use crate::finding::place_for;
use crate::order::compare;
use lt_face::memory::NoMemory;
use lt_model::mark::Mark;
use lt_over::sharing::append;
use std::alloc::Global;
use std::cmp::Ordering;
use std::sync::Arc;

/// Where the first list is longer than the second so many times, a search for each mark costs less than to compare all.
const MANY_TIMES: usize = 4;

/// The marks that are left behind one that none of them comes before: without the one on its row.
fn left_behind<'a>(marks: &'a [Arc<Mark>], mark: &Mark) -> &'a [Arc<Mark>]
    requires ascend { AreMarks (map arc_value marks.now) }
    requires none_before { AllByRecursion (λ m. is_before mark.now.relation mark.now.row m ≡ false) (map arc_value marks.now) }
    ensures ascend { AreMarks (map arc_value result.now) }
    ensures left { (later : MarksView) → AreMarks (mark.now ∷ later)
        → and_then (map arc_value marks.now) (mark.now ∷ later) ≡ mark.now ∷ and_then (map arc_value result.now) later }
{
    if is_taken(marks, 0, mark) {
        let (_same, rest) = marks.split_at(1);
        return rest;
    }
    marks
}

/// The marks of both, the second's where both have one: the place of each of the second is found by a binary search.
fn merged_by_search(
    alloc: Global,
    first: &[Arc<Mark>],
    second: &[Arc<Mark>],
) -> Result<Vec<Arc<Mark>>, NoMemory>
    requires first { AreMarks (map arc_value first.now) }
    requires second { AreMarks (map arc_value second.now) }
    ensures { IfOk result (λ marks. map arc_value marks.items ≡ and_then (map arc_value first.now) (map arc_value second.now)) }
{
    let mut marks = Vec::with_capacity(alloc, first.len().saturating_add(second.len()))?;
    let mut left = first;
    for owner in second {
        let mark: &Mark = owner;
        let place = place_for(left, mark.relation, &mark.row);
        let (before, behind) = left.split_at(place);
        append(&mut marks, before)?;
        left = left_behind(behind, mark);
        let more = owner.clone()?;
        marks.push(more)?;
    }
    append(&mut marks, left)?;
    Ok(marks)
}

/// The marks of both, the second's where both have one.
pub(crate) fn merged_lists(
    alloc: Global,
    first: &[Arc<Mark>],
    second: &[Arc<Mark>],
) -> Result<Vec<Arc<Mark>>, NoMemory>
    requires first { AreMarks (map arc_value first.now) }
    requires second { AreMarks (map arc_value second.now) }
    ensures { IfOk result (λ marks. map arc_value marks.items ≡ and_then (map arc_value first.now) (map arc_value second.now)) }
{
    if first.len() / MANY_TIMES > second.len() {
        let marks = merged_by_search(alloc, first, second)?;
        return Ok(marks);
    }
    let marks = merged(alloc, first, second)?;
    Ok(marks)
}

/// The marks of both, the second's where both have one: all are compared.
fn merged(
    alloc: Global,
    first: &[Arc<Mark>],
    second: &[Arc<Mark>],
) -> Result<Vec<Arc<Mark>>, NoMemory>
    requires first { AreMarks (map arc_value first.now) }
    requires second { AreMarks (map arc_value second.now) }
    ensures { IfOk result (λ marks. map arc_value marks.items ≡ and_then (map arc_value first.now) (map arc_value second.now)) }
{
    let mut marks = Vec::with_capacity(alloc, first.len().saturating_add(second.len()))?;
    let mut i = 0;
    let mut j = 0;
    'both: while i < first.len() && j < second.len() {
        let x = &first[i];
        let y = &second[j];
        match compare(x, y) {
            Ordering::Less => {
                let mark = x.clone()?;
                marks.push(mark)?;
                i += 1;
            }
            Ordering::Equal => {
                let mark = y.clone()?;
                marks.push(mark)?;
                i += 1;
                j += 1;
            }
            Ordering::Greater => {
                let mark = y.clone()?;
                marks.push(mark)?;
                j += 1;
            }
        }
    }
    append(&mut marks, &first[i..])?;
    append(&mut marks, &second[j..])?;
    Ok(marks)
}
