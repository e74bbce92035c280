//! The changed rows that a part's sense covers, among those that marks are on.
ghost use Rattle.std.specs.Prelude.{◌≡◌, ◌⊎◌, ℕ, true, length, IfOk, OnOk};
ghost use Rattle.lt_face.specs.Lists.{IsIn};
ghost use Rattle.lt_face.specs.State.{Row as RowView};
ghost use Rattle.lt_model.specs.declared.mark.Mark.{Mark as MarkView};
ghost use Rattle.lt_model.specs.Fits.{FitMarks};
ghost use Rattle.lt_model.specs.Marks.{laid};
ghost use Rattle.lt_base.specs.Tables.{state_of};
ghost use Rattle.lt_base.specs.Changed.{differ_on};
ghost use Rattle.lt_sense.specs.Sense.{IsTight};
ghost use Rattle.lt_program.specs.Tally.{state_before, sense_of};
ghost use Rattle.lt_restate.specs.Bases.{AreAlike, AreRowsOf};
ghost use Rattle.lt_restate.specs.Covered.{GainsOnly, IsCoveredChange, AreCoveredChanges};
ghost use Rattle.lt_restate.specs.Walked.{is_named};

use crate::changed::is_changed;
use lt_delta::Marks;
use lt_face::items::{Changes, Items};
use lt_face::memory::NoMemory;
use lt_model::mark::Mark;
use lt_program::{Part, Tally};

/// Whether the part's sense covers the mark's row, and it changed. What isn't covered isn't looked up in the states. A row that
/// its relation can't have may be asked for too: it can't have changed.
fn is_covered_change(old: &Tally, past: &Marks, new: &Tally, part: &Part, mark: &Mark) -> bool
    requires fits { FitMarks (state_of old.now.base) past.now }
    requires alike { AreAlike (state_of old.now.base) (state_of new.now.base) }
    requires tight { IsTight (sense_of part.now) (laid (state_of old.now.base) past.now) }
    ensures yes { result ≡ true → IsCoveredChange (sense_of part.now) (laid (state_of old.now.base) past.now) (state_before (length new.now.parts) new.now.program (state_of new.now.base)) (mark.now.relation, mark.now.row) }
    ensures no { IsCoveredChange (sense_of part.now) (laid (state_of old.now.base) past.now) (state_before (length new.now.parts) new.now.program (state_of new.now.base)) (mark.now.relation, mark.now.row) → result ≡ true }
{
    let _marks = new.marks();
    part.covers(mark.relation, &mark.row) && is_changed(old, past, new, mark.relation, &mark.row)
}

/// Adds the mark's row, where the part's sense covers it and it changed.
fn add_if_changed(
    changes: &mut Changes,
    old: &Tally,
    past: &Marks,
    new: &Tally,
    part: &Part,
    mark: &Mark,
) -> Result<(), NoMemory>
    requires fits { FitMarks (state_of old.now.base) past.now }
    requires alike { AreAlike (state_of old.now.base) (state_of new.now.base) }
    requires tight { IsTight (sense_of part.now) (laid (state_of old.now.base) past.now) }
    ensures gains { OnOk result (GainsOnly (IsCoveredChange (sense_of part.now) (laid (state_of old.now.base) past.now) (state_before (length new.now.parts) new.now.program (state_of new.now.base))) changes.old changes.new) }
    ensures there { OnOk result (IsCoveredChange (sense_of part.now) (laid (state_of old.now.base) past.now) (state_before (length new.now.parts) new.now.program (state_of new.now.base)) (mark.now.relation, mark.now.row) → IsIn (mark.now.relation, mark.now.row) changes.new) }
{
    if is_covered_change(old, past, new, part, mark) {
        changes.push((mark.relation, mark.row.copy_row()))?;
        return Ok(());
    }
    Ok(())
}

/// Adds the marked rows that the part's sense covers and that changed.
fn add_changed(
    changes: &mut Changes,
    old: &Tally,
    past: &Marks,
    new: &Tally,
    part: &Part,
    marks: &Marks,
) -> Result<(), NoMemory>
    requires fits { FitMarks (state_of old.now.base) past.now }
    requires alike { AreAlike (state_of old.now.base) (state_of new.now.base) }
    requires tight { IsTight (sense_of part.now) (laid (state_of old.now.base) past.now) }
    ensures gains { OnOk result (GainsOnly (IsCoveredChange (sense_of part.now) (laid (state_of old.now.base) past.now) (state_before (length new.now.parts) new.now.program (state_of new.now.base))) changes.old changes.new) }
    ensures all { OnOk result ((mark : MarkView) → IsIn mark marks.now → IsCoveredChange (sense_of part.now) (laid (state_of old.now.base) past.now) (state_before (length new.now.parts) new.now.program (state_of new.now.base)) (mark.relation, mark.row) → IsIn (mark.relation, mark.row) changes.new) }
{
    for i in 0..marks.len() {
        let mark = marks.mark(i);
        add_if_changed(changes, old, past, new, part, mark)?;
    }
    Ok(())
}

/// The changed rows that the part's sense covers, in whatever order, some maybe several times. Each row on which the bases differ
/// is marked in one of two lists; other rows can have changed only where one of the runs marked them. Each marked row is looked
/// up in the sense. No move is made.
pub(crate) fn covered_changes(
    old: &Tally,
    past: &Marks,
    new: &Tally,
    old_on: &Marks,
    new_on: &Marks,
    part: &Part,
) -> Result<Changes, NoMemory>
    requires fits { FitMarks (state_of old.now.base) past.now }
    requires alike { AreAlike (state_of old.now.base) (state_of new.now.base) }
    requires bases { (relation : ℕ) (row : RowView) → differ_on (state_of old.now.base) (state_of new.now.base) relation row ≡ true → (is_named old_on.now relation row ≡ true) ⊎ (is_named new_on.now relation row ≡ true) }
    requires tight { IsTight (sense_of part.now) (laid (state_of old.now.base) past.now) }
    ensures changes { IfOk result (AreCoveredChanges (sense_of part.now) (laid (state_of old.now.base) past.now) (state_before (length new.now.parts) new.now.program (state_of new.now.base))) }
    ensures rows { IfOk result (AreRowsOf (state_of old.now.base)) }
{
    let mut changes = Items::new(old.program().allocator());
    let marks = new.marks();
    add_changed(&mut changes, old, past, new, part, old_on)?;
    add_changed(&mut changes, old, past, new, part, new_on)?;
    add_changed(&mut changes, old, past, new, part, past)?;
    add_changed(&mut changes, old, past, new, part, marks)?;
    Ok(changes)
}
