//! Rows that may have changed, and whether they did.
ghost use Rattle.std.specs.Prelude.{◌≡◌, [], map, length, IfOk};
ghost use Rattle.lt_model.specs.Fits.{FitMarks};
ghost use Rattle.lt_model.specs.Marks.{and_then, laid};
ghost use Rattle.lt_base.specs.Tables.{state_of};
ghost use Rattle.lt_base.specs.Changed.{differ_on};
ghost use Rattle.lt_program.specs.Tally.{state_before};
ghost use Rattle.lt_restate.specs.Walked.{mark_of};

use lt_delta::Marks;
use lt_face::items::{Changes, Items};
use lt_face::memory::NoMemory;
use lt_face::row::Row;
use lt_model::mark::Mark;
use lt_program::Tally;
use std::alloc::Global;

/// A mark on each of the rows.
pub(crate) fn named_rows(alloc: Global, named: &Changes) -> Result<Marks, NoMemory>
    ensures { IfOk result (λ marks. marks ≡ and_then [] (map mark_of named.now)) }
{
    let mut list = Items::new(alloc);
    for change in named.as_slice() {
        let mark = Mark {
            relation: change.0,
            row: change.1.copy_row(),
            plus: true,
        };
        list.push(mark)?;
    }
    let marks = Marks::from_list(list)?;
    Ok(marks)
}

/// Whether one of the states has the row and the other hasn't: that of the old tally with these marks, and the new tally's.
pub(crate) fn is_changed(old: &Tally, past: &Marks, new: &Tally, relation: u32, row: &Row) -> bool
    requires { FitMarks (state_of old.now.base) past.now }
    ensures { result ≡ differ_on (laid (state_of old.now.base) past.now) (state_before (length new.now.parts) new.now.program (state_of new.now.base)) relation row.now }
{
    if old.base().has_with(past, relation, row) {
        !new.has(relation, row)
    } else {
        new.has(relation, row)
    }
}
