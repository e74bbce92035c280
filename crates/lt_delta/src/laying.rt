//! Marks laid on a set of rows.
ghost use Rattle.std.specs.Prelude.{◌≡◌, ◌<◌, length, IfOk, OnOk};
ghost use Rattle.std.specs.List.{AllByRecursion};
ghost use Rattle.lt_face.specs.Rows.{IsRow};
ghost use Rattle.lt_face.specs.State.{State, rows_in};
ghost use Rattle.lt_model.specs.declared.mark.Mark.{Mark as MarkType};
ghost use Rattle.lt_model.specs.Marks.{write, laid};
ghost use Rattle.lt_delta.specs.Laying.{rows_laid};

use crate::marks::Marks;
use lt_face::memory::NoMemory;
use lt_face::row_set::RowSet;
use lt_model::mark::Mark;

/// The mark's row in the set, or out of it.
fn put<R: RowSet>(mark: &Mark, rows: &mut R) -> Result<(), NoMemory>
    requires { IsRow (R.width_of rows.old) mark.now.row }
    ensures rows { OnOk result (R.rows rows.new ≡ write mark.now (R.rows rows.old)) }
    ensures width { R.width_of rows.new ≡ R.width_of rows.old }
{
    if mark.plus {
        rows.insert(mark.row.copy_row())?;
    } else {
        rows.remove(&mark.row)?;
    }
    Ok(())
}

/// The set with the marks of the relation laid on it.
fn laid_on<R: RowSet>(marks: &Marks, relation: u32, rows: &R) -> Result<R, NoMemory>
    requires { AllByRecursion (λ (m : MarkType). m.relation ≡ relation → IsRow (R.width_of rows.now) m.row) marks.now }
    ensures rows { IfOk result (λ set. R.rows set ≡ rows_laid relation (R.rows rows.now) marks.now) }
    ensures width { IfOk result (λ set. R.width_of set ≡ R.width_of rows.now) }
{
    let mut set = rows.share()?;
    for i in 0..marks.len() {
        let mark = marks.mark(i);
        if mark.relation == relation {
            put(mark, &mut set)?;
        }
    }
    Ok(set)
}

impl Marks {
    /// The rows of a relation as they are in a state with the marks laid on it. `rows` are those of the state.
    pub fn lay_on<R: RowSet>(&self, relation: u32, rows: &R) -> Result<R, NoMemory>
        requires { AllByRecursion (λ (m : MarkType). m.relation ≡ relation → IsRow (R.width_of rows.now) m.row) self.now }
        ensures rows { IfOk result (λ set. (state : State) → relation < length state → rows_in state relation ≡ R.rows rows.now → R.rows set ≡ rows_in (laid state self.now) relation) }
        ensures edits { IfOk result (λ set. R.rows set ≡ rows_laid relation (R.rows rows.now) self.now) }
        ensures width { IfOk result (λ set. R.width_of set ≡ R.width_of rows.now) }
    {
        let set = laid_on(self, relation, rows)?;
        Ok(set)
    }
}
