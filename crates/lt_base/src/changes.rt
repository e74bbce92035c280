//! Rows that one database has and another hasn't.
ghost use Rattle.std.specs.Prelude.{◌≡◌, ℕ, true, false, filter, IfOk};
ghost use Rattle.lt_face.specs.Rows.{has_row};
ghost use Rattle.lt_face.specs.State.{State, Row as RowView, AgreeOn, rows_in};
ghost use Rattle.lt_model.specs.Fits.{FitMarks};
ghost use Rattle.lt_model.specs.Marks.{laid};
ghost use Rattle.lt_base.specs.Tables.{state_of};
ghost use Rattle.lt_base.specs.Changed.{differ_on};

use crate::database::Database;
use lt_delta::Marks;
use lt_face::items::{Changes, Items};
use lt_face::memory::NoMemory;
use lt_face::row::Row;

/// States that differ on a row don't agree on it, and those that don't differ on it agree.
pub fn differing()
    ensures differ { (s t : State) (relation : ℕ) (row : RowView) → differ_on s t relation row ≡ true → AgreeOn s t relation row → ⊥ }
    ensures agree { (s t : State) (relation : ℕ) (row : RowView) → differ_on s t relation row ≡ false → AgreeOn s t relation row }
{}

impl Database {
    /// Whether the database has the row once the marks are laid on it. They needn't be laid for that.
    pub fn has_with(&self, marks: &Marks, relation: u32, row: &Row) -> bool
        requires { FitMarks (state_of self.now) marks.now }
        ensures { result ≡ has_row (rows_in (laid (state_of self.now) marks.now) relation) row.now }
    {
        match marks.sign(relation, row) {
            Some(plus) => plus,
            None => self.has(relation, row),
        }
    }

    /// Whether one of the two has the row and the other hasn't.
    fn differ(old: &Database, new: &Database, relation: u32, row: &Row) -> bool
        ensures { result ≡ differ_on (state_of old.now) (state_of new.now) relation row.now }
    {
        if old.has(relation, row) {
            !new.has(relation, row)
        } else {
            new.has(relation, row)
        }
    }

    /// Of the rows handed in, in their order, those that one of the two has and the other hasn't.
    pub fn changes(old: &Database, new: &Database, named: &Changes) -> Result<Changes, NoMemory>
        ensures { IfOk result (λ changes. changes ≡ filter (λ change. differ_on (state_of old.now) (state_of new.now) change.0 change.1) named.now) }
    {
        let mut changes = Items::new(named.allocator());
        for change in named.as_slice() {
            if Database::differ(old, new, change.0, &change.1) {
                changes.push((change.0, change.1.copy_row()))?;
            }
        }
        Ok(changes)
    }
}
