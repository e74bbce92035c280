//! What marks do to the rows of one relation.
ghost use Rattle.std.specs.Prelude.{◌≡◌, ◌≤◌, ℕ, true, false, map, IfOk};
ghost use Rattle.std.specs.List.{AllByRecursion};
ghost use Rattle.lt_face.specs.Limits.{most_columns};
ghost use Rattle.lt_face.specs.Rows.{IsRow};
ghost use Rattle.lt_face.specs.State.{permuted};
ghost use Rattle.lt_model.specs.declared.mark.Mark.{Mark as MarkType};
ghost use Rattle.lt_model.specs.Marks.{AreMarks};
ghost use Rattle.lt_delta.specs.Columns.{IsPermOf};
ghost use Rattle.lt_delta.specs.Laying.{marked};

use crate::columns::permuted_row;
use crate::marks::Marks;
use lt_face::items::{Items, RowList};
use lt_face::memory::NoMemory;
use std::alloc::Global;

/// The rows of a relation that go, and those that come, each ascending.
#[derive(Drop)]
pub struct Edits {
    pub gone: RowList,
    pub come: RowList,
}

impl Marks {
    /// The rows of a relation that the marks take out, and those that they put in.
    pub fn edits(&self, alloc: Global, relation: u32) -> Result<Edits, NoMemory>
        ensures gone { IfOk result (λ edits. edits.gone ≡ marked relation false self.now) }
        ensures come { IfOk result (λ edits. edits.come ≡ marked relation true self.now) }
        ensures ascending { AreMarks self.now }
    {
        let mut gone = Items::new(alloc);
        let mut come = Items::new(alloc);
        for i in self.start_of(relation)..self.len() {
            let mark = self.mark(i);
            if mark.relation != relation {
                return Ok(Edits { gone, come });
            }
            let row = mark.row.copy_row();
            if mark.plus {
                come.push(row)?;
            } else {
                gone.push(row)?;
            }
        }
        Ok(Edits { gone, come })
    }
    /// The same rows, each with its cells in the order of the columns; they stand in the order of the marks.
    pub fn edits_by(&self, alloc: Global, relation: u32, columns: &[u32]) -> Result<Edits, NoMemory>
        requires { (width : ℕ) × IsPermOf width columns.now × (width ≤ most_columns) × AllByRecursion (λ (m : MarkType). m.relation ≡ relation → IsRow width m.row) self.now }
        ensures gone { IfOk result (λ edits. edits.gone ≡ map (permuted columns.now) (marked relation false self.now)) }
        ensures come { IfOk result (λ edits. edits.come ≡ map (permuted columns.now) (marked relation true self.now)) }
        ensures ascending { AreMarks self.now }
    {
        let mut gone = Items::new(alloc);
        let mut come = Items::new(alloc);
        for i in self.start_of(relation)..self.len() {
            let mark = self.mark(i);
            if mark.relation != relation {
                return Ok(Edits { gone, come });
            }
            let row = permuted_row(alloc, columns, &mark.row);
            if mark.plus {
                come.push(row)?;
            } else {
                gone.push(row)?;
            }
        }
        Ok(Edits { gone, come })
    }
}
