//! One index: the rows of a relation, with their cells in another order of the columns.
ghost use Rattle.std.specs.Prelude.{◌≡◌, ◌≤◌, ℕ, List, IfOk, OnOk};
ghost use Rattle.std.specs.List.{AllByRecursion};
ghost use Rattle.std.specs.List.Sorted.{IsPermutation, IsSorted};
ghost use Rattle.lt_face.specs.Limits.{most_columns};
ghost use Rattle.lt_face.specs.Rows.{IsRow, IsRowSet, row_cmp};
ghost use Rattle.lt_face.specs.State.{Row as RowView};
ghost use Rattle.lt_model.specs.declared.mark.Mark.{Mark as MarkType};
ghost use Rattle.lt_delta.specs.Columns.{IsPermOf, IsPermuted};
ghost use Rattle.lt_delta.specs.Laying.{rows_laid};
ghost use Rattle.lt_base.specs.Indexed.{IsIndexed, AreEditsIn, index_edited, index_laid};

use crate::database::Rows;
use crate::sorting::sort_rows;
use crate::walk::permuted_rows;
use lt_delta::{Columns, Edits, Marks, permuted_row};
use lt_face::items::{Items, Perm, RowList};
use lt_face::memory::NoMemory;
use lt_face::row::Row;
use lt_face::row_set::{RowReads, RowSet};
use std::thread::Threads;

/// Rows with their cells in the order of the columns.
#[derive(Drop)]
pub(crate) struct Index {
    pub(crate) columns: Columns,
    pub(crate) rows: Rows,
    /// How many batches have written the relation since a program is known to have needed the index. No clause speaks of it.
    pub(crate) idle: u32,
}

/// The rows, ascending.
fn sorted(rows: RowList) -> RowList
    ensures moved { IsPermutation rows result }
    ensures sorted { IsSorted row_cmp result }
{
    let mut list = rows.into_vec();
    list.sort_unstable();
    Items::from_vec(list)
}

/// The rows that the marks take out of an index on these columns, and those that they put in.
fn edits_in(columns: &Columns, relation: u32, marks: &Marks) -> Result<Edits, NoMemory>
    requires { (width : ℕ) × IsPermOf width columns.now × (width ≤ most_columns) × AllByRecursion (λ (m : MarkType). m.relation ≡ relation → IsRow width m.row) marks.now }
    ensures { IfOk result (λ edits. (width : ℕ) → IsPermOf width columns.now → AllByRecursion (λ (m : MarkType). m.relation ≡ relation → IsRow width m.row) marks.now → AreEditsIn width columns.now relation marks.now edits) }
{
    let edits = marks.edits_by(columns.allocator(), relation, columns.as_slice())?;
    let gone = sorted(edits.gone);
    let come = sorted(edits.come);
    Ok(Edits { gone, come })
}

/// The rows of an index on these columns with the marks of its relation laid on them.
pub(crate) fn rows_with(
    rows: &Rows,
    columns: &Columns,
    relation: u32,
    marks: &Marks,
) -> Result<Rows, NoMemory>
    requires perm { IsPermOf rows.now.width columns.now }
    requires fit { AllByRecursion (λ (m : MarkType). m.relation ≡ relation → IsRow rows.now.width m.row) marks.now }
    ensures width { IfOk result (λ set. set.width ≡ rows.now.width) }
    ensures rows { IfOk result (λ set. (table : List RowView) → IsRowSet rows.now.width table → IsPermuted rows.now.width columns.now table rows.now.rows
        → IsPermuted rows.now.width columns.now (rows_laid relation table marks.now) set.rows) }
{
    let _width = rows.width();
    let edits = edits_in(columns, relation, marks)?;
    let set = rows.laid(edits.gone, edits.come)?;
    Ok(set)
}

impl Index {
    /// The index of these rows on these columns, made by one sort, in threads where the rows are many.
    pub(crate) fn on<R: Threads + Sync>(rt: &R, rows: &Rows, perm: &Perm) -> Result<Index, NoMemory>
        requires some { 1 ≤ rows.now.width }
        requires perm { IsPermOf rows.now.width perm.now }
        ensures columns { IfOk result (λ index. index.columns ≡ perm.now) }
        ensures indexed { IfOk result (λ index. IsIndexed rows.now.width rows.now.rows index) }
    {
        let width = rows.width();
        let columns = Columns::from_slice(perm.allocator(), perm.as_slice());
        let mut list = permuted_rows(perm.allocator(), rows, perm.as_slice())?;
        sort_rows(rt, &mut list);
        let rows = Rows::from_sorted(width, Items::from_vec(list))?;
        Ok(Index {
            columns,
            rows,
            idle: 0,
        })
    }

    /// The index with the marks of its relation laid on it.
    pub(crate) fn laid(&self, relation: u32, marks: &Marks) -> Result<Index, NoMemory>
        requires indexed { (table : List RowView) × IsRowSet self.now.rows.width table × IsPermuted self.now.rows.width self.now.columns table self.now.rows.rows }
        requires fit { AllByRecursion (λ (m : MarkType). m.relation ≡ relation → IsRow self.now.rows.width m.row) marks.now }
        ensures { IfOk result (λ index. index ≡ index_laid relation marks.now self.now) }
    {
        let _width = self.rows.width();
        let columns = self.columns.copy();
        let rows = rows_with(&self.rows, &self.columns, relation, marks)?;
        let _width = rows.width();
        Ok(Index {
            columns,
            rows,
            idle: self.idle,
        })
    }

    /// Puts a row of the relation in, or takes it out, in place.
    pub(crate) fn edit(&mut self, row: &Row, plus: bool) -> Result<(), NoMemory>
        requires perm { IsPermOf self.old.rows.width self.old.columns }
        requires row { IsRow self.old.rows.width row.now }
        ensures index { OnOk result (self.new ≡ index_edited row.now plus self.old) }
        ensures width { self.new.rows.width ≡ self.old.rows.width }
        ensures columns { self.new.columns ≡ self.old.columns }
    {
        let _width = self.rows.width();
        let row = permuted_row(self.columns.allocator(), self.columns.as_slice(), row);
        self.rows.edit(&row, plus)?;
        Ok(())
    }

    /// The same index, with a second owner of its rows.
    pub(crate) fn share(&self) -> Result<Index, NoMemory>
        ensures { IfOk result (λ index. index ≡ self.now) }
    {
        let columns = self.columns.copy();
        let rows = self.rows.share()?;
        Ok(Index {
            columns,
            rows,
            idle: self.idle,
        })
    }
}
