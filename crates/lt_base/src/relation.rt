//! A relation of a database.
ghost use Rattle.std.specs.Prelude.{◌≡◌, ◌≤◌, ℕ, List, [], ◌∷◌, ◌++◌, map, true, IfOk, OnOk, IfSome, IsTrue, is_some};
ghost use Rattle.std.specs.List.{AllByRecursion, list_any};
ghost use Rattle.lt_face.specs.Limits.{most_columns};
ghost use Rattle.lt_face.specs.Rows.{IsRow, IsRowSet};
ghost use Rattle.lt_face.specs.Lists.{IsIn};
ghost use Rattle.lt_face.specs.State.{Row as RowView, IsIndexOf, row_eq};
ghost use Rattle.lt_model.specs.declared.mark.Mark.{Mark as MarkType};
ghost use Rattle.lt_delta.specs.Laying.{rows_laid};
ghost use Rattle.lt_delta.specs.Columns.{IsPermOf, IsPermuted};
ghost use Rattle.lt_base.specs.Tables.{relation_of, has_columns};
ghost use Rattle.lt_base.specs.Edited.{table_edited};
ghost use Rattle.lt_base.specs.Indexed.{IsIndexed, index_edited, index_laid};
ghost use Rattle.lt_over.specs.Edits.{edited, is_change};

use crate::columns::{is_own_order, is_same_order, own_columns};
use crate::database::Rows;
use crate::index::{Index, rows_with};
use lt_delta::Marks;
use lt_face::items::Perm;
use lt_face::memory::NoMemory;
use lt_face::row::Row;
use lt_face::row_set::{RowReads, RowSet};
use std::alloc::Global;
use std::marker::Model;
use std::thread::Threads;

/// An index goes where so many batches have written its relation and, as far as is known, no program needed it.
const IDLE: u32 = 96;

/// A need of the index isn't noted again before so many batches.
const LATE: u32 = 32;

/// The rows with their cells in the order of the columns, and the same rows in other orders.
#[derive(Drop)]
pub(crate) struct Relation {
    first: Rows,
    others: Vec<Index>,
}

impl Model for Relation {
    ghost use Rattle.std.specs.Prelude.{◌≤◌, map};
    ghost use Rattle.std.specs.List.{AllByRecursion};
    ghost use Rattle.lt_base.specs.Tables.{Table};
    ghost use Rattle.lt_base.specs.Indexed.{IsIndexed};

    ghost Value = { Table };

    ghost view = { λ r. record { width = r.first.width; rows = r.first.rows; others = map (λ i. i.columns) r.others.items } };

    ghost invariant = { λ r. (1 ≤ r.first.width) × AllByRecursion (IsIndexed r.first.width r.first.rows) r.others.items };
}

/// The index on these columns among others.
fn found<'a>(others: &'a [Index], perm: &Perm) -> Option<&'a Index>
    ensures there { is_some result ≡ list_any (row_eq perm.now) (map (λ i. i.columns) others.now) }
    ensures found { IfSome result (λ index. (index.now.columns ≡ perm.now) × IsIn index.now others.now) }
{
    for index in others {
        if is_same_order(index.columns.as_slice(), perm.as_slice()) {
            return Some(index);
        }
    }
    None
}

/// The indexes with the marks of their relation laid on them.
fn all_laid(others: &Vec<Index>, relation: u32, marks: &Marks) -> Result<Vec<Index>, NoMemory>
    requires indexed { AllByRecursion (λ index. (table : List RowView) × IsRowSet index.rows.width table × IsPermuted index.rows.width index.columns table index.rows.rows) others.now.items }
    requires fit { AllByRecursion (λ index. AllByRecursion (λ (m : MarkType). m.relation ≡ relation → IsRow index.rows.width m.row) marks.now) others.now.items }
    ensures { IfOk result (λ laid. laid.items ≡ map (index_laid relation marks.now) others.now.items) }
{
    let mut laid = Vec::new(*others.allocator());
    for index in others {
        let index = index.laid(relation, marks)?;
        laid.push(index)?;
    }
    Ok(laid)
}

/// Puts a row of the relation into each of the indexes, or takes it out, in place.
fn edit_all(others: &mut [Index], row: &Row, plus: bool) -> Result<(), NoMemory>
    requires perms { AllByRecursion (λ index. IsPermOf index.rows.width index.columns) others.old }
    requires rows { AllByRecursion (λ index. IsRow index.rows.width row.now) others.old }
    ensures { OnOk result (others.new ≡ map (index_edited row.now plus) others.old) }
{
    for i in 0..others.len() {
        others[i].edit(row, plus)?;
    }
    Ok(())
}

/// Puts a row into the own order, or takes it out, and where that changed something also in the other indexes, in place.
fn edit_each(
    first: &mut Rows,
    others: &mut [Index],
    row: &Row,
    plus: bool,
) -> Result<bool, NoMemory>
    requires row { IsRow first.old.width row.now }
    requires indexed { AllByRecursion (IsIndexed first.old.width first.old.rows) others.old }
    ensures rows { OnOk result (first.new.rows ≡ edited first.old.rows row.now plus) }
    ensures changed { IfOk result (λ changed. changed ≡ is_change first.old.rows row.now plus) }
    ensures indexed { OnOk result (AllByRecursion (IsIndexed first.new.width first.new.rows) others.new) }
    ensures columns { OnOk result (map (λ index. index.columns) others.new ≡ map (λ index. index.columns) others.old) }
    ensures width { first.new.width ≡ first.old.width }
{
    let _width = first.width();
    let changed = first.edit(row, plus)?;
    if changed {
        edit_all(others, row, plus)?;
    }
    Ok(changed)
}

/// The index on these columns is needed now.
fn note_use(others: &mut [Index], perm: &Perm)
    ensures same { (width : ℕ) (rows : List RowView) → AllByRecursion (IsIndexed width rows) others.old → AllByRecursion (IsIndexed width rows) others.new }
    ensures columns { map (λ index. index.columns) others.new ≡ map (λ index. index.columns) others.old }
{
    for at in 0..others.len() {
        if is_same_order(others[at].columns.as_slice(), perm.as_slice()) {
            others[at].idle = 0;
        }
    }
}

/// One more batch of which it isn't known that it needed the indexes. Those that have gone without for many batches go.
fn age_all(others: &mut Vec<Index>)
    ensures { (width : ℕ) (rows : List RowView) → AllByRecursion (IsIndexed width rows) others.old.items → AllByRecursion (IsIndexed width rows) others.new.items }
{
    let mut at = 0;
    while at < others.len() {
        if others[at].idle >= IDLE {
            drop(others.remove(at));
        } else {
            others[at].idle += 1;
            at += 1;
        }
    }
}

/// The same indexes, each with a second owner of its rows.
fn all_shared(others: &Vec<Index>) -> Result<Vec<Index>, NoMemory>
    ensures { IfOk result (λ shared. shared.items ≡ others.now.items) }
{
    let mut shared = Vec::new(*others.allocator());
    for index in others {
        let index = index.share()?;
        shared.push(index)?;
    }
    Ok(shared)
}

impl Relation {
    /// A relation of this width, without rows.
    pub(crate) fn empty(alloc: Global, width: usize) -> Result<Relation, NoMemory>
        requires { (1 ≤ width) × (width ≤ most_columns) }
        ensures { IfOk result (λ relation. relation ≡ record { width = width; rows = []; others = [] }) }
    {
        let first = Rows::empty(alloc, width)?;
        Ok(Relation {
            first,
            others: Vec::new(alloc),
        })
    }

    /// The rows, with their cells in the order of the columns.
    pub(crate) fn rows(&self) -> &Rows
        ensures width { result.now.width ≡ self.now.width }
        ensures rows { result.now.rows ≡ self.now.rows }
        ensures some { 1 ≤ self.now.width }
    {
        &self.first
    }

    /// The rows with their cells in this order of the columns, where there is such an index.
    pub(crate) fn index(&self, perm: &Perm) -> Option<&Rows>
        ensures there { is_some result ≡ has_columns self.now perm.now }
        ensures rows { IfSome result (λ found. IsIndexOf (relation_of self.now ∷ []) 0 perm.now found.now.width found.now.rows) }
    {
        if is_own_order(perm.as_slice(), self.first.width()) {
            return Some(&self.first);
        }
        match found(&self.others, perm) {
            Some(index) => Some(&index.rows),
            None => None,
        }
    }

    /// The relation with one more index.
    pub(crate) fn with_index<R: Threads + Sync>(
        &self,
        rt: &R,
        perm: &Perm,
    ) -> Result<Relation, NoMemory>
        requires perm { IsPermOf self.now.width perm.now }
        ensures { IfOk result (λ relation. relation ≡ record self.now { others = self.now.others ++ perm.now ∷ [] }) }
    {
        let first = self.first.share()?;
        let mut others = all_shared(&self.others)?;
        let index = Index::on(rt, &first, perm)?;
        others.push(index)?;
        Ok(Relation { first, others })
    }

    /// A second owner of the rows of each index.
    pub(crate) fn share(&self) -> Result<Relation, NoMemory>
        ensures { IfOk result (λ relation. relation ≡ self.now) }
    {
        let first = self.first.share()?;
        let others = all_shared(&self.others)?;
        Ok(Relation { first, others })
    }

    /// Puts a row in, or takes it out, in place. Answers whether that changed the relation. After want of memory it has no index but the
    /// one in its own order.
    pub(crate) fn edit(&mut self, row: &Row, plus: bool) -> Result<bool, NoMemory>
        requires { IsRow self.old.width row.now }
        ensures table { OnOk result (self.new ≡ table_edited row.now plus self.old) }
        ensures changed { IfOk result (λ changed. changed ≡ is_change self.old.rows row.now plus) }
    {
        let _width = self.first.width();
        match edit_each(&mut self.first, self.others.as_mut_slice(), row, plus) {
            Ok(changed) => Ok(changed),
            Err(_) => {
                self.others.clear();
                Err(NoMemory)
            }
        }
    }

    /// Whether there is such an index, and it was needed of late.
    pub(crate) fn is_in_use(&self, perm: &Perm) -> bool
        ensures { IsTrue result → has_columns self.now perm.now ≡ true }
    {
        if is_own_order(perm.as_slice(), self.first.width()) {
            return true;
        }
        match found(&self.others, perm) {
            Some(index) => index.idle < LATE,
            None => false,
        }
    }

    /// The same relation. The index is needed now.
    pub(crate) fn used(&self, perm: &Perm) -> Result<Relation, NoMemory>
        ensures { IfOk result (λ relation. relation ≡ self.now) }
    {
        let mut relation = self.share()?;
        note_use(relation.others.as_mut_slice(), perm);
        Ok(relation)
    }

    /// One more batch has written the relation: indexes that none of many batches needed go.
    pub(crate) fn age(&mut self)
        ensures width { self.new.width ≡ self.old.width }
        ensures rows { self.new.rows ≡ self.old.rows }
    {
        let _width = self.first.width();
        age_all(&mut self.others);
    }

    /// The relation of this number with the marks laid on all its indexes.
    pub(crate) fn laid(&self, number: u32, marks: &Marks) -> Result<Relation, NoMemory>
        requires { AllByRecursion (λ (m : MarkType). m.relation ≡ number → IsRow self.now.width m.row) marks.now }
        ensures { IfOk result (λ relation. relation ≡ record self.now { rows = rows_laid number self.now.rows marks.now }) }
    {
        let own = own_columns(*self.others.allocator(), self.first.width());
        let first = rows_with(&self.first, &own, number, marks)?;
        let _width = first.width();
        let others = all_laid(&self.others, number, marks)?;
        Ok(Relation { first, others })
    }
}
