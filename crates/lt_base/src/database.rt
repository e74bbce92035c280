//! `Database`: relations by number.
ghost use Rattle.std.specs.Prelude.{◌≡◌, ◌≢◌, ◌<◌, ◌≤◌, ◌^◌, ◌||◌, ◌&&◌, ◌==◌, ℕ, List, true, false, [], ◌∷◌, ◌++◌, map, length, is_some, slice_get, IfOk, OnOk, IsTrue};
ghost use Rattle.std.specs.Arc.{arc_value};
ghost use Rattle.std.specs.List.{AllByRecursion};
ghost use Rattle.std.specs.Option.{option_copied};
ghost use Rattle.lt_face.specs.Limits.{most_columns};
ghost use Rattle.lt_face.specs.Rows.{IsRow, has_row};
ghost use Rattle.lt_face.specs.State.{Relation as RelationView, rows_in, row_eq};
ghost use Rattle.lt_model.specs.declared.mark.Mark.{Mark as MarkType};
ghost use Rattle.lt_model.specs.Fits.{FitMarks, IsWide};
ghost use Rattle.lt_model.specs.Marks.{laid};
ghost use Rattle.lt_model.specs.State.{IsState};
ghost use Rattle.lt_delta.specs.Columns.{IsPermOf};
ghost use Rattle.lt_base.specs.Tables.{Table, IsTable, state_of, relation_of, has_columns, has_index};
ghost use Rattle.lt_base.specs.Edited.{table_edited};
ghost use Rattle.lt_base.specs.Shown.{table_laid, tables_laid};
ghost use Rattle.lt_over.specs.Edits.{is_change};

use crate::relation::Relation;
use lt_delta::Marks;
use lt_face::indexes::Indexes;
use lt_face::items::Perm;
use lt_face::memory::NoMemory;
use lt_face::row::Row;
use lt_face::row_set::RowReads;
use lt_over::SharedOver;
use std::alloc::Global;
use std::marker::Model;
use std::sync::Arc;
use std::thread::Threads;

/// The rows of a relation, or of an index.
pub type Rows = SharedOver;

/// Relations by number, from 0 on. Databases share the relations in which they don't differ.
#[derive(Drop)]
pub struct Database {
    relations: Vec<Arc<Relation>>,
}

impl Model for Database {
    ghost use Rattle.std.specs.Prelude.{List, map};
    ghost use Rattle.std.specs.Arc.{arc_value};
    ghost use Rattle.lt_base.specs.Tables.{Table};

    ghost Value = { List Table };

    ghost view = { λ d. map arc_value d.relations.items };
}

/// Whether one of the marks, which are all looked at, names the relation.
fn is_among(marks: &Marks, relation: usize) -> bool
    ensures named { IsTrue result → relation < 2 ^ 32 }
    ensures unnamed { result ≡ false → AllByRecursion (λ (m : MarkType). m.relation ≢ relation) marks.now }
{
    for i in 0..marks.len() {
        let mark = marks.mark(i);
        if mark.relation as usize == relation {
            return true;
        }
    }
    false
}

/// Whether a mark names the relation: found by a binary search, where the number is one that a mark can have.
fn is_named(marks: &Marks, relation: usize) -> bool
    ensures named { IsTrue result → relation < 2 ^ 32 }
    ensures unnamed { result ≡ false → AllByRecursion (λ (m : MarkType). m.relation ≢ relation) marks.now }
{
    if relation <= u32::MAX as usize {
        return marks.is_on(relation as u32);
    }
    is_among(marks, relation)
}

/// The relation of this number with the marks laid on it. Where none names it, it is shared.
fn relation_laid(
    alloc: Global,
    relation: &Arc<Relation>,
    number: usize,
    marks: &Marks,
) -> Result<Arc<Relation>, NoMemory>
    requires { AllByRecursion (λ (m : MarkType). m.relation ≡ number → IsRow (arc_value relation.now).width m.row) marks.now }
    ensures { IfOk result (λ laid. arc_value laid ≡ table_laid number (arc_value relation.now) marks.now) }
{
    if !is_named(marks, number) {
        let same = relation.clone()?;
        return Ok(same);
    }
    let laid = relation.laid(number as u32, marks)?;
    let laid = Arc::new(alloc, laid)?;
    Ok(laid)
}

/// Looks at each relation.
fn look_over(relations: &Vec<Arc<Relation>>)
    ensures { AllByRecursion IsTable (map arc_value relations.now.items) }
{
    for relation in relations {
        let _width = relation.rows().width();
    }
}

/// The same relations, with second owners.
fn shared(relations: &Vec<Arc<Relation>>) -> Result<Vec<Arc<Relation>>, NoMemory>
    ensures { IfOk result (λ shared. map arc_value shared.items ≡ map arc_value relations.now.items) }
{
    let mut shared = Vec::new(*relations.allocator());
    for relation in relations {
        let relation = relation.clone()?;
        shared.push(relation)?;
    }
    Ok(shared)
}

/// Puts a row into the relation, or takes it out, in place. Where another database has the relation too, it is copied, unless nothing
/// changes. Answers whether something did.
fn edit_relation(
    alloc: Global,
    relation: &mut Arc<Relation>,
    row: &Row,
    plus: bool,
) -> Result<bool, NoMemory>
    requires { IsRow (arc_value relation.old).width row.now }
    ensures table { OnOk result (arc_value relation.new ≡ table_edited row.now plus (arc_value relation.old)) }
    ensures changed { IfOk result (λ changed. changed ≡ is_change (arc_value relation.old).rows row.now plus) }
{
    match Arc::get_mut(relation) {
        Some(own) => own.edit(row, plus),
        None => {
            let _width = relation.rows().width();
            if relation.rows().has(row) == plus {
                return Ok(false);
            }
            let mut own = relation.share()?;
            let changed = own.edit(row, plus)?;
            *relation = Arc::new(alloc, own)?;
            Ok(changed)
        }
    }
}

/// One more batch has written the relation, where no other database has it.
fn age_relation(relation: &mut Arc<Relation>)
    ensures { relation_of (arc_value relation.new) ≡ relation_of (arc_value relation.old) }
{
    match Arc::get_mut(relation) {
        Some(own) => own.age(),
        None => {}
    }
}

/// The relation with the index, which is needed now: made by one sort where it lacks.
fn with_used_index<R: Threads + Sync>(
    rt: &R,
    relation: &Relation,
    perm: &Perm,
) -> Result<Relation, NoMemory>
    requires perm { IsPermOf relation.now.width perm.now }
    ensures there { has_columns relation.now perm.now ≡ true → IfOk result (λ with. with ≡ relation.now) }
    ensures new { has_columns relation.now perm.now ≡ false → IfOk result (λ with. with ≡ record relation.now { others = relation.now.others ++ perm.now ∷ [] }) }
{
    if relation.index(perm).is_some() {
        let used = relation.used(perm)?;
        return Ok(used);
    }
    let with = relation.with_index(rt, perm)?;
    Ok(with)
}

impl Database {
    /// The database without relations.
    pub fn empty(alloc: Global) -> Database
        ensures { result ≡ [] }
    {
        Database {
            relations: Vec::new(alloc),
        }
    }

    /// The database with one more relation, of this width and without rows. Its number is the old count.
    pub fn declared(&self, width: usize) -> Result<Database, NoMemory>
        requires { (1 ≤ width) × (width ≤ most_columns) }
        ensures tables { IfOk result (λ db. db ≡ self.now ++ record { width = width; rows = []; others = [] } ∷ []) }
        ensures state { IfOk result (λ db. state_of db ≡ state_of self.now ++ record { width = width; rows = [] } ∷ []) }
    {
        let alloc = *self.relations.allocator();
        let mut relations = shared(&self.relations)?;
        let empty = Relation::empty(alloc, width)?;
        let empty = Arc::new(alloc, empty)?;
        relations.push(empty)?;
        Ok(Database { relations })
    }

    /// How many relations there are.
    pub fn count(&self) -> usize
        ensures { result ≡ length (state_of self.now) }
    {
        self.relations.len()
    }

    /// Looks at each relation: its rows ascend strictly, and are as wide as it, which has 1 to 8 columns.
    pub fn look_over(&self)
        ensures state { IsState (state_of self.now) }
        ensures wide { AllByRecursion (λ (relation : RelationView). (1 ≤ relation.width) × (relation.width ≤ most_columns)) (state_of self.now) }
    {
        look_over(&self.relations);
    }

    /// The relation of this number.
    fn relation(&self, number: u32) -> Option<&Relation>
        ensures { option_copied result ≡ slice_get self.now number }
    {
        let place = number as usize;
        if place >= self.relations.len() {
            return None;
        }
        let relation: &Relation = &self.relations[place];
        Some(relation)
    }

    /// The rows of a relation.
    pub fn rows(&self, relation: u32) -> Option<&Rows>
        ensures { option_copied result ≡ slice_get (state_of self.now) relation }
    {
        match self.relation(relation) {
            Some(relation) => Some(relation.rows()),
            None => None,
        }
    }

    /// Whether a relation has the row.
    pub fn has(&self, relation: u32, row: &Row) -> bool
        ensures { result ≡ has_row (rows_in (state_of self.now) relation) row.now }
    {
        match self.rows(relation) {
            Some(rows) => rows.has(row),
            None => false,
        }
    }

    /// The same relations, one of them with an index on its columns in this order, made by one sort, in threads where the
    /// rows are many. A database that has the index already is shared.
    pub fn with_index<R: Threads + Sync>(
        &self,
        rt: &R,
        relation: u32,
        perm: &Perm,
    ) -> Result<Database, NoMemory>
        requires there { relation < length (state_of self.now) }
        requires perm { (width : ℕ) → IsWide (state_of self.now) relation width → IsPermOf width perm.now }
        ensures state { IfOk result (λ db. state_of db ≡ state_of self.now) }
        ensures indexes { IfOk result (λ db. (r : ℕ) (columns : List ℕ) →
            has_index db r columns ≡ (has_index self.now r columns || (r == relation && row_eq columns perm.now))) }
        ensures same { IfOk result (λ db. has_index self.now relation perm.now ≡ true → db ≡ self.now) }
    {
        if self.is_in_use(relation, perm) {
            let same = self.share()?;
            return Ok(same);
        }
        let place = relation as usize;
        let alloc = *self.relations.allocator();
        let mut relations = shared(&self.relations)?;
        let indexed = with_used_index(rt, &relations[place], perm)?;
        let indexed = Arc::new(alloc, indexed)?;
        relations[place] = indexed;
        Ok(Database { relations })
    }

    /// The database with the marks laid on each index of their relations.
    pub fn laid(&self, marks: &Marks) -> Result<Database, NoMemory>
        requires { FitMarks (state_of self.now) marks.now }
        ensures state { IfOk result (λ db. state_of db ≡ laid (state_of self.now) marks.now) }
        ensures indexes { IfOk result (λ db. (relation : ℕ) (columns : List ℕ) →
            has_index db relation columns ≡ has_index self.now relation columns) }
    {
        let relations = all_laid(&self.relations, marks)?;
        Ok(Database { relations })
    }

    /// Whether there is the index, and it was needed of late.
    pub fn is_in_use(&self, relation: u32, perm: &Perm) -> bool
        ensures { IsTrue result → has_index self.now relation perm.now ≡ true }
    {
        match self.relation(relation) {
            Some(relation) => relation.is_in_use(perm),
            None => false,
        }
    }

    /// Puts a row into a relation, or takes it out, in place: what other databases have, too, is copied once. Answers whether that changed
    /// the database. After want of memory it is no more than let go.
    pub fn edit(&mut self, relation: u32, row: &Row, plus: bool) -> Result<bool, NoMemory>
        requires { FitMarks (state_of self.old) (record { relation = relation; row = row.now; plus = plus } ∷ []) }
        ensures state { OnOk result (state_of self.new ≡ laid (state_of self.old) (record { relation = relation; row = row.now; plus = plus } ∷ [])) }
        ensures changed { IfOk result (λ changed. changed ≡ is_change (rows_in (state_of self.old) relation) row.now plus) }
        ensures indexes { OnOk result ((r : ℕ) (columns : List ℕ) → has_index self.new r columns ≡ has_index self.old r columns) }
    {
        let alloc = *self.relations.allocator();
        let changed = edit_relation(alloc, &mut self.relations[relation as usize], row, plus)?;
        Ok(changed)
    }

    /// Lays the marks, in place.
    pub fn lay(&mut self, marks: &Marks) -> Result<(), NoMemory>
        requires { FitMarks (state_of self.old) marks.now }
        ensures state { OnOk result (state_of self.new ≡ laid (state_of self.old) marks.now) }
        ensures indexes { OnOk result ((relation : ℕ) (columns : List ℕ) → has_index self.new relation columns ≡ has_index self.old relation columns) }
    {
        for i in 0..marks.len() {
            let mark = marks.mark(i);
            self.edit(mark.relation, &mark.row, mark.plus)?;
        }
        Ok(())
    }

    /// A batch is over: of the relations that it wrote the indexes go that no program has needed for long.
    pub fn age(&mut self)
        ensures { state_of self.new ≡ state_of self.old }
    {
        for i in 0..self.relations.len() {
            age_relation(&mut self.relations[i]);
        }
    }

    /// A second owner of the same relations and indexes.
    pub fn share(&self) -> Result<Database, NoMemory>
        ensures { IfOk result (λ db. db ≡ self.now) }
    {
        let relations = shared(&self.relations)?;
        Ok(Database { relations })
    }
}

/// The relations with the marks laid on them.
fn all_laid(relations: &Vec<Arc<Relation>>, marks: &Marks) -> Result<Vec<Arc<Relation>>, NoMemory>
    requires { FitMarks (state_of (map arc_value relations.now.items)) marks.now }
    ensures { IfOk result (λ laid. map arc_value laid.items ≡ tables_laid 0 (map arc_value relations.now.items) marks.now) }
{
    let alloc = *relations.allocator();
    let mut laid = Vec::new(alloc);
    for (number, relation) in relations.iter().enumerate() {
        let relation = relation_laid(alloc, relation, number, marks)?;
        laid.push(relation)?;
    }
    Ok(laid)
}

impl Indexes for Database {
    type Rows = Rows;

    ghost state = { state_of };

    ghost has_index = { has_index };

    fn index(&self, relation: u32, perm: &Perm) -> Option<&Rows> {
        match self.relation(relation) {
            Some(relation) => relation.index(perm),
            None => None,
        }
    }
}
