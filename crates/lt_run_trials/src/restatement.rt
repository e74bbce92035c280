//! Programs run where marks are laid on a base, and restated where others are.
ghost use Rattle.std.specs.Prelude.{◌≡◌, ◌⊎◌, ℕ, true, IfOk, OnOk};
ghost use Rattle.std.specs.Arc.{arc_value};
ghost use Rattle.lt_face.specs.Lists.{IsIn};
ghost use Rattle.lt_face.specs.State.{Row as RowView};
ghost use Rattle.lt_model.specs.declared.mark.Mark.{Mark as MarkView};
ghost use Rattle.lt_model.specs.Fits.{Fits, FitMarks};
ghost use Rattle.lt_model.specs.Marks.{laid};
ghost use Rattle.lt_base.specs.Tables.{state_of};
ghost use Rattle.lt_program.specs.Tally.{HasIndexes, has_ended};
ghost use Rattle.lt_restate.specs.Walked.{is_named};
ghost use Rattle.lt_run_trials.specs.Fitting.{AreBoth};

use crate::texts::{joined, program, routed, stocked};
use lt_base::{Database, differing};
use lt_delta::Marks;
use lt_face::items::{Changes, Items};
use lt_face::memory::NoMemory;
use lt_face::moves::Moves;
use lt_model::normal::Prog;
use lt_program::{Tally, indexed, run};
use lt_query::Planned;
use lt_restate::{Touches, restate, restate_marks};
use std::alloc::Global;
use std::sync::Arc;
use std::thread::Threads;

/// A run, and the same program restated where marks changed its base: with these touches by the marks, and with those by the rows that
/// changed.
#[derive(Drop)]
pub(crate) struct Restatement {
    pub old: Tally,
    pub new: Tally,
    pub touches: Touches,
    pub named: Touches,
}

/// The marks of a program on the base.
fn marks_of<R: Threads + Sync>(
    rt: &R,
    alloc: Global,
    base: &Database,
    statements: &str,
) -> Result<Marks, NoMemory>
    requires { AreBoth (state_of base.now) }
    ensures { IfOk result (λ marks. FitMarks (state_of base.now) marks) }
{
    let prog = program(alloc, statements)?;
    let tally = joined(rt, alloc, base, prog)?;
    let marks = tally.marks().share()?;
    drop(tally);
    Ok(marks)
}

/// The database that a program runs on: marks laid on one that has its indexes.
fn corrected(db: &Database, _prog: &Arc<Planned>, marks: &Marks) -> Result<Database, NoMemory>
    requires fits { Fits (state_of db.now) (arc_value _prog.now) }
    requires indexes { HasIndexes db.now (arc_value _prog.now) }
    requires marks { FitMarks (state_of db.now) marks.now }
    ensures state { IfOk result (λ next. state_of next ≡ laid (state_of db.now) marks.now) }
    ensures fits { IfOk result (λ next. Fits (state_of next) (arc_value _prog.now)) }
    ensures indexes { IfOk result (λ next. HasIndexes next (arc_value _prog.now)) }
{
    let next = db.laid(marks)?;
    Ok(next)
}

/// The run of the program where the marks are laid on the database.
fn ran(db: &Database, prog: &Arc<Planned>, marks: &Marks) -> Result<Tally, NoMemory>
    requires fits { Fits (state_of db.now) (arc_value prog.now) }
    requires indexes { HasIndexes db.now (arc_value prog.now) }
    requires marks { FitMarks (state_of db.now) marks.now }
    ensures program { IfOk result (λ t. t.program ≡ arc_value prog.now) }
    ensures base { IfOk result (λ t. state_of t.base ≡ laid (state_of db.now) marks.now) }
    ensures ended { IfOk result (λ t. has_ended t ≡ true) }
{
    let base = corrected(db, prog, marks)?;
    let mut moves: Moves<()> = Moves::new();
    let tally = run(prog, &base, &mut moves)?;
    Ok(tally)
}

/// The program restated where the second marks are laid on the database, by its run where the first are.
fn again(
    db: &Database,
    prog: &Arc<Planned>,
    old: &Tally,
    first: &Marks,
    second: &Marks,
) -> Result<(Tally, Touches), NoMemory>
    requires fits { Fits (state_of db.now) (arc_value prog.now) }
    requires indexes { HasIndexes db.now (arc_value prog.now) }
    requires first { FitMarks (state_of db.now) first.now }
    requires second { FitMarks (state_of db.now) second.now }
    requires program { old.now.program ≡ arc_value prog.now }
    requires base { state_of old.now.base ≡ laid (state_of db.now) first.now }
    requires ended { has_ended old.now ≡ true }
{
    let next = corrected(db, prog, second)?;
    let mut moves: Moves<()> = Moves::new();
    let out = restate_marks(old, &next, first, second, &mut moves)?;
    Ok(out)
}

/// Adds the rows of the marks.
fn add_named(named: &mut Changes, marks: &Marks) -> Result<(), NoMemory>
    ensures stay { OnOk result ((change : ℕ × RowView) → IsIn change named.old → IsIn change named.new) }
    ensures all { OnOk result ((mark : MarkView) → IsIn mark marks.now → IsIn (mark.relation, mark.row) named.new) }
{
    for i in 0..marks.len() {
        let mark = marks.mark(i);
        named.push((mark.relation, mark.row.copy_row()))?;
    }
    Ok(())
}

/// The rows that one of two lists marks.
fn named_by(alloc: Global, first: &Marks, second: &Marks) -> Result<Changes, NoMemory>
    ensures { IfOk result (λ named. (relation : ℕ) (row : RowView) → (is_named first.now relation row ≡ true) ⊎ (is_named second.now relation row ≡ true) → IsIn (relation, row) named) }
{
    let mut named = Items::new(alloc);
    add_named(&mut named, first)?;
    add_named(&mut named, second)?;
    Ok(named)
}

/// As `again`, by the rows that one of the lists marks and that changed.
fn again_by_name(
    db: &Database,
    prog: &Arc<Planned>,
    old: &Tally,
    first: &Marks,
    second: &Marks,
) -> Result<(Tally, Touches), NoMemory>
    requires fits { Fits (state_of db.now) (arc_value prog.now) }
    requires indexes { HasIndexes db.now (arc_value prog.now) }
    requires first { FitMarks (state_of db.now) first.now }
    requires second { FitMarks (state_of db.now) second.now }
    requires program { old.now.program ≡ arc_value prog.now }
    requires base { state_of old.now.base ≡ laid (state_of db.now) first.now }
    requires ended { has_ended old.now ≡ true }
{
    differing();
    let next = corrected(db, prog, second)?;
    let all = named_by(prog.allocator(), first, second)?;
    let named = Database::changes(old.base(), &next, &all)?;
    let mut moves: Moves<()> = Moves::new();
    let out = restate(old, &next, &named, &mut moves)?;
    Ok(out)
}

/// The program run where the one correction is laid on the base, and restated both ways where the other is.
fn restated<R: Threads + Sync>(
    rt: &R,
    alloc: Global,
    base: &Database,
    prog: Prog,
    first: &Marks,
    second: &Marks,
) -> Result<Restatement, NoMemory>
    requires fits { Fits (state_of base.now) prog }
    requires first { FitMarks (state_of base.now) first.now }
    requires second { FitMarks (state_of base.now) second.now }
{
    let shared = routed(alloc, base, prog)?;
    let db = indexed(rt, base, &shared)?;
    let old = ran(&db, &shared, first)?;
    let (new, touches) = again(&db, &shared, &old, first, second)?;
    let (_, named) = again_by_name(&db, &shared, &old, first, second)?;
    Ok(Restatement {
        old,
        new,
        touches,
        named,
    })
}

/// The program of some statements, run where the rows that others left had the marks of the first ones, and restated where
/// they have those of the second ones.
pub(crate) fn restated_by<R: Threads + Sync>(
    rt: &R,
    alloc: Global,
    stock: &str,
    statements: &str,
    first: &str,
    second: &str,
) -> Result<Restatement, NoMemory> {
    let base = stocked(rt, alloc, stock)?;
    let first = marks_of(rt, alloc, &base, first)?;
    let second = marks_of(rt, alloc, &base, second)?;
    let prog = program(alloc, statements)?;
    restated(rt, alloc, &base, prog, &first, &second)
}
