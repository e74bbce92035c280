//! What a statement writes, made in a database in place, and how it is taken back.
ghost use Rattle.std.specs.Prelude.{◌≡◌, ◌++◌, ◌∷◌, [], ℕ, List, true, false, not, OnOk};
ghost use Rattle.lt_model.specs.Effect.{displacing, marks_on};
ghost use Rattle.lt_model.specs.Fits.{FitMarks};
ghost use Rattle.lt_model.specs.Marks.{and_then};
ghost use Rattle.lt_model.specs.State.{IsState};
ghost use Rattle.lt_base.specs.Tables.{state_of, has_index};
ghost use Rattle.lt_program.specs.Kept.{IsOrdered, displaced_rows, first_rows, inserted_by, replaced_by, second_rows, written_by};
ghost use Rattle.lt_program.specs.Undo.{IsWritten, undone};

use crate::kept::{displaced_of, first_of, is_keyed, second_of};
use crate::part::Found;
use lt_base::Database;
use lt_face::memory::NoMemory;
use lt_face::row::Row;
use lt_model::mark::Mark;
use lt_model::normal::Stmt;

/// Notes what undoes an edit that changed something, where edits are noted.
fn note(
    undo: &mut Vec<Mark>,
    relation: u32,
    row: &Row,
    plus: bool,
    changed: bool,
    logs: bool,
) -> Result<(), NoMemory>
    ensures idle { OnOk result (changed ≡ false → undo.new.items ≡ undo.old.items) }
    ensures noted { OnOk result (changed ≡ true → logs ≡ true → undo.new.items ≡ undo.old.items ++ record { relation = relation; row = row.now; plus = not plus } ∷ []) }
{
    if !changed {
        return Ok(());
    }
    if !logs {
        return Ok(());
    }
    undo.push(Mark {
        relation,
        row: row.copy_row(),
        plus: !plus,
    })?;
    Ok(())
}

/// Puts rows into a relation, or takes them out. Where `logs` is set, the edits that undo what that changed are noted.
fn write_rows(
    db: &mut Database,
    relation: u32,
    rows: &[Row],
    plus: bool,
    undo: &mut Vec<Mark>,
    logs: bool,
) -> Result<(), NoMemory>
    requires state { IsState (state_of db.old) }
    requires fits { FitMarks (state_of db.old) (marks_on relation plus rows.now) }
    ensures { OnOk result (IsWritten (marks_on relation plus rows.now) logs db.old db.new undo.old.items undo.new.items) }
{
    for row in rows {
        let changed = db.edit(relation, row, plus)?;
        note(undo, relation, row, plus, changed, logs)?;
    }
    Ok(())
}

/// Takes displaced rows out of a relation, and then puts rows in.
fn write_coming(
    db: &mut Database,
    relation: u32,
    outcome: &Found,
    undo: &mut Vec<Mark>,
    logs: bool,
) -> Result<(), NoMemory>
    requires state { IsState (state_of db.old) }
    requires ordered { IsOrdered outcome.now }
    requires fits { FitMarks (state_of db.old) (displacing relation (displaced_rows outcome.now) (second_rows outcome.now)) }
    ensures { OnOk result (IsWritten (displacing relation (displaced_rows outcome.now) (second_rows outcome.now)) logs db.old db.new undo.old.items undo.new.items) }
{
    let gone = displaced_of(outcome);
    write_rows(db, relation, gone, false, undo, logs)?;
    let come = second_of(outcome);
    write_rows(db, relation, come, true, undo, logs)?;
    Ok(())
}

/// Makes what an `insert` writes.
fn write_inserted(
    db: &mut Database,
    relation: u32,
    outcome: &Found,
    undo: &mut Vec<Mark>,
    logs: bool,
) -> Result<(), NoMemory>
    requires state { IsState (state_of db.old) }
    requires ordered { IsOrdered outcome.now }
    requires fits { FitMarks (state_of db.old) (inserted_by relation outcome.now) }
    ensures { OnOk result (IsWritten (inserted_by relation outcome.now) logs db.old db.new undo.old.items undo.new.items) }
{
    if is_keyed(outcome) {
        write_coming(db, relation, outcome, undo, logs)?;
        return Ok(());
    }
    let rows = first_of(outcome);
    write_rows(db, relation, rows, true, undo, logs)?;
    Ok(())
}

/// Makes what a `replace` writes: rows go from one relation, and then rows come into another.
fn write_replaced(
    db: &mut Database,
    left: u32,
    entered: u32,
    outcome: &Found,
    undo: &mut Vec<Mark>,
    logs: bool,
) -> Result<(), NoMemory>
    requires state { IsState (state_of db.old) }
    requires ordered { IsOrdered outcome.now }
    requires fits { FitMarks (state_of db.old) (and_then (marks_on left false (first_rows outcome.now)) (replaced_by entered outcome.now)) }
    ensures { OnOk result (IsWritten (and_then (marks_on left false (first_rows outcome.now)) (replaced_by entered outcome.now)) logs db.old db.new undo.old.items undo.new.items) }
{
    let gone = first_of(outcome);
    write_rows(db, left, gone, false, undo, logs)?;
    write_coming(db, entered, outcome, undo, logs)?;
    Ok(())
}

/// Makes what the statement writes by this outcome.
pub(crate) fn write(
    db: &mut Database,
    stmt: &Stmt,
    outcome: &Found,
    undo: &mut Vec<Mark>,
    logs: bool,
) -> Result<(), NoMemory>
    requires state { IsState (state_of db.old) }
    requires ordered { IsOrdered outcome.now }
    requires fits { FitMarks (state_of db.old) (written_by stmt.now outcome.now) }
    ensures { OnOk result (IsWritten (written_by stmt.now outcome.now) logs db.old db.new undo.old.items undo.new.items) }
{
    match stmt {
        Stmt::Insert { head, .. } => write_inserted(db, head.relation, outcome, undo, logs),
        Stmt::Delete { head, .. } => {
            let gone = first_of(outcome);
            write_rows(db, head.relation, gone, false, undo, logs)
        }
        Stmt::Replace { gone, come, .. } => {
            write_replaced(db, gone.relation, come.relation, outcome, undo, logs)
        }
        Stmt::Require { .. } => Ok(()),
        Stmt::Print { .. } => Ok(()),
    }
}

/// Takes back what was written: makes the edits that were noted, the last one first.
pub(crate) fn take_back(db: &mut Database, undo: &[Mark]) -> Result<(), NoMemory>
    requires { FitMarks (state_of db.old) undo.now }
    ensures state { OnOk result (state_of db.new ≡ undone (state_of db.old) undo.now) }
    ensures indexes { OnOk result ((r : ℕ) (columns : List ℕ) → has_index db.new r columns ≡ has_index db.old r columns) }
{
    let mut left = undo.len();
    'edits: while left > 0 {
        left -= 1;
        let mark = &undo[left];
        db.edit(mark.relation, &mark.row, mark.plus)?;
    }
    Ok(())
}
