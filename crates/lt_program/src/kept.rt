//! What a statement does, by its outcome alone.
ghost use Rattle.std.specs.Prelude.{◌≡◌, false, true, IfOk};
ghost use Rattle.lt_face.specs.Rows.{IsAscending};
ghost use Rattle.lt_program.specs.Displacing.{HaveOneWidth};
ghost use Rattle.lt_program.specs.Effect.{view};
ghost use Rattle.lt_model.specs.Effect.{displacing, marks_on};
ghost use Rattle.lt_model.specs.Marks.{and_then};
ghost use Rattle.lt_program.specs.Kept.{IsOrdered, first_rows, second_rows, displaced_rows, truth_in, is_keyed as is_keyed_in, clashes_in, inserted_by, replaced_by, coming_by, written_by as writes, refused_by as refuses, marks_past as marks_after, effect_by as does};

use crate::copying::copied;
use crate::displacing::clash;
use crate::effect::{Effect, marked};
use crate::part::Found;
use lt_delta::Marks;
use lt_face::items::{Items, RowList};
use lt_face::memory::NoMemory;
use lt_face::row::Row;
use lt_model::kind::KindList;
use lt_model::normal::Stmt;
use std::alloc::Global;

/// The answers of the one head, or of the one whose rows go.
pub(crate) fn first_of(outcome: &Found) -> &[Row]
    ensures { result.now ≡ first_rows outcome.now }
{
    match outcome {
        Found::Rows(rows) => rows.as_slice(),
        Found::Both(gone, _) => gone.as_slice(),
        Found::Keyed(gone, _, _) => gone.as_slice(),
        Found::Truth(_) => &[],
    }
}

/// The answers of the one head, or of the one whose rows go; the rest is given up.
pub(crate) fn into_first(alloc: Global, outcome: Found) -> RowList
    ensures { result ≡ first_rows outcome }
{
    match outcome {
        Found::Rows(rows) => rows,
        Found::Both(gone, _) => gone,
        Found::Keyed(gone, _, _) => gone,
        Found::Truth(_) => Items::new(alloc),
    }
}

/// The answers of the head whose rows come.
pub(crate) fn second_of(outcome: &Found) -> &[Row]
    ensures { result.now ≡ second_rows outcome.now }
{
    match outcome {
        Found::Rows(_) => &[],
        Found::Both(_, come) => come.as_slice(),
        Found::Keyed(_, come, _) => come.as_slice(),
        Found::Truth(_) => &[],
    }
}

/// The rows that these displace.
pub(crate) fn displaced_of(outcome: &Found) -> &[Row]
    ensures { result.now ≡ displaced_rows outcome.now }
{
    match outcome {
        Found::Rows(_) => &[],
        Found::Both(_, _) => &[],
        Found::Keyed(_, _, displaced) => displaced.as_slice(),
        Found::Truth(_) => &[],
    }
}

/// The marks of the displaced rows, and then those of the rows that come.
fn marked_coming(alloc: Global, relation: u32, outcome: &Found) -> Result<Marks, NoMemory>
    requires second { IsAscending (second_rows outcome.now) }
    requires displaced { IsAscending (displaced_rows outcome.now) }
    ensures { IfOk result (λ marks. marks ≡ displacing relation (displaced_rows outcome.now) (second_rows outcome.now)) }
{
    let gone = marked(alloc, relation, false, displaced_of(outcome))?;
    let come = marked(alloc, relation, true, second_of(outcome))?;
    let marks = Marks::and_then(&gone, &come)?;
    Ok(marks)
}

/// Whether rows came into a relation with value columns.
pub(crate) fn is_keyed(outcome: &Found) -> bool
    ensures { result ≡ is_keyed_in outcome.now }
{
    match outcome {
        Found::Keyed(_, _, _) => true,
        Found::Rows(_) => false,
        Found::Both(_, _) => false,
        Found::Truth(_) => false,
    }
}

/// Whether two of the rows that come have one key.
fn clashes(keys: u32, outcome: &Found) -> bool
    requires second { IsAscending (second_rows outcome.now) }
    requires even { HaveOneWidth (second_rows outcome.now) }
    ensures { result ≡ clashes_in keys outcome.now }
{
    match outcome {
        Found::Keyed(_, come, _) => clash(come, keys as usize),
        Found::Rows(_) => false,
        Found::Both(_, _) => false,
        Found::Truth(_) => false,
    }
}

/// Whether the conditions of a `require` can be met.
fn is_met(outcome: &Found) -> bool
    ensures { result ≡ truth_in outcome.now }
{
    match outcome {
        Found::Rows(_) => false,
        Found::Both(_, _) => false,
        Found::Keyed(_, _, _) => false,
        Found::Truth(truth) => *truth,
    }
}

/// The marks of an `insert`.
fn inserted(alloc: Global, relation: u32, outcome: &Found) -> Result<Marks, NoMemory>
    requires { IsOrdered outcome.now }
    ensures { IfOk result (λ marks. marks ≡ inserted_by relation outcome.now) }
{
    if is_keyed(outcome) {
        let marks = marked_coming(alloc, relation, outcome)?;
        return Ok(marks);
    }
    let marks = marked(alloc, relation, true, first_of(outcome))?;
    Ok(marks)
}

/// The marks of the second head of a `replace`.
fn replaced(alloc: Global, relation: u32, outcome: &Found) -> Result<Marks, NoMemory>
    requires { IsOrdered outcome.now }
    ensures { IfOk result (λ marks. marks ≡ replaced_by relation outcome.now) }
{
    if is_keyed(outcome) {
        let marks = marked_coming(alloc, relation, outcome)?;
        return Ok(marks);
    }
    let marks = marked(alloc, relation, true, second_of(outcome))?;
    Ok(marks)
}

/// The marks of a `replace`: rows go from one relation, and then rows come into another.
fn exchanged(alloc: Global, left: u32, entered: u32, outcome: &Found) -> Result<Marks, NoMemory>
    requires { IsOrdered outcome.now }
    ensures { IfOk result (λ marks. marks ≡ and_then (marks_on left false (first_rows outcome.now)) (replaced_by entered outcome.now)) }
{
    let rows = first_of(outcome);
    let gone = marked(alloc, left, false, rows)?;
    let come = replaced(alloc, entered, outcome)?;
    let marks = Marks::and_then(&gone, &come)?;
    Ok(marks)
}

/// The marks that the statement writes.
pub(crate) fn written_by(alloc: Global, stmt: &Stmt, outcome: &Found) -> Result<Marks, NoMemory>
    requires { IsOrdered outcome.now }
    ensures { IfOk result (λ marks. marks ≡ writes stmt.now outcome.now) }
{
    match stmt {
        Stmt::Insert {
            head,
            keys: _,
            body: _,
        } => {
            let marks = inserted(alloc, head.relation, outcome)?;
            Ok(marks)
        }
        Stmt::Delete { head, body: _ } => {
            let marks = marked(alloc, head.relation, false, first_of(outcome))?;
            Ok(marks)
        }
        Stmt::Replace {
            gone,
            come,
            keys: _,
            body: _,
        } => {
            let marks = exchanged(alloc, gone.relation, come.relation, outcome)?;
            Ok(marks)
        }
        Stmt::Require { some: _, body: _ } => {
            let none = Marks::empty(alloc)?;
            Ok(none)
        }
        Stmt::Print {
            terms: _,
            kinds: _,
            body: _,
        } => {
            let none = Marks::empty(alloc)?;
            Ok(none)
        }
    }
}

/// Whether the statement is a requirement that isn't met, or two of its rows have one key.
pub(crate) fn refused_by(stmt: &Stmt, outcome: &Found) -> bool
    requires { IsOrdered outcome.now }
    ensures { result ≡ refuses stmt.now outcome.now }
{
    match stmt {
        Stmt::Require { some, body: _ } => {
            if *some {
                !is_met(outcome)
            } else {
                is_met(outcome)
            }
        }
        Stmt::Insert {
            head: _,
            keys,
            body: _,
        } => clashes(*keys, outcome),
        Stmt::Delete { head: _, body: _ } => false,
        Stmt::Replace {
            gone: _,
            come: _,
            keys,
            body: _,
        } => clashes(*keys, outcome),
        Stmt::Print {
            terms: _,
            kinds: _,
            body: _,
        } => false,
    }
}

/// The marks after the statement, of those before it.
pub(crate) fn marks_past(
    alloc: Global,
    stmt: &Stmt,
    outcome: &Found,
    before: &Marks,
) -> Result<Marks, NoMemory>
    requires { IsOrdered outcome.now }
    ensures { IfOk result (λ marks. marks ≡ marks_after stmt.now outcome.now before.now) }
{
    if refused_by(stmt, outcome) {
        let none = Marks::empty(alloc)?;
        return Ok(none);
    }
    let written = written_by(alloc, stmt, outcome)?;
    let marks = Marks::and_then(before, &written)?;
    Ok(marks)
}

/// The effect of a statement whose rows come into a relation.
fn coming(alloc: Global, stmt: &Stmt, outcome: &Found) -> Result<Effect, NoMemory>
    requires { IsOrdered outcome.now }
    ensures { IfOk result (λ e. view e ≡ coming_by stmt.now outcome.now) }
{
    if refused_by(stmt, outcome) {
        return Ok(Effect::Clashes);
    }
    let marks = written_by(alloc, stmt, outcome)?;
    Ok(Effect::Writes(marks))
}

/// The effect of the statement.
pub(crate) fn effect_by(alloc: Global, stmt: &Stmt, outcome: &Found) -> Result<Effect, NoMemory>
    requires { IsOrdered outcome.now }
    ensures { IfOk result (λ e. view e ≡ does stmt.now outcome.now) }
{
    match stmt {
        Stmt::Insert {
            head: _,
            keys: _,
            body: _,
        } => {
            let effect = coming(alloc, stmt, outcome)?;
            Ok(effect)
        }
        Stmt::Delete { head: _, body: _ } => {
            let marks = written_by(alloc, stmt, outcome)?;
            Ok(Effect::Writes(marks))
        }
        Stmt::Replace {
            gone: _,
            come: _,
            keys: _,
            body: _,
        } => {
            let effect = coming(alloc, stmt, outcome)?;
            Ok(effect)
        }
        Stmt::Require { some: _, body: _ } => Ok(Effect::Requires(!refused_by(stmt, outcome))),
        Stmt::Print {
            terms: _,
            kinds,
            body: _,
        } => {
            let rows = copied(alloc, first_of(outcome))?;
            Ok(Effect::Prints(KindList::from_kinds(alloc, kinds.as_slice()), rows))
        }
    }
}
