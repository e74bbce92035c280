//! What a statement does on the relations.
ghost use Rattle.std.specs.Prelude.{◌≡◌, ◌≤◌, false, length, IfOk};
ghost use Rattle.std.specs.List.{AllByRecursion};
ghost use Rattle.lt_face.specs.Rows.{IsAscending};
ghost use Rattle.lt_model.specs.Answers.{answers as answers_of};
ghost use Rattle.lt_model.specs.Effect.{marks_on as marked_on, marks_of, displaced, displacing as displacing_in, coming as coming_in, behind as behind_in, effect as effect_of};
ghost use Rattle.lt_model.specs.Fits.{AreKeysOf};
ghost use Rattle.lt_program.specs.Effect.{HaveCells, view};
ghost use Rattle.lt_reference.specs.Ready.{AreRows, IsBody, AreTerms, IsReady, WritesCells};
ghost use Rattle.lt_reference.specs.Walk.{AreCells, bare};

use crate::answers::{answers, rows_of, some_answer};
use crate::rivals::{has_clash, rivals};
use lt_delta::Marks;
use lt_face::items::RowList;
use lt_face::memory::NoMemory;
use lt_model::kind::KindList;
use lt_model::normal::{Atom, Body, Stmt};
use lt_program::{Effect, marked};
use std::alloc::Global;

/// The answers of the head.
fn head_rows(
    alloc: Global,
    relations: &[RowList],
    head: &Atom,
    body: &Body,
) -> Result<RowList, NoMemory>
    requires cells { AreCells relations.now }
    requires body { IsBody body.now }
    requires head { AreTerms body.now head.now.terms }
    ensures rows { IfOk result (λ rows. rows ≡ answers_of head.now.terms body.now (bare relations.now)) }
    ensures ascend { IfOk result IsAscending }
    ensures cells { IfOk result AreRows }
    ensures wide { IfOk result (AllByRecursion (λ row. length row ≡ length head.now.terms)) }
{
    let rows = answers(alloc, relations, head.terms.as_slice(), body)?;
    Ok(rows)
}

/// A mark for each of the rows.
fn marks_on(alloc: Global, relation: u32, plus: bool, rows: &RowList) -> Result<Marks, NoMemory>
    requires ascend { IsAscending rows.now }
    requires cells { AreRows rows.now }
    ensures marks { IfOk result (λ marks. marks ≡ marked_on relation plus rows.now) }
    ensures cells { IfOk result HaveCells }
{
    let marks = marked(alloc, relation, plus, rows.as_slice())?;
    Ok(marks)
}

/// A mark - for each answer of the head.
fn going(alloc: Global, relations: &[RowList], head: &Atom, body: &Body) -> Result<Marks, NoMemory>
    requires cells { AreCells relations.now }
    requires body { IsBody body.now }
    requires head { AreTerms body.now head.now.terms }
    ensures marks { IfOk result (λ marks. marks ≡ marks_of false head.now body.now (bare relations.now)) }
    ensures cells { IfOk result HaveCells }
{
    let rows = head_rows(alloc, relations, head, body)?;
    let marks = marks_on(alloc, head.relation, false, &rows)?;
    Ok(marks)
}

/// The marks of rows that come into a relation with value columns: those that they displace go first.
fn displacing(
    alloc: Global,
    relations: &[RowList],
    head: &Atom,
    keys: usize,
    rows: &RowList,
) -> Result<Marks, NoMemory>
    requires relations { AreCells relations.now }
    requires keys { keys ≤ length head.now.terms }
    requires ascend { IsAscending rows.now }
    requires cells { AreRows rows.now }
    requires wide { AllByRecursion (λ row. length row ≡ length head.now.terms) rows.now }
    ensures marks { IfOk result (λ marks. marks ≡ displacing_in head.now.relation (displaced head.now.relation keys (bare relations.now) rows.now) rows.now) }
    ensures cells { IfOk result HaveCells }
{
    let old_rows = displaced_rows(alloc, relations, head, keys, rows)?;
    let gone = marks_on(alloc, head.relation, false, &old_rows)?;
    let come = marks_on(alloc, head.relation, true, rows)?;
    let marks = Marks::and_then(&gone, &come)?;
    Ok(marks)
}

/// The rows that these displace.
fn displaced_rows(
    alloc: Global,
    relations: &[RowList],
    head: &Atom,
    keys: usize,
    rows: &RowList,
) -> Result<RowList, NoMemory>
    requires relations { AreCells relations.now }
    requires keys { keys ≤ length head.now.terms }
    requires wide { AllByRecursion (λ row. length row ≡ length head.now.terms) rows.now }
    ensures rows { IfOk result (λ gone. gone ≡ displaced head.now.relation keys (bare relations.now) rows.now) }
    ensures ascend { IfOk result IsAscending }
    ensures cells { IfOk result AreRows }
{
    let there = rows_of(relations, head.relation);
    let gone = rivals(alloc, keys, rows.as_slice(), there)?;
    Ok(gone)
}

/// What comes of rows that come into the head's relation.
fn coming(
    alloc: Global,
    relations: &[RowList],
    head: &Atom,
    keys: usize,
    body: &Body,
) -> Result<Effect, NoMemory>
    requires cells { AreCells relations.now }
    requires body { IsBody body.now }
    requires head { AreTerms body.now head.now.terms }
    requires keys { AreKeysOf head.now keys }
    ensures effect { IfOk result (λ e. view e ≡ coming_in head.now keys (answers_of head.now.terms body.now (bare relations.now)) (bare relations.now)) }
    ensures cells { IfOk result WritesCells }
{
    let rows = head_rows(alloc, relations, head, body)?;
    if keys == head.terms.len() {
        let marks = marks_on(alloc, head.relation, true, &rows)?;
        return Ok(Effect::Writes(marks));
    }
    if has_clash(keys, rows.as_slice()) {
        return Ok(Effect::Clashes);
    }
    let marks = displacing(alloc, relations, head, keys, &rows)?;
    Ok(Effect::Writes(marks))
}

/// The effect after marks.
fn behind(before: &Marks, effect: Effect) -> Result<Effect, NoMemory>
    requires before { HaveCells before.now }
    requires cells { WritesCells effect }
    ensures effect { IfOk result (λ e. view e ≡ behind_in before.now (view effect)) }
    ensures cells { IfOk result WritesCells }
{
    match effect {
        Effect::Writes(marks) => {
            let all = Marks::and_then(before, &marks)?;
            Ok(Effect::Writes(all))
        }
        other => Ok(other),
    }
}

/// The effect of a statement on the relations.
pub(crate) fn effect_on(
    alloc: Global,
    relations: &[RowList],
    stmt: &Stmt,
) -> Result<Effect, NoMemory>
    requires cells { AreCells relations.now }
    requires ready { IsReady stmt.now }
    ensures effect { IfOk result (λ e. view e ≡ effect_of stmt.now (bare relations.now)) }
    ensures cells { IfOk result WritesCells }
{
    match stmt {
        Stmt::Insert { head, keys, body } => {
            let come = coming(alloc, relations, head, *keys as usize, body)?;
            Ok(come)
        }
        Stmt::Delete { head, body } => {
            let marks = going(alloc, relations, head, body)?;
            Ok(Effect::Writes(marks))
        }
        Stmt::Replace {
            gone,
            come,
            keys,
            body,
        } => {
            let gone = going(alloc, relations, gone, body)?;
            let come = coming(alloc, relations, come, *keys as usize, body)?;
            let all = behind(&gone, come)?;
            Ok(all)
        }
        Stmt::Require { some, body } => Ok(Effect::Requires(
            some_answer(alloc, relations, body) == *some,
        )),
        Stmt::Print { terms, kinds, body } => {
            let rows = answers(alloc, relations, terms.as_slice(), body)?;
            Ok(Effect::Prints(KindList::from_kinds(alloc, kinds.as_slice()), rows))
        }
    }
}
