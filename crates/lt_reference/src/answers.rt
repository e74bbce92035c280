//! The answers of a body by nested loops: one atom after another, leaving a row as soon as it can't match.
ghost use Rattle.std.specs.Prelude.{◌≡◌, ◌≤◌, ◌++◌, length, OnOk, IfOk};
ghost use Rattle.std.specs.List.{AllByRecursion};
ghost use Rattle.lt_face.specs.Limits.{most_columns};
ghost use Rattle.lt_model.specs.Answers.{answers as answers_of, some_answer as some_answer_of, lacks as lacks_rows};
ghost use Rattle.lt_face.specs.Rows.{has_row};
ghost use Rattle.lt_face.specs.State.{rows_in};
ghost use Rattle.lt_join.specs.Values.{values_in, assigned, IsTest};
ghost use Rattle.lt_reference.specs.Walk.{IsAtom, IsAbsent, AreCells, bare, bears as bears_all, found_from, some_from, leaf};

use crate::matching::matched;
use lt_answers::ascending::ascending;
use lt_face::items::RowList;
use lt_face::memory::NoMemory;
use lt_face::row::Row;
use lt_join::conditions::{all_pass, give_all};
use lt_join::values::Values;
use lt_model::normal::{Atom, Body, Term, Test};
use std::alloc::Global;

/// The rows of a relation. One that isn't there has none.
pub(crate) fn rows_of(relations: &[RowList], relation: u32) -> &[Row]
    ensures { result.now ≡ rows_in (bare relations.now) relation }
{
    match relations.get(relation as usize) {
        Some(rows) => rows.as_slice(),
        None => &[],
    }
}

/// Whether the row is one of these.
fn is_among(row: &Row, rows: &[Row]) -> bool
    ensures { result ≡ has_row rows.now row.now }
{
    for other in rows {
        if *other == *row {
            return true;
        }
    }
    false
}

/// Whether the relations have none of the rows that the negated atoms name.
fn lacks(alloc: Global, relations: &[RowList], absents: &[Atom], values: &Values) -> bool
    requires { AllByRecursion IsAbsent absents.now }
    ensures { result ≡ lacks_rows (assigned (values_in values.now.cells)) absents.now (bare relations.now) }
{
    for atom in absents {
        let row = values.row(alloc, atom.terms.as_slice());
        if is_among(&row, rows_of(relations, atom.relation)) {
            return false;
        }
    }
    true
}

/// Whether the conditions hold, and the relations have none of the rows that the negated atoms name.
fn bears(
    alloc: Global,
    relations: &[RowList],
    tests: &[Test],
    absents: &[Atom],
    values: &Values,
) -> bool
    requires tests { AllByRecursion IsTest tests.now }
    requires absents { AllByRecursion IsAbsent absents.now }
    ensures { result ≡ bears_all (assigned (values_in values.now.cells)) tests.now absents.now (bare relations.now) }
{
    if !all_pass(values, tests) {
        return false;
    }
    lacks(alloc, relations, absents, values)
}

/// The answer where the atoms have given their values, if the conditions hold.
fn answer(
    alloc: Global,
    relations: &[RowList],
    terms: &[Term],
    values: &Values,
    tests: &[Test],
    absents: &[Atom],
) -> Option<Row>
    requires narrow { length terms.now ≤ most_columns }
    requires tests { AllByRecursion IsTest tests.now }
    requires absents { AllByRecursion IsAbsent absents.now }
    ensures { result ≡ leaf terms.now (values_in values.now.cells) tests.now absents.now (bare relations.now) }
{
    let values = give_all(values, tests);
    if bears(alloc, relations, tests, absents, &values) {
        Some(values.row(alloc, terms))
    } else {
        None
    }
}

/// Adds the answers of all picks of the atoms that go with the values, in the order of the picks.
fn find_answers(
    alloc: Global,
    relations: &[RowList],
    terms: &[Term],
    tests: &[Test],
    absents: &[Atom],
    atoms: &[Atom],
    values: &Values,
    found: &mut Vec<Row>,
) -> Result<(), NoMemory>
    requires narrow { length terms.now ≤ most_columns }
    requires tests { AllByRecursion IsTest tests.now }
    requires atoms { AllByRecursion IsAtom atoms.now }
    requires absents { AllByRecursion IsAbsent absents.now }
    ensures { OnOk result (found.new.items ≡ found.old.items ++ found_from terms.now (values_in values.now.cells) atoms.now tests.now absents.now (bare relations.now)) }
{
    let Some((atom, rest)) = atoms.split_first() else {
        if let Some(row) = answer(alloc, relations, terms, values, tests, absents) {
            found.push(row)?;
        }
        return Ok(());
    };
    for row in rows_of(relations, atom.relation) {
        if let Some(next) = matched(values, atom.terms.as_slice(), row) {
            find_answers(alloc, relations, terms, tests, absents, rest, &next, found)?;
        }
    }
    Ok(())
}

/// Whether some pick of the atoms that goes with the values has an answer.
fn find_some(
    alloc: Global,
    relations: &[RowList],
    tests: &[Test],
    absents: &[Atom],
    atoms: &[Atom],
    values: &Values,
) -> bool
    requires tests { AllByRecursion IsTest tests.now }
    requires atoms { AllByRecursion IsAtom atoms.now }
    requires absents { AllByRecursion IsAbsent absents.now }
    ensures { result ≡ some_from (values_in values.now.cells) atoms.now tests.now absents.now (bare relations.now) }
{
    let Some((atom, rest)) = atoms.split_first() else {
        let values = give_all(values, tests);
        return bears(alloc, relations, tests, absents, &values);
    };
    for row in rows_of(relations, atom.relation) {
        if let Some(next) = matched(values, atom.terms.as_slice(), row) {
            if find_some(alloc, relations, tests, absents, rest, &next) {
                return true;
            }
        }
    }
    false
}

/// The terms' cells over all assignments that hold, ascending, each once.
pub(crate) fn answers(
    alloc: Global,
    relations: &[RowList],
    terms: &[Term],
    body: &Body,
) -> Result<RowList, NoMemory>
    requires cells { AreCells relations.now }
    requires narrow { length terms.now ≤ most_columns }
    requires tests { AllByRecursion IsTest body.now.tests }
    requires atoms { AllByRecursion IsAtom body.now.atoms }
    requires absents { AllByRecursion IsAbsent body.now.absents }
    ensures { IfOk result (λ rows. rows ≡ answers_of terms.now body.now (bare relations.now)) }
{
    let tests = body.tests.as_slice();
    let atoms = body.atoms.as_slice();
    let mut found = Vec::new(alloc);
    find_answers(
        alloc,
        relations,
        terms,
        tests,
        body.absents.as_slice(),
        atoms,
        &Values::none(),
        &mut found,
    )?;
    let rows = ascending(found)?;
    Ok(rows)
}

/// Whether some assignment holds.
pub(crate) fn some_answer(alloc: Global, relations: &[RowList], body: &Body) -> bool
    requires cells { AreCells relations.now }
    requires tests { AllByRecursion IsTest body.now.tests }
    requires atoms { AllByRecursion IsAtom body.now.atoms }
    requires absents { AllByRecursion IsAbsent body.now.absents }
    ensures { result ≡ some_answer_of body.now (bare relations.now) }
{
    let tests = body.tests.as_slice();
    let atoms = body.atoms.as_slice();
    find_some(
        alloc,
        relations,
        tests,
        body.absents.as_slice(),
        atoms,
        &Values::none(),
    )
}
