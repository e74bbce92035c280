//! What a statement does on a database, where nobody will ask what that was sensitive to: its join keeps no sense. What is said of
//! moves holds also where memory is refused.
ghost use Rattle.std.specs.Prelude.{◌≡◌, ◌+◌, ◌≤◌, false, length, IfOk};
ghost use Rattle.std.specs.List.{AllByRecursion};
ghost use Rattle.lt_face.specs.Rows.{IsAscending, IsRow};
ghost use Rattle.lt_model.specs.Answers.{answers as answers_of, some_answer};
ghost use Rattle.lt_model.specs.Effect.{is_plain as is_plain_in};
ghost use Rattle.lt_model.specs.Fits.{IsWide, IsHeadOf, AreKeysOf};
ghost use Rattle.lt_base.specs.Tables.{state_of};
ghost use Rattle.lt_query.specs.Needs.{body_of as body_in};
ghost use Rattle.lt_query.specs.Runnable.{AreWide};
ghost use Rattle.lt_program.specs.Asked.{CanFollow, CanEvaluate};
ghost use Rattle.lt_program.specs.Planned.{IsPlanned, ArePicked};
ghost use Rattle.lt_program.specs.Split.{statement_cost_by, whole_cost};
ghost use Rattle.lt_program.specs.Tally.{keyed_on, keys_cost, outcome_on};

use crate::evaluation::keyed;
use crate::heads::{have_room, split_answers, terms_of_both};
use crate::joining::Joiner;
use crate::part::Found;
use crate::slicing::is_plain;
use lt_base::Database;
use lt_face::items::{Items, RowList};
use lt_face::memory::NoMemory;
use lt_face::moves::Moves;
use lt_join::some_alone;
use lt_model::normal::{Atom, Body, Stmt, TermList};
use lt_query::Plan;
use lt_sense::Gathering;
use std::alloc::Global;

/// Whether the body's conditions can be met on the database.
fn truth_alone<L>(
    alloc: Global,
    tables: &Database,
    body: &Body,
    plan: &Plan,
    moves: &mut Moves<L>,
) -> Result<bool, NoMemory>
    requires can_follow { CanFollow tables.now body.now plan.now }
    ensures truth { IfOk result (λ truth. truth ≡ some_answer body.now (state_of tables.now)) }
    ensures cost { moves.new ≤ moves.old + whole_cost body.now (state_of tables.now) }
    ensures moves { moves.old ≤ moves.new }
{
    let truth = some_alone(alloc, body, plan, tables, moves)?;
    Ok(truth)
}

/// The answers of two heads: by one join for the terms of both, where their cells have room in one row.
fn both_alone<J: Joiner<L>, L>(
    by: &J,
    alloc: Global,
    tables: &Database,
    body: &Body,
    plan: &Plan,
    gone: &TermList,
    come: &TermList,
    moves: &mut Moves<L>,
) -> Result<(RowList, RowList), NoMemory>
    requires ready { J.is_ready by.now }
    requires can_follow { CanFollow tables.now body.now plan.now }
    requires gone { ArePicked body.now gone.now }
    requires come { ArePicked body.now come.now }
    ensures gone { IfOk result (λ both. both.0 ≡ answers_of gone.now body.now (state_of tables.now)) }
    ensures come { IfOk result (λ both. both.1 ≡ answers_of come.now body.now (state_of tables.now)) }
    ensures cost { moves.new ≤ moves.old + (J.most by.now body.now (state_of tables.now) + J.most by.now body.now (state_of tables.now)) }
    ensures moves { moves.old ≤ moves.new }
{
    if have_room(gone, come) {
        let terms = terms_of_both(gone, come)?;
        let rows = by.rows(alloc, tables, body, plan, &terms, moves)?;
        let both = split_answers(alloc, &rows, gone.len())?;
        return Ok(both);
    }
    let first = by.rows(alloc, tables, body, plan, gone, moves)?;
    let second = by.rows(alloc, tables, body, plan, come, moves)?;
    Ok((first, second))
}

/// The outcome of a statement whose rows come into a relation with value columns, of the rows that go and those that come.
fn keyed_alone<L>(
    alloc: Global,
    tables: &Database,
    head: &Atom,
    keys: u32,
    gone: RowList,
    come: RowList,
    moves: &mut Moves<L>,
) -> Result<Found, NoMemory>
    requires keyed { is_plain_in head.now keys ≡ false }
    requires keys { AreKeysOf head.now keys }
    requires wide { IsWide (state_of tables.now) head.now.relation (length head.now.terms) }
    requires ascend { IsAscending come }
    requires rows { AllByRecursion (IsRow (length head.now.terms)) come }
    ensures outcome { IfOk result (λ outcome. outcome ≡ keyed_on head.now keys gone come (state_of tables.now)) }
    ensures cost { moves.new ≤ moves.old + keys_cost head.now keys come (state_of tables.now) }
    ensures moves { moves.old ≤ moves.new }
{
    let mut sense = Gathering::new(alloc);
    let outcome = keyed(alloc, tables, head, keys, gone, come, &mut sense, moves)?;
    Ok(outcome)
}

/// The outcome of an `insert`.
fn inserted_alone<J: Joiner<L>, L>(
    by: &J,
    alloc: Global,
    tables: &Database,
    head: &Atom,
    keys: u32,
    body: &Body,
    plan: &Plan,
    moves: &mut Moves<L>,
) -> Result<Found, NoMemory>
    requires ready { J.is_ready by.now }
    requires can_follow { CanFollow tables.now body.now plan.now }
    requires wide { AreWide (state_of tables.now) }
    requires head { IsHeadOf (state_of tables.now) body.now head.now }
    requires keys { AreKeysOf head.now keys }
    ensures outcome { IfOk result (λ outcome. outcome ≡ outcome_on (Stmt.Insert head.now keys body.now) (state_of tables.now)) }
    ensures cost { moves.new ≤ moves.old + statement_cost_by (J.most by.now) (Stmt.Insert head.now keys body.now) (state_of tables.now) }
    ensures moves { moves.old ≤ moves.new }
{
    tables.look_over();
    let come = by.rows(alloc, tables, body, plan, &head.terms, moves)?;
    if is_plain(head, keys) {
        return Ok(Found::Rows(come));
    }
    let outcome = keyed_alone(alloc, tables, head, keys, Items::new(alloc), come, moves)?;
    Ok(outcome)
}

/// The outcome of a `replace`.
fn replaced_alone<J: Joiner<L>, L>(
    by: &J,
    alloc: Global,
    tables: &Database,
    gone: &Atom,
    come: &Atom,
    keys: u32,
    body: &Body,
    plan: &Plan,
    moves: &mut Moves<L>,
) -> Result<Found, NoMemory>
    requires ready { J.is_ready by.now }
    requires can_follow { CanFollow tables.now body.now plan.now }
    requires wide { AreWide (state_of tables.now) }
    requires gone { IsHeadOf (state_of tables.now) body.now gone.now }
    requires come { IsHeadOf (state_of tables.now) body.now come.now }
    requires keys { AreKeysOf come.now keys }
    ensures outcome { IfOk result (λ outcome. outcome ≡ outcome_on (Stmt.Replace gone.now come.now keys body.now) (state_of tables.now)) }
    ensures cost { moves.new ≤ moves.old + statement_cost_by (J.most by.now) (Stmt.Replace gone.now come.now keys body.now) (state_of tables.now) }
    ensures moves { moves.old ≤ moves.new }
{
    tables.look_over();
    let both = both_alone(
        by,
        alloc,
        tables,
        body,
        plan,
        &gone.terms,
        &come.terms,
        moves,
    )?;
    let (first, second) = both;
    if is_plain(come, keys) {
        return Ok(Found::Both(first, second));
    }
    let outcome = keyed_alone(alloc, tables, come, keys, first, second, moves)?;
    Ok(outcome)
}

/// What the evaluation of a statement on the database gives.
pub(crate) fn outcome_alone<J: Joiner<L>, L>(
    by: &J,
    alloc: Global,
    tables: &Database,
    stmt: &Stmt,
    plan: &Plan,
    moves: &mut Moves<L>,
) -> Result<Found, NoMemory>
    requires ready { J.is_ready by.now }
    requires plan { IsPlanned (body_in stmt.now) plan.now }
    requires can_evaluate { CanEvaluate tables.now stmt.now }
    ensures outcome { IfOk result (λ outcome. outcome ≡ outcome_on stmt.now (state_of tables.now)) }
    ensures cost { moves.new ≤ moves.old + statement_cost_by (J.most by.now) stmt.now (state_of tables.now) }
    ensures moves { moves.old ≤ moves.new }
{
    match stmt {
        Stmt::Insert { head, keys, body } => {
            let outcome = inserted_alone(by, alloc, tables, head, *keys, body, plan, moves)?;
            Ok(outcome)
        }
        Stmt::Delete { head, body } => {
            let rows = by.rows(alloc, tables, body, plan, &head.terms, moves)?;
            Ok(Found::Rows(rows))
        }
        Stmt::Replace {
            gone,
            come,
            keys,
            body,
        } => {
            let outcome = replaced_alone(by, alloc, tables, gone, come, *keys, body, plan, moves)?;
            Ok(outcome)
        }
        Stmt::Require { some: _, body } => {
            let truth = truth_alone(alloc, tables, body, plan, moves)?;
            Ok(Found::Truth(truth))
        }
        Stmt::Print {
            terms,
            kinds: _,
            body,
        } => {
            let rows = by.rows(alloc, tables, body, plan, terms, moves)?;
            Ok(Found::Rows(rows))
        }
    }
}
