//! Statements kept by slices: their evaluation, and how what was kept is mended where rows changed. What is said of moves
//! holds also where memory is refused.
ghost use Rattle.std.specs.Prelude.{◌≡◌, ◌+◌, ◌≤◌, true, IfOk};
ghost use Rattle.lt_face.specs.State.{State};
ghost use Rattle.lt_model.specs.Answers.{answers as answers_of};
ghost use Rattle.lt_model.specs.Effect.{is_plain as is_plain_in};
ghost use Rattle.lt_model.specs.Fits.{FitsStatement};
ghost use Rattle.lt_base.specs.Tables.{state_of};
ghost use Rattle.lt_query.specs.Lists.{IsRising};
ghost use Rattle.lt_query.specs.Needs.{body_of as body_in};
ghost use Rattle.lt_query.specs.Runnable.{HasWidths, AreWide};
ghost use Rattle.lt_query.specs.Stated.{stated_plan};
ghost use Rattle.lt_join.specs.Mended.{AreSlicesOn, HaveTouched};
ghost use Rattle.lt_join.specs.MendedPlan.{mending_cost};
ghost use Rattle.lt_program.specs.Asked.{CanEvaluate};
ghost use Rattle.lt_program.specs.Planned.{IsPlanned};
ghost use Rattle.lt_program.specs.Tally.{IsPartOn, IsMendedPart, has_level as has_level_in, is_sliced as is_sliced_in, slice_terms as slice_terms_of, outcome_on};

use crate::heads::{have_room, split_answers, terms_of_both};
use crate::joining::Joiner;
use crate::part::{Certificate, Found, Part};
use lt_base::Database;
use lt_face::items::{Items, RowList};
use lt_face::key::Key;
use lt_face::memory::NoMemory;
use lt_face::moves::Moves;
use lt_join::{Slices, mend, rows_of_slices};
use lt_model::normal::{Atom, Body, Stmt, TermList};
use lt_query::{Plan, body_of};
use std::alloc::Global;

/// Whether the plan of the body has a level.
fn has_level(body: &Body) -> bool
    requires widths { HasWidths body.now }
    ensures { result ≡ has_level_in body.now }
{
    body.atoms.len() > 0
}

/// Whether all columns of the head's relation are key columns.
pub(crate) fn is_plain(head: &Atom, keys: u32) -> bool
    ensures { result ≡ is_plain_in head.now keys }
{
    keys as usize == head.terms.len()
}

/// Whether the statement is kept by slices.
pub(crate) fn is_sliced(stmt: &Stmt) -> bool
    requires fits { (state : State) × AreWide state × FitsStatement state stmt.now }
    ensures { result ≡ is_sliced_in stmt.now }
{
    let some = has_level(body_of(stmt));
    match stmt {
        Stmt::Insert {
            head,
            keys,
            body: _,
        } => is_plain(head, *keys) && some,
        Stmt::Delete { head: _, body: _ } => some,
        Stmt::Replace {
            gone,
            come,
            keys,
            body: _,
        } => is_plain(come, *keys) && (some && have_room(&gone.terms, &come.terms)),
        Stmt::Require { some: _, body: _ } => false,
        Stmt::Print {
            terms: _,
            kinds: _,
            body: _,
        } => some,
    }
}

/// The terms that the slices of the statement answer.
fn slice_terms(alloc: Global, stmt: &Stmt) -> Result<TermList, NoMemory>
    ensures { IfOk result (λ terms. terms ≡ slice_terms_of stmt.now) }
{
    match stmt {
        Stmt::Insert {
            head,
            keys: _,
            body: _,
        } => {
            let terms = head.terms.copy()?;
            Ok(terms)
        }
        Stmt::Delete { head, body: _ } => {
            let terms = head.terms.copy()?;
            Ok(terms)
        }
        Stmt::Replace {
            gone,
            come,
            keys: _,
            body: _,
        } => {
            let both = terms_of_both(&gone.terms, &come.terms)?;
            Ok(both)
        }
        Stmt::Require { some: _, body: _ } => Ok(Items::new(alloc)),
        Stmt::Print {
            terms,
            kinds: _,
            body: _,
        } => {
            let terms = terms.copy()?;
            Ok(terms)
        }
    }
}

/// The outcome of a statement kept by slices, of the answers of its slices' terms.
fn outcome_by(alloc: Global, stmt: &Stmt, rows: RowList) -> Result<Found, NoMemory>
    requires sliced { is_sliced_in stmt.now ≡ true }
    ensures { IfOk result (λ outcome. (state : State) → rows ≡ answers_of (slice_terms_of stmt.now) (body_in stmt.now) state → outcome ≡ outcome_on stmt.now state) }
{
    match stmt {
        Stmt::Insert {
            head: _,
            keys: _,
            body: _,
        } => Ok(Found::Rows(rows)),
        Stmt::Delete { head: _, body: _ } => Ok(Found::Rows(rows)),
        Stmt::Replace {
            gone,
            come: _,
            keys: _,
            body: _,
        } => {
            let both = split_answers(alloc, &rows, gone.terms.len())?;
            let (first, second) = both;
            Ok(Found::Both(first, second))
        }
        Stmt::Require { some: _, body: _ } => Ok(Found::Rows(rows)),
        Stmt::Print {
            terms: _,
            kinds: _,
            body: _,
        } => Ok(Found::Rows(rows)),
    }
}

/// The part of a statement kept by slices, of its root gaps and its slices.
fn part_by(alloc: Global, stmt: &Stmt, found: Slices) -> Result<Part, NoMemory>
    requires fits { (state : State) × AreWide state × FitsStatement state stmt.now }
    requires sliced { is_sliced_in stmt.now ≡ true }
    ensures part { IfOk result (λ part. (state : State) → AreSlicesOn (slice_terms_of stmt.now) (body_in stmt.now) (stated_plan (body_in stmt.now)) state found.root found.slices → IsPartOn stmt.now state part) }
    ensures root { IfOk result (λ part. part.sense ≡ found.root) }
    ensures slices { IfOk result (λ part. part.slices ≡ found.slices) }
{
    let rows = rows_of_slices(alloc, &found)?;
    let outcome = outcome_by(alloc, stmt, rows)?;
    Ok(Part::new(outcome, Certificate::ByKey(found)))
}

/// The part of a statement kept by slices, by a join of its body.
pub(crate) fn join_slices<J: Joiner<L>, L>(
    by: &J,
    alloc: Global,
    tables: &Database,
    stmt: &Stmt,
    plan: &Plan,
    moves: &mut Moves<L>,
) -> Result<Part, NoMemory>
    requires ready { J.is_ready by.now }
    requires plan { IsPlanned (body_in stmt.now) plan.now }
    requires can_evaluate { CanEvaluate tables.now stmt.now }
    requires sliced { is_sliced_in stmt.now ≡ true }
    ensures part { IfOk result (IsPartOn stmt.now (state_of tables.now)) }
    ensures cost { moves.new ≤ moves.old + J.most by.now (body_in stmt.now) (state_of tables.now) }
    ensures moves { moves.old ≤ moves.new }
{
    let terms = slice_terms(alloc, stmt)?;
    let found = by.slices(alloc, tables, body_of(stmt), plan, &terms, moves)?;
    let part = part_by(alloc, stmt, found)?;
    Ok(part)
}

/// What was kept of a statement by slices, mended where rows changed: the keys, which ascend, are all that are touched, or
/// more. Their slices are joined anew, and all others stay as they were.
pub(crate) fn mend_slices<L>(
    alloc: Global,
    tables: &Database,
    stmt: &Stmt,
    plan: &Plan,
    old: &Part,
    keys: &Items<Key>,
    moves: &mut Moves<L>,
) -> Result<Part, NoMemory>
    requires plan { IsPlanned (body_in stmt.now) plan.now }
    requires can_evaluate { CanEvaluate tables.now stmt.now }
    requires sliced { is_sliced_in stmt.now ≡ true }
    requires old { (state : State) × IsPartOn stmt.now state old.now × HaveTouched keys.now old.now.sense old.now.slices state (state_of tables.now) }
    requires keys { IsRising keys.now }
    ensures part { IfOk result (IsPartOn stmt.now (state_of tables.now)) }
    ensures mended { IfOk result (IsMendedPart keys.now old.now) }
    ensures cost { moves.new ≤ moves.old + mending_cost keys.now (body_in stmt.now) (stated_plan (body_in stmt.now)) (state_of tables.now) }
    ensures moves { moves.old ≤ moves.new }
{
    let terms = slice_terms(alloc, stmt)?;
    let kept = old.slices().unwrap();
    let found = mend(
        alloc,
        body_of(stmt),
        plan,
        &terms,
        tables,
        kept,
        keys.as_slice(),
        moves,
    )?;
    let part = part_by(alloc, stmt, found)?;
    Ok(part)
}
