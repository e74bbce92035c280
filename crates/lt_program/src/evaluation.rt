//! The evaluation of a statement on a database, by a join. What is said of its moves holds also where memory is refused.
ghost use Rattle.std.specs.Prelude.{◌≡◌, ◌+◌, ◌≤◌, true, false, [], length, OnOk, IfOk};
ghost use Rattle.std.specs.List.{AllByRecursion};
ghost use Rattle.lt_face.specs.Rows.{IsAscending, IsRow};
ghost use Rattle.lt_face.specs.State.{State};
ghost use Rattle.lt_model.specs.Answers.{answers as answers_of, some_answer};
ghost use Rattle.lt_model.specs.Effect.{effect as effect_of, is_plain as is_plain_in};
ghost use Rattle.lt_model.specs.Fits.{IsWide, IsHeadOf, AreKeysOf};
ghost use Rattle.lt_base.specs.Tables.{state_of};
ghost use Rattle.lt_query.specs.Lists.{IsRising};
ghost use Rattle.lt_query.specs.Needs.{body_of as body_in};
ghost use Rattle.lt_query.specs.Runnable.{AreWide};
ghost use Rattle.lt_query.specs.Stated.{stated_plan};
ghost use Rattle.lt_sense.specs.Sense.{IsTight};
ghost use Rattle.lt_join.specs.Certify.{Certifies, Vouches};
ghost use Rattle.lt_join.specs.Cost.{bound};
ghost use Rattle.lt_join.specs.Mended.{HaveTouched};
ghost use Rattle.lt_join.specs.MendedPlan.{mending_cost};
ghost use Rattle.lt_join.specs.Walked.{Grows};
ghost use Rattle.lt_program.specs.Asked.{CanFollow, CanEvaluate};
ghost use Rattle.lt_program.specs.Effect.{view};
ghost use Rattle.lt_program.specs.Planned.{IsPlanned, ArePicked};
ghost use Rattle.lt_program.specs.Split.{statement_cost_by};
ghost use Rattle.lt_program.specs.Tally.{IsPartOn, IsMendedPart, IsWhole, CertifiesKeys, is_sliced as is_sliced_in, keyed_on, keys_cost, sense_of};

use crate::displacing::{clash, displaced_by_all};
use crate::effect::Effect;
use crate::heads::{Pair, found_both};
use crate::joining::Joiner;
use crate::kept::effect_by;
use crate::part::{Certificate, Found, Part};
use crate::slicing::{is_plain, is_sliced, join_slices, mend_slices};
use lt_base::Database;
use lt_face::items::{Items, RowList};
use lt_face::key::Key;
use lt_face::memory::NoMemory;
use lt_face::moves::Moves;
use lt_join::some;
use lt_model::normal::{Atom, Body, Stmt, TermList};
use lt_query::Plan;
use lt_sense::Gathering;
use std::alloc::Global;

/// The part of a statement, and its effect.
#[derive(Drop)]
pub(crate) struct Step {
    pub part: Part,
    pub effect: Effect,
}

/// Whether the body's conditions can be met on the database.
fn told<L>(
    alloc: Global,
    tables: &Database,
    body: &Body,
    plan: &Plan,
    moves: &mut Moves<L>,
) -> Result<(bool, Gathering), NoMemory>
    requires can_follow { CanFollow tables.now body.now plan.now }
    ensures truth { IfOk result (λ told. told.0 ≡ some_answer body.now (state_of tables.now)) }
    ensures vouched { IfOk result (λ told. Vouches told.1 body.now (state_of tables.now)) }
    ensures tight { IfOk result (λ told. IsTight told.1 (state_of tables.now)) }
    ensures cost { moves.new ≤ moves.old + bound body.now (stated_plan body.now) (state_of tables.now) }
    ensures moves { moves.old ≤ moves.new }
{
    let told = some(alloc, body, plan, tables, moves)?;
    Ok(told)
}

/// The part of a statement that isn't kept by slices, with its sense put in order.
fn part_whole(outcome: Found, sense: Gathering) -> Result<Part, NoMemory>
    ensures outcome { IfOk result (λ part. part.outcome ≡ outcome) }
    ensures sense { IfOk result (λ part. sense_of part ≡ sense) }
    ensures whole { IfOk result IsWhole }
{
    let sense = sense.seal()?;
    Ok(Part::new(outcome, Certificate::Whole(sense)))
}

/// The answers of terms, by a join of the body.
fn answered<J: Joiner<L>, L>(
    by: &J,
    alloc: Global,
    tables: &Database,
    body: &Body,
    plan: &Plan,
    terms: &TermList,
    moves: &mut Moves<L>,
) -> Result<Part, NoMemory>
    requires ready { J.is_ready by.now }
    requires can_follow { CanFollow tables.now body.now plan.now }
    requires terms { ArePicked body.now terms.now }
    ensures outcome { IfOk result (λ part. part.outcome ≡ Found.Rows (answers_of terms.now body.now (state_of tables.now))) }
    ensures certified { IfOk result (λ part. Certifies (sense_of part) body.now (state_of tables.now)) }
    ensures tight { IfOk result (λ part. IsTight (sense_of part) (state_of tables.now)) }
    ensures whole { IfOk result IsWhole }
    ensures cost { moves.new ≤ moves.old + J.most by.now body.now (state_of tables.now) }
    ensures moves { moves.old ≤ moves.new }
{
    let found = by.found(alloc, tables, body, plan, terms, moves)?;
    let (rows, sense) = found;
    let part = part_whole(Found::Rows(rows), sense)?;
    Ok(part)
}

/// The answers of the head whose rows go, and of the one whose rows come.
fn replaced<J: Joiner<L>, L>(
    by: &J,
    alloc: Global,
    tables: &Database,
    gone: &TermList,
    come: &TermList,
    body: &Body,
    plan: &Plan,
    moves: &mut Moves<L>,
) -> Result<Part, NoMemory>
    requires ready { J.is_ready by.now }
    requires can_follow { CanFollow tables.now body.now plan.now }
    requires gone { ArePicked body.now gone.now }
    requires come { ArePicked body.now come.now }
    ensures outcome { IfOk result (λ part. part.outcome ≡ Found.Both (answers_of gone.now body.now (state_of tables.now)) (answers_of come.now body.now (state_of tables.now))) }
    ensures certified { IfOk result (λ part. Certifies (sense_of part) body.now (state_of tables.now)) }
    ensures tight { IfOk result (λ part. IsTight (sense_of part) (state_of tables.now)) }
    ensures whole { IfOk result IsWhole }
    ensures cost { moves.new ≤ moves.old + (J.most by.now body.now (state_of tables.now) + J.most by.now body.now (state_of tables.now)) }
    ensures moves { moves.old ≤ moves.new }
{
    let pair = found_both(by, alloc, tables, body, plan, gone, come, moves)?;
    let Pair {
        first,
        second,
        sense,
    } = pair;
    let part = part_whole(Found::Both(first, second), sense)?;
    Ok(part)
}

/// The outcome of a statement whose rows come into a relation with value columns, of the rows that go and those that come. What it is
/// sensitive to beside these goes into the sense.
pub(crate) fn keyed<L>(
    alloc: Global,
    tables: &Database,
    head: &Atom,
    keys: u32,
    gone: RowList,
    come: RowList,
    sense: &mut Gathering,
    moves: &mut Moves<L>,
) -> Result<Found, NoMemory>
    requires keyed { is_plain_in head.now keys ≡ false }
    requires keys { AreKeysOf head.now keys }
    requires wide { IsWide (state_of tables.now) head.now.relation (length head.now.terms) }
    requires ascend { IsAscending come }
    requires rows { AllByRecursion (IsRow (length head.now.terms)) come }
    ensures outcome { IfOk result (λ outcome. outcome ≡ keyed_on head.now keys gone come (state_of tables.now)) }
    ensures grows { OnOk result (Grows sense.old sense.new) }
    ensures keys { OnOk result (CertifiesKeys sense.new head.now keys come (state_of tables.now)) }
    ensures tight { OnOk result (IsTight sense.old (state_of tables.now) → IsTight sense.new (state_of tables.now)) }
    ensures cost { moves.new ≤ moves.old + keys_cost head.now keys come (state_of tables.now) }
    ensures moves { moves.old ≤ moves.new }
{
    let count = keys as usize;
    if clash(&come, count) {
        let none = Items::new(alloc);
        return Ok(Found::Keyed(gone, come, none));
    }
    let displaced = displaced_by_all(
        alloc,
        tables,
        head.relation,
        count,
        head.terms.len(),
        &come,
        sense,
        moves,
    )?;
    Ok(Found::Keyed(gone, come, displaced))
}

/// The answers of the head of an `insert` into a relation with value columns, and the rows that they displace.
fn inserted<J: Joiner<L>, L>(
    by: &J,
    alloc: Global,
    tables: &Database,
    head: &Atom,
    keys: u32,
    body: &Body,
    plan: &Plan,
    moves: &mut Moves<L>,
) -> Result<Part, NoMemory>
    requires ready { J.is_ready by.now }
    requires can_follow { CanFollow tables.now body.now plan.now }
    requires wide { AreWide (state_of tables.now) }
    requires head { IsHeadOf (state_of tables.now) body.now head.now }
    requires keys { AreKeysOf head.now keys }
    requires keyed { is_plain_in head.now keys ≡ false }
    ensures outcome { IfOk result (λ part. part.outcome ≡ keyed_on head.now keys [] (answers_of head.now.terms body.now (state_of tables.now)) (state_of tables.now)) }
    ensures certified { IfOk result (λ part. Certifies (sense_of part) body.now (state_of tables.now)) }
    ensures keys { IfOk result (λ part. CertifiesKeys (sense_of part) head.now keys (answers_of head.now.terms body.now (state_of tables.now)) (state_of tables.now)) }
    ensures tight { IfOk result (λ part. IsTight (sense_of part) (state_of tables.now)) }
    ensures whole { IfOk result IsWhole }
    ensures cost { moves.new ≤ moves.old + (J.most by.now body.now (state_of tables.now) + keys_cost head.now keys (answers_of head.now.terms body.now (state_of tables.now)) (state_of tables.now)) }
    ensures moves { moves.old ≤ moves.new }
{
    tables.look_over();
    let found = by.found(alloc, tables, body, plan, &head.terms, moves)?;
    let (come, mut sense) = found;
    let outcome = keyed(
        alloc,
        tables,
        head,
        keys,
        Items::new(alloc),
        come,
        &mut sense,
        moves,
    )?;
    let part = part_whole(outcome, sense)?;
    Ok(part)
}

/// The answers of the heads of a `replace` whose rows come into a relation with value columns, and the rows that they displace.
fn replaced_by_key<J: Joiner<L>, L>(
    by: &J,
    alloc: Global,
    tables: &Database,
    gone: &Atom,
    come: &Atom,
    keys: u32,
    body: &Body,
    plan: &Plan,
    moves: &mut Moves<L>,
) -> Result<Part, NoMemory>
    requires ready { J.is_ready by.now }
    requires can_follow { CanFollow tables.now body.now plan.now }
    requires wide { AreWide (state_of tables.now) }
    requires gone { IsHeadOf (state_of tables.now) body.now gone.now }
    requires come { IsHeadOf (state_of tables.now) body.now come.now }
    requires keys { AreKeysOf come.now keys }
    requires keyed { is_plain_in come.now keys ≡ false }
    ensures outcome { IfOk result (λ part. part.outcome ≡ keyed_on come.now keys (answers_of gone.now.terms body.now (state_of tables.now)) (answers_of come.now.terms body.now (state_of tables.now)) (state_of tables.now)) }
    ensures certified { IfOk result (λ part. Certifies (sense_of part) body.now (state_of tables.now)) }
    ensures keys { IfOk result (λ part. CertifiesKeys (sense_of part) come.now keys (answers_of come.now.terms body.now (state_of tables.now)) (state_of tables.now)) }
    ensures tight { IfOk result (λ part. IsTight (sense_of part) (state_of tables.now)) }
    ensures whole { IfOk result IsWhole }
    ensures cost { moves.new ≤ moves.old + (J.most by.now body.now (state_of tables.now) + J.most by.now body.now (state_of tables.now) + keys_cost come.now keys (answers_of come.now.terms body.now (state_of tables.now)) (state_of tables.now)) }
    ensures moves { moves.old ≤ moves.new }
{
    tables.look_over();
    let pair = found_both(
        by,
        alloc,
        tables,
        body,
        plan,
        &gone.terms,
        &come.terms,
        moves,
    )?;
    let Pair {
        first,
        second,
        mut sense,
    } = pair;
    let outcome = keyed(alloc, tables, come, keys, first, second, &mut sense, moves)?;
    let part = part_whole(outcome, sense)?;
    Ok(part)
}

/// Whether the conditions of a requirement can be met.
fn required<L>(
    alloc: Global,
    tables: &Database,
    body: &Body,
    plan: &Plan,
    moves: &mut Moves<L>,
) -> Result<Part, NoMemory>
    requires can_follow { CanFollow tables.now body.now plan.now }
    ensures outcome { IfOk result (λ part. part.outcome ≡ Found.Truth (some_answer body.now (state_of tables.now))) }
    ensures vouched { IfOk result (λ part. Vouches (sense_of part) body.now (state_of tables.now)) }
    ensures tight { IfOk result (λ part. IsTight (sense_of part) (state_of tables.now)) }
    ensures whole { IfOk result IsWhole }
    ensures cost { moves.new ≤ moves.old + bound body.now (stated_plan body.now) (state_of tables.now) }
    ensures moves { moves.old ≤ moves.new }
{
    let told = told(alloc, tables, body, plan, moves)?;
    let (truth, sense) = told;
    let part = part_whole(Found::Truth(truth), sense)?;
    Ok(part)
}

/// The part of a statement that isn't kept by slices.
fn evaluate_whole<J: Joiner<L>, L>(
    by: &J,
    alloc: Global,
    tables: &Database,
    stmt: &Stmt,
    plan: &Plan,
    moves: &mut Moves<L>,
) -> Result<Part, NoMemory>
    requires ready { J.is_ready by.now }
    requires plan { IsPlanned (body_in stmt.now) plan.now }
    requires can_evaluate { CanEvaluate tables.now stmt.now }
    requires whole { is_sliced_in stmt.now ≡ false }
    ensures part { IfOk result (IsPartOn stmt.now (state_of tables.now)) }
    ensures cost { moves.new ≤ moves.old + statement_cost_by (J.most by.now) stmt.now (state_of tables.now) }
    ensures moves { moves.old ≤ moves.new }
{
    match stmt {
        Stmt::Insert { head, keys, body } => {
            if is_plain(head, *keys) {
                let part = answered(by, alloc, tables, body, plan, &head.terms, moves)?;
                return Ok(part);
            }
            let part = inserted(by, alloc, tables, head, *keys, body, plan, moves)?;
            Ok(part)
        }
        Stmt::Delete { head, body } => {
            let part = answered(by, alloc, tables, body, plan, &head.terms, moves)?;
            Ok(part)
        }
        Stmt::Replace {
            gone,
            come,
            keys,
            body,
        } => {
            if is_plain(come, *keys) {
                let part = replaced(
                    by,
                    alloc,
                    tables,
                    &gone.terms,
                    &come.terms,
                    body,
                    plan,
                    moves,
                )?;
                return Ok(part);
            }
            let part = replaced_by_key(by, alloc, tables, gone, come, *keys, body, plan, moves)?;
            Ok(part)
        }
        Stmt::Require { some: _, body } => {
            let part = required(alloc, tables, body, plan, moves)?;
            Ok(part)
        }
        Stmt::Print {
            terms,
            kinds: _,
            body,
        } => {
            let part = answered(by, alloc, tables, body, plan, terms, moves)?;
            Ok(part)
        }
    }
}

/// The part of the statement on the database.
fn evaluate_part<J: Joiner<L>, L>(
    by: &J,
    alloc: Global,
    tables: &Database,
    stmt: &Stmt,
    plan: &Plan,
    moves: &mut Moves<L>,
) -> Result<Part, NoMemory>
    requires ready { J.is_ready by.now }
    requires plan { IsPlanned (body_in stmt.now) plan.now }
    requires can_evaluate { CanEvaluate tables.now stmt.now }
    ensures part { IfOk result (IsPartOn stmt.now (state_of tables.now)) }
    ensures cost { moves.new ≤ moves.old + statement_cost_by (J.most by.now) stmt.now (state_of tables.now) }
    ensures moves { moves.old ≤ moves.new }
{
    if is_sliced(stmt) {
        let part = join_slices(by, alloc, tables, stmt, plan, moves)?;
        return Ok(part);
    }
    let part = evaluate_whole(by, alloc, tables, stmt, plan, moves)?;
    Ok(part)
}

/// The part of the statement on the database, and its effect there.
pub(crate) fn evaluated<J: Joiner<L>, L>(
    by: &J,
    alloc: Global,
    tables: &Database,
    stmt: &Stmt,
    plan: &Plan,
    moves: &mut Moves<L>,
) -> Result<Step, NoMemory>
    requires ready { J.is_ready by.now }
    requires plan { plan.now ≡ stated_plan (body_in stmt.now) }
    requires can_evaluate { CanEvaluate tables.now stmt.now }
    ensures part { IfOk result (λ e. IsPartOn stmt.now (state_of tables.now) e.part) }
    ensures effect { IfOk result (λ e. view e.effect ≡ effect_of stmt.now (state_of tables.now)) }
    ensures cost { moves.new ≤ moves.old + statement_cost_by (J.most by.now) stmt.now (state_of tables.now) }
    ensures moves { moves.old ≤ moves.new }
{
    let part = evaluate_part(by, alloc, tables, stmt, plan, moves)?;
    let effect = effect_by(alloc, stmt, part.outcome())?;
    Ok(Step { part, effect })
}

/// The part of a statement kept by slices, mended at these keys, and its effect.
pub(crate) fn mended<L>(
    alloc: Global,
    tables: &Database,
    stmt: &Stmt,
    plan: &Plan,
    old: &Part,
    keys: &Items<Key>,
    moves: &mut Moves<L>,
) -> Result<Step, NoMemory>
    requires plan { plan.now ≡ stated_plan (body_in stmt.now) }
    requires can_evaluate { CanEvaluate tables.now stmt.now }
    requires sliced { is_sliced_in stmt.now ≡ true }
    requires old { (state : State) × IsPartOn stmt.now state old.now × HaveTouched keys.now old.now.sense old.now.slices state (state_of tables.now) }
    requires keys { IsRising keys.now }
    ensures part { IfOk result (λ e. IsPartOn stmt.now (state_of tables.now) e.part) }
    ensures mended { IfOk result (λ e. IsMendedPart keys.now old.now e.part) }
    ensures effect { IfOk result (λ e. view e.effect ≡ effect_of stmt.now (state_of tables.now)) }
    ensures cost { moves.new ≤ moves.old + mending_cost keys.now (body_in stmt.now) (stated_plan (body_in stmt.now)) (state_of tables.now) }
    ensures moves { moves.old ≤ moves.new }
{
    let part = mend_slices(alloc, tables, stmt, plan, old, keys, moves)?;
    let effect = effect_by(alloc, stmt, part.outcome())?;
    Ok(Step { part, effect })
}
