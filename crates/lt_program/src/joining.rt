//! How the joins of a program's statements are done: each as a whole, or in some other way, with what they were sensitive to, or
//! without where nobody will ask. What is said of moves holds also where memory is refused.
ghost use Rattle.std.specs.Prelude.{◌≡◌, ◌≤◌, ◌<◌, ◌+◌, ℕ, ◌∷◌, [], length, IfOk, IsTrue};
ghost use Rattle.lt_face.specs.Limits.{most_columns};
ghost use Rattle.lt_face.specs.State.{State};
ghost use Rattle.lt_model.specs.declared.normal.Body.{Body as BodyView};
ghost use Rattle.lt_model.specs.Answers.{answers as answers_of, cell_of, cells_of};
ghost use Rattle.lt_base.specs.Tables.{state_of};
ghost use Rattle.lt_sense.specs.Sense.{IsTight};
ghost use Rattle.lt_join.specs.Certify.{Certifies};
ghost use Rattle.lt_join.specs.Mended.{AreSlicesOn};
ghost use Rattle.lt_program.specs.Asked.{CanFollow};
ghost use Rattle.lt_program.specs.Planned.{ArePicked, IsEmpty};
ghost use Rattle.lt_program.specs.Split.{whole_cost};

use lt_base::Database;
use lt_face::items::{Items, RowList};
use lt_face::key::Key;
use lt_face::memory::NoMemory;
use lt_face::moves::Moves;
use lt_face::row::Row;
use lt_join::{Slices, answers, answers_alone, slices};
use lt_model::normal::{Body, Term, TermList};
use lt_query::Plan;
use lt_sense::Gathering;
use std::alloc::Global;

/// A way to find all answers of a body.
pub(crate) trait Joiner<L> {
    /// What its joins need of it.
    ghost is_ready: { Self → Type 0 };

    /// How many moves the join of a body may take on a state.
    ghost most: { Self → BodyView → State → ℕ };

    /// The terms' answers on the database, where nobody will ask what they were sensitive to.
    fn rows(
        &self,
        alloc: Global,
        tables: &Database,
        body: &Body,
        plan: &Plan,
        terms: &TermList,
        moves: &mut Moves<L>,
    ) -> Result<RowList, NoMemory>
        requires ready { is_ready self.now }
        requires can_follow { CanFollow tables.now body.now plan.now }
        requires terms { ArePicked body.now terms.now }
        ensures rows { IfOk result (λ rows. rows ≡ answers_of terms.now body.now (state_of tables.now)) }
        ensures cost { moves.new ≤ moves.old + most self.now body.now (state_of tables.now) }
        ensures moves { moves.old ≤ moves.new };

    /// The terms' answers on the database, and what they were sensitive to.
    fn found(
        &self,
        alloc: Global,
        tables: &Database,
        body: &Body,
        plan: &Plan,
        terms: &TermList,
        moves: &mut Moves<L>,
    ) -> Result<(RowList, Gathering), NoMemory>
        requires ready { is_ready self.now }
        requires can_follow { CanFollow tables.now body.now plan.now }
        requires terms { ArePicked body.now terms.now }
        ensures rows { IfOk result (λ found. found.0 ≡ answers_of terms.now body.now (state_of tables.now)) }
        ensures certified { IfOk result (λ found. Certifies found.1 body.now (state_of tables.now)) }
        ensures tight { IfOk result (λ found. IsTight found.1 (state_of tables.now)) }
        ensures cost { moves.new ≤ moves.old + most self.now body.now (state_of tables.now) }
        ensures moves { moves.old ≤ moves.new };

    /// The terms' answers on the database and what they were sensitive to, key by key of the body's first variable.
    fn slices(
        &self,
        alloc: Global,
        tables: &Database,
        body: &Body,
        plan: &Plan,
        terms: &TermList,
        moves: &mut Moves<L>,
    ) -> Result<Slices, NoMemory>
        requires ready { is_ready self.now }
        requires can_follow { CanFollow tables.now body.now plan.now }
        requires terms { ArePicked body.now terms.now }
        requires has_levels { 0 < length plan.now.levels }
        ensures slices { IfOk result (λ found. AreSlicesOn terms.now body.now plan.now (state_of tables.now) found.root found.slices) }
        ensures cost { moves.new ≤ moves.old + most self.now body.now (state_of tables.now) }
        ensures moves { moves.old ≤ moves.new };
}

/// Whether the body asks nothing: its one answer is the terms' row, whatever the state.
fn asks_nothing(body: &Body) -> bool
    ensures { IsTrue result → IsEmpty body.now }
{
    body.atoms.len() == 0 && body.absents.len() == 0 && body.tests.len() == 0
}

/// The cell of a constant. A variable that nothing binds is 0.
fn cell_alone(term: Term) -> Key
    ensures { result ≡ cell_of (λ v. 0) term }
{
    match term {
        Term::Var(_) => 0,
        Term::Cell(cell) => cell,
    }
}

/// The row of the terms' constants, alone.
fn row_alone(alloc: Global, terms: &TermList) -> Result<RowList, NoMemory>
    requires { length terms.now ≤ most_columns }
    ensures { IfOk result (λ rows. rows ≡ cells_of (λ v. 0) terms.now ∷ []) }
{
    let mut row = Row::from_cells(alloc, &[]);
    for term in terms.as_slice() {
        row.push(cell_alone(*term));
    }
    let mut rows = Items::from_vec(Vec::with_capacity(alloc, 1)?);
    rows.push(row)?;
    Ok(rows)
}

/// The terms' answers on the database, by one join; those of a body that asks nothing without one.
pub(crate) fn answered_alone<L>(
    alloc: Global,
    tables: &Database,
    body: &Body,
    plan: &Plan,
    terms: &TermList,
    moves: &mut Moves<L>,
) -> Result<RowList, NoMemory>
    requires can_follow { CanFollow tables.now body.now plan.now }
    requires terms { ArePicked body.now terms.now }
    ensures rows { IfOk result (λ rows. rows ≡ answers_of terms.now body.now (state_of tables.now)) }
    ensures cost { moves.new ≤ moves.old + whole_cost body.now (state_of tables.now) }
    ensures moves { moves.old ≤ moves.new }
{
    if asks_nothing(body) {
        let rows = row_alone(alloc, terms)?;
        return Ok(rows);
    }
    let rows = answers_alone(alloc, body, plan, terms, tables, moves)?;
    Ok(rows)
}

/// The terms' answers on the database and what they were sensitive to, by one join; those of a body that asks nothing without one.
pub(crate) fn found_whole<L>(
    alloc: Global,
    tables: &Database,
    body: &Body,
    plan: &Plan,
    terms: &TermList,
    moves: &mut Moves<L>,
) -> Result<(RowList, Gathering), NoMemory>
    requires can_follow { CanFollow tables.now body.now plan.now }
    requires terms { ArePicked body.now terms.now }
    ensures rows { IfOk result (λ found. found.0 ≡ answers_of terms.now body.now (state_of tables.now)) }
    ensures certified { IfOk result (λ found. Certifies found.1 body.now (state_of tables.now)) }
    ensures tight { IfOk result (λ found. IsTight found.1 (state_of tables.now)) }
    ensures cost { moves.new ≤ moves.old + whole_cost body.now (state_of tables.now) }
    ensures moves { moves.old ≤ moves.new }
{
    if asks_nothing(body) {
        let rows = row_alone(alloc, terms)?;
        return Ok((rows, Gathering::new(alloc)));
    }
    let found = answers(alloc, body, plan, terms, tables, moves)?;
    Ok(found)
}

/// The terms' answers on the database and what they were sensitive to, key by key of the body's first variable, by one join.
pub(crate) fn slices_whole<L>(
    alloc: Global,
    tables: &Database,
    body: &Body,
    plan: &Plan,
    terms: &TermList,
    moves: &mut Moves<L>,
) -> Result<Slices, NoMemory>
    requires can_follow { CanFollow tables.now body.now plan.now }
    requires terms { ArePicked body.now terms.now }
    requires has_levels { 0 < length plan.now.levels }
    ensures slices { IfOk result (λ found. AreSlicesOn terms.now body.now plan.now (state_of tables.now) found.root found.slices) }
    ensures cost { moves.new ≤ moves.old + whole_cost body.now (state_of tables.now) }
    ensures moves { moves.old ≤ moves.new }
{
    let found = slices(alloc, body, plan, terms, tables, moves)?;
    Ok(found)
}

/// Each join is one whole.
#[derive(Clone, Copy)]
pub(crate) struct Whole;

impl<L> Joiner<L> for Whole {
    ghost use Rattle.std.specs.Prelude.{⊤};
    ghost use Rattle.lt_program.specs.Split.{whole_cost};

    ghost is_ready = { λ whole. ⊤ };

    ghost most = { λ whole body state. whole_cost body state };

    fn rows(
        &self,
        alloc: Global,
        tables: &Database,
        body: &Body,
        plan: &Plan,
        terms: &TermList,
        moves: &mut Moves<L>,
    ) -> Result<RowList, NoMemory> {
        let rows = answered_alone(alloc, tables, body, plan, terms, moves)?;
        Ok(rows)
    }

    fn found(
        &self,
        alloc: Global,
        tables: &Database,
        body: &Body,
        plan: &Plan,
        terms: &TermList,
        moves: &mut Moves<L>,
    ) -> Result<(RowList, Gathering), NoMemory> {
        let found = found_whole(alloc, tables, body, plan, terms, moves)?;
        Ok(found)
    }

    fn slices(
        &self,
        alloc: Global,
        tables: &Database,
        body: &Body,
        plan: &Plan,
        terms: &TermList,
        moves: &mut Moves<L>,
    ) -> Result<Slices, NoMemory> {
        let found = slices_whole(alloc, tables, body, plan, terms, moves)?;
        Ok(found)
    }
}
