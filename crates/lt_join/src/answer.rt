//! The answers of a body, and whether it has one.
ghost use Rattle.std.specs.Prelude.{◌≡◌, ◌+◌, ◌≤◌, true, length, IfOk, IsTrue};
ghost use Rattle.std.specs.List.{AllByRecursion};
ghost use Rattle.lt_model.specs.Answers.{answers as answers_of, some_answer};
ghost use Rattle.lt_model.specs.Bound.{are_bound};
ghost use Rattle.lt_query.specs.Answering.{AreTestsBound};
ghost use Rattle.lt_query.specs.Lists.{below};
ghost use Rattle.lt_query.specs.Plan.{IsPlanOf};
ghost use Rattle.lt_sense.specs.Sense.{IsTight};
ghost use Rattle.lt_join.specs.Asked.{CanJoin, AreAnswerable};
ghost use Rattle.lt_join.specs.Certify.{Certifies, Vouches};
ghost use Rattle.lt_join.specs.Cost.{bound};
ghost use Rattle.lt_join.specs.Holders.{IsPrepared};

use crate::Found;
use crate::walk::{Walk, walk_all};
use crate::wanted::wanted_by;
use crate::way::Way;
use lt_answers::ascending::ascending;
use lt_face::indexes::Indexes;
use lt_face::items::RowList;
use lt_face::memory::NoMemory;
use lt_face::moves::Moves;
use lt_query::{Body, Plan, TermList};
use lt_sense::{Gathering, NoSense, Senses};
use std::alloc::Global;

/// As `answers`, of a body and a plan that can be walked, however many literals there are, with what took the gaps and hits.
pub(crate) fn answers_prepared<I: Indexes, S: Senses, L>(
    alloc: Global,
    body: &Body,
    plan: &Plan,
    terms: &TermList,
    indexes: &I,
    moves: &mut Moves<L>,
) -> Result<(RowList, S), NoMemory>
    requires of_body { IsPlanOf body.now plan.now }
    requires prepared { IsPrepared body.now plan.now terms.now }
    requires has_indexes { AllByRecursion (λ guide. I.has_index indexes.now guide.relation guide.columns ≡ true) plan.now.guides }
    requires has_firsts { AllByRecursion (λ atom. I.has_index indexes.now atom.relation (below (length atom.terms)) ≡ true) body.now.absents }
    requires tests { AreTestsBound body.now }
    requires are_bound { IsTrue (are_bound body.now terms.now) }
    ensures rows { IfOk result (λ found. found.0 ≡ answers_of terms.now body.now (I.state indexes.now)) }
    ensures certified { IfOk result (λ found. Certifies (S.seen found.1) body.now (I.state indexes.now)) }
    ensures tight { IfOk result (λ found. IsTight (S.seen found.1) (I.state indexes.now)) }
    ensures gaps { IfOk result (λ found. moves.old + length (S.seen found.1).gaps ≤ moves.new) }
    ensures hits { IfOk result (λ found. moves.old + length (S.seen found.1).hits ≤ moves.new) }
    // also where memory is refused
    ensures cost { moves.new ≤ moves.old + bound body.now plan.now (I.state indexes.now) }
    ensures moves { moves.old ≤ moves.new }
{
    let wanted = plan.levels.len();
    let way = Way::new(alloc, indexes, body, plan, terms.as_slice(), false, wanted)?;
    let mut walk: Walk<S> = Walk::new(alloc);
    walk_all(&way, &mut walk, moves)?;
    let Found { sense, rows } = walk.found;
    let rows = ascending(rows.into_vec())?;
    Ok((rows, sense.into_senses()))
}

/// The answers of a body, ascending and each once: the terms' cells under the assignments that hold, whose rows are in the
/// indexes' state, and none of whose absent rows is; and what they were sensitive to, as it was gathered. The plan is any of the body's,
/// each index that it goes through is there, and so is the first index of each negated atom.
pub fn answers<I: Indexes, L>(
    alloc: Global,
    body: &Body,
    plan: &Plan,
    terms: &TermList,
    indexes: &I,
    moves: &mut Moves<L>,
) -> Result<(RowList, Gathering), NoMemory>
    requires can_join { CanJoin (I.state indexes.now) (I.has_index indexes.now) body.now plan.now }
    requires answerable { AreAnswerable body.now terms.now }
    ensures rows { IfOk result (λ found. found.0 ≡ answers_of terms.now body.now (I.state indexes.now)) }
    ensures certified { IfOk result (λ found. Certifies found.1 body.now (I.state indexes.now)) }
    ensures tight { IfOk result (λ found. IsTight found.1 (I.state indexes.now)) }
    ensures gaps { IfOk result (λ found. moves.old + length found.1.gaps ≤ moves.new) }
    ensures hits { IfOk result (λ found. moves.old + length found.1.hits ≤ moves.new) }
    // also where memory is refused
    ensures cost { moves.new ≤ moves.old + bound body.now plan.now (I.state indexes.now) }
    ensures moves { moves.old ≤ moves.new }
{
    answers_prepared(alloc, body, plan, terms, indexes, moves)
}

/// The answers of a body, ascending and each once, as of `answers`. Nothing is kept of what they were sensitive to.
pub fn answers_alone<I: Indexes, L>(
    alloc: Global,
    body: &Body,
    plan: &Plan,
    terms: &TermList,
    indexes: &I,
    moves: &mut Moves<L>,
) -> Result<RowList, NoMemory>
    requires can_join { CanJoin (I.state indexes.now) (I.has_index indexes.now) body.now plan.now }
    requires answerable { AreAnswerable body.now terms.now }
    ensures rows { IfOk result (λ rows. rows ≡ answers_of terms.now body.now (I.state indexes.now)) }
    // also where memory is refused
    ensures cost { moves.new ≤ moves.old + bound body.now plan.now (I.state indexes.now) }
    ensures moves { moves.old ≤ moves.new }
{
    let wanted = wanted_by(plan.levels.as_slice(), terms.as_slice());
    let way = Way::new(alloc, indexes, body, plan, terms.as_slice(), false, wanted)?;
    let mut walk: Walk<NoSense> = Walk::new(alloc);
    walk_all(&way, &mut walk, moves)?;
    let rows = ascending(walk.found.rows.into_vec())?;
    Ok(rows)
}

/// As `some`, with what took the gaps and hits.
fn some_sensed<I: Indexes, S: Senses, L>(
    alloc: Global,
    body: &Body,
    plan: &Plan,
    indexes: &I,
    moves: &mut Moves<L>,
) -> Result<(bool, S), NoMemory>
    requires can_join { CanJoin (I.state indexes.now) (I.has_index indexes.now) body.now plan.now }
    ensures truth { IfOk result (λ found. found.0 ≡ some_answer body.now (I.state indexes.now)) }
    ensures vouched { IfOk result (λ found. Vouches (S.seen found.1) body.now (I.state indexes.now)) }
    ensures tight { IfOk result (λ found. IsTight (S.seen found.1) (I.state indexes.now)) }
    ensures gaps { IfOk result (λ found. moves.old + length (S.seen found.1).gaps ≤ moves.new) }
    ensures hits { IfOk result (λ found. moves.old + length (S.seen found.1).hits ≤ moves.new) }
    // also where memory is refused
    ensures cost { moves.new ≤ moves.old + bound body.now plan.now (I.state indexes.now) }
    ensures moves { moves.old ≤ moves.new }
{
    let way = Way::new(alloc, indexes, body, plan, &[], true, 0)?;
    let mut walk = Walk::new(alloc);
    let truth = walk_all(&way, &mut walk, moves)?;
    Ok((truth, walk.found.sense.into_senses()))
}

/// Whether the body has an answer, and what that was sensitive to. It stops at the first.
pub fn some<I: Indexes, L>(
    alloc: Global,
    body: &Body,
    plan: &Plan,
    indexes: &I,
    moves: &mut Moves<L>,
) -> Result<(bool, Gathering), NoMemory>
    requires can_join { CanJoin (I.state indexes.now) (I.has_index indexes.now) body.now plan.now }
    ensures truth { IfOk result (λ found. found.0 ≡ some_answer body.now (I.state indexes.now)) }
    ensures vouched { IfOk result (λ found. Vouches found.1 body.now (I.state indexes.now)) }
    ensures tight { IfOk result (λ found. IsTight found.1 (I.state indexes.now)) }
    ensures gaps { IfOk result (λ found. moves.old + length found.1.gaps ≤ moves.new) }
    ensures hits { IfOk result (λ found. moves.old + length found.1.hits ≤ moves.new) }
    // also where memory is refused
    ensures cost { moves.new ≤ moves.old + bound body.now plan.now (I.state indexes.now) }
    ensures moves { moves.old ≤ moves.new }
{
    let found = some_sensed(alloc, body, plan, indexes, moves)?;
    Ok(found)
}

/// Whether the body has an answer. It stops at the first, and keeps nothing of what that was sensitive to.
pub fn some_alone<I: Indexes, L>(
    alloc: Global,
    body: &Body,
    plan: &Plan,
    indexes: &I,
    moves: &mut Moves<L>,
) -> Result<bool, NoMemory>
    requires can_join { CanJoin (I.state indexes.now) (I.has_index indexes.now) body.now plan.now }
    ensures truth { IfOk result (λ told. told ≡ some_answer body.now (I.state indexes.now)) }
    // also where memory is refused
    ensures cost { moves.new ≤ moves.old + bound body.now plan.now (I.state indexes.now) }
    ensures moves { moves.old ≤ moves.new }
{
    let (truth, _sense): (bool, NoSense) = some_sensed(alloc, body, plan, indexes, moves)?;
    Ok(truth)
}
