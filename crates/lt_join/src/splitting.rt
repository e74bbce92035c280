//! The answers of a body by ranges of the keys of its first level.
ghost use Rattle.std.specs.Prelude.{◌≡◌, ◌<◌, ◌≤◌, ◌+◌, ◌*◌, length, IfOk};
ghost use Rattle.lt_model.specs.Answers.{answers as answers_of};
ghost use Rattle.lt_sense.specs.Sense.{IsTight};
ghost use Rattle.lt_join.specs.Asked.{CanJoin, AreAnswerable};
ghost use Rattle.lt_join.specs.Certify.{Certifies};
ghost use Rattle.lt_join.specs.Cost.{bound};
ghost use Rattle.lt_join.specs.Parts.{most_parts};

use crate::Found;
use crate::answer::answers_prepared;
use crate::parts::{Ranged, find_whole};
use crate::ranging::explore_range;
use lt_answers::ascending::ascending;
use lt_edges::Gate;
use lt_face::indexes::Indexes;
use lt_face::items::{Items, RowList};
use lt_face::key::Key;
use lt_face::memory::NoMemory;
use lt_face::moves::Moves;
use lt_query::{Body, Plan, TermList};
use lt_sense::{Gathering, NoSense, Senses};
use std::alloc::Global;
use std::sync::Wait;
use std::thread::Threads;

/// The way to join for answers.
#[derive(Drop)]
pub(crate) struct Answering;

impl<S: Senses> Ranged<Found<S>> for Answering {
    ghost use Rattle.lt_query.specs.Plan.{term_at};
    ghost use Rattle.lt_join.specs.Parts.{IsPartOf, IsAtMost};

    ghost is_found = { λ way terms body plan state lo hi found. IsPartOf terms body state (term_at plan.levels 0) lo hi found.rows found.sense };

    ghost is_paid = { λ found n. IsAtMost found.sense n };

    fn find<I: Indexes, L>(
        &self,
        alloc: Global,
        body: &Body,
        plan: &Plan,
        terms: &TermList,
        indexes: &I,
        lo: Key,
        hi: Key,
        moves: &mut Moves<L>,
    ) -> Result<Found<S>, NoMemory> {
        let found: Found<S> = explore_range(alloc, body, plan, terms, indexes, lo, hi, moves)?;
        let Found { sense, rows } = found;
        let rows = ascending(rows.into_vec())?;
        Ok(Found { sense, rows })
    }

    fn unite(&self, one: Found<S>, next: Found<S>) -> Result<Found<S>, NoMemory> {
        let Found { mut sense, rows } = one;
        let mut rows = rows.into_vec();
        let mut more = next.rows.into_vec();
        rows.append(&mut more)?;
        sense.add_all(&next.sense)?;
        Ok(Found {
            sense,
            rows: Items::from_vec(rows),
        })
    }
}

/// The answers of a body as of `answers_split`, with what took the gaps and hits, in the order in which they were found.
fn by_parts<R: Threads + Wait + Sync, I: Indexes + Sync, S: Senses + Send, G: Gate, L: Send>(
    rt: &R,
    alloc: Global,
    body: &Body,
    plan: &Plan,
    terms: &TermList,
    indexes: &I,
    parts: u32,
    gate: &G,
    moves: &mut Moves<L>,
) -> Result<(RowList, S), NoMemory>
where
    I::Rows: Sync,
    requires can_join { CanJoin (I.state indexes.now) (I.has_index indexes.now) body.now plan.now }
    requires answerable { AreAnswerable body.now terms.now }
    requires some { 0 < parts }
    requires few { parts ≤ most_parts }
    ensures rows { IfOk result (λ found. found.0 ≡ answers_of terms.now body.now (I.state indexes.now)) }
    ensures certified { IfOk result (λ found. Certifies (S.seen found.1) body.now (I.state indexes.now)) }
    ensures tight { IfOk result (λ found. IsTight (S.seen found.1) (I.state indexes.now)) }
    ensures gaps { IfOk result (λ found. moves.old + length (S.seen found.1).gaps ≤ moves.new) }
    ensures hits { IfOk result (λ found. moves.old + length (S.seen found.1).hits ≤ moves.new) }
    // also where memory is refused
    ensures cost { moves.new ≤ moves.old + parts * bound body.now plan.now (I.state indexes.now) }
    ensures moves { moves.old ≤ moves.new }
{
    if plan.levels.len() == 0 {
        gate.pass(rt, 0, 0);
        return answers_prepared(alloc, body, plan, terms, indexes, moves);
    }
    let found = find_whole::<R, L, I, Answering, Found<S>, G>(
        rt, &Answering, alloc, body, plan, terms, indexes, parts, gate, moves,
    )?;
    let rows = ascending(found.rows.into_vec())?;
    Ok((rows, found.sense.into_senses()))
}

/// The answers of a body and what they were sensitive to, as of `answers`, by at most so many parts: each joins for a range of the
/// first level's keys, in a thread of its own where there can be one. Before its work a part passes the gate with its number, from
/// 0, as worker and as job. Where the first level has at most one key there is one part.
pub fn answers_split<R: Threads + Wait + Sync, I: Indexes + Sync, G: Gate, L: Send>(
    rt: &R,
    alloc: Global,
    body: &Body,
    plan: &Plan,
    terms: &TermList,
    indexes: &I,
    parts: u32,
    gate: &G,
    moves: &mut Moves<L>,
) -> Result<(RowList, Gathering), NoMemory>
where
    I::Rows: Sync,
    requires can_join { CanJoin (I.state indexes.now) (I.has_index indexes.now) body.now plan.now }
    requires answerable { AreAnswerable body.now terms.now }
    requires some { 0 < parts }
    requires few { parts ≤ most_parts }
    ensures rows { IfOk result (λ found. found.0 ≡ answers_of terms.now body.now (I.state indexes.now)) }
    ensures certified { IfOk result (λ found. Certifies found.1 body.now (I.state indexes.now)) }
    ensures tight { IfOk result (λ found. IsTight found.1 (I.state indexes.now)) }
    ensures gaps { IfOk result (λ found. moves.old + length found.1.gaps ≤ moves.new) }
    ensures hits { IfOk result (λ found. moves.old + length found.1.hits ≤ moves.new) }
    // also where memory is refused
    ensures cost { moves.new ≤ moves.old + parts * bound body.now plan.now (I.state indexes.now) }
    ensures moves { moves.old ≤ moves.new }
{
    by_parts(rt, alloc, body, plan, terms, indexes, parts, gate, moves)
}

/// The answers of a body, as of `answers_alone`, by at most so many parts: each joins for a range of the first level's keys, in a
/// thread of its own where there can be one. Before its work a part passes the gate with its number, from 0, as worker and as job.
/// Where the first level has at most one key there is one part.
pub fn answers_split_alone<R: Threads + Wait + Sync, I: Indexes + Sync, G: Gate, L: Send>(
    rt: &R,
    alloc: Global,
    body: &Body,
    plan: &Plan,
    terms: &TermList,
    indexes: &I,
    parts: u32,
    gate: &G,
    moves: &mut Moves<L>,
) -> Result<RowList, NoMemory>
where
    I::Rows: Sync,
    requires can_join { CanJoin (I.state indexes.now) (I.has_index indexes.now) body.now plan.now }
    requires answerable { AreAnswerable body.now terms.now }
    requires some { 0 < parts }
    requires few { parts ≤ most_parts }
    ensures rows { IfOk result (λ rows. rows ≡ answers_of terms.now body.now (I.state indexes.now)) }
    // also where memory is refused
    ensures cost { moves.new ≤ moves.old + parts * bound body.now plan.now (I.state indexes.now) }
    ensures moves { moves.old ≤ moves.new }
{
    let (rows, _sense): (RowList, NoSense) = by_parts(
        rt, alloc, body, plan, terms, indexes, parts, gate, moves,
    )?;
    Ok(rows)
}
