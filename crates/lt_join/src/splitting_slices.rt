//! The answers of a body, key by key of its first variable, by ranges of these keys.
ghost use Rattle.std.specs.Prelude.{◌≡◌, ◌<◌, ◌≤◌, ◌+◌, ◌*◌, [], length, IfOk};
ghost use Rattle.std.specs.List.{AllByRecursion};
ghost use Rattle.lt_model.specs.Answers.{answers as answers_of, ascending as ascending_rows};
ghost use Rattle.lt_query.specs.Lists.{IsRising};
ghost use Rattle.lt_query.specs.Plan.{term_at};
ghost use Rattle.lt_sense.specs.Sense.{IsTight};
ghost use Rattle.lt_join.specs.Asked.{CanJoin, AreAnswerable};
ghost use Rattle.lt_join.specs.Certify.{Certifies};
ghost use Rattle.lt_join.specs.Cost.{bound};
ghost use Rattle.lt_join.specs.Parts.{most_parts};
ghost use Rattle.lt_join.specs.Sliced.{slice_keys, united, sliced_rows, IsSliceOf, AreRooted, AreRootGaps, AreFoundKeys};

use crate::parts::{Ranged, find_whole};
use crate::sliced::{Gathered, Slices};
use crate::slicing::{gather_range, whole_of};
use lt_edges::Gate;
use lt_face::indexes::Indexes;
use lt_face::key::Key;
use lt_face::memory::NoMemory;
use lt_face::moves::Moves;
use lt_query::{Body, Plan, TermList};
use std::alloc::Global;
use std::sync::Wait;
use std::thread::Threads;

/// The way to join for slices.
#[derive(Drop)]
pub(crate) struct Slicing;

impl Ranged<Gathered> for Slicing {
    ghost use Rattle.lt_join.specs.Slices.{AreKeyed, slices_of};
    ghost use Rattle.lt_join.specs.Parts.{IsAtMost, AreSlicesWithin};
    ghost use Rattle.lt_join.specs.Sliced.{united};

    ghost is_found = { λ way terms body plan state lo hi found. AreSlicesWithin terms body plan state lo hi found.sense.root (slices_of found.rows.items found.sense.slices) × AreKeyed found.sense.slices found.rows.items };

    ghost is_paid = { λ found n. IsAtMost (united found.sense.root (slices_of found.rows.items found.sense.slices)) n };

    fn find<I: Indexes, L>(
        &self,
        alloc: Global,
        body: &Body,
        plan: &Plan,
        terms: &TermList,
        indexes: &I,
        lo: Key,
        hi: Key,
        moves: &mut Moves<L>,
    ) -> Result<Gathered, NoMemory> {
        let found = gather_range(alloc, body, plan, terms, indexes, lo, hi, moves)?;
        Ok(found)
    }

    fn unite(&self, one: Gathered, next: Gathered) -> Result<Gathered, NoMemory> {
        let Gathered {
            mut sense,
            mut rows,
        } = one;
        let mut more = next.rows;
        rows.append(&mut more)?;
        sense.add_all(&next.sense)?;
        Ok(Gathered { sense, rows })
    }
}

/// The body's answers and what they were sensitive to, key by key of its first variable, as of `slices`, by at most so many parts:
/// each joins for a range of these keys, in a thread of its own where there can be one, and passes the gate before that with its
/// number, from 0, as worker and as job. Where the first level has at most one key there is one part.
pub fn slices_split<R: Threads + Wait + Sync, I: Indexes + Sync, G: Gate, L: Send>(
    rt: &R,
    alloc: Global,
    body: &Body,
    plan: &Plan,
    terms: &TermList,
    indexes: &I,
    parts: u32,
    gate: &G,
    moves: &mut Moves<L>,
) -> Result<Slices, NoMemory>
where
    I::Rows: Sync,
    requires can_join { CanJoin (I.state indexes.now) (I.has_index indexes.now) body.now plan.now }
    requires answerable { AreAnswerable body.now terms.now }
    requires has_levels { 0 < length plan.now.levels }
    requires some { 0 < parts }
    requires few { parts ≤ most_parts }
    ensures ascending { IfOk result (λ found. IsRising (slice_keys found.slices)) }
    ensures slices { IfOk result (λ found. AllByRecursion (IsSliceOf terms.now body.now (term_at plan.now.levels 0) (I.state indexes.now)) found.slices) }
    ensures found { IfOk result (λ found. AreFoundKeys plan.now (I.state indexes.now) (slice_keys found.slices)) }
    ensures rooted { IfOk result (λ found. AreRooted body.now plan.now found.root (slice_keys found.slices)) }
    ensures root_gaps { IfOk result (λ found. AreRootGaps found.root) }
    ensures root_hits { IfOk result (λ found. found.root.hits ≡ []) }
    ensures rows { IfOk result (λ found. ascending_rows (sliced_rows found.slices) ≡ answers_of terms.now body.now (I.state indexes.now)) }
    ensures certified { IfOk result (λ found. Certifies (united found.root found.slices) body.now (I.state indexes.now)) }
    ensures tight { IfOk result (λ found. IsTight (united found.root found.slices) (I.state indexes.now)) }
    ensures gaps { IfOk result (λ found. moves.old + length (united found.root found.slices).gaps ≤ moves.new) }
    ensures hits { IfOk result (λ found. moves.old + length (united found.root found.slices).hits ≤ moves.new) }
    // also where memory is refused
    ensures cost { moves.new ≤ moves.old + parts * bound body.now plan.now (I.state indexes.now) }
    ensures moves { moves.old ≤ moves.new }
{
    let found = find_whole::<R, L, I, Slicing, Gathered, G>(
        rt, &Slicing, alloc, body, plan, terms, indexes, parts, gate, moves,
    )?;
    let whole = whole_of(found)?;
    Ok(whole)
}
