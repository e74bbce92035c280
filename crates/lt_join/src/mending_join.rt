//! Slices of touched keys, joined anew.
ghost use Rattle.std.specs.Prelude.{◌≡◌, ◌+◌, ◌≤◌, ◌<◌, true, false, length, IfOk};
ghost use Rattle.std.specs.List.{AllByRecursion};
ghost use Rattle.lt_face.specs.Lists.{IsIn};
ghost use Rattle.lt_face.specs.Rows.{IsCell};
ghost use Rattle.lt_face.specs.State.{State};
ghost use Rattle.lt_model.specs.Cells.{is_cell};
ghost use Rattle.lt_query.specs.Lists.{IsRising};
ghost use Rattle.lt_query.specs.Plan.{term_at};
ghost use Rattle.lt_sense.specs.Cut.{cut};
ghost use Rattle.lt_join.specs.Asked.{CanJoin, AreAnswerable};
ghost use Rattle.lt_join.specs.Mended.{AreSlicesOn, HaveTouched, AreMended};
ghost use Rattle.lt_join.specs.MendedPlan.{IsForbidden, pinned_plan, slice_cost, mending_cost};
ghost use Rattle.lt_join.specs.MendedRows.{AreJoinedIn};
ghost use Rattle.lt_join.specs.OfKey.{AreOfOwnKeys, IsOfKey, IsOwnSliceOf};
ghost use Rattle.lt_join.specs.Sliced.{IsSliceOf};
ghost use Rattle.lt_join.specs.Slices.{row_keys, sense_keys};

use crate::key_rows::{KeyRows, put_rows, share_from};
use crate::key_slice::slice_of_key;
use crate::mending_copy::{pin_body, pin_plan};
use crate::sliced::{Gathered, Slices};
use lt_face::indexes::Indexes;
use lt_face::items::{Items, RowList};
use lt_face::key::{CELL_LIMIT, Key};
use lt_face::memory::NoMemory;
use lt_face::moves::Moves;
use lt_query::{Body, Level, Plan, TermList};
use lt_sense::{Gathering, GatheringByKey};
use std::alloc::Global;

/// Whether the key is a cell.
fn may_stand(key: Key) -> bool
    ensures { result ≡ is_cell key }
{
    0 < key && key < CELL_LIMIT
}

/// Whether the key is a cell and each pin of the level.
fn may_be(level: &Level, key: Key) -> bool
    ensures cell { result ≡ true → IsCell key }
    ensures pins { result ≡ true → AllByRecursion (λ pin. pin ≡ key) level.now.pins }
    ensures not_so { result ≡ false → IsForbidden level.now key }
{
    if !may_stand(key) {
        return false;
    }
    for pin in level.pins.as_slice() {
        if *pin != key {
            return false;
        }
    }
    true
}

/// The rows of a key's slice and what they were sensitive to, joined with the first level pinned to the key. Of that level the sense has
/// the key alone: rows with another key there don't touch the slice. Where the key is no cell, or a pin of that level forbids it, nothing
/// is joined.
fn join_slice<I: Indexes, L>(
    alloc: Global,
    body: &Body,
    plan: &Plan,
    terms: &TermList,
    indexes: &I,
    key: Key,
    moves: &mut Moves<L>,
) -> Result<(RowList, Gathering), NoMemory>
    requires can_join { CanJoin (I.state indexes.now) (I.has_index indexes.now) body.now plan.now }
    requires answerable { AreAnswerable body.now terms.now }
    requires has_levels { 0 < length plan.now.levels }
    ensures slice { IfOk result (λ found. IsSliceOf terms.now body.now (term_at plan.now.levels 0) (I.state indexes.now) (record { key = key; rows = found.0; sense = found.1 })) }
    ensures of_key { IfOk result (λ found. IsOfKey key body.now (pinned_plan key plan.now) (I.state indexes.now) found.1) }
    // also where memory is refused
    ensures cost { moves.new ≤ moves.old + slice_cost key body.now plan.now (I.state indexes.now) }
    ensures moves { moves.old ≤ moves.new }
{
    let level = &plan.levels.as_slice()[0];
    if !may_be(level, key) {
        let rows = Items::new(alloc);
        let sense = Gathering::new(alloc);
        return Ok((rows, sense));
    }
    let at_key = pin_body(alloc, body, level.term, key)?;
    let way = pin_plan(alloc, plan, key)?;
    slice_of_key(alloc, &at_key, &way, terms, indexes, key, moves)
}

/// Puts the slices of the keys, joined anew, among others, which have no slice of these keys; of the rows those of these keys are left
/// out.
fn put_joined<I: Indexes, L>(
    alloc: Global,
    body: &Body,
    plan: &Plan,
    terms: &TermList,
    indexes: &I,
    sense: GatheringByKey,
    old: &[KeyRows],
    keys: &[Key],
    moves: &mut Moves<L>,
) -> Result<Gathered, NoMemory>
    requires can_join { CanJoin (I.state indexes.now) (I.has_index indexes.now) body.now plan.now }
    requires answerable { AreAnswerable body.now terms.now }
    requires has_levels { 0 < length plan.now.levels }
    requires rows { IsRising (row_keys old.now) }
    requires senses { IsRising (sense_keys sense.slices) }
    requires keys { IsRising keys.now }
    requires others { AllByRecursion (λ k. IsIn k keys.now → ⊥) (sense_keys sense.slices) }
    ensures root { IfOk result (λ found. found.sense.root ≡ sense.root) }
    ensures joined { IfOk result (λ found. AreJoinedIn (IsOwnSliceOf terms.now body.now plan.now (I.state indexes.now)) keys.now sense.slices old.now found.sense.slices found.rows.items) }
    // also where memory is refused
    ensures cost { moves.new ≤ moves.old + mending_cost keys.now body.now plan.now (I.state indexes.now) }
    ensures moves { moves.old ≤ moves.new }
{
    let mut sense = sense;
    let mut rows = Vec::new(alloc);
    let mut place = 0;
    for key in keys {
        let (found, part) = join_slice(alloc, body, plan, terms, indexes, *key, moves)?;
        sense.add_slice(*key, part)?;
        place = put_rows(alloc, &mut rows, old, place, *key, found)?;
    }
    share_from(&mut rows, old, place)?;
    Ok(Gathered { sense, rows })
}

impl Slices {
    ghost use Rattle.lt_face.specs.State.{State};
    ghost use Rattle.lt_query.specs.Lists.{IsRising};
    ghost use Rattle.lt_sense.specs.Cut.{cut};
    ghost use Rattle.lt_join.specs.Asked.{CanJoin, AreAnswerable};
    ghost use Rattle.lt_join.specs.Mended.{AreSlicesOn, HaveTouched, AreMended};
    ghost use Rattle.lt_join.specs.MendedPlan.{mending_cost};
    ghost use Rattle.lt_join.specs.OfKey.{AreOfOwnKeys};
    ghost use Rattle.lt_join.specs.Sliced.{slice_keys};

    /// As `mend`.
    fn mended<I: Indexes, L>(
        &self,
        alloc: Global,
        body: &Body,
        plan: &Plan,
        terms: &TermList,
        indexes: &I,
        keys: &[Key],
        moves: &mut Moves<L>,
    ) -> Result<Slices, NoMemory>
        requires can_join { CanJoin (I.state indexes.now) (I.has_index indexes.now) body.now plan.now }
        requires answerable { AreAnswerable body.now terms.now }
        requires has_levels { 0 < length plan.now.levels }
        requires keys { IsRising keys.now }
        ensures root { IfOk result (λ mended. mended.root ≡ cut keys.now self.now.root) }
        ensures slices { IfOk result (λ mended. AreMended keys.now self.now.slices mended.slices) }
        ensures own { IfOk result (λ mended. AreOfOwnKeys keys.now body.now plan.now (I.state indexes.now) mended.slices) }
        ensures right { IfOk result (λ mended. (s : State) → AreSlicesOn terms.now body.now plan.now s self.now.root self.now.slices → HaveTouched keys.now self.now.root self.now.slices s (I.state indexes.now) → AreSlicesOn terms.now body.now plan.now (I.state indexes.now) mended.root mended.slices) }
        // also where memory is refused
        ensures cost { moves.new ≤ moves.old + mending_cost keys.now body.now plan.now (I.state indexes.now) }
        ensures moves { moves.old ≤ moves.new }
    {
        let sense = self.sense.without(keys)?;
        let found = put_joined(
            alloc, body, plan, terms, indexes, sense, &self.rows, keys, moves,
        )?;
        Slices::of(found)
    }
}

/// Slices of a body, mended where rows changed: the keys, which ascend, are all that are touched, or more. Their slices are joined anew
/// on the indexes' state, each with the first level pinned to its key, and of that level the slice is sensitive to its key alone; all
/// others stay as they were, and the root gaps are cut at the keys.
pub fn mend<I: Indexes, L>(
    alloc: Global,
    body: &Body,
    plan: &Plan,
    terms: &TermList,
    indexes: &I,
    old: &Slices,
    keys: &[Key],
    moves: &mut Moves<L>,
) -> Result<Slices, NoMemory>
    requires can_join { CanJoin (I.state indexes.now) (I.has_index indexes.now) body.now plan.now }
    requires answerable { AreAnswerable body.now terms.now }
    requires has_levels { 0 < length plan.now.levels }
    requires keys { IsRising keys.now }
    ensures root { IfOk result (λ mended. mended.root ≡ cut keys.now old.now.root) }
    ensures slices { IfOk result (λ mended. AreMended keys.now old.now.slices mended.slices) }
    ensures own { IfOk result (λ mended. AreOfOwnKeys keys.now body.now plan.now (I.state indexes.now) mended.slices) }
    ensures right { IfOk result (λ mended. (s : State) → AreSlicesOn terms.now body.now plan.now s old.now.root old.now.slices → HaveTouched keys.now old.now.root old.now.slices s (I.state indexes.now) → AreSlicesOn terms.now body.now plan.now (I.state indexes.now) mended.root mended.slices) }
    // also where memory is refused
    ensures cost { moves.new ≤ moves.old + mending_cost keys.now body.now plan.now (I.state indexes.now) }
    ensures moves { moves.old ≤ moves.new }
{
    old.mended(alloc, body, plan, terms, indexes, keys, moves)
}
