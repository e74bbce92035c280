//! The answers of a body whose first keys are in a range.
ghost use Rattle.std.specs.Prelude.{◌≡◌, ◌≤◌, ◌<◌, ◌-◌, ◌+◌, ◌^◌, [], length, true, false, IfOk, IsTrue};
ghost use Rattle.std.specs.List.{AllByRecursion};
ghost use Rattle.lt_model.specs.Bound.{are_bound};
ghost use Rattle.lt_query.specs.Answering.{AreTestsBound};
ghost use Rattle.lt_query.specs.Lists.{below};
ghost use Rattle.lt_query.specs.Plan.{IsPlanOf, term_at};
ghost use Rattle.lt_join.specs.Cost.{bound};
ghost use Rattle.lt_join.specs.Holders.{IsPrepared};
ghost use Rattle.lt_join.specs.Level.{AreAtomsAt};
ghost use Rattle.lt_join.specs.Parts.{IsPartOf, IsAtMost};

use crate::Found;
use crate::atom_iter::AtomIter;
use crate::level::{next_key, open};
use crate::path::Path;
use crate::walk::{Walk, explore_key};
use crate::way::Way;
use lt_face::indexes::Indexes;
use lt_face::key::Key;
use lt_face::memory::NoMemory;
use lt_face::moves::Moves;
use lt_query::{Body, Plan, TermList};
use lt_sense::Senses;
use std::alloc::Global;

/// What a walk by a way finds that goes to the first level's least key at or above `lo` first, and ends at its first key at or above
/// `hi`.
fn explore_keys<'a, I: Indexes, S: Senses, L>(
    way: &Way<'a, I>,
    iters: &mut [AtomIter<'a, I::Rows>],
    lo: Key,
    hi: Key,
    moves: &mut Moves<L>,
) -> Result<Found<S>, NoMemory>
    requires iters { AreAtomsAt way.now.plan way.now.state [] iters.old }
    requires all { way.now.first ≡ false }
    requires whole { length way.now.plan.levels ≤ way.now.wanted }
    requires has_levels { 0 < length way.now.plan.levels }
    requires tests { AreTestsBound way.now.body }
    requires heads { IsTrue (are_bound way.now.body way.now.terms) }
    requires bound { lo ≤ 2 ^ 120 }
    ensures part { IfOk result (λ found. IsPartOf way.now.terms way.now.body way.now.state (term_at way.now.plan.levels 0) lo hi found.rows found.sense) }
    ensures few { IfOk result (λ found. IsAtMost found.sense (moves.new - moves.old)) }
    // also where memory is refused
    ensures cost { moves.new ≤ moves.old + bound way.now.body way.now.plan way.now.state }
    ensures moves { moves.old ≤ moves.new }
{
    let mut walk = Walk::new(way.alloc);
    let mut keys = Path::root();
    let range = way.range_below(&keys, &walk.values);
    let mut met = open(
        way,
        iters,
        &keys,
        lo,
        range,
        &walk.values,
        &mut walk.found.sense,
        moves,
    )?;
    while met.key < hi {
        explore_key(way, iters, &mut keys, met.key, &mut walk, moves)?;
        met = next_key(way, iters, &keys, met, range, &mut walk.found.sense, moves)?;
    }
    Ok(walk.found)
}

/// What a walk finds that goes to the first level's least key at or above `lo` first, and ends at its first key at or above `hi`.
pub(crate) fn explore_range<I: Indexes, S: Senses, L>(
    alloc: Global,
    body: &Body,
    plan: &Plan,
    terms: &TermList,
    indexes: &I,
    lo: Key,
    hi: Key,
    moves: &mut Moves<L>,
) -> Result<Found<S>, NoMemory>
    requires of_body { IsPlanOf body.now plan.now }
    requires prepared { IsPrepared body.now plan.now terms.now }
    requires has_indexes { AllByRecursion (λ guide. I.has_index indexes.now guide.relation guide.columns ≡ true) plan.now.guides }
    requires has_firsts { AllByRecursion (λ atom. I.has_index indexes.now atom.relation (below (length atom.terms)) ≡ true) body.now.absents }
    requires tests { AreTestsBound body.now }
    requires are_bound { IsTrue (are_bound body.now terms.now) }
    requires has_levels { 0 < length plan.now.levels }
    requires bound { lo ≤ 2 ^ 120 }
    ensures part { IfOk result (λ found. IsPartOf terms.now body.now (I.state indexes.now) (term_at plan.now.levels 0) lo hi found.rows found.sense) }
    ensures few { IfOk result (λ found. IsAtMost found.sense (moves.new - moves.old)) }
    // also where memory is refused
    ensures cost { moves.new ≤ moves.old + bound body.now plan.now (I.state indexes.now) }
    ensures moves { moves.old ≤ moves.new }
{
    let wanted = plan.levels.len();
    let way = Way::new(alloc, indexes, body, plan, terms.as_slice(), false, wanted)?;
    let mut iters = way.iters()?;
    explore_keys(&way, &mut iters, lo, hi, moves)
}
