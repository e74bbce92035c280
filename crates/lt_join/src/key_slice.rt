//! The slice of one key, joined by itself.
ghost use Rattle.std.specs.Prelude.{◌≡◌, ◌≤◌, ◌<◌, ◌+◌, ◌^◌, [], false, length, IfOk, IsTrue};
ghost use Rattle.lt_model.specs.Bound.{are_bound};
ghost use Rattle.lt_query.specs.Answering.{AreTestsBound};
ghost use Rattle.lt_query.specs.Plan.{term_at};
ghost use Rattle.lt_join.specs.Cost.{bound};
ghost use Rattle.lt_join.specs.Level.{AreAtomsAt};
ghost use Rattle.lt_join.specs.OfKey.{IsOfKey};
ghost use Rattle.lt_join.specs.Parts.{IsJoinable};
ghost use Rattle.lt_join.specs.Sliced.{IsSliceOf};

use crate::atom_iter::AtomIter;
use crate::level::open;
use crate::noting::{Noted, noted_at_key};
use crate::path::Path;
use crate::slicing::slice_at;
use crate::values::Values;
use crate::way::Way;
use lt_face::indexes::Indexes;
use lt_face::items::{Items, RowList};
use lt_face::key::Key;
use lt_face::memory::NoMemory;
use lt_face::moves::Moves;
use lt_query::{Body, Plan, TermList};
use lt_sense::{Gathering, Sensed};
use std::alloc::Global;

/// The rows of the key's slice and what they were sensitive to, by a way. Where the first level hasn't the key, that is what the gaps
/// that were passed there have at the key.
fn join_key<'a, I: Indexes, L>(
    way: &Way<'a, I>,
    iters: &mut [AtomIter<'a, I::Rows>],
    key: Key,
    moves: &mut Moves<L>,
) -> Result<(RowList, Gathering), NoMemory>
    requires iters { AreAtomsAt way.now.plan way.now.state [] iters.old }
    requires all { way.now.first ≡ false }
    requires whole { length way.now.plan.levels ≤ way.now.wanted }
    requires has_levels { 0 < length way.now.plan.levels }
    requires tests { AreTestsBound way.now.body }
    requires heads { IsTrue (are_bound way.now.body way.now.terms) }
    requires bound { key < 2 ^ 120 }
    ensures slice { IfOk result (λ found. IsSliceOf way.now.terms way.now.body (term_at way.now.plan.levels 0) way.now.state (record { key = key; rows = found.0; sense = found.1 })) }
    ensures of_key { IfOk result (λ found. IsOfKey key way.now.body way.now.plan way.now.state found.1) }
    // also where memory is refused
    ensures cost { moves.new ≤ moves.old + bound way.now.body way.now.plan way.now.state }
    ensures moves { moves.old ≤ moves.new }
{
    let mut noted: Sensed<Noted> = Sensed::none(way.alloc);
    let mut keys = Path::root();
    let values = Values::none();
    let range = way.range_below(&keys, &values);
    let met = open(way, iters, &keys, key, range, &values, &mut noted, moves)?;
    if met.key == key {
        let found = slice_at(way, iters, &mut keys, key, moves)?;
        return Ok(found);
    }
    let rows = Items::new(way.alloc);
    let sense = noted_at_key(noted, key)?;
    Ok((rows, sense))
}

/// The rows of the key's slice and what they were sensitive to.
pub(crate) fn slice_of_key<I: Indexes, L>(
    alloc: Global,
    body: &Body,
    plan: &Plan,
    terms: &TermList,
    indexes: &I,
    key: Key,
    moves: &mut Moves<L>,
) -> Result<(RowList, Gathering), NoMemory>
    requires ready { IsJoinable (I.state indexes.now) (I.has_index indexes.now) body.now plan.now terms.now }
    requires bound { key < 2 ^ 120 }
    ensures slice { IfOk result (λ found. IsSliceOf terms.now body.now (term_at plan.now.levels 0) (I.state indexes.now) (record { key = key; rows = found.0; sense = found.1 })) }
    ensures of_key { IfOk result (λ found. IsOfKey key body.now plan.now (I.state indexes.now) found.1) }
    // also where memory is refused
    ensures cost { moves.new ≤ moves.old + bound body.now plan.now (I.state indexes.now) }
    ensures moves { moves.old ≤ moves.new }
{
    let wanted = plan.levels.len();
    let way = Way::new(alloc, indexes, body, plan, terms.as_slice(), false, wanted)?;
    let mut iters = way.iters()?;
    join_key(&way, &mut iters, key, moves)
}
