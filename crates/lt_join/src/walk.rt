//! The walk over the levels of a plan.
ghost use Rattle.std.specs.Prelude.{◌≡◌, ◌+◌, ◌<◌, ◌≤◌, ◌-◌, ◌⊎◌, ◌∷◌, ◌++◌, [], None, true, false, length, take, drop, slice_get, Some, IfOk, OnOk};
ghost use Rattle.std.specs.List.{AllByRecursion};
ghost use Rattle.lt_face.specs.Limits.{most_variables};
ghost use Rattle.lt_model.specs.Cells.{is_cell};
ghost use Rattle.lt_model.specs.Fits.{IsTermOf};
ghost use Rattle.lt_query.specs.declared.plans.Level.{Level as LevelView};
ghost use Rattle.lt_query.specs.Plan.{IsDetermined, term_at};
ghost use Rattle.lt_sense.specs.Sense.{IsTight};
ghost use Rattle.lt_join.specs.Cost.{cost_from};
ghost use Rattle.lt_join.specs.Explored.{Fits};
ghost use Rattle.lt_join.specs.Holders.{atoms_at};
ghost use Rattle.lt_join.specs.Known.{IsKnown};
ghost use Rattle.lt_join.specs.Level.{AreAtomsAt};
ghost use Rattle.lt_join.specs.Values.{values_in};
ghost use Rattle.lt_join.specs.Walked.{at, Grows, HitsAbove, IsReached, IsRight};
ghost use Rattle.lt_join.specs.Way.{HasExplored, HasWalked};

use crate::Found;
use crate::atom_iter::AtomIter;
use crate::leaf::at_leaf;
use crate::level::{close, next_key, open};
use crate::path::Path;
use crate::values::Values;
use crate::way::Way;
use lt_face::indexes::Indexes;
use lt_face::items::Items;
use lt_face::key::{END, Key};
use lt_face::memory::NoMemory;
use lt_face::moves::Moves;
use lt_query::{Level, Term};
use lt_sense::{KeysAt, Sensed, Senses};
use std::alloc::Global;

/// What a walk has found, and what the keys of the levels so far give the variables.
#[derive(Drop)]
pub struct Walk<S: Senses> {
    pub values: Values,
    pub found: Found<S>,
}

impl<S: Senses> Walk<S> {
    /// At the root, with nothing found.
    pub(crate) fn new(alloc: Global) -> Walk<S>
        ensures values { values_in result.values.cells ≡ (λ _. None) }
        ensures sense { result.found.sense ≡ record { gaps = []; hits = [] } }
        ensures rows { result.found.rows ≡ [] }
    {
        Walk {
            values: Values::none(),
            found: Found {
                sense: Sensed::none(alloc),
                rows: Items::new(alloc),
            },
        }
    }
}

/// The keys of the levels so far: of each the cell of its term.
#[derive(Drop)]
struct LevelKeys<'b> {
    levels: &'b [Level],
    values: &'b Values,
}

impl<'b> KeysAt for LevelKeys<'b> {
    ghost use Rattle.std.specs.Prelude.{length};
    ghost use Rattle.lt_model.specs.Answers.{cell_of};
    ghost use Rattle.lt_query.specs.Plan.{term_at};
    ghost use Rattle.lt_join.specs.Values.{assigned, values_in};

    ghost key = { λ keys l. cell_of (assigned (values_in keys.values.now.cells)) (term_at keys.levels.now l) };

    ghost count = { λ keys. length keys.levels.now };

    #[inline]
    fn key_at(&self, level: usize) -> Key {
        self.values.cell(self.levels[level].term)
    }
}

/// Makes hits of the rows of the atoms that end at the last key.
#[inline]
fn add_hits<'a, I: Indexes, S: Senses>(
    way: &Way<'a, I>,
    iters: &[AtomIter<'a, I::Rows>],
    keys: &Path,
    values: &Values,
    sense: &mut Sensed<S>,
) -> Result<(), NoMemory>
    requires some { 0 < length keys.now }
    requires within { length keys.now ≤ length way.now.plan.levels }
    requires known { IsKnown way.now.plan.levels keys.now (values_in values.now.cells) }
    requires iters { AreAtomsAt way.now.plan way.now.state keys.now iters.now }
    requires hits { HitsAbove sense.old way.now.plan.guides (take (length keys.now - 1) keys.now) }
    requires tight { IsTight sense.old way.now.state }
    ensures grows { OnOk result (Grows sense.old sense.new) }
    ensures tight { OnOk result (IsTight sense.new way.now.state) }
    ensures hits { OnOk result (HitsAbove sense.new way.now.plan.guides keys.now) }
    ensures gaps { OnOk result (sense.new.gaps ≡ sense.old.gaps) }
    ensures few { OnOk result (length sense.new.hits ≤ length sense.old.hits + length (atoms_at way.now.plan.guides (length keys.now - 1))) }
{
    let cells = LevelKeys {
        levels: way.plan.levels.as_slice(),
        values,
    };
    for place in way.plan.guides.at_level(keys.len() - 1) {
        let iter = &iters[*place];
        if iter.is_last() {
            let guide = iter.guide();
            sense.add_hit_at(way.alloc, guide.relation, guide.places.as_slice(), &cells)?;
        }
    }
    Ok(())
}

/// Gives the term of a level this key.
#[inline]
fn give_key(values: &mut Values, levels: &[Level], keys: &Path, key: Key)
    requires within { length keys.now < length levels.now }
    requires variables { AllByRecursion (λ level. IsTermOf most_variables level.term) levels.now }
    requires determined { (level : LevelView) → slice_get levels.now (length keys.now) ≡ Some level → IsDetermined levels.now (length keys.now) level level.term }
    requires known { IsKnown levels.now keys.now (values_in values.old.cells) }
    requires fits { (level : LevelView) → slice_get levels.now (length keys.now) ≡ Some level → Fits level (at keys.now) key }
    ensures { IsKnown levels.now (keys.now ++ key ∷ []) (values_in values.new.cells) }
{
    let level = &levels[keys.len()];
    match level.term {
        Term::Var(v) => values.set(v, key),
        Term::Cell(_) => {}
    }
}

/// Goes below the keys to this key, at which the iterators stand already: the rows of the atoms that end there become hits.
#[inline]
fn enter<'a, I: Indexes, S: Senses>(
    way: &Way<'a, I>,
    iters: &[AtomIter<'a, I::Rows>],
    keys: &mut Path,
    key: Key,
    walk: &mut Walk<S>,
) -> Result<(), NoMemory>
    requires deeper { length keys.old < length way.now.plan.levels }
    requires iters { AreAtomsAt way.now.plan way.now.state (keys.old ++ key ∷ []) iters.now }
    requires known { IsKnown way.now.plan.levels keys.old (values_in walk.old.values.cells) }
    requires reached { IsReached way.now.plan walk.old.found.sense keys.old }
    requires cell { is_cell key ≡ true }
    requires fits { (level : LevelView) → slice_get way.now.plan.levels (length keys.old) ≡ Some level → Fits level (at keys.old) key }
    requires tight { IsTight walk.old.found.sense way.now.state }
    ensures keys { OnOk result (keys.new ≡ keys.old ++ key ∷ []) }
    ensures known { OnOk result (IsKnown way.now.plan.levels (keys.old ++ key ∷ []) (values_in walk.new.values.cells)) }
    ensures reached { OnOk result (IsReached way.now.plan walk.new.found.sense (keys.old ++ key ∷ [])) }
    ensures tight { OnOk result (IsTight walk.new.found.sense way.now.state) }
    ensures grows { OnOk result (Grows walk.old.found.sense walk.new.found.sense) }
    ensures gaps { OnOk result (walk.new.found.sense.gaps ≡ walk.old.found.sense.gaps) }
    ensures few { OnOk result (length walk.new.found.sense.hits ≤ length walk.old.found.sense.hits + length (atoms_at way.now.plan.guides (length keys.old))) }
    ensures rows { walk.new.found.rows ≡ walk.old.found.rows }
{
    give_key(&mut walk.values, way.plan.levels.as_slice(), keys, key);
    keys.push(key);
    add_hits(way, iters, keys, &walk.values, &mut walk.found.sense)?;
    Ok(())
}

/// Whether a walk stops at so many levels, where it may have stopped below.
#[inline]
fn stops_at(depth: usize, stopped: bool, wanted: usize) -> bool
    ensures ends { result ≡ true → (stopped ≡ true) × (wanted ≤ depth) }
    ensures goes { result ≡ false → (stopped ≡ false) ⊎ (depth < wanted) }
{
    stopped && depth >= wanted
}

/// Explores the levels below the keys. It stops at an answer where no other row lies below them: where the first suffices, or where the
/// levels above decide the terms.
pub(crate) fn descend<'a, I: Indexes, S: Senses, L>(
    way: &Way<'a, I>,
    iters: &mut [AtomIter<'a, I::Rows>],
    keys: &mut Path,
    walk: &mut Walk<S>,
    moves: &mut Moves<L>,
) -> Result<bool, NoMemory>
    requires iters { AreAtomsAt way.now.plan way.now.state keys.old iters.old }
    requires known { IsKnown way.now.plan.levels keys.old (values_in walk.old.values.cells) }
    requires reached { IsReached way.now.plan walk.old.found.sense keys.old }
    requires right { IsRight way.now.body way.now.terms way.now.state walk.old.found }
    ensures walked { IfOk result (HasWalked way.now keys.old walk.old.found walk.new.found moves.old moves.new) }
    ensures back { IfOk result (λ _. keys.new ≡ keys.old) }
    ensures known { IfOk result (λ _. IsKnown way.now.plan.levels keys.old (values_in walk.new.values.cells)) }
    ensures iters { IfOk result (λ _. iters.new ≡ iters.old) }
    // also where memory is refused
    ensures cost { moves.new ≤ moves.old + cost_from (length way.now.body.absents) way.now.state way.now.plan.guides (drop (length keys.old) way.now.plan.levels) (length keys.old) (at keys.old) }
    ensures moves { moves.old ≤ moves.new }
{
    let depth = keys.len();
    if depth == way.plan.levels.len() {
        return at_leaf(way, keys, &walk.values, &mut walk.found, moves);
    }
    if way.is_hopeless::<S>(keys, &walk.values) {
        return Ok(false);
    }
    let range = way.range_below(keys, &walk.values);
    let mut met = open(
        way,
        iters,
        keys,
        0,
        range,
        &walk.values,
        &mut walk.found.sense,
        moves,
    )?;
    while met.key < END {
        enter(way, iters, keys, met.key, walk)?;
        let stopped = descend(way, iters, keys, walk, moves)?;
        keys.pop();
        if stops_at(depth, stopped, way.wanted) {
            close(iters, way.plan.guides.at_level(depth));
            return Ok(true);
        }
        met = next_key(way, iters, keys, met, range, &mut walk.found.sense, moves)?;
    }
    Ok(false)
}

/// Explores what lies under the key at which the first level stands.
pub(crate) fn explore_key<'a, I: Indexes, S: Senses, L>(
    way: &Way<'a, I>,
    iters: &mut [AtomIter<'a, I::Rows>],
    keys: &mut Path,
    key: Key,
    walk: &mut Walk<S>,
    moves: &mut Moves<L>,
) -> Result<(), NoMemory>
    requires at_root { keys.old ≡ [] }
    requires all { way.now.first ≡ false }
    requires has_levels { 0 < length way.now.plan.levels }
    requires iters { AreAtomsAt way.now.plan way.now.state (key ∷ []) iters.old }
    requires reached { IsReached way.now.plan walk.old.found.sense [] }
    requires cell { is_cell key ≡ true }
    requires fits { (level : LevelView) → slice_get way.now.plan.levels 0 ≡ Some level → Fits level (at []) key }
    requires known { IsKnown way.now.plan.levels [] (values_in walk.old.values.cells) }
    requires right { IsRight way.now.body way.now.terms way.now.state walk.old.found }
    ensures back { IfOk result (λ _. keys.new ≡ []) }
    ensures iters { IfOk result (λ _. iters.new ≡ iters.old) }
    ensures known { IfOk result (λ _. IsKnown way.now.plan.levels [] (values_in walk.new.values.cells)) }
    ensures below { IfOk result (λ _. HasExplored way.now [] key walk.old.found walk.new.found moves.old moves.new) }
    // also where memory is refused
    ensures cost { moves.new ≤ moves.old + cost_from (length way.now.body.absents) way.now.state way.now.plan.guides (drop 1 way.now.plan.levels) 1 (at (key ∷ [])) }
    ensures moves { moves.old ≤ moves.new }
{
    enter(way, iters, keys, key, walk)?;
    descend(way, iters, keys, walk, moves)?;
    keys.pop();
    Ok(())
}

/// Explores all levels. The iterators of one or two atoms lie beside the walk, and take no memory.
pub(crate) fn walk_all<'a, I: Indexes, S: Senses, L>(
    way: &Way<'a, I>,
    walk: &mut Walk<S>,
    moves: &mut Moves<L>,
) -> Result<bool, NoMemory>
    requires known { IsKnown way.now.plan.levels [] (values_in walk.old.values.cells) }
    requires reached { IsReached way.now.plan walk.old.found.sense [] }
    requires right { IsRight way.now.body way.now.terms way.now.state walk.old.found }
    ensures walked { IfOk result (HasWalked way.now [] walk.old.found walk.new.found moves.old moves.new) }
    // also where memory is refused
    ensures cost { moves.new ≤ moves.old + cost_from (length way.now.body.absents) way.now.state way.now.plan.guides way.now.plan.levels 0 (at []) }
    ensures moves { moves.old ≤ moves.new }
{
    let guides = way.plan.guides.as_slice();
    let mut keys = Path::root();
    if guides.len() == 1 {
        let mut iters = [way.iter(&guides[0])];
        return descend(way, &mut iters, &mut keys, walk, moves);
    }
    if guides.len() == 2 {
        let mut iters = [way.iter(&guides[0]), way.iter(&guides[1])];
        return descend(way, &mut iters, &mut keys, walk, moves);
    }
    let mut iters = way.iters()?;
    descend(way, &mut iters, &mut keys, walk, moves)
}
