//! What an evaluation key by key was sensitive to, once that is known.
ghost use Rattle.std.specs.Prelude.{◌≡◌, ◌<◌, true, IfOk, OnOk};
ghost use Rattle.std.specs.List.{AllByRecursion};
ghost use Rattle.lt_face.specs.Lists.{AreInOrder};
ghost use Rattle.lt_sense.specs.ByKey.{have_at, slices_without, touches, united_by_key, GainsJust};
ghost use Rattle.lt_sense.specs.ByKeyTold.{have_rest, rest_at, rests_at, IsToldByKey};
ghost use Rattle.lt_sense.specs.Cut.{cut};
ghost use Rattle.lt_sense.specs.Done.{IsDone};
ghost use Rattle.lt_sense.specs.Gathered.{ranges_in, IsAskable};
ghost use Rattle.lt_sense.specs.Sense.{covers};
ghost use Rattle.lt_sense.specs.Spans.{have, ranges_of};

use crate::by_key::GatheringByKey;
use crate::by_key_cut::{cut_lists, rest_without};
use crate::by_key_rest::{KeyLists, have_done};
use crate::by_key_seen::SeenByKey;
use crate::covering::cell_at;
use crate::sense::{has_counted, weight_of};
use crate::spans::Spans;
use lt_face::key::Key;
use lt_face::memory::NoMemory;
use lt_face::moves::Moves;
use lt_face::row::Row;
use std::marker::Model;

/// Whether a range of the list has the row.
fn has_done(list: &Spans, relation: u32, row: &Row) -> bool
    requires { IsDone list.now }
    ensures { result ≡ have (ranges_of list.now) relation row.now }
{
    let mut steps: Moves<()> = Moves::new();
    has_counted(list, relation, row, &mut steps)
}

/// Whether what stands by some key has the row.
fn rest_has(rest: &Vec<KeyLists>, relation: u32, row: &Row) -> bool
    ensures { result ≡ have_rest rest.now.items relation row.now }
{
    for at in 0..rest.len() {
        if rest[at].has(relation, row) {
            return true;
        }
    }
    false
}

/// Adds the row's first cell, in the list's order of columns, where the list has the row.
fn add_first(keys: &mut Vec<Key>, list: &Spans, relation: u32, row: &Row) -> Result<(), NoMemory>
    requires { IsDone list.now }
    ensures { OnOk result (GainsJust (λ k. have_at k (ranges_of list.now) relation row.now ≡ true) keys.old.items keys.new.items) }
{
    if list.columns.len() == 0 {
        return Ok(());
    }
    if !has_done(list, relation, row) {
        return Ok(());
    }
    let column = list.columns.as_slice()[0];
    keys.push(cell_at(row, column))?;
    Ok(())
}

/// The same of all lists.
fn add_firsts(
    keys: &mut Vec<Key>,
    lists: &Vec<Spans>,
    relation: u32,
    row: &Row,
) -> Result<(), NoMemory>
    requires { AllByRecursion IsDone lists.now.items }
    ensures { OnOk result (GainsJust (λ k. have_at k (ranges_in lists.now.items) relation row.now ≡ true) keys.old.items keys.new.items) }
{
    for i in 0..lists.len() {
        add_first(keys, &lists[i], relation, row)?;
    }
    Ok(())
}

/// Adds the key, where what stands by it has the row.
fn add_key(keys: &mut Vec<Key>, part: &KeyLists, relation: u32, row: &Row) -> Result<(), NoMemory>
    ensures { OnOk result (GainsJust (λ k. rest_at k part.now relation row.now ≡ true) keys.old.items keys.new.items) }
{
    if part.has(relation, row) {
        keys.push(part.key())?;
    }
    Ok(())
}

/// The same of all keys.
fn add_keys(
    keys: &mut Vec<Key>,
    rest: &Vec<KeyLists>,
    relation: u32,
    row: &Row,
) -> Result<(), NoMemory>
    ensures { OnOk result (GainsJust (λ k. rests_at k rest.now.items relation row.now ≡ true) keys.old.items keys.new.items) }
{
    for i in 0..rest.len() {
        add_key(keys, &rest[i], relation, row)?;
    }
    Ok(())
}

/// How many ranges there are, for choices of time alone.
fn weight_of_rest(rest: &Vec<KeyLists>) -> usize {
    let mut weight: usize = 0;
    for at in 0..rest.len() {
        weight = weight.saturating_add(rest[at].weight());
    }
    weight
}

/// What an evaluation key by key was sensitive to: the gaps between the keys (root gaps), and what each key's part was (slices).
/// Clauses see gaps and hits; at run time there are the rows that these cover, as ranges.
#[derive(Drop)]
pub struct SenseByKey {
    seen: SeenByKey,
    lists: Vec<Spans>,
    rest: Vec<KeyLists>,
}

impl Model for SenseByKey {
    ghost use Rattle.std.specs.List.{AllByRecursion};
    ghost use Rattle.lt_sense.specs.ByKey.{ByKey};
    ghost use Rattle.lt_sense.specs.ByKeyTold.{IsToldByKey};
    ghost use Rattle.lt_sense.specs.Done.{IsDone};

    ghost Value = { ByKey };

    ghost view = { λ s. s.seen.seen };

    ghost invariant = { λ s. AllByRecursion IsDone s.lists.items × IsToldByKey s.seen.seen s.lists.items s.rest.items };
}

impl SenseByKey {
    /// What was gathered, its lists done.
    pub(crate) fn of(seen: SeenByKey, lists: Vec<Spans>, rest: Vec<KeyLists>) -> SenseByKey
        requires done { AllByRecursion IsDone lists.items }
        requires told { IsToldByKey seen.seen lists.items rest.items }
        ensures { result ≡ seen.seen }
    {
        SenseByKey { seen, lists, rest }
    }

    /// Whether a gap or a hit has the row of the relation. The answer tells that of rows with cells below `END`, as wide as the
    /// relation's rows that were met.
    pub fn covers(&self, relation: u32, row: &Row) -> bool
        ensures { IsAskable (united_by_key self.now) relation row.now → result ≡ covers (united_by_key self.now) relation row.now }
    {
        if have_done(&self.lists, relation, row) {
            return true;
        }
        rest_has(&self.rest, relation, row)
    }

    /// Adds each key that the row of the relation touches: of which a part covers it, or that is its first cell in the order of a
    /// root gap that has it.
    pub fn add_touched(&self, keys: &mut Vec<Key>, relation: u32, row: &Row) -> Result<(), NoMemory>
        ensures { IsAskable (united_by_key self.now) relation row.now → OnOk result (GainsJust (λ k. touches self.now k relation row.now ≡ true) keys.old.items keys.new.items) }
    {
        add_firsts(keys, &self.lists, relation, row)?;
        add_keys(keys, &self.rest, relation, row)
    }

    /// What the other keys were sensitive to: the root gaps are cut at these keys, which ascend, and their slices go.
    pub fn without(&self, keys: &[Key]) -> Result<GatheringByKey, NoMemory>
        requires { AreInOrder (λ a b. a < b) keys.now }
        ensures root { IfOk result (λ left. left.root ≡ cut keys.now self.now.root) }
        ensures slices { IfOk result (λ left. left.slices ≡ slices_without keys.now self.now.slices) }
    {
        let alloc = *self.lists.allocator();
        let lists = cut_lists(alloc, &self.lists, keys)?;
        let rest = rest_without(alloc, &self.rest, keys)?;
        let seen = SeenByKey::without(&self.seen, keys);
        Ok(GatheringByKey::of(seen, lists, rest))
    }

    /// How many ranges it has, for choices of time alone.
    pub fn weight(&self) -> usize {
        weight_of(&self.lists).saturating_add(weight_of_rest(&self.rest))
    }
}
