//! What an evaluation key by key of its first variable was sensitive to. The ranges of an index stand in one list for all keys,
//! where its columns begin with the first variable: a row's first cell in the list's order is then the key that it touches. What can't
//! be told so stays by key.
ghost use Rattle.std.specs.Prelude.{◌≡◌, ◌<◌, ◌≤◌, ◌∷◌, ◌++◌, [], length, IfOk, OnOk, OnErr};
ghost use Rattle.std.specs.List.{AllByRecursion};
ghost use Rattle.lt_face.specs.Limits.{most_columns};
ghost use Rattle.lt_sense.specs.ByKey.{put_slice};
ghost use Rattle.lt_sense.specs.ByKeyTold.{IsToldByKey};
ghost use Rattle.lt_sense.specs.Spans.{IsSpans};

use crate::by_key_lists::{add_root_range, finish_keyed};
use crate::by_key_rest::KeyLists;
use crate::by_key_seen::SeenByKey;
use crate::by_key_sense::SenseByKey;
use crate::by_key_taking::{take_both, take_lists};
use crate::gathering::Gathering;
use crate::spans::Spans;
use lt_face::items::Perm;
use lt_face::key::Key;
use lt_face::memory::NoMemory;
use std::alloc::Global;
use std::marker::Model;

/// What an evaluation key by key was sensitive to so far: the gaps between the keys (root gaps), and what each key's part was
/// (slices). Clauses see gaps and hits; at run time there are the rows that these cover, as ranges.
#[derive(Drop)]
pub struct GatheringByKey {
    seen: SeenByKey,
    /// Ranges of which each row touches its first cell, in the list's order of columns.
    lists: Vec<Spans>,
    /// Ranges that are of one key, whatever their rows' cells.
    rest: Vec<KeyLists>,
}

impl Model for GatheringByKey {
    ghost use Rattle.std.specs.List.{AllByRecursion};
    ghost use Rattle.lt_sense.specs.ByKey.{ByKey};
    ghost use Rattle.lt_sense.specs.ByKeyTold.{IsToldByKey};
    ghost use Rattle.lt_sense.specs.Spans.{IsSpans};

    ghost Value = { ByKey };

    ghost view = { λ g. g.seen.seen };

    ghost invariant = { λ g. AllByRecursion IsSpans g.lists.items × IsToldByKey g.seen.seen g.lists.items g.rest.items };
}

impl GatheringByKey {
    /// Nothing yet.
    pub fn new(alloc: Global) -> GatheringByKey
        ensures { result ≡ record { root = record { gaps = []; hits = [] }; slices = [] } }
    {
        GatheringByKey {
            seen: SeenByKey::of(),
            lists: Vec::new(alloc),
            rest: Vec::new(alloc),
        }
    }

    /// What was gathered.
    pub(crate) fn of(seen: SeenByKey, lists: Vec<Spans>, rest: Vec<KeyLists>) -> GatheringByKey
        requires sound { AllByRecursion IsSpans lists.items }
        requires told { IsToldByKey seen.seen lists.items rest.items }
        ensures { result ≡ seen.seen }
    {
        GatheringByKey { seen, lists, rest }
    }

    /// Adds a gap between keys, unless it is empty. Want of memory leaves all as it was.
    pub fn add_root(&mut self, relation: u32, perm: &Perm, lo: Key, hi: Key) -> Result<(), NoMemory>
        requires narrow { length perm.now ≤ most_columns }
        ensures kept { OnOk result (lo < hi → self.new.root.gaps ≡ self.old.root.gaps ++ record { relation = relation; columns = perm.now; prefix = []; lo = lo; hi = hi } ∷ []) }
        ensures empty { OnOk result (hi ≤ lo → self.new.root.gaps ≡ self.old.root.gaps) }
        ensures hits { self.new.root.hits ≡ self.old.root.hits }
        ensures slices { self.new.slices ≡ self.old.slices }
        ensures err { OnErr result (self.new ≡ self.old) }
    {
        if hi <= lo {
            return Ok(());
        }
        let alloc = *self.lists.allocator();
        add_root_range(alloc, &mut self.lists, relation, perm, lo, hi)?;
        self.seen = SeenByKey::with_root(&self.seen, relation, perm, lo, hi);
        Ok(())
    }

    /// Adds what the part of a key was sensitive to. After want of memory nothing is known of what was gathered.
    pub fn add_slice(&mut self, key: Key, sense: Gathering) -> Result<(), NoMemory>
        ensures root { OnOk result (self.new.root ≡ self.old.root) }
        ensures slices { OnOk result (self.new.slices ≡ put_slice (record { key = key; sense = sense }) self.old.slices) }
    {
        let alloc = *self.lists.allocator();
        let seen = SeenByKey::with_slice(&self.seen, key, &sense);
        let parts = sense.into_lists();
        if let Err(want) = take_lists(alloc, &mut self.lists, &mut self.rest, key, parts) {
            self.lists.clear();
            self.rest.clear();
            self.seen = SeenByKey::of();
            return Err(want);
        }
        self.seen = seen;
        Ok(())
    }

    /// Adds all that another has, at the end. After want of memory nothing is known of what was gathered.
    pub fn add_all(&mut self, other: &GatheringByKey) -> Result<(), NoMemory>
        ensures gaps { OnOk result (self.new.root.gaps ≡ self.old.root.gaps ++ other.now.root.gaps) }
        ensures hits { OnOk result (self.new.root.hits ≡ self.old.root.hits ++ other.now.root.hits) }
        ensures slices { OnOk result (self.new.slices ≡ self.old.slices ++ other.now.slices) }
    {
        let alloc = *self.lists.allocator();
        if let Err(want) = take_both(
            alloc,
            &mut self.lists,
            &mut self.rest,
            &other.lists,
            &other.rest,
        ) {
            self.lists.clear();
            self.rest.clear();
            self.seen = SeenByKey::of();
            return Err(want);
        }
        self.seen = SeenByKey::with_all(&self.seen, &other.seen);
        Ok(())
    }

    /// The same with its ranges in order, so that rows are searched for among them.
    pub fn seal(self) -> Result<SenseByKey, NoMemory>
        ensures { IfOk result (λ sense. sense ≡ self) }
    {
        let GatheringByKey {
            seen,
            mut lists,
            rest,
        } = self;
        finish_keyed(&mut lists)?;
        Ok(SenseByKey::of(seen, lists, rest))
    }
}
