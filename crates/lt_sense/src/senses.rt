//! Where the gaps and hits of a join go.
ghost use Rattle.std.specs.Prelude.{◌≡◌, ◌<◌, ◌≤◌, ◌∷◌, ◌++◌, [], length, map, OnOk};
ghost use Rattle.std.specs.List.{AllByRecursion};
ghost use Rattle.lt_face.specs.Limits.{most_columns};
ghost use Rattle.lt_sense.specs.Kept.{Sense as Kept};

use crate::keys_at::KeysAt;
use crate::no_sense::NoSense;
use lt_face::items::Perm;
use lt_face::key::Key;
use lt_face::memory::NoMemory;
use lt_face::row::Row;
use std::alloc::Global;
use std::marker::Model;

/// Takes the gaps that a join's moves passed and the rows that it met. Clauses see what it was given, whether it keeps that or not.
pub trait Senses: Drop {
    /// The gaps and the hits that it was given.
    ghost seen: { Self → Kept };

    /// Given nothing yet.
    fn none(alloc: Global) -> Self
        ensures { seen result ≡ record { gaps = []; hits = [] } };

    /// Where a level that has one key alone is opened: what keeps gaps has those before the key, too.
    fn opens_at(key: Key) -> Key
        ensures { result ≤ key };

    /// Takes a gap, unless it is empty.
    fn gap(
        &mut self,
        relation: u32,
        perm: &Perm,
        prefix: &[Key],
        lo: Key,
        hi: Key,
    ) -> Result<(), NoMemory>
        requires narrow { length perm.now ≤ most_columns }
        requires prefix { length prefix.now ≤ most_columns }
        ensures kept { OnOk result (lo < hi → (seen self.new).gaps ≡ (seen self.old).gaps ++ record { relation = relation; columns = perm.now; prefix = prefix.now; lo = lo; hi = hi } ∷ []) }
        ensures empty { OnOk result (hi ≤ lo → (seen self.new).gaps ≡ (seen self.old).gaps) }
        ensures hits { (seen self.new).hits ≡ (seen self.old).hits };

    /// Takes a row that was met.
    fn hit(&mut self, relation: u32, row: &Row) -> Result<(), NoMemory>
        ensures kept { OnOk result ((seen self.new).hits ≡ (seen self.old).hits ++ record { relation = relation; row = row.now } ∷ []) }
        ensures gaps { (seen self.new).gaps ≡ (seen self.old).gaps };

    /// Takes the row that has, in each column, the key of the level that its place says.
    fn hit_at<K: KeysAt>(
        &mut self,
        alloc: Global,
        relation: u32,
        places: &[usize],
        keys: &K,
    ) -> Result<(), NoMemory>
        requires narrow { length places.now ≤ most_columns }
        requires there { AllByRecursion (λ l. l < K.count keys.now) places.now }
        ensures kept { OnOk result ((seen self.new).hits ≡ (seen self.old).hits ++ record { relation = relation; row = map (K.key keys.now) places.now } ∷ []) }
        ensures gaps { (seen self.new).gaps ≡ (seen self.old).gaps };

    /// Takes all that another was given, at the end.
    fn all_of(&mut self, other: &Self) -> Result<(), NoMemory>
        ensures gaps { OnOk result ((seen self.new).gaps ≡ (seen self.old).gaps ++ (seen other.now).gaps) }
        ensures hits { OnOk result ((seen self.new).hits ≡ (seen self.old).hits ++ (seen other.now).hits) };
}

impl Senses for NoSense {
    ghost seen = { λ s. s.seen };

    #[inline]
    fn none(_alloc: Global) -> NoSense {
        NoSense::of()
    }

    #[inline]
    fn opens_at(key: Key) -> Key {
        key
    }

    #[inline]
    fn gap(
        &mut self,
        relation: u32,
        perm: &Perm,
        prefix: &[Key],
        lo: Key,
        hi: Key,
    ) -> Result<(), NoMemory> {
        if lo < hi {
            *self = NoSense::with_gap(self, relation, perm, prefix, lo, hi);
        }
        Ok(())
    }

    #[inline]
    fn hit(&mut self, relation: u32, row: &Row) -> Result<(), NoMemory> {
        *self = NoSense::with_hit(self, relation, row);
        Ok(())
    }

    #[inline]
    fn hit_at<K: KeysAt>(
        &mut self,
        _alloc: Global,
        relation: u32,
        places: &[usize],
        keys: &K,
    ) -> Result<(), NoMemory> {
        *self = NoSense::with_hit_at(self, relation, places, keys);
        Ok(())
    }

    fn all_of(&mut self, other: &NoSense) -> Result<(), NoMemory> {
        *self = NoSense::with_all(self, other);
        Ok(())
    }
}

/// What a join has sensed so far, kept or not. Clauses see it as its gaps and hits.
#[derive(Drop)]
pub struct Sensed<S: Senses> {
    senses: S,
}

impl<S: Senses> Model for Sensed<S> {
    ghost use Rattle.lt_sense.specs.Kept.{Sense as Kept};

    ghost Value = { Kept };

    ghost view = { λ s. S.seen s.senses };
}

impl<S: Senses> Sensed<S> {
    /// Nothing yet.
    pub fn none(alloc: Global) -> Sensed<S>
        ensures { result ≡ record { gaps = []; hits = [] } }
    {
        Sensed {
            senses: S::none(alloc),
        }
    }

    /// What was given to this so far, and what will be.
    pub fn of(senses: S) -> Sensed<S>
        ensures { result ≡ S.seen senses }
    {
        Sensed { senses }
    }

    /// Adds a gap, unless it is empty.
    #[inline]
    pub fn add_gap(
        &mut self,
        relation: u32,
        perm: &Perm,
        prefix: &[Key],
        lo: Key,
        hi: Key,
    ) -> Result<(), NoMemory>
        requires narrow { length perm.now ≤ most_columns }
        requires prefix { length prefix.now ≤ most_columns }
        ensures kept { OnOk result (lo < hi → self.new.gaps ≡ self.old.gaps ++ record { relation = relation; columns = perm.now; prefix = prefix.now; lo = lo; hi = hi } ∷ []) }
        ensures empty { OnOk result (hi ≤ lo → self.new.gaps ≡ self.old.gaps) }
        ensures hits { self.new.hits ≡ self.old.hits }
    {
        self.senses.gap(relation, perm, prefix, lo, hi)
    }

    /// Adds a row that was met.
    #[inline]
    pub fn add_hit(&mut self, relation: u32, row: &Row) -> Result<(), NoMemory>
        ensures kept { OnOk result (self.new.hits ≡ self.old.hits ++ record { relation = relation; row = row.now } ∷ []) }
        ensures gaps { self.new.gaps ≡ self.old.gaps }
    {
        self.senses.hit(relation, row)
    }

    /// Adds the row that has, in each column, the key of the level that its place says.
    #[inline]
    pub fn add_hit_at<K: KeysAt>(
        &mut self,
        alloc: Global,
        relation: u32,
        places: &[usize],
        keys: &K,
    ) -> Result<(), NoMemory>
        requires narrow { length places.now ≤ most_columns }
        requires there { AllByRecursion (λ l. l < K.count keys.now) places.now }
        ensures kept { OnOk result (self.new.hits ≡ self.old.hits ++ record { relation = relation; row = map (K.key keys.now) places.now } ∷ []) }
        ensures gaps { self.new.gaps ≡ self.old.gaps }
    {
        self.senses.hit_at(alloc, relation, places, keys)
    }

    /// Adds all that another has sensed, at the end.
    pub fn add_all(&mut self, other: &Sensed<S>) -> Result<(), NoMemory>
        ensures gaps { OnOk result (self.new.gaps ≡ self.old.gaps ++ other.now.gaps) }
        ensures hits { OnOk result (self.new.hits ≡ self.old.hits ++ other.now.hits) }
    {
        self.senses.all_of(&other.senses)
    }

    /// What took it all.
    pub fn into_senses(self) -> S
        ensures { S.seen result ≡ self }
    {
        let Sensed { senses } = self;
        senses
    }
}
