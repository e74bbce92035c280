//! The gaps of one step of the first level, on their way to what is gathered key by key.
ghost use Rattle.std.specs.Prelude.{◌≡◌, ◌≤◌, ◌<◌, ◌^◌, ◌++◌, ◌∷◌, [], length, map, true, IfOk, OnOk, OnErr};
ghost use Rattle.std.specs.List.{AllByRecursion};
ghost use Rattle.lt_face.specs.Limits.{most_columns};
ghost use Rattle.lt_join.specs.Noted.{AreNoted, IsIndexAt, MoreIndexes, noted_gaps};
ghost use Rattle.lt_join.specs.OfKey.{part_at, parts_at};
ghost use Rattle.lt_join.specs.Sliced.{AreRootGaps};

use lt_face::items::{Items, Perm};
use lt_face::key::Key;
use lt_face::memory::NoMemory;
use lt_face::row::Row;
use lt_sense::{Gathering, GatheringByKey, Hit, KeysAt, Sensed, Senses};
use std::alloc::Global;
use std::marker::Model;

/// A relation with its columns in an order.
#[derive(Drop)]
pub(crate) struct NotedIndex {
    pub(crate) relation: u32,
    pub(crate) columns: Perm,
}

/// A gap of the index of this number.
#[derive(Drop)]
pub(crate) struct NotedGap {
    pub(crate) index: usize,
    pub(crate) prefix: Items<Key>,
    pub(crate) lo: Key,
    pub(crate) hi: Key,
}

/// Whether the index is of this relation with its columns in this order.
fn is_of(index: &NotedIndex, relation: u32, perm: &Perm) -> bool
    ensures { result ≡ true → index.now ≡ record { relation = relation; columns = perm.now } }
{
    if index.relation != relation {
        return false;
    }
    index.columns.as_slice() == perm.as_slice()
}

/// The number of the index, which is put at the end where it isn't there yet.
fn number_of(indexes: &mut Vec<NotedIndex>, relation: u32, perm: &Perm) -> Result<usize, NoMemory>
    ensures number { IfOk result (IsIndexAt indexes.new.items relation perm.now) }
    ensures more { MoreIndexes indexes.old.items indexes.new.items relation perm.now }
{
    for at in 0..indexes.len() {
        if is_of(&indexes[at], relation, perm) {
            return Ok(at);
        }
    }
    let at = indexes.len();
    let columns = perm.copy()?;
    indexes.push(NotedIndex { relation, columns })?;
    Ok(at)
}

/// Notes a gap that isn't empty. Want of memory leaves the gaps as they were.
fn note(
    alloc: Global,
    indexes: &mut Vec<NotedIndex>,
    gaps: &mut Vec<NotedGap>,
    relation: u32,
    perm: &Perm,
    prefix: &[Key],
    lo: Key,
    hi: Key,
) -> Result<(), NoMemory>
    requires noted { AreNoted indexes.old.items gaps.old.items }
    requires narrow { length perm.now ≤ most_columns }
    requires some { lo < hi }
    ensures noted { AreNoted indexes.new.items gaps.new.items }
    ensures kept { OnOk result (noted_gaps indexes.new.items gaps.new.items ≡ noted_gaps indexes.old.items gaps.old.items ++ record { relation = relation; columns = perm.now; prefix = prefix.now; lo = lo; hi = hi } ∷ []) }
    ensures err { OnErr result (noted_gaps indexes.new.items gaps.new.items ≡ noted_gaps indexes.old.items gaps.old.items) }
{
    let index = number_of(indexes, relation, perm)?;
    let prefix = Vec::from_slice(alloc, prefix)?;
    gaps.push(NotedGap {
        index,
        prefix: Items::from_vec(prefix),
        lo,
        hi,
    })?;
    Ok(())
}

/// Notes the gaps that others noted.
fn note_all(
    alloc: Global,
    indexes: &mut Vec<NotedIndex>,
    gaps: &mut Vec<NotedGap>,
    other_indexes: &Vec<NotedIndex>,
    other_gaps: &Vec<NotedGap>,
) -> Result<(), NoMemory>
    requires noted { AreNoted indexes.old.items gaps.old.items }
    requires others { AreNoted other_indexes.now.items other_gaps.now.items }
    ensures noted { AreNoted indexes.new.items gaps.new.items }
    ensures kept { OnOk result (noted_gaps indexes.new.items gaps.new.items ≡ noted_gaps indexes.old.items gaps.old.items ++ noted_gaps other_indexes.now.items other_gaps.now.items) }
{
    for at in 0..other_gaps.len() {
        let gap = &other_gaps[at];
        let index = &other_indexes[gap.index];
        note(
            alloc,
            indexes,
            gaps,
            index.relation,
            &index.columns,
            gap.prefix.as_slice(),
            gap.lo,
            gap.hi,
        )?;
    }
    Ok(())
}

/// Gives gaps of the first level to what is gathered key by key.
fn give(
    indexes: &Vec<NotedIndex>,
    gaps: &Vec<NotedGap>,
    sense: &mut GatheringByKey,
) -> Result<(), NoMemory>
    requires noted { AreNoted indexes.now.items gaps.now.items }
    requires first { AllByRecursion (λ gap. gap.prefix ≡ []) gaps.now.items }
    ensures gaps { OnOk result (sense.new.root.gaps ≡ sense.old.root.gaps ++ noted_gaps indexes.now.items gaps.now.items) }
    ensures hits { OnOk result (sense.new.root.hits ≡ sense.old.root.hits) }
    ensures slices { OnOk result (sense.new.slices ≡ sense.old.slices) }
{
    for at in 0..gaps.len() {
        let gap = &gaps[at];
        let index = &indexes[gap.index];
        sense.add_root(index.relation, &index.columns, gap.lo, gap.hi)?;
    }
    Ok(())
}

/// Adds what a gap of the first level has at the key.
fn add_part(
    index: &NotedIndex,
    gap: &NotedGap,
    key: Key,
    sense: &mut Gathering,
) -> Result<(), NoMemory>
    requires narrow { length index.now.columns ≤ most_columns }
    requires first { gap.now.prefix ≡ [] }
    requires bound { key < 2 ^ 120 }
    ensures gaps { OnOk result (sense.new.gaps ≡ sense.old.gaps ++ part_at key (record { relation = index.now.relation; columns = index.now.columns; prefix = gap.now.prefix; lo = gap.now.lo; hi = gap.now.hi })) }
    ensures hits { sense.new.hits ≡ sense.old.hits }
{
    if key < gap.lo {
        return Ok(());
    }
    if gap.hi <= key {
        return Ok(());
    }
    sense.add_gap(index.relation, &index.columns, &[], key, key + 1)
}

/// Adds what gaps of the first level have at the key.
fn add_parts(
    indexes: &Vec<NotedIndex>,
    gaps: &Vec<NotedGap>,
    key: Key,
    sense: &mut Gathering,
) -> Result<(), NoMemory>
    requires noted { AreNoted indexes.now.items gaps.now.items }
    requires first { AllByRecursion (λ gap. gap.prefix ≡ []) gaps.now.items }
    requires bound { key < 2 ^ 120 }
    ensures gaps { OnOk result (sense.new.gaps ≡ sense.old.gaps ++ parts_at key (noted_gaps indexes.now.items gaps.now.items)) }
    ensures hits { OnOk result (sense.new.hits ≡ sense.old.hits) }
{
    for at in 0..gaps.len() {
        let gap = &gaps[at];
        let index = &indexes[gap.index];
        add_part(index, gap, key, sense)?;
    }
    Ok(())
}

/// The row that has, in each column, the key of the level that its place says.
fn row_at<K: KeysAt>(alloc: Global, places: &[usize], keys: &K) -> Row
    requires narrow { length places.now ≤ most_columns }
    requires there { AllByRecursion (λ l. l < K.count keys.now) places.now }
    ensures { result ≡ map (K.key keys.now) places.now }
{
    let mut row = Row::from_cells(alloc, &[]);
    for place in places {
        row.push(keys.key_at(*place));
    }
    row
}

/// Adds equal hits at the end.
fn add_hits(hits: &mut Vec<Hit>, others: &Vec<Hit>) -> Result<(), NoMemory>
    ensures { OnOk result (hits.new.items ≡ hits.old.items ++ others.now.items) }
{
    for at in 0..others.len() {
        let hit = &others[at];
        hits.push(Hit {
            relation: hit.relation,
            row: hit.row.copy_row(),
        })?;
    }
    Ok(())
}

/// The gaps that were passed and the rows that were met, in their order, until they are handed over. Each gap names its index by number,
/// so that one of the first level takes no memory of its own.
#[derive(Drop)]
pub(crate) struct Noted {
    indexes: Vec<NotedIndex>,
    gaps: Vec<NotedGap>,
    hits: Vec<Hit>,
}

impl Model for Noted {
    ghost use Rattle.lt_sense.specs.Kept.{Sense as Kept};
    ghost use Rattle.lt_join.specs.Noted.{AreNoted, noted_gaps};

    ghost Value = { Kept };

    ghost view = { λ n. record { gaps = noted_gaps n.indexes.items n.gaps.items; hits = n.hits.items } };

    ghost invariant = { λ n. AreNoted n.indexes.items n.gaps.items };
}

impl Noted {
    /// Gives the gaps to what is gathered key by key, and has none then.
    fn handed_over(self, sense: &mut GatheringByKey) -> Result<Noted, NoMemory>
        requires { AreRootGaps self }
        ensures gaps { OnOk result (sense.new.root.gaps ≡ sense.old.root.gaps ++ self.gaps) }
        ensures hits { OnOk result (sense.new.root.hits ≡ sense.old.root.hits) }
        ensures slices { OnOk result (sense.new.slices ≡ sense.old.slices) }
        ensures none { IfOk result (λ left. left ≡ record { gaps = []; hits = [] }) }
    {
        let Noted {
            indexes,
            mut gaps,
            mut hits,
        } = self;
        give(&indexes, &gaps, sense)?;
        gaps.clear();
        hits.clear();
        Ok(Noted {
            indexes,
            gaps,
            hits,
        })
    }

    /// What the gaps have at the key.
    fn at_key(self, key: Key) -> Result<Gathering, NoMemory>
        requires root { AreRootGaps self }
        requires bound { key < 2 ^ 120 }
        ensures { IfOk result (λ sense. sense ≡ record { gaps = parts_at key self.gaps; hits = [] }) }
    {
        let Noted {
            indexes,
            gaps,
            hits: _,
        } = self;
        let mut sense = Gathering::new(*gaps.allocator());
        add_parts(&indexes, &gaps, key, &mut sense)?;
        Ok(sense)
    }
}

impl Senses for Noted {
    ghost seen = { λ s. s };

    fn none(alloc: Global) -> Noted {
        Noted {
            indexes: Vec::new(alloc),
            gaps: Vec::new(alloc),
            hits: Vec::new(alloc),
        }
    }

    #[inline]
    fn opens_at(_key: Key) -> Key {
        0
    }

    fn gap(
        &mut self,
        relation: u32,
        perm: &Perm,
        prefix: &[Key],
        lo: Key,
        hi: Key,
    ) -> Result<(), NoMemory> {
        if hi <= lo {
            return Ok(());
        }
        let alloc = *self.gaps.allocator();
        note(
            alloc,
            &mut self.indexes,
            &mut self.gaps,
            relation,
            perm,
            prefix,
            lo,
            hi,
        )
    }

    fn hit(&mut self, relation: u32, row: &Row) -> Result<(), NoMemory> {
        self.hits.push(Hit {
            relation,
            row: row.copy_row(),
        })?;
        Ok(())
    }

    fn hit_at<K: KeysAt>(
        &mut self,
        alloc: Global,
        relation: u32,
        places: &[usize],
        keys: &K,
    ) -> Result<(), NoMemory> {
        let row = row_at(alloc, places, keys);
        self.hits.push(Hit { relation, row })?;
        Ok(())
    }

    fn all_of(&mut self, other: &Noted) -> Result<(), NoMemory> {
        let alloc = *self.gaps.allocator();
        note_all(
            alloc,
            &mut self.indexes,
            &mut self.gaps,
            &other.indexes,
            &other.gaps,
        )?;
        add_hits(&mut self.hits, &other.hits)
    }
}

/// Gives gaps of the first level to what is gathered key by key; nothing is left of them.
pub(crate) fn hand_over(
    noted: Sensed<Noted>,
    sense: &mut GatheringByKey,
) -> Result<Sensed<Noted>, NoMemory>
    requires { AreRootGaps noted }
    ensures gaps { OnOk result (sense.new.root.gaps ≡ sense.old.root.gaps ++ noted.gaps) }
    ensures hits { OnOk result (sense.new.root.hits ≡ sense.old.root.hits) }
    ensures slices { OnOk result (sense.new.slices ≡ sense.old.slices) }
    ensures none { IfOk result (λ left. left ≡ record { gaps = []; hits = [] }) }
{
    let noted = noted.into_senses();
    let left = noted.handed_over(sense)?;
    Ok(Sensed::of(left))
}

/// What gaps of the first level have at the key.
pub(crate) fn noted_at_key(noted: Sensed<Noted>, key: Key) -> Result<Gathering, NoMemory>
    requires root { AreRootGaps noted }
    requires bound { key < 2 ^ 120 }
    ensures { IfOk result (λ sense. sense ≡ record { gaps = parts_at key noted.gaps; hits = [] }) }
{
    let noted = noted.into_senses();
    noted.at_key(key)
}
