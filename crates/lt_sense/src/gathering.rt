//! What an evaluation was sensitive to, as it is gathered: gaps and hits become ranges of rows, index by index.
ghost use Rattle.std.specs.Prelude.{◌≡◌, ◌≢◌, ◌<◌, ◌≤◌, ◌+◌, ◌∷◌, ◌++◌, [], true, false, length, IfOk, IfSome, IfNone, OnOk, OnErr};
ghost use Rattle.std.specs.List.{AllByRecursion};
ghost use Rattle.lt_face.specs.Limits.{most_columns};
ghost use Rattle.lt_face.specs.Lists.{IsIn};
ghost use Rattle.lt_sense.specs.ByKeyTold.{TellSame};
ghost use Rattle.lt_sense.specs.Gathered.{ranges_in, IsOrder, IsListOf};
ghost use Rattle.lt_sense.specs.Held.{held_in, index_of, indexes, MoreIndexes};
ghost use Rattle.lt_sense.specs.Spans.{HaveSameRows, HaveAlso, IsSpans};

use crate::adding::add_lists;
use crate::keys_at::{KeysAt, row_of};
use crate::met::add_row;
use crate::no_sense::NoSense;
use crate::sense::{Sense, finish_all};
use crate::senses::Senses;
use crate::spans::Spans;
use lt_face::items::Perm;
use lt_face::key::Key;
use lt_face::memory::NoMemory;
use lt_face::row::Row;
use std::alloc::Global;
use std::marker::Model;

/// Whether a list is of this relation with its columns in this order.
fn is_of(list: &Spans, relation: u32, perm: &Perm) -> bool
    ensures same { result ≡ true → index_of list.now ≡ (relation, perm.now) }
    ensures other { result ≡ false → index_of list.now ≢ (relation, perm.now) }
{
    if list.relation != relation {
        return false;
    }
    list.columns.as_slice() == perm.as_slice()
}

/// The place of the list of this relation with its columns in this order.
pub(crate) fn place_of(lists: &Vec<Spans>, relation: u32, perm: &Perm) -> Option<usize>
    ensures place { IfSome result (IsListOf lists.now.items relation perm.now) }
    ensures none { IfNone result (AllByRecursion (λ i. i ≢ (relation, perm.now)) (indexes lists.now.items)) }
{
    for at in 0..lists.len() {
        if is_of(&lists[at], relation, perm) {
            return Some(at);
        }
    }
    None
}

/// The same, where there may be none yet.
pub(crate) fn place_for(
    alloc: Global,
    lists: &mut Vec<Spans>,
    relation: u32,
    perm: &Perm,
) -> Result<usize, NoMemory>
    requires sound { AllByRecursion IsSpans lists.old.items }
    requires narrow { length perm.now ≤ most_columns }
    ensures sound { AllByRecursion IsSpans lists.new.items }
    ensures rows { HaveSameRows (ranges_in lists.new.items) (ranges_in lists.old.items) }
    ensures told { TellSame (ranges_in lists.new.items) (ranges_in lists.old.items) }
    ensures place { IfOk result (IsListOf lists.new.items relation perm.now) }
    ensures indexes { OnOk result (MoreIndexes (indexes lists.old.items) (indexes lists.new.items) (relation, perm.now)) }
    ensures few { held_in lists.new.items ≤ held_in lists.old.items }
{
    if let Some(at) = place_of(lists, relation, perm) {
        return Ok(at);
    }
    let at = lists.len();
    let columns = perm.copy()?;
    lists.push(Spans::new(alloc, relation, columns))?;
    Ok(at)
}

/// Adds rows to a list.
pub(crate) fn add_at(
    lists: &mut Vec<Spans>,
    at: usize,
    relation: u32,
    perm: &Perm,
    prefix: &[Key],
    lo: Key,
    hi: Key,
) -> Result<(), NoMemory>
    requires sound { AllByRecursion IsSpans lists.old.items }
    requires place { IsListOf lists.old.items relation perm.now at }
    requires narrow { length prefix.now ≤ most_columns }
    requires some { lo < hi }
    ensures sound { AllByRecursion IsSpans lists.new.items }
    ensures place { IsListOf lists.new.items relation perm.now at }
    ensures added { OnOk result (HaveAlso (ranges_in lists.old.items) (ranges_in lists.new.items) (record { relation = relation; columns = perm.now; prefix = prefix.now; lo = lo; hi = hi })) }
    ensures err { OnErr result (HaveSameRows (ranges_in lists.new.items) (ranges_in lists.old.items)) }
    ensures indexes { indexes lists.new.items ≡ indexes lists.old.items }
    ensures few { OnOk result (held_in lists.new.items ≤ held_in lists.old.items + 1) }
    ensures left { OnErr result (held_in lists.new.items ≤ held_in lists.old.items) }
{
    lists[at].add(prefix, lo, hi)
}

/// Adds rows of an index of which there is no list yet.
pub(crate) fn add_new(
    alloc: Global,
    lists: &mut Vec<Spans>,
    relation: u32,
    perm: &Perm,
    prefix: &[Key],
    lo: Key,
    hi: Key,
) -> Result<(), NoMemory>
    requires absent { AllByRecursion (λ i. i ≢ (relation, perm.now)) (indexes lists.old.items) }
    requires sound { AllByRecursion IsSpans lists.old.items }
    requires columns { length perm.now ≤ most_columns }
    requires narrow { length prefix.now ≤ most_columns }
    requires some { lo < hi }
    ensures sound { AllByRecursion IsSpans lists.new.items }
    ensures added { OnOk result (HaveAlso (ranges_in lists.old.items) (ranges_in lists.new.items) (record { relation = relation; columns = perm.now; prefix = prefix.now; lo = lo; hi = hi })) }
    ensures err { OnErr result (HaveSameRows (ranges_in lists.new.items) (ranges_in lists.old.items)) }
    ensures indexes { OnOk result (MoreIndexes (indexes lists.old.items) (indexes lists.new.items) (relation, perm.now)) }
    ensures same { OnErr result (indexes lists.new.items ≡ indexes lists.old.items) }
    ensures few { OnOk result (held_in lists.new.items ≤ held_in lists.old.items + 1) }
    ensures left { OnErr result (held_in lists.new.items ≤ held_in lists.old.items) }
{
    let columns = perm.copy()?;
    let mut list = Spans::new(alloc, relation, columns);
    list.add(prefix, lo, hi)?;
    lists.push(list)?;
    Ok(())
}

/// Adds the rows of the relation that, with the columns in this order, begin with the prefix and have a next cell from `lo` to
/// below `hi`.
fn add_range(
    alloc: Global,
    lists: &mut Vec<Spans>,
    relation: u32,
    perm: &Perm,
    prefix: &[Key],
    lo: Key,
    hi: Key,
) -> Result<(), NoMemory>
    requires sound { AllByRecursion IsSpans lists.old.items }
    requires columns { length perm.now ≤ most_columns }
    requires narrow { length prefix.now ≤ most_columns }
    requires some { lo < hi }
    ensures sound { AllByRecursion IsSpans lists.new.items }
    ensures added { OnOk result (HaveAlso (ranges_in lists.old.items) (ranges_in lists.new.items) (record { relation = relation; columns = perm.now; prefix = prefix.now; lo = lo; hi = hi })) }
    ensures err { OnErr result (HaveSameRows (ranges_in lists.new.items) (ranges_in lists.old.items)) }
    ensures indexes { OnOk result (MoreIndexes (indexes lists.old.items) (indexes lists.new.items) (relation, perm.now)) }
    ensures same { OnErr result (indexes lists.new.items ≡ indexes lists.old.items) }
    ensures few { OnOk result (held_in lists.new.items ≤ held_in lists.old.items + 1) }
    ensures left { OnErr result (held_in lists.new.items ≤ held_in lists.old.items) }
{
    if let Some(at) = place_of(lists, relation, perm) {
        return add_at(lists, at, relation, perm, prefix, lo, hi);
    }
    add_new(alloc, lists, relation, perm, prefix, lo, hi)
}

/// Whether the column stands in the order.
fn has_column(columns: &[u32], column: usize) -> bool
    ensures { result ≡ true → IsIn column columns.now }
{
    for i in 0..columns.len() {
        if columns[i] as usize == column {
            return true;
        }
    }
    false
}

/// Whether each column of a row as wide stands in the order.
pub(crate) fn is_order(columns: &[u32]) -> bool
    ensures { result ≡ true → IsOrder columns.now }
{
    for column in 0..columns.len() {
        if !has_column(columns, column) {
            return false;
        }
    }
    true
}

/// What an evaluation was sensitive to so far. Clauses see the gaps and the hits that it was given; at run time there are the rows
/// that these cover, as ranges.
#[derive(Drop)]
pub struct Gathering {
    seen: NoSense,
    lists: Vec<Spans>,
}

impl Model for Gathering {
    ghost use Rattle.std.specs.List.{AllByRecursion};
    ghost use Rattle.lt_sense.specs.Kept.{Sense as Kept};
    ghost use Rattle.lt_sense.specs.Gathered.{ranges_in, IsSaid};
    ghost use Rattle.lt_sense.specs.Held.{IsCounted};
    ghost use Rattle.lt_sense.specs.Spans.{IsSpans};

    ghost Value = { Kept };

    ghost view = { λ g. g.seen.seen };

    ghost invariant = { λ g. AllByRecursion IsSpans g.lists.items × IsSaid g.seen.seen (ranges_in g.lists.items) × IsCounted g.seen.seen g.lists.items };
}

impl Gathering {
    ghost use Rattle.lt_sense.specs.Gathered.{IsSaid};

    /// Sensitive to nothing yet.
    pub fn new(alloc: Global) -> Gathering
        ensures { result ≡ record { gaps = []; hits = [] } }
    {
        Gathering {
            seen: NoSense::of(),
            lists: Vec::new(alloc),
        }
    }

    /// Adds a gap, unless it is empty. Want of memory leaves what was gathered as it was.
    pub fn add_gap(
        &mut self,
        relation: u32,
        perm: &Perm,
        prefix: &[Key],
        lo: Key,
        hi: Key,
    ) -> Result<(), NoMemory>
        requires narrow { length perm.now ≤ most_columns }
        requires prefix { length prefix.now ≤ most_columns }
        ensures kept { OnOk result (lo < hi → self.new.gaps ≡ self.old.gaps ++ record { relation = relation; columns = perm.now; prefix = prefix.now; lo = lo; hi = hi } ∷ []) }
        ensures empty { OnOk result (hi ≤ lo → self.new.gaps ≡ self.old.gaps) }
        ensures hits { self.new.hits ≡ self.old.hits }
        ensures err { OnErr result (self.new ≡ self.old) }
    {
        if hi <= lo {
            return Ok(());
        }
        let alloc = *self.lists.allocator();
        add_range(alloc, &mut self.lists, relation, perm, prefix, lo, hi)?;
        self.seen = NoSense::with_gap(&self.seen, relation, perm, prefix, lo, hi);
        Ok(())
    }

    /// Adds a row that was met. Want of memory leaves what was gathered as it was.
    pub fn add_hit(&mut self, relation: u32, row: &Row) -> Result<(), NoMemory>
        ensures kept { OnOk result (self.new.hits ≡ self.old.hits ++ record { relation = relation; row = row.now } ∷ []) }
        ensures gaps { self.new.gaps ≡ self.old.gaps }
        ensures err { OnErr result (self.new ≡ self.old) }
    {
        let alloc = *self.lists.allocator();
        add_row(alloc, &mut self.lists, relation, row)?;
        self.seen = NoSense::with_hit(&self.seen, relation, row);
        Ok(())
    }

    /// Adds what another has gathered, at the end. Want of memory leaves nothing.
    pub fn add_all(&mut self, other: &Gathering) -> Result<(), NoMemory>
        ensures gaps { OnOk result (self.new.gaps ≡ self.old.gaps ++ other.now.gaps) }
        ensures hits { OnOk result (self.new.hits ≡ self.old.hits ++ other.now.hits) }
        ensures err { OnErr result (self.new ≡ record { gaps = []; hits = [] }) }
    {
        let alloc = *self.lists.allocator();
        if let Err(want) = add_lists(alloc, &mut self.lists, &other.lists) {
            self.lists.clear();
            self.seen = NoSense::of();
            return Err(want);
        }
        self.seen = NoSense::with_all(&self.seen, &other.seen);
        Ok(())
    }

    /// Its lists of ranges.
    pub(crate) fn into_lists(self) -> Vec<Spans>
        ensures sound { AllByRecursion IsSpans result.items }
        ensures said { IsSaid self (ranges_in result.items) }
    {
        let Gathering { seen: _, lists } = self;
        lists
    }

    /// The same with its ranges in order, so that rows are searched for among them.
    pub fn seal(self) -> Result<Sense, NoMemory>
        ensures { IfOk result (λ sense. sense ≡ self) }
    {
        let Gathering { seen, mut lists } = self;
        finish_all(&mut lists)?;
        Ok(Sense::of(seen, lists))
    }
}

impl Senses for Gathering {
    ghost seen = { λ s. s };

    fn none(alloc: Global) -> Gathering {
        Gathering::new(alloc)
    }

    #[inline]
    fn opens_at(_key: Key) -> Key {
        0
    }

    fn gap(
        &mut self,
        relation: u32,
        perm: &Perm,
        prefix: &[Key],
        lo: Key,
        hi: Key,
    ) -> Result<(), NoMemory> {
        self.add_gap(relation, perm, prefix, lo, hi)
    }

    fn hit(&mut self, relation: u32, row: &Row) -> Result<(), NoMemory> {
        self.add_hit(relation, row)
    }

    fn hit_at<K: KeysAt>(
        &mut self,
        alloc: Global,
        relation: u32,
        places: &[usize],
        keys: &K,
    ) -> Result<(), NoMemory> {
        let row = row_of(alloc, places, keys);
        self.add_hit(relation, &row)
    }

    fn all_of(&mut self, other: &Gathering) -> Result<(), NoMemory> {
        self.add_all(other)
    }
}
