//! What an evaluation was sensitive to, once that is known: index by index ranges of rows in order, among which rows are searched for.
ghost use Rattle.std.specs.Prelude.{◌≡◌, ◌<◌, ◌≤◌, ◌+◌, ◌*◌, ◌^◌, ℕ, length, ◌==◌, if◌then◌else◌, [], IfSome, IfNone, OnOk};
ghost use Rattle.std.specs.List.{AllByRecursion};
ghost use Rattle.lt_face.specs.Limits.{most_columns};
ghost use Rattle.lt_sense.specs.declared.spans.Spans.{Spans as SpansView};
ghost use Rattle.lt_sense.specs.Gathered.{ranges_in, IsSaid};
ghost use Rattle.lt_sense.specs.Held.{held, held_in, indexes, indexes_of, IsCounted};
ghost use Rattle.lt_sense.specs.Done.{IsDone};
ghost use Rattle.lt_sense.specs.Spans.{have as have_row, ranges_of, HaveSameRows, IsOfSame, IsSpans};

use crate::no_sense::NoSense;
use crate::spans::Spans;
use lt_face::items::Changes;
use lt_face::memory::NoMemory;
use lt_face::moves::Moves;
use lt_face::row::Row;
use std::alloc::Global;
use std::marker::Model;

/// Nothing of the list grows any more, and its ranges stand in order.
pub(crate) fn finish(list: &mut Spans) -> Result<(), NoMemory>
    requires sound { IsSpans list.old }
    ensures same { IsOfSame list.old list.new }
    ensures rows { HaveSameRows (ranges_of list.new) (ranges_of list.old) }
    ensures few { held list.new ≤ held list.old }
    ensures done { OnOk result (IsDone list.new) }
{
    list.close()?;
    list.put_in_order()
}

/// The same of all lists.
pub(crate) fn finish_all(lists: &mut Vec<Spans>) -> Result<(), NoMemory>
    requires { AllByRecursion IsSpans lists.old.items }
    ensures rows { OnOk result (HaveSameRows (ranges_in lists.new.items) (ranges_in lists.old.items)) }
    ensures indexes { OnOk result (indexes lists.new.items ≡ indexes lists.old.items) }
    ensures few { OnOk result (held_in lists.new.items ≤ held_in lists.old.items) }
    ensures done { OnOk result (AllByRecursion IsDone lists.new.items) }
{
    for at in 0..lists.len() {
        finish(&mut lists[at])?;
    }
    Ok(())
}

/// Whether a range of the list has the row. A step compares the row with one range.
pub(crate) fn has_counted<L>(list: &Spans, relation: u32, row: &Row, steps: &mut Moves<L>) -> bool
    requires { IsDone list.now }
    ensures value { result ≡ have_row (ranges_of list.now) relation row.now }
    ensures steps { (d : ℕ) → length list.now.ranges.items < 2 ^ d → steps.new ≤ steps.old + (if list.now.relation == relation then d else 0) }
{
    if list.relation != relation {
        return false;
    }
    list.has_ordered(row, steps)
}

/// Whether a range of these lists has the row.
pub(crate) fn have_counted<L>(
    lists: &Vec<Spans>,
    relation: u32,
    row: &Row,
    steps: &mut Moves<L>,
) -> bool
    requires { AllByRecursion IsDone lists.now.items }
    ensures value { result ≡ have_row (ranges_in lists.now.items) relation row.now }
    ensures steps { (d : ℕ) → AllByRecursion (λ (s : SpansView). length s.ranges.items < 2 ^ d) lists.now.items → steps.new ≤ steps.old + indexes_of relation (indexes lists.now.items) * d }
{
    for at in 0..lists.len() {
        if has_counted(&lists[at], relation, row, steps) {
            return true;
        }
    }
    false
}

/// How many ranges lists that are done have.
pub(crate) fn weight_of(lists: &Vec<Spans>) -> usize {
    let mut weight: usize = 0;
    for at in 0..lists.len() {
        weight = weight.saturating_add(lists[at].ranges.len());
    }
    weight
}

/// What an evaluation was sensitive to: a change of rows that none of it covers leaves the evaluation as it was. Clauses see the
/// gaps and the hits; at run time there are the rows that these cover, as ranges.
#[derive(Drop)]
pub struct Sense {
    seen: NoSense,
    lists: Vec<Spans>,
}

impl Model for Sense {
    ghost use Rattle.std.specs.List.{AllByRecursion};
    ghost use Rattle.lt_sense.specs.Kept.{Sense as Kept};
    ghost use Rattle.lt_sense.specs.Gathered.{ranges_in, IsSaid};
    ghost use Rattle.lt_sense.specs.Held.{IsCounted};
    ghost use Rattle.lt_sense.specs.Done.{IsDone};

    ghost Value = { Kept };

    ghost view = { λ r. r.seen.seen };

    ghost invariant = { λ r. AllByRecursion IsDone r.lists.items × IsSaid r.seen.seen (ranges_in r.lists.items) × IsCounted r.seen.seen r.lists.items };
}

impl Sense {
    ghost use Rattle.lt_sense.specs.Gathered.{IsAskable};
    ghost use Rattle.lt_sense.specs.Ordered.{orders_of};
    ghost use Rattle.lt_sense.specs.Done.{AreAskable, IsFirstPlace};
    ghost use Rattle.lt_sense.specs.Sense.{covers};
    ghost use Rattle.lt_sense.specs.Spots.{AreUncovered};

    /// Sensitive to nothing.
    pub fn none(alloc: Global) -> Sense
        ensures { result ≡ record { gaps = []; hits = [] } }
    {
        Sense {
            seen: NoSense::of(),
            lists: Vec::new(alloc),
        }
    }

    /// What was gathered, its lists done.
    pub(crate) fn of(seen: NoSense, lists: Vec<Spans>) -> Sense
        requires done { AllByRecursion IsDone lists.items }
        requires said { IsSaid seen.seen (ranges_in lists.items) }
        requires counted { IsCounted seen.seen lists.items }
        ensures { result ≡ seen.seen }
    {
        Sense { seen, lists }
    }

    /// Whether a gap or a hit has the row of the relation. The answer is of rows with cells below `END`, as wide as the relation's
    /// rows that were met; of others it tells nothing.
    pub fn covers(&self, relation: u32, row: &Row) -> bool
        ensures { IsAskable self.now relation row.now → result ≡ covers self.now relation row.now }
    {
        let mut steps: Moves<()> = Moves::new();
        self.covers_counted(relation, row, &mut steps)
    }

    /// As `covers`, by one search by halves among the ranges of each order of the relation's columns. A step compares the row
    /// with one range. No memory is taken.
    pub fn covers_counted<L>(&self, relation: u32, row: &Row, steps: &mut Moves<L>) -> bool
        ensures value { IsAskable self.now relation row.now → result ≡ covers self.now relation row.now }
        ensures steps { (d : ℕ) → IsAskable self.now relation row.now → length self.now.gaps + length self.now.hits < 2 ^ d → steps.new ≤ steps.old + (most_columns * orders_of relation self.now.gaps + 1) * d }
    {
        have_counted(&self.lists, relation, row, steps)
    }

    /// The place in the list of the first changed row that is covered; None exactly where no changed row is covered. Each is to be one
    /// of which it can be told.
    pub fn first_covered(&self, changes: &Changes) -> Option<usize>
        ensures none { IfNone result (AreAskable self.now changes.now → AreUncovered self.now changes.now) }
        ensures first { IfSome result (λ place. AreAskable self.now changes.now → IsFirstPlace self.now changes.now place) }
    {
        let changes = changes.as_slice();
        for i in 0..changes.len() {
            let change = &changes[i];
            if self.covers(change.0, &change.1) {
                return Some(i);
            }
        }
        None
    }

    /// How many ranges there are, for choices of time alone.
    pub fn weight(&self) -> usize {
        weight_of(&self.lists)
    }
}
