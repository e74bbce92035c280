//! All ranges of other lists, added to lists range by range.
ghost use Rattle.std.specs.Prelude.{◌≡◌, ◌≤◌, ◌+◌, length, nat_lt, if◌then◌else◌, OnOk};
ghost use Rattle.std.specs.List.{AllByRecursion};
ghost use Rattle.lt_face.specs.Limits.{most_columns};
ghost use Rattle.lt_sense.specs.ByKeyTold.{TellAll};
ghost use Rattle.lt_sense.specs.Gathered.{ranges_in, IsListOf, HaveAll};
ghost use Rattle.lt_sense.specs.Held.{open_count, held, held_in, index_of, indexes, AreMoreIndexes, MoreIndexes};
ghost use Rattle.lt_sense.specs.Spans.{HaveAlso, IsOfSame, IsSpans, growing, stills, ranges_of, under};

use crate::gathering::place_for;
use crate::pieces::cells_of;
use crate::spans::Spans;
use lt_face::key::Key;
use lt_face::memory::NoMemory;
use std::alloc::Global;

/// Adds a range of another list of the same index, unless it is empty.
pub(crate) fn take_range(
    list: &mut Spans,
    other: &Spans,
    prefix: &[Key],
    lo: Key,
    hi: Key,
) -> Result<(), NoMemory>
    requires sound { IsSpans list.old }
    requires index { IsOfSame list.old other.now }
    requires narrow { length prefix.now ≤ most_columns }
    ensures sound { IsSpans list.new }
    ensures same { IsOfSame list.old list.new }
    ensures added { OnOk result (HaveAlso (ranges_of list.old) (ranges_of list.new) (under other.now prefix.now lo hi)) }
    ensures few { OnOk result (held list.new ≤ held list.old + (if nat_lt lo hi then 1 else 0)) }
{
    if hi <= lo {
        return Ok(());
    }
    list.add(prefix, lo, hi)
}

/// Adds those of its ranges that don't grow any more.
fn take_still(list: &mut Spans, other: &Spans) -> Result<(), NoMemory>
    requires sound { IsSpans list.old }
    requires other { IsSpans other.now }
    requires index { IsOfSame list.old other.now }
    ensures sound { IsSpans list.new }
    ensures same { IsOfSame list.old list.new }
    ensures added { OnOk result (HaveAll (ranges_of list.old) (ranges_of list.new) (stills other.now)) }
    ensures few { OnOk result (held list.new ≤ held list.old + length other.now.ranges.items) }
{
    for i in 0..other.ranges.len() {
        let span = other.ranges[i];
        let run = other.runs[span.run];
        let prefix = cells_of(&other.cells, run);
        take_range(list, other, prefix, span.lo, span.hi)?;
    }
    Ok(())
}

/// Adds those that grow above the last one.
fn take_above(list: &mut Spans, other: &Spans) -> Result<(), NoMemory>
    requires sound { IsSpans list.old }
    requires other { IsSpans other.now }
    requires index { IsOfSame list.old other.now }
    ensures sound { IsSpans list.new }
    ensures same { IsOfSame list.old list.new }
    ensures added { OnOk result (HaveAll (ranges_of list.old) (ranges_of list.new) (growing other.now.relation other.now.columns other.now.at 0 other.now.above.items)) }
    ensures few { OnOk result (held list.new ≤ held list.old + open_count other.now.above.items) }
{
    for i in 0..other.above.len() {
        let gap = other.above[i];
        let prefix = &other.at.cells()[..i];
        take_range(list, other, prefix, gap.lo, gap.hi)?;
    }
    Ok(())
}

/// Adds all ranges of another list of the same index.
fn take_all(list: &mut Spans, other: &Spans) -> Result<(), NoMemory>
    requires sound { IsSpans list.old }
    requires other { IsSpans other.now }
    requires index { IsOfSame list.old other.now }
    ensures sound { IsSpans list.new }
    ensures same { IsOfSame list.old list.new }
    ensures added { OnOk result (HaveAll (ranges_of list.old) (ranges_of list.new) (ranges_of other.now)) }
    ensures few { OnOk result (held list.new ≤ held list.old + held other.now) }
{
    take_still(list, other)?;
    take_above(list, other)?;
    take_range(list, other, other.at.cells(), other.lo, other.hi)
}

/// Adds all ranges of a list to the one of its index.
fn add_list_at(lists: &mut Vec<Spans>, at: usize, other: &Spans) -> Result<(), NoMemory>
    requires sound { AllByRecursion IsSpans lists.old.items }
    requires other { IsSpans other.now }
    requires place { IsListOf lists.old.items other.now.relation other.now.columns at }
    ensures sound { AllByRecursion IsSpans lists.new.items }
    ensures added { OnOk result (HaveAll (ranges_in lists.old.items) (ranges_in lists.new.items) (ranges_of other.now)) }
    ensures told { OnOk result (TellAll (ranges_in lists.old.items) (ranges_in lists.new.items) (ranges_of other.now)) }
    ensures indexes { indexes lists.new.items ≡ indexes lists.old.items }
    ensures few { OnOk result (held_in lists.new.items ≤ held_in lists.old.items + held other.now) }
{
    take_all(&mut lists[at], other)
}

/// Adds all ranges of a list.
pub(crate) fn add_list(alloc: Global, lists: &mut Vec<Spans>, other: &Spans) -> Result<(), NoMemory>
    requires sound { AllByRecursion IsSpans lists.old.items }
    requires other { IsSpans other.now }
    ensures sound { AllByRecursion IsSpans lists.new.items }
    ensures added { OnOk result (HaveAll (ranges_in lists.old.items) (ranges_in lists.new.items) (ranges_of other.now)) }
    ensures told { OnOk result (TellAll (ranges_in lists.old.items) (ranges_in lists.new.items) (ranges_of other.now)) }
    ensures indexes { OnOk result (MoreIndexes (indexes lists.old.items) (indexes lists.new.items) (index_of other.now)) }
    ensures few { OnOk result (held_in lists.new.items ≤ held_in lists.old.items + held other.now) }
{
    let at = place_for(alloc, lists, other.relation, &other.columns)?;
    add_list_at(lists, at, other)
}

/// Adds all ranges of other lists.
pub(crate) fn add_lists(
    alloc: Global,
    lists: &mut Vec<Spans>,
    others: &Vec<Spans>,
) -> Result<(), NoMemory>
    requires sound { AllByRecursion IsSpans lists.old.items }
    requires others { AllByRecursion IsSpans others.now.items }
    ensures sound { AllByRecursion IsSpans lists.new.items }
    ensures added { OnOk result (HaveAll (ranges_in lists.old.items) (ranges_in lists.new.items) (ranges_in others.now.items)) }
    ensures told { OnOk result (TellAll (ranges_in lists.old.items) (ranges_in lists.new.items) (ranges_in others.now.items)) }
    ensures indexes { OnOk result (AreMoreIndexes (indexes lists.old.items) (indexes lists.new.items) (indexes others.now.items)) }
    ensures few { OnOk result (held_in lists.new.items ≤ held_in lists.old.items + held_in others.now.items) }
{
    for i in 0..others.len() {
        add_list(alloc, lists, &others[i])?;
    }
    Ok(())
}
