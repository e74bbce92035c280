//! Lists of ranges that tell the keys that rows touch: a row's first cell in the list's order of columns.
ghost use Rattle.std.specs.Prelude.{◌≡◌, ◌<◌, ◌≤◌, [], length, OnOk, OnErr};
ghost use Rattle.std.specs.List.{AllByRecursion};
ghost use Rattle.lt_face.specs.Limits.{most_columns};
ghost use Rattle.lt_sense.specs.ByKeyTold.{TellSame, TellAlso};
ghost use Rattle.lt_sense.specs.Done.{IsDone};
ghost use Rattle.lt_sense.specs.Gathered.{ranges_in, IsListOf};
ghost use Rattle.lt_sense.specs.Spans.{IsSpans};

use crate::gathering::place_for;
use crate::sense::finish;
use crate::spans::Spans;
use lt_face::items::Perm;
use lt_face::key::Key;
use lt_face::memory::NoMemory;
use std::alloc::Global;

/// Adds rows with any cells but the first.
fn add_root_at(
    lists: &mut Vec<Spans>,
    at: usize,
    relation: u32,
    perm: &Perm,
    lo: Key,
    hi: Key,
) -> Result<(), NoMemory>
    requires sound { AllByRecursion IsSpans lists.old.items }
    requires place { IsListOf lists.old.items relation perm.now at }
    requires some { lo < hi }
    ensures sound { AllByRecursion IsSpans lists.new.items }
    ensures added { OnOk result (TellAlso (ranges_in lists.old.items) (ranges_in lists.new.items) (record { relation = relation; columns = perm.now; prefix = []; lo = lo; hi = hi })) }
    ensures err { OnErr result (TellSame (ranges_in lists.new.items) (ranges_in lists.old.items)) }
{
    lists[at].add(&[], lo, hi)
}

/// Adds the rows of the relation whose first cell, with the columns in this order, lies from `lo` to below `hi`.
pub(crate) fn add_root_range(
    alloc: Global,
    lists: &mut Vec<Spans>,
    relation: u32,
    perm: &Perm,
    lo: Key,
    hi: Key,
) -> Result<(), NoMemory>
    requires sound { AllByRecursion IsSpans lists.old.items }
    requires narrow { length perm.now ≤ most_columns }
    requires some { lo < hi }
    ensures sound { AllByRecursion IsSpans lists.new.items }
    ensures added { OnOk result (TellAlso (ranges_in lists.old.items) (ranges_in lists.new.items) (record { relation = relation; columns = perm.now; prefix = []; lo = lo; hi = hi })) }
    ensures err { OnErr result (TellSame (ranges_in lists.new.items) (ranges_in lists.old.items)) }
{
    let at = place_for(alloc, lists, relation, perm)?;
    add_root_at(lists, at, relation, perm, lo, hi)
}

/// Nothing of the lists grows any more, and their ranges stand in order.
pub(crate) fn finish_keyed(lists: &mut Vec<Spans>) -> Result<(), NoMemory>
    requires { AllByRecursion IsSpans lists.old.items }
    ensures rows { OnOk result (TellSame (ranges_in lists.new.items) (ranges_in lists.old.items)) }
    ensures done { OnOk result (AllByRecursion IsDone lists.new.items) }
{
    for at in 0..lists.len() {
        finish(&mut lists[at])?;
    }
    Ok(())
}
