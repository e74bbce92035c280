//! Ranges without the rows of some keys.
ghost use Rattle.std.specs.Prelude.{◌≡◌, ◌<◌, ◌≤◌, [], length, IfOk, OnOk};
ghost use Rattle.std.specs.List.{AllByRecursion};
ghost use Rattle.lt_face.specs.Limits.{most_columns};
ghost use Rattle.lt_face.specs.Lists.{AreInOrder};
ghost use Rattle.lt_sense.specs.ByKey.{has_key};
ghost use Rattle.lt_sense.specs.ByKeyTold.{HaveAllBut, HaveBut, IsBelowPlace, IsNextOf, RestAlsoBut, RestBut, TellBut};
ghost use Rattle.lt_sense.specs.Done.{IsDone};
ghost use Rattle.lt_sense.specs.Gathered.{ranges_in};
ghost use Rattle.lt_sense.specs.Spans.{IsOfSame, IsSpans, ranges_of, stills, under};

use crate::adding::take_range;
use crate::by_key_rest::KeyLists;
use crate::pieces::cells_of;
use crate::spans::Spans;
use lt_face::key::Key;
use lt_face::memory::NoMemory;
use std::alloc::Global;

/// How many of the keys, which ascend, lie below the bound.
fn place_in(keys: &[Key], bound: Key) -> usize
    requires { AreInOrder (λ a b. a < b) keys.now }
    ensures { IsBelowPlace keys.now bound result }
{
    let mut low = 0;
    let mut high = keys.len();
    'halves: while low < high {
        let middle = low + (high - low) / 2;
        if keys[middle] < bound {
            low = middle + 1;
        } else {
            high = middle;
        }
    }
    low
}

/// Whether the key is one of these, which ascend.
fn is_among(keys: &[Key], key: Key) -> bool
    requires { AreInOrder (λ a b. a < b) keys.now }
    ensures { result ≡ has_key keys.now key }
{
    let at = place_in(keys, key);
    if at >= keys.len() {
        return false;
    }
    keys[at] == key
}

/// The first of the keys, which ascend, from `lo` on, or `hi` where that comes first.
fn next_of(keys: &[Key], lo: Key, hi: Key) -> Key
    requires ascending { AreInOrder (λ a b. a < b) keys.now }
    requires some { lo < hi }
    ensures { IsNextOf keys.now lo hi result }
{
    let at = place_in(keys, lo);
    if at >= keys.len() {
        return hi;
    }
    let key = keys[at];
    if key < hi {
        return key;
    }
    hi
}

/// Adds the rows with a first cell from `lo` to below `hi`, but for the keys.
fn take_pieces(
    list: &mut Spans,
    other: &Spans,
    keys: &[Key],
    lo: Key,
    hi: Key,
) -> Result<(), NoMemory>
    requires sound { IsSpans list.old }
    requires index { IsOfSame list.old other.now }
    requires ascending { AreInOrder (λ a b. a < b) keys.now }
    ensures sound { IsSpans list.new }
    ensures same { IsOfSame list.old list.new }
    ensures added { OnOk result (HaveBut keys.now (ranges_of list.old) (ranges_of list.new) (under other.now [] lo hi)) }
{
    if hi <= lo {
        return Ok(());
    }
    let mut from = lo;
    'pieces: while from < hi {
        let next = next_of(keys, from, hi);
        take_range(list, other, &[], from, next)?;
        if hi <= next {
            return Ok(());
        }
        from = next + 1;
    }
    Ok(())
}

/// Adds a range but for the rows of the keys.
fn take_but(
    list: &mut Spans,
    other: &Spans,
    keys: &[Key],
    prefix: &[Key],
    lo: Key,
    hi: Key,
) -> Result<(), NoMemory>
    requires sound { IsSpans list.old }
    requires index { IsOfSame list.old other.now }
    requires narrow { length prefix.now ≤ most_columns }
    requires ascending { AreInOrder (λ a b. a < b) keys.now }
    ensures sound { IsSpans list.new }
    ensures same { IsOfSame list.old list.new }
    ensures added { OnOk result (HaveBut keys.now (ranges_of list.old) (ranges_of list.new) (under other.now prefix.now lo hi)) }
{
    if prefix.len() == 0 {
        return take_pieces(list, other, keys, lo, hi);
    }
    if is_among(keys, prefix[0]) {
        return Ok(());
    }
    take_range(list, other, prefix, lo, hi)
}

/// Adds all ranges of a list but for the rows of the keys. Nothing of it may grow.
fn take_all_but(list: &mut Spans, other: &Spans, keys: &[Key]) -> Result<(), NoMemory>
    requires sound { IsSpans list.old }
    requires other { IsDone other.now }
    requires index { IsOfSame list.old other.now }
    requires ascending { AreInOrder (λ a b. a < b) keys.now }
    ensures sound { IsSpans list.new }
    ensures same { IsOfSame list.old list.new }
    ensures added { OnOk result (HaveAllBut keys.now (ranges_of list.old) (ranges_of list.new) (stills other.now)) }
{
    for i in 0..other.ranges.len() {
        let span = other.ranges[i];
        let run = other.runs[span.run];
        let prefix = cells_of(&other.cells, run);
        take_but(list, other, keys, prefix, span.lo, span.hi)?;
    }
    Ok(())
}

/// A list without the rows of the keys.
fn cut_list(alloc: Global, list: &Spans, keys: &[Key]) -> Result<Spans, NoMemory>
    requires done { IsDone list.now }
    requires ascending { AreInOrder (λ a b. a < b) keys.now }
    ensures sound { IfOk result IsSpans }
    ensures left { IfOk result (λ left. TellBut keys.now (ranges_of list.now) (ranges_of left)) }
{
    let columns = list.columns.copy()?;
    let mut left = Spans::new(alloc, list.relation, columns);
    take_all_but(&mut left, list, keys)?;
    Ok(left)
}

/// The lists without the rows of the keys.
pub(crate) fn cut_lists(
    alloc: Global,
    lists: &Vec<Spans>,
    keys: &[Key],
) -> Result<Vec<Spans>, NoMemory>
    requires done { AllByRecursion IsDone lists.now.items }
    requires ascending { AreInOrder (λ a b. a < b) keys.now }
    ensures sound { IfOk result (λ left. AllByRecursion IsSpans left.items) }
    ensures left { IfOk result (λ left. TellBut keys.now (ranges_in lists.now.items) (ranges_in left.items)) }
{
    let mut left = Vec::with_capacity(alloc, lists.len())?;
    for i in 0..lists.len() {
        let list = cut_list(alloc, &lists[i], keys)?;
        left.push(list)?;
    }
    Ok(left)
}

/// Adds what stands by a key, unless that is one of these.
fn add_other(left: &mut Vec<KeyLists>, part: &KeyLists, keys: &[Key]) -> Result<(), NoMemory>
    requires { AreInOrder (λ a b. a < b) keys.now }
    ensures { OnOk result (RestAlsoBut keys.now left.old.items left.new.items part.now) }
{
    if is_among(keys, part.key()) {
        return Ok(());
    }
    let shared = part.share()?;
    left.push(shared)?;
    Ok(())
}

/// What stands by other keys.
pub(crate) fn rest_without(
    alloc: Global,
    rest: &Vec<KeyLists>,
    keys: &[Key],
) -> Result<Vec<KeyLists>, NoMemory>
    requires { AreInOrder (λ a b. a < b) keys.now }
    ensures { IfOk result (λ left. RestBut keys.now rest.now.items left.items) }
{
    let mut left = Vec::with_capacity(alloc, rest.len())?;
    for i in 0..rest.len() {
        add_other(&mut left, &rest[i], keys)?;
    }
    Ok(left)
}
