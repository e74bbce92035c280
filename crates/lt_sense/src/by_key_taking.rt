//! The ranges of a key's part, each list where it belongs: among those that tell their rows' keys, where all its rows begin with the
//! key, else by key.
ghost use Rattle.std.specs.Prelude.{◌≡◌, true, OnOk};
ghost use Rattle.std.specs.List.{AllByRecursion};
ghost use Rattle.lt_sense.specs.ByKeyTold.{AllBegin, AreUnder, DivideIn, TakeIn, TellBoth};
ghost use Rattle.lt_sense.specs.declared.covering.KeptGap.{KeptGap as GapView};
ghost use Rattle.lt_sense.specs.Gathered.{ranges_in};
ghost use Rattle.lt_sense.specs.Spans.{growing, ranges_of, stills, IsSpans};

use crate::adding::{add_list, add_lists};
use crate::by_key_rest::{KeyLists, add_rest};
use crate::pieces::cells_of;
use crate::spans::Spans;
use lt_face::key::Key;
use lt_face::memory::NoMemory;
use std::alloc::Global;

/// Whether each row that begins with the prefix, with a next cell from `lo` to below `hi`, begins with the key.
fn is_under(key: Key, prefix: &[Key], lo: Key, hi: Key) -> bool
    ensures { result ≡ true → AllBegin key prefix.now lo hi }
{
    if hi <= lo {
        return true;
    }
    if prefix.len() == 0 {
        return lo == key && hi - lo == 1;
    }
    prefix[0] == key
}

/// The same of the ranges that don't grow any more.
fn are_stills_under(key: Key, list: &Spans) -> bool
    requires { IsSpans list.now }
    ensures { result ≡ true → AllByRecursion (λ (range : GapView). AllBegin key range.prefix range.lo range.hi) (stills list.now) }
{
    for i in 0..list.ranges.len() {
        let span = list.ranges[i];
        let run = list.runs[span.run];
        if !is_under(key, cells_of(&list.cells, run), span.lo, span.hi) {
            return false;
        }
    }
    true
}

/// The same of those that grow above the last one.
fn are_above_under(key: Key, list: &Spans) -> bool
    requires { IsSpans list.now }
    ensures { result ≡ true → AllByRecursion (λ (range : GapView). AllBegin key range.prefix range.lo range.hi) (growing list.now.relation list.now.columns list.now.at 0 list.now.above.items) }
{
    for i in 0..list.above.len() {
        let gap = list.above[i];
        if !is_under(key, &list.at.cells()[..i], gap.lo, gap.hi) {
            return false;
        }
    }
    true
}

/// Whether each row of the list begins with the key.
fn is_list_under(key: Key, list: &Spans) -> bool
    requires { IsSpans list.now }
    ensures { result ≡ true → AreUnder key list.now }
{
    if !are_stills_under(key, list) {
        return false;
    }
    if !are_above_under(key, list) {
        return false;
    }
    is_under(key, list.at.cells(), list.lo, list.hi)
}

/// Puts a list of the key's part where it belongs.
fn take_list(
    alloc: Global,
    lists: &mut Vec<Spans>,
    others: &mut Vec<Spans>,
    key: Key,
    list: Spans,
) -> Result<(), NoMemory>
    requires sound { AllByRecursion IsSpans lists.old.items }
    requires others { AllByRecursion IsSpans others.old.items }
    requires list { IsSpans list }
    ensures sound { AllByRecursion IsSpans lists.new.items }
    ensures others { AllByRecursion IsSpans others.new.items }
    ensures taken { OnOk result (DivideIn (ranges_in lists.old.items) (ranges_in others.old.items) (ranges_in lists.new.items) (ranges_in others.new.items) key (ranges_of list)) }
{
    if is_list_under(key, &list) {
        return add_list(alloc, lists, &list);
    }
    others.push(list)?;
    Ok(())
}

/// The same of all its lists.
fn divide(
    alloc: Global,
    lists: &mut Vec<Spans>,
    others: &mut Vec<Spans>,
    key: Key,
    parts: Vec<Spans>,
) -> Result<(), NoMemory>
    requires sound { AllByRecursion IsSpans lists.old.items }
    requires others { AllByRecursion IsSpans others.old.items }
    requires parts { AllByRecursion IsSpans parts.items }
    ensures sound { AllByRecursion IsSpans lists.new.items }
    ensures others { AllByRecursion IsSpans others.new.items }
    ensures taken { OnOk result (DivideIn (ranges_in lists.old.items) (ranges_in others.old.items) (ranges_in lists.new.items) (ranges_in others.new.items) key (ranges_in parts.items)) }
{
    let mut parts = parts;
    'parts: while let Some(list) = parts.pop() {
        take_list(alloc, lists, others, key, list)?;
    }
    Ok(())
}

/// Takes in the lists of a key's part.
pub(crate) fn take_lists(
    alloc: Global,
    lists: &mut Vec<Spans>,
    rest: &mut Vec<KeyLists>,
    key: Key,
    parts: Vec<Spans>,
) -> Result<(), NoMemory>
    requires sound { AllByRecursion IsSpans lists.old.items }
    requires parts { AllByRecursion IsSpans parts.items }
    ensures sound { AllByRecursion IsSpans lists.new.items }
    ensures taken { OnOk result (TakeIn lists.old.items rest.old.items lists.new.items rest.new.items key (ranges_in parts.items)) }
{
    let mut others = Vec::new(alloc);
    divide(alloc, lists, &mut others, key, parts)?;
    if others.len() == 0 {
        return Ok(());
    }
    let part = KeyLists::new(alloc, key, others)?;
    rest.push(part)?;
    Ok(())
}

/// Takes in all lists of another.
pub(crate) fn take_both(
    alloc: Global,
    lists: &mut Vec<Spans>,
    rest: &mut Vec<KeyLists>,
    other_lists: &Vec<Spans>,
    other_rest: &Vec<KeyLists>,
) -> Result<(), NoMemory>
    requires sound { AllByRecursion IsSpans lists.old.items }
    requires other_lists { AllByRecursion IsSpans other_lists.now.items }
    ensures sound { AllByRecursion IsSpans lists.new.items }
    ensures taken { OnOk result (TellBoth lists.old.items rest.old.items lists.new.items rest.new.items other_lists.now.items other_rest.now.items) }
{
    add_lists(alloc, lists, other_lists)?;
    add_rest(rest, other_rest)
}
