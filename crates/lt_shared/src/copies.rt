//! Copies of parts of a list, with others between them.
ghost use Rattle.std.specs.Prelude.{◌≡◌, ◌<◌, ◌≤◌, ◌+◌, ◌-◌, ◌++◌, length, IfOk, OnOk, OnErr};
ghost use Rattle.std.specs.List.{splice};
ghost use Rattle.std.specs.Arc.{arc_value};
ghost use Rattle.lt_shared.specs.Entries.{AreParts};

use crate::entry::Entry;
use lt_face::{Moves, NoMemory};
use std::alloc::Global;
use std::sync::Arc;

/// Adds the same entries at the end of a list.
fn append<T: Entry, L>(
    list: &mut Vec<T>,
    entries: &[T],
    made: &mut Moves<L>,
) -> Result<(), NoMemory>
    ensures ok { OnOk result (list.new.items ≡ list.old.items ++ entries.now) }
    ensures made { made.new ≤ made.old + length entries.now }
{
    for entry in entries {
        entry.copy_into(list)?;
        made.tick();
    }
    Ok(())
}

/// A list of the same entries, with others in the place of those from one place to another.
fn spliced<T: Entry, L>(
    alloc: Global,
    entries: &[T],
    from: usize,
    to: usize,
    others: &[T],
    made: &mut Moves<L>,
) -> Result<Vec<T>, NoMemory>
    requires order { from ≤ to }
    requires within { to ≤ length entries.now }
    ensures ok { IfOk result (λ list. list.items ≡ splice entries.now from to others.now) }
    ensures made { made.new + to ≤ made.old + length entries.now + length others.now + from }
{
    let room = entries.len().saturating_add(others.len());
    let mut list = Vec::with_capacity(alloc, room)?;
    append(&mut list, &entries[..from], made)?;
    append(&mut list, others, made)?;
    append(&mut list, &entries[to..], made)?;
    Ok(list)
}

/// The same in two lists, where one more stands than stood there.
pub fn parted<T: Entry, L>(
    alloc: Global,
    entries: &[T],
    from: usize,
    to: usize,
    others: &[T],
    made: &mut Moves<L>,
) -> Result<(Vec<T>, Vec<T>), NoMemory>
    requires order { from ≤ to }
    requires short { to ≤ from + 1 }
    requires within { to ≤ length entries.now }
    requires two { 1 < length entries.now }
    requires more { from + length others.now ≡ to + 1 }
    ensures all { IfOk result (λ out. out.0.items ++ out.1.items ≡ splice entries.now from to others.now) }
    ensures parts { IfOk result (λ out. AreParts (length entries.now) (length out.0.items) (length out.1.items)) }
    ensures made { made.new ≤ made.old + length entries.now + 1 }
{
    let middle = entries.len() / 2;
    let lower = &entries[..middle];
    let upper = &entries[middle..];
    if from < middle {
        let first = spliced(alloc, lower, from, to, others, made)?;
        let second = spliced(alloc, upper, 0, 0, &[], made)?;
        return Ok((first, second));
    }
    let first = spliced(alloc, lower, 0, 0, &[], made)?;
    let second = spliced(alloc, upper, from - middle, to - middle, others, made)?;
    Ok((first, second))
}

/// Puts others in the place of the entries from one place to another, in a copy of the list.
pub fn splice_copy<T: Entry, L>(
    entries: &mut Arc<Vec<T>>,
    from: usize,
    to: usize,
    others: &[T],
    made: &mut Moves<L>,
) -> Result<(), NoMemory>
    requires order { from ≤ to }
    requires within { to ≤ length (arc_value entries.old).items }
    ensures ok { OnOk result ((arc_value entries.new).items ≡ splice (arc_value entries.old).items from to others.now) }
    ensures err { OnErr result ((arc_value entries.new).items ≡ (arc_value entries.old).items) }
    ensures made { made.new + to ≤ made.old + length (arc_value entries.old).items + length others.now + from }
{
    let alloc = *entries.allocator();
    let copy = spliced(alloc, entries, from, to, others, made)?;
    *entries = Arc::new(alloc, copy)?;
    Ok(())
}
