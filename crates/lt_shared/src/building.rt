//! Levels of many entries at once.
ghost use Rattle.std.specs.Prelude.{◌≡◌, ◌<◌, ◌≤◌, ◌+◌, ◌*◌, ◌/◌, ◌++◌, length, IfOk};
ghost use Rattle.lt_shared.specs.Entries.{joined, level_rows};
ghost use Rattle.lt_shared.specs.Shared.{root_rows};

use crate::entry::Entry;
use crate::level::{LIMIT, Level, Node};
use lt_face::{NoMemory, Row};
use std::alloc::Global;

/// One entry more: in the list that is being gathered, or as the first of the next, where that one has its share.
fn add_entry<T: Entry>(
    alloc: Global,
    levels: &mut Vec<Level<T>>,
    group: Vec<T>,
    entry: T,
    share: usize,
) -> Result<Vec<T>, NoMemory>
    requires some { 0 < share }
    requires limit { share ≤ 64 }
    requires bound { length group.items ≤ share }
    ensures rows { IfOk result (λ next. level_rows T.rows levels.new.items next.items ≡ level_rows T.rows levels.old.items group.items ++ T.rows entry) }
    ensures count { share ≡ 64 → IfOk result (λ next. 64 * length levels.new.items + length next.items ≡ 64 * length levels.old.items + length group.items + 1) }
    ensures some { IfOk result (λ next. 0 < length next.items) }
    ensures bound { IfOk result (λ next. length next.items ≤ share) }
{
    if group.len() == share {
        let level = Level::of(alloc, group)?;
        levels.push(level)?;
        let mut next = Vec::with_capacity(alloc, share)?;
        next.push(entry)?;
        return Ok(next);
    }
    let mut next = group;
    next.push(entry)?;
    Ok(next)
}

/// The levels, and one more of what was gathered last, if there is any.
fn finished<T: Entry>(
    alloc: Global,
    levels: Vec<Level<T>>,
    group: Vec<T>,
) -> Result<Vec<Level<T>>, NoMemory>
    requires bound { length group.items ≤ 64 }
    requires some { 0 < length levels.items → 0 < length group.items }
    ensures rows { IfOk result (λ out. joined (λ level. joined T.rows level) out.items ≡ level_rows T.rows levels.items group.items) }
    ensures count { IfOk result (λ out. length out.items ≡ (64 * length levels.items + length group.items + 63) / 64) }
{
    if group.is_empty() {
        return Ok(levels);
    }
    let mut out = levels;
    let level = Level::of(alloc, group)?;
    out.push(level)?;
    Ok(out)
}

/// Levels of so many entries each, and the last of what is left.
pub fn levels<T: Entry>(
    alloc: Global,
    entries: Vec<T>,
    share: usize,
) -> Result<Vec<Level<T>>, NoMemory>
    requires some { 0 < share }
    requires limit { share ≤ 64 }
    ensures rows { IfOk result (λ out. joined (λ level. joined T.rows level) out.items ≡ joined T.rows entries.items) }
    ensures count { share ≡ 64 → IfOk result (λ out. length out.items ≡ (length entries.items + 63) / 64) }
{
    let mut out = Vec::new(alloc);
    let mut group = Vec::with_capacity(alloc, share.min(entries.len()))?;
    for entry in entries {
        group = add_entry(alloc, &mut out, group, entry, share)?;
    }
    let all = finished(alloc, out, group)?;
    Ok(all)
}

/// Full nodes of full pages of these rows, but for the last.
pub fn nodes_of(alloc: Global, rows: Vec<Row>) -> Result<Vec<Node>, NoMemory>
    ensures rows { IfOk result (λ nodes. root_rows nodes.items ≡ rows.items) }
    ensures count { IfOk result (λ nodes. length nodes.items ≡ (length rows.items + 4095) / 4096) }
{
    let pages = levels(alloc, rows, LIMIT)?;
    let nodes = levels(alloc, pages, LIMIT)?;
    Ok(nodes)
}
