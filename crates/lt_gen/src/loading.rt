//! Programs that load a row for each item.
ghost use Rattle.std.specs.Prelude.{◌≡◌, ◌+◌, ◌-◌, ◌*◌, ◌<◌, ◌≤◌, min, map, IfOk, OnOk};
ghost use Rattle.lt_gen.specs.Limits.{most_items};
ghost use Rattle.lt_gen.specs.Programs.{load};
ghost use Rattle.lt_gen.specs.Script.{group_at, groups, numbers, stock_of};

use crate::draws::Draws;
use crate::groups::{group_count, group_end};
use crate::statements::{load, stocks};
use lt_face::NoMemory;
use lt_face::items::Items;
use lt_model::form::Wording;
use lt_model::syntax::{ProgramList, Statement, StatementList};
use std::alloc::Global;

// The row of the item behind so many others.
fn stock_of(alloc: Global, draws: &mut Draws, before: u32) -> Result<Statement, NoMemory>
    requires few { before < most_items }
    requires drawn { draws.old.count ≡ before }
    ensures statement { IfOk result (λ statement. statement ≡ stock_of draws.old.seed (before + 1)) }
    ensures seed { draws.new.seed ≡ draws.old.seed }
    ensures count { draws.new.count ≡ before + 1 }
{
    let more = draws.below(20);
    stocks(alloc, before + 1, 5 + more)
}

// The statements of group `j`.
fn load_group(
    alloc: Global,
    draws: &mut Draws,
    items: u32,
    j: u32,
) -> Result<StatementList, NoMemory>
    requires few { items ≤ most_items }
    requires there { 64 * j < items }
    requires drawn { draws.old.count ≡ 64 * j }
    ensures group { IfOk result (λ group. group ≡ group_at (map (stock_of draws.old.seed) (numbers items)) j) }
    ensures seed { draws.new.seed ≡ draws.old.seed }
    ensures count { OnOk result (draws.new.count ≡ 64 * j + min 64 (items - 64 * j)) }
{
    let mut group = Items::new(alloc);
    let end = group_end(items, j);
    'rows: for before in 64 * j..end {
        let row = stock_of(alloc, draws, before)?;
        group.push(Wording::whole(row))?;
    }
    Ok(group)
}

/// The programs of the batch that loads the items.
pub fn load_programs(alloc: Global, draws: &mut Draws, items: u32) -> Result<ProgramList, NoMemory>
    requires few { items ≤ most_items }
    requires drawn { draws.old.count ≡ 0 }
    ensures programs { IfOk result (λ programs. programs ≡ map load (groups (map (stock_of draws.old.seed) (numbers items)))) }
    ensures seed { draws.new.seed ≡ draws.old.seed }
    ensures count { OnOk result (draws.new.count ≡ items) }
{
    let mut programs = Items::new(alloc);
    let count = group_count(items);
    'groups: for j in 0..count {
        let group = load_group(alloc, draws, items, j)?;
        programs.push(load(alloc, group))?;
    }
    Ok(programs)
}
