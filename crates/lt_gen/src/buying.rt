//! Programs that buy.
ghost use Rattle.std.specs.Prelude.{◌≡◌, ◌++◌, ◌+◌, ◌-◌, ◌*◌, ◌<◌, ◌≤◌, min, map, IfOk, OnOk};
ghost use Rattle.lt_gen.specs.Limits.{most_buyers, most_items};
ghost use Rattle.lt_gen.specs.Script.{buy_items, buyer, group_at, numbers};

use crate::draws::Draws;
use crate::groups::{group_count, group_end};
use crate::script::ItemList;
use crate::statements::buy;
use lt_face::NoMemory;
use lt_face::items::Items;
use lt_model::syntax::{Item, Program, ProgramList};
use std::alloc::Global;

// The program behind so many others.
fn buyer(alloc: Global, draws: &mut Draws, items: u32, before: u32) -> Result<Program, NoMemory>
    requires some { 1 ≤ items }
    requires few { items ≤ most_items }
    requires few_before { before < most_buyers }
    requires drawn { draws.old.count ≡ items + 3 * before }
    ensures program { IfOk result (λ program. program ≡ buyer draws.old.seed items (before + 1)) }
    ensures seed { draws.new.seed ≡ draws.old.seed }
    ensures count { draws.new.count ≡ items + 3 * (before + 1) }
{
    let more = draws.below(5);
    let bought = draws.below(items);
    let asked = draws.below(items);
    buy(alloc, before + 1, 1 + more, 1 + bought, 1 + asked)
}

// The programs of group `j`.
fn buy_group(
    alloc: Global,
    draws: &mut Draws,
    items: u32,
    programs: u32,
    j: u32,
) -> Result<ProgramList, NoMemory>
    requires some { 1 ≤ items }
    requires few { items ≤ most_items }
    requires few_programs { programs ≤ most_buyers }
    requires there { 64 * j < programs }
    requires drawn { draws.old.count ≡ items + 3 * (64 * j) }
    ensures group { IfOk result (λ group. group ≡ group_at (map (buyer draws.old.seed items) (numbers programs)) j) }
    ensures seed { draws.new.seed ≡ draws.old.seed }
    ensures count { OnOk result (draws.new.count ≡ items + 3 * (64 * j + min 64 (programs - 64 * j))) }
{
    let mut group = Items::new(alloc);
    let end = group_end(programs, j);
    'programs: for before in 64 * j..end {
        let program = buyer(alloc, draws, items, before)?;
        group.push(program)?;
    }
    Ok(group)
}

/// Adds the batches of programs that buy.
pub fn push_buys(
    script: &mut ItemList,
    alloc: Global,
    draws: &mut Draws,
    items: u32,
    programs: u32,
) -> Result<(), NoMemory>
    requires some { 1 ≤ items }
    requires few { items ≤ most_items }
    requires few_programs { programs ≤ most_buyers }
    requires drawn { draws.old.count ≡ items }
    ensures { OnOk result (script.new ≡ script.old ++ buy_items draws.old.seed items programs) }
{
    let count = group_count(programs);
    'groups: for j in 0..count {
        let group = buy_group(alloc, draws, items, programs, j)?;
        script.push(Item::Batch { programs: group })?;
    }
    Ok(())
}
