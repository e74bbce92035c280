//! The generated script.
ghost use Rattle.std.specs.Prelude.{◌≡◌, ◌≤◌, ◌∷◌, [], length, IfOk};
ghost use Rattle.std.specs.List.{AllByRecursion};
ghost use Rattle.lt_model.specs.Limits.{IsWithinLimits};
ghost use Rattle.lt_gen.specs.Limits.{most_buyers, most_items};
ghost use Rattle.lt_gen.specs.Script.{bench_items, sale_item, stock_item};

use crate::buying::push_buys;
use crate::draws::Draws;
use crate::loading::load_programs;
use lt_face::NoMemory;
use lt_face::items::Items;
use lt_model::kind::{Kind, KindList};
use lt_model::name::Name;
use lt_model::syntax::Item;
use std::alloc::Global;

/// The items of a script.
pub type ItemList = Items<Item>;

// The two relations.
fn relations(alloc: Global) -> Result<ItemList, NoMemory>
    ensures { IfOk result (λ script. script ≡ stock_item ∷ sale_item ∷ []) }
{
    let mut script = Items::new(alloc);
    script.push(Item::Relation {
        name: Name::from_bytes(alloc, b"stock"),
        kinds: KindList::from_kinds(alloc, &[Kind::Int, Kind::Int]),
        keys: 2,
    })?;
    script.push(Item::Relation {
        name: Name::from_bytes(alloc, b"sale"),
        kinds: KindList::from_kinds(alloc, &[Kind::Int, Kind::Int, Kind::Int]),
        keys: 3,
    })?;
    Ok(script)
}

/// The script that this seed generates, with so many items in stock and so many programs that buy.
pub fn bench_script(
    alloc: Global,
    seed: u64,
    items: u32,
    programs: u32,
) -> Result<ItemList, NoMemory>
    requires items { (1 ≤ items) × (items ≤ most_items) }
    requires programs { (1 ≤ programs) × (programs ≤ most_buyers) }
    ensures script { IfOk result (λ script. script ≡ bench_items seed items programs) }
    ensures within { IfOk result (λ script. AllByRecursion IsWithinLimits script) }
    ensures few { IfOk result (λ script. length script ≤ 1027) }
{
    let mut draws = Draws::from_seed(seed);
    let mut script = relations(alloc)?;
    let programs_that_load = load_programs(alloc, &mut draws, items)?;
    script.push(Item::Batch {
        programs: programs_that_load,
    })?;
    push_buys(&mut script, alloc, &mut draws, items, programs)?;
    Ok(script)
}
