//! What an item answers where a person reads it: the report's lines, and words beside its codes.
ghost use Rattle.std.specs.Prelude.{OnOk};
ghost use Rattle.lt_model.specs.declared.syntax.Item.TheVariants as items;
ghost use Rattle.lt_model.specs.Limits.{IsWithinLimits, IsProgramWithin};
ghost use Rattle.std.specs.List.{AllByRecursion};
ghost use Rattle.std.specs.Prelude.{◌≤◌, length};
ghost use Rattle.lt_face.specs.Limits.{most_programs};
ghost use Rattle.lt_world.specs.World.{IsWorld, Takes};

use crate::reasons::{put_reasons, put_show_reason};
use lt_edges::{OpenGate, Sink};
use lt_model::kind::KindList;
use lt_model::name::Name;
use lt_model::syntax::{Item, Program};
use lt_report::{put_bad_item, put_line};
use lt_telling::settings::options;
use lt_telling::telling::put_reason;
use lt_world::batch::put_ran;
use lt_world::halt::Halt;
use lt_world::world::World;
use std::alloc::Global;
use std::sync::Wait;
use std::thread::Threads;

fn talk_of_relation<K: Sink>(
    world: &mut World,
    sink: &mut K,
    name: Name,
    kinds: KindList,
    keys: u32,
) -> Result<(), Halt>
    requires { IsWithinLimits (items.Relation name kinds keys) }
    ensures { OnOk result (Takes world.old (items.Relation name kinds keys) world.new) }
{
    let code = world.declare(name, kinds, keys)?;
    match code {
        Some(code) => {
            put_bad_item(sink, code)?;
            put_reason(sink, code)?;
            Ok(())
        }
        None => {
            put_line(sink, &[b"(taken)"])?;
            Ok(())
        }
    }
}

fn talk_of_batch<R: Threads + Wait + Sync, K: Sink>(
    world: &mut World,
    rt: &R,
    alloc: Global,
    sink: &mut K,
    programs: &[Program],
    workers: u32,
    text: &[u8],
) -> Result<(), Halt>
    requires world { IsWorld world.old }
    requires within { AllByRecursion IsProgramWithin programs.now }
    requires few { length programs.now ≤ most_programs }
    ensures { OnOk result (Takes world.old (items.Batch programs.now) world.new) }
{
    let options = options(workers);
    let ran = world.run(rt, alloc, programs, false, options.workers, &OpenGate)?;
    put_ran(sink, programs, &ran, world.schema.headings(), false)?;
    put_reasons(alloc, sink, programs, &ran, text)?;
    Ok(())
}

/// Takes an item, whose text this is, and writes what it answers.
pub fn talk<R: Threads + Wait + Sync, K: Sink>(
    world: &mut World,
    rt: &R,
    alloc: Global,
    sink: &mut K,
    item: Item,
    workers: u32,
    text: &[u8],
) -> Result<(), Halt>
    requires world { IsWorld world.old }
    requires within { IsWithinLimits item }
    ensures { OnOk result (Takes world.old item world.new) }
{
    match item {
        Item::Relation { name, kinds, keys } => talk_of_relation(world, sink, name, kinds, keys),
        Item::Batch { programs } => {
            talk_of_batch(world, rt, alloc, sink, programs.as_slice(), workers, text)
        }
        Item::Show { name, at } => {
            world.show(alloc, sink, &name, at)?;
            put_show_reason(sink, world, &name, at)?;
            Ok(())
        }
    }
}
