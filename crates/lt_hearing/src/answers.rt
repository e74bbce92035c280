//! What an item answers at a pipe: its lines of the report, and a line where there are none.
ghost use Rattle.std.specs.Prelude.{OnOk};
ghost use Rattle.std.specs.Io.KnownBytes.{Appends};
ghost use Rattle.lt_model.specs.declared.syntax.Item.TheVariants as items;
ghost use Rattle.lt_model.specs.Limits.{IsWithinLimits};
ghost use Rattle.lt_model.specs.Report.{World as ModelWorld};
ghost use Rattle.lt_world.specs.World.{IsWorld, Shows, Takes};
ghost use Rattle.lt_hearing.specs.Answered.{answered};

use lt_edges::{OpenGate, Sink};
use lt_model::kind::KindList;
use lt_model::name::Name;
use lt_model::syntax::Item;
use lt_report::{put_bad_item, put_line};
use lt_telling::settings::options;
use lt_world::halt::Halt;
use lt_world::world::World;
use std::alloc::Global;
use std::sync::Wait;
use std::thread::Threads;

// A declaration. One that is taken is told.
fn declare<K: Sink>(
    world: &mut World,
    alloc: Global,
    sink: &mut K,
    name: Name,
    kinds: KindList,
    keys: u32,
) -> Result<(), Halt>
    requires { IsWithinLimits (items.Relation name kinds keys) }
    ensures world { OnOk result (Takes world.old (items.Relation name kinds keys) world.new) }
    ensures text { (m : ModelWorld) → Shows world.old m → OnOk result (Appends (K.holds sink.old) (K.holds sink.new) (answered m (items.Relation name kinds keys))) }
{
    let told = Name::from_bytes(alloc, name.as_bytes());
    let code = world.declare(name, kinds, keys)?;
    match code {
        Some(code) => {
            put_bad_item(sink, code)?;
            Ok(())
        }
        None => {
            put_line(sink, &[b"relation", told.as_bytes()])?;
            Ok(())
        }
    }
}

/// Takes an item, and writes what it answers.
pub fn answer<R: Threads + Wait + Sync, K: Sink>(
    world: &mut World,
    rt: &R,
    alloc: Global,
    sink: &mut K,
    item: Item,
    workers: u32,
) -> Result<(), Halt>
    requires world { IsWorld world.old }
    requires within { IsWithinLimits item }
    ensures world { OnOk result (Takes world.old item world.new) }
    ensures text { (m : ModelWorld) → Shows world.old m → OnOk result (Appends (K.holds sink.old) (K.holds sink.new) (answered m item)) }
{
    match item {
        Item::Relation { name, kinds, keys } => declare(world, alloc, sink, name, kinds, keys),
        item => {
            let options = options(workers);
            world.take(rt, alloc, sink, item, options, &OpenGate)
        }
    }
}
