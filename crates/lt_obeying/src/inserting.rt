//! Rows of a table that go into a relation, batch after batch.
ghost use Rattle.std.specs.Prelude.{OnOk};
ghost use Rattle.lt_model.specs.Limits.{IsWithinLimits};
ghost use Rattle.lt_world.specs.World.{IsWorld};

use lt_edges::{OpenGate, SureSink};
use lt_face::NoMemory;
use lt_model::name::Name;
use lt_model::syntax::Item;
use lt_tables::loads::{BATCH, programs_of};
use lt_tables::table_rows::TableRows;
use lt_telling::settings::options;
use lt_world::world::World;
use std::alloc::Global;
use std::sync::Wait;
use std::thread::Threads;

// Takes an item that nobody wants an answer to.
fn take<R: Threads + Wait + Sync>(
    world: &mut World,
    rt: &R,
    alloc: Global,
    item: Item,
    workers: u32,
) -> Result<(), NoMemory>
    requires world { IsWorld world.old }
    requires within { IsWithinLimits item }
    ensures { OnOk result (IsWorld world.new) }
{
    let options = options(workers);
    match world.take(rt, alloc, &mut SureSink, item, options, &OpenGate) {
        Ok(()) => Ok(()),
        Err(_) => Err(NoMemory),
    }
}

/// Inserts rows into the relation of this name.
pub fn insert_rows<R: Threads + Wait + Sync>(
    world: &mut World,
    rt: &R,
    alloc: Global,
    name: &Name,
    rows: &TableRows,
    workers: u32,
) -> Result<(), NoMemory>
    requires { IsWorld world.old }
    ensures { OnOk result (IsWorld world.new) }
{
    let kinds = world.schema.columns(name).to_vec(alloc)?;
    'rows: for number in 0..rows.len() {
        if number % BATCH == 0 {
            let programs = programs_of(alloc, name, &kinds, rows, number)?;
            take(world, rt, alloc, Item::Batch { programs }, workers)?;
        }
    }
    Ok(())
}
