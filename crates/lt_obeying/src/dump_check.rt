//! A dump is read and run in a world of its own before it is written.
ghost use Rattle.std.specs.Prelude.{◌≡◌, [], true, IfNone, IfOk, IfSome};
ghost use Rattle.lt_base.specs.Tables.{state_of};
ghost use Rattle.lt_script.specs.Feed.{HasFed};
ghost use Rattle.lt_obeying.specs.Dumped.{IsDumped, IsMadeBy, Makes};

use lt_dump::comparing::{are_same_headings, is_same_state};
use lt_dump::dump::dump_text;
use lt_dump::inserts::Inserts;
use lt_edges::{OpenGate, Sink, SureSink};
use lt_face::NoMemory;
use lt_script::{Feed, FeedStep};
use lt_telling::settings::options;
use lt_telling::text::put_text;
use lt_world::halt::Halt;
use lt_world::world::World;
use std::alloc::Global;
use std::sync::Wait;
use std::thread::Threads;

// A feed of this text, and no more.
fn fed(alloc: Global, text: &[u8]) -> Result<Feed, NoMemory>
    ensures fed { IfOk result (λ feed. HasFed feed text.now []) }
    ensures ended { IfOk result (λ feed. feed.ended ≡ true) }
{
    let mut feed = Feed::new(alloc);
    feed.push(text)?;
    feed.end();
    Ok(feed)
}

// The world that a script makes from nothing. None where the script has a fault.
fn world_of<R: Threads + Wait + Sync>(
    rt: &R,
    alloc: Global,
    text: &[u8],
) -> Result<Option<World>, Halt>
    ensures { IfOk result (λ made. IfSome made (IsMadeBy text.now)) }
{
    let mut feed = fed(alloc, text)?;
    let mut world = World::new(alloc)?;
    let mut sink = SureSink;
    'steps: for _ in 0..u64::MAX {
        match feed.next_step(alloc) {
            FeedStep::Item(item) => {
                world.take(rt, alloc, &mut sink, item, options(1), &OpenGate)?;
            }
            FeedStep::End => return Ok(Some(world)),
            FeedStep::NoMemory => return Err(Halt::NoMemory),
            FeedStep::Fault { .. } => return Ok(None),
            FeedStep::More => return Ok(None),
        }
    }
    Ok(None)
}

// Whether two worlds have the same relations, with the same rows.
fn is_same_world(alloc: Global, one: &World, other: &World) -> bool
    ensures schema { result ≡ true → one.now.schema ≡ other.now.schema }
    ensures state { result ≡ true → state_of one.now.database ≡ state_of other.now.database }
{
    let declared = one.schema.headings().as_slice();
    if !are_same_headings(declared, other.schema.headings().as_slice()) {
        return false;
    }
    is_same_state(alloc, &one.database, &other.database)
}

// Whether this text makes the relations and the rows of this world.
fn is_making<R: Threads + Wait + Sync>(
    world: &World,
    rt: &R,
    alloc: Global,
    text: &[u8],
) -> Result<bool, Halt>
    ensures { IfOk result (λ makes. makes ≡ true → Makes text.now world.now) }
{
    let found = world_of(rt, alloc, text)?;
    let Some(made) = found else {
        return Ok(false);
    };
    Ok(is_same_world(alloc, &made, world))
}

/// A script that makes the present state, and how many rows it inserts. None where it was read back and made another state.
pub fn dump_of<R: Threads + Wait + Sync>(
    world: &World,
    rt: &R,
    alloc: Global,
) -> Result<Option<Inserts>, Halt>
    ensures { IfOk result (λ found. IfSome found (λ dump. Makes dump.text.items world.now)) }
{
    let headings = world.schema.headings().as_slice();
    let dump = dump_text(alloc, headings, &world.database)?;
    let makes = is_making(world, rt, alloc, &dump.text)?;
    if !makes {
        return Ok(None);
    }
    Ok(Some(dump))
}

/// Writes a script that makes the present state; how many rows it inserts. None, and nothing is written, where it was read back and
/// made another state.
pub fn put_dump<R: Threads + Wait + Sync, K: Sink>(
    world: &World,
    rt: &R,
    alloc: Global,
    sink: &mut K,
) -> Result<Option<u64>, Halt>
    ensures dumped { IfOk result (λ told. IfSome told (λ _. IsDumped world.now (K.holds sink.old) (K.holds sink.new))) }
    ensures refused { IfOk result (λ told. IfNone told (sink.new ≡ sink.old)) }
{
    let found = dump_of(world, rt, alloc)?;
    let Some(dump) = found else {
        return Ok(None);
    };
    put_text(sink, &dump.text)?;
    Ok(Some(dump.count))
}
