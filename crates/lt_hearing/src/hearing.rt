//! What is heard of a script: its items are answered once their text is there.
ghost use Rattle.std.specs.Prelude.{◌≡◌, ℕ, List, false, OnOk};
ghost use Rattle.std.specs.Io.KnownBytes.{Appends};
ghost use Rattle.lt_model.specs.declared.syntax.Item.{Item as ScriptItem};
ghost use Rattle.lt_model.specs.Limits.{IsWithinLimits};
ghost use Rattle.lt_model.specs.Report.{World as ModelWorld};
ghost use Rattle.lt_script.specs.Feed.{HasFed};
ghost use Rattle.lt_world.specs.World.{IsWorld, Shows, Takes};
ghost use Rattle.lt_hearing.specs.Answered.{answered, Heard};

use crate::answers::answer;
use crate::talking::talk;
use lt_edges::Sink;
use lt_input::script::Script;
use lt_model::syntax::Item;
use lt_script::FeedStep;
use lt_telling::refusing::put_told;
use lt_telling::settings::Settings;
use lt_telling::telling::put_number;
use lt_world::halt::Halt;
use lt_world::world::World;
use std::alloc::Global;
use std::rt::Clock;
use std::sync::Wait;
use std::thread::Threads;
use std::time::Instant;

/// The line of a fault, as a feed counts, and its code.
#[derive(Clone, Copy)]
pub struct Fault {
    pub line: u64,
    pub code: u32,
}

// Takes an item, and answers as at a pipe or as to a person.
fn answer_as<R: Threads + Wait + Sync, K: Sink>(
    world: &mut World,
    rt: &R,
    alloc: Global,
    sink: &mut K,
    item: Item,
    settings: Settings,
    text: &[u8],
) -> Result<(), Halt>
    requires world { IsWorld world.old }
    requires within { IsWithinLimits item }
    ensures world { OnOk result (Takes world.old item world.new) }
    ensures text { settings.talks ≡ false → (m : ModelWorld) → Shows world.old m → OnOk result (Appends (K.holds sink.old) (K.holds sink.new) (answered m item)) }
{
    if settings.talks {
        return talk(world, rt, alloc, sink, item, settings.workers, text);
    }
    answer(world, rt, alloc, sink, item, settings.workers)
}

// Tells how long it took since then.
fn put_time<R: Clock, K: Sink>(sink: &mut K, rt: &R, began: Instant) -> Result<(), Halt> {
    if let Ok(time) = began.elapsed(rt) {
        let micros = u64::try_from(time.as_micros()).unwrap_or(u64::MAX);
        put_number(sink, b"microseconds", micros)?;
    }
    Ok(())
}

// Takes an item, and tells how long it took, where that is asked for.
fn answer_timed<R: Threads + Wait + Sync + Clock, K: Sink>(
    world: &mut World,
    rt: &R,
    alloc: Global,
    sink: &mut K,
    item: Item,
    settings: Settings,
    text: &[u8],
) -> Result<(), Halt>
    requires world { IsWorld world.old }
    requires within { IsWithinLimits item }
    ensures world { OnOk result (Takes world.old item world.new) }
    ensures text { settings.talks ≡ false → settings.timed ≡ false → (m : ModelWorld) → Shows world.old m → OnOk result (Appends (K.holds sink.old) (K.holds sink.new) (answered m item)) }
{
    if !settings.timed {
        return answer_as(world, rt, alloc, sink, item, settings, text);
    }
    let began = Instant::now(rt);
    answer_as(world, rt, alloc, sink, item, settings, text)?;
    if let Ok(began) = began {
        put_time(sink, rt, began)?;
    }
    Ok(())
}

/// Answers the items whose text is there, up to the first fault.
pub fn hear<R: Threads + Wait + Sync + Clock, K: Sink>(
    world: &mut World,
    rt: &R,
    alloc: Global,
    sink: &mut K,
    script: &mut Script,
    settings: Settings,
) -> Result<Option<Fault>, Halt>
    requires { IsWorld world.old }
    ensures world { OnOk result (IsWorld world.new) }
    ensures heard { settings.talks ≡ false → settings.timed ≡ false → (bytes : List ℕ) (items : List ScriptItem) (m : ModelWorld) → HasFed script.old.fed bytes items → Shows world.old m → OnOk result (Heard m bytes items world.new script.new.fed (K.holds sink.old) (K.holds sink.new)) }
{
    'steps: for _ in 0..u64::MAX {
        match script.fed.next_step(alloc) {
            FeedStep::Item(item) => {
                let text = script.item_text();
                answer_timed(world, rt, alloc, sink, item, settings, text)?;
                script.go_on()?;
            }
            FeedStep::Fault { line, code } => return Ok(Some(Fault { line, code })),
            FeedStep::NoMemory => return Err(Halt::NoMemory),
            FeedStep::End => return Ok(None),
            FeedStep::More => return Ok(None),
        }
    }
    Ok(None)
}

// Tells a fault, and gives up the item that has it.
fn tell<K: Sink>(
    alloc: Global,
    sink: &mut K,
    script: &mut Script,
    talks: bool,
    fault: Fault,
) -> Result<(), Halt> {
    let told = script.refuse(alloc, fault.line, fault.code)?;
    put_told(sink, script, talks, &told)?;
    Ok(())
}

/// Answers the items whose text is there. A fault is told, and costs the item that has it; the world is as it was before that item.
pub fn hear_all<R: Threads + Wait + Sync + Clock, K: Sink>(
    world: &mut World,
    rt: &R,
    alloc: Global,
    sink: &mut K,
    script: &mut Script,
    settings: Settings,
) -> Result<(), Halt>
    requires { IsWorld world.old }
    ensures { OnOk result (IsWorld world.new) }
{
    let fault = hear(world, rt, alloc, sink, script, settings)?;
    match fault {
        Some(fault) => tell(alloc, sink, script, settings.talks, fault),
        None => Ok(()),
    }
}
