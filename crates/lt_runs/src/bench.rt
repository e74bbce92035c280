//! The generated script, run by the same engine, and what comes of it.
ghost use Rattle.std.specs.Prelude.{◌≡◌, ◌≤◌, ◌++◌, List, length, false, IfOk, OnOk};
ghost use Rattle.std.specs.List.{AllByRecursion};
ghost use Rattle.lt_face.specs.Limits.{most_programs, most_workers};
ghost use Rattle.lt_model.specs.Limits.{IsWithinLimits};
ghost use Rattle.lt_model.specs.Report.{World as ModelWorld, step};
ghost use Rattle.lt_gen.specs.Answered.{Answer, answers_to};
ghost use Rattle.lt_gen.specs.Counted.{Counts};
ghost use Rattle.lt_gen.specs.Script.{bench_items};
ghost use Rattle.lt_gen.specs.Summaries.{column_sum as sum_of_column, queries_of, rows_named, summary_of};
ghost use Rattle.lt_runs.specs.Counting.{HasRoomFor};
ghost use Rattle.lt_runs.specs.Coming.{HasCome};
ghost use Rattle.lt_world.specs.World.{IsWorld, Shows, ShowsNow};

use crate::beside::run_beside;
use crate::come::{Come, count_kept};
use crate::generated::Generated;
use lt_edges::Gate;
use lt_face::NoMemory;
use lt_gen::{Summary, bench_script, column_sum};
use lt_model::name::Name;
use lt_model::syntax::Item;
use lt_world::world::World;
use std::alloc::Global;
use std::sync::Wait;
use std::thread::Threads;

// Runs an item and counts what its programs answered. Nothing is written, and no version is kept.
fn count_item<R: Threads + Wait + Sync, G: Gate>(
    rt: &R,
    alloc: Global,
    world: &mut World,
    summary: &mut Summary,
    item: Item,
    workers: u32,
    gate: &G,
) -> Result<(), NoMemory>
    requires workers { (1 ≤ workers) × (workers ≤ most_workers) }
    requires world { IsWorld world.old }
    requires within { IsWithinLimits item }
    requires room { HasRoomFor summary.old most_programs }
    ensures world { OnOk result ((m : ModelWorld) → ShowsNow world.old m → ShowsNow world.new (step false m item)) }
    ensures counts { OnOk result ((m : ModelWorld) (answers : List Answer) → ShowsNow world.old m → Counts summary.old answers → Counts summary.new (answers ++ answers_to m item)) }
    ensures programs { OnOk result (summary.new.programs ≡ summary.old.programs) }
{
    count_kept(rt, alloc, world, summary, item, workers, gate)?;
    world.forget_versions(alloc)?;
    Ok(())
}

/// Runs the items one after another. Each goes as soon as it was run, and no version is kept.
fn run_alone<R: Threads + Wait + Sync, G: Gate>(
    rt: &R,
    alloc: Global,
    script: Vec<Item>,
    programs: u32,
    workers: u32,
    gate: &G,
) -> Result<Come, NoMemory>
    requires within { AllByRecursion IsWithinLimits script.items }
    requires few { length script.items ≤ 1027 }
    requires workers { (1 ≤ workers) × (workers ≤ most_workers) }
    ensures come { IfOk result (λ come. HasCome script.items come) }
    ensures programs { IfOk result (λ come. come.summary.programs ≡ programs) }
{
    let mut world = World::new(alloc)?;
    let mut summary = Summary::new(u64::from(programs));
    for item in script {
        count_item(rt, alloc, &mut world, &mut summary, item, workers, gate)?;
    }
    Ok(Come { world, summary })
}

// The sum of the ints in a column of a relation; 0 where the relation isn't there.
fn total(alloc: Global, world: &World, name: &[u8], column: usize) -> i128
    requires some { 1 ≤ length name.now }
    requires few { length name.now ≤ 15 }
    ensures { (m : ModelWorld) → Shows world.now m → result ≡ sum_of_column column (rows_named m name.now) }
{
    let name = Name::from_bytes(alloc, name);
    match world.schema.find(&name) {
        Some(number) => column_sum(alloc, world.database.rows(number), column),
        None => 0,
    }
}

// Runs the items, beside so many readers, if there are some: how many queries these made, and how many of their replies are
// those of the versions that they name.
fn run_items<R: Threads + Wait + Sync, G: Gate>(
    rt: &R,
    alloc: Global,
    script: Vec<Item>,
    generated: Generated,
    workers: u32,
    gate: &G,
) -> Result<(Come, Option<u64>, Option<u64>), NoMemory>
    requires script { script.items ≡ bench_items generated.seed generated.items generated.programs }
    requires within { AllByRecursion IsWithinLimits script.items }
    requires few { length script.items ≤ 1027 }
    requires readers { generated.readers ≤ 8 }
    requires workers { (1 ≤ workers) × (workers ≤ most_workers) }
    ensures come { IfOk result (λ out. HasCome script.items out.0) }
    ensures programs { IfOk result (λ out. out.0.summary.programs ≡ generated.programs) }
    ensures reads { IfOk result (λ out. out.1 ≡ queries_of generated.readers) }
    ensures equal { IfOk result (λ out. out.2 ≡ queries_of generated.readers) }
{
    if generated.readers == 0 {
        let come = run_alone(rt, alloc, script, generated.programs, workers, gate)?;
        return Ok((come, None, None));
    }
    let (come, reads, equal) = run_beside(rt, alloc, script, generated, workers, gate)?;
    Ok((come, Some(reads), Some(equal)))
}

/// What comes of the generated script, whose batches so many workers run.
pub fn summarize<R: Threads + Wait + Sync, G: Gate>(
    rt: &R,
    alloc: Global,
    generated: Generated,
    workers: u32,
    gate: &G,
) -> Result<Summary, NoMemory>
    requires items { (1 ≤ generated.items) × (generated.items ≤ 16384) }
    requires programs { (1 ≤ generated.programs) × (generated.programs ≤ 65536) }
    requires readers { generated.readers ≤ 8 }
    requires workers { (1 ≤ workers) × (workers ≤ most_workers) }
    ensures { IfOk result (λ summary. summary ≡ summary_of generated.seed generated.items generated.programs generated.readers) }
{
    let script = bench_script(alloc, generated.seed, generated.items, generated.programs)?;
    let ran = run_items(rt, alloc, script.into_vec(), generated, workers, gate)?;
    let (come, reads, equal) = ran;
    let mut summary = come.summary;
    summary.left = total(alloc, &come.world, b"stock", 1);
    summary.sold = total(alloc, &come.world, b"sale", 2);
    summary.reads = reads;
    summary.equal = equal;
    Ok(summary)
}
