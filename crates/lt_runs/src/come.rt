//! What a script's items have come to: each is run, and what its programs answered is counted.
ghost use Rattle.std.specs.Prelude.{◌≡◌, ◌≤◌, ◌++◌, List, length, map, OnOk};
ghost use Rattle.std.specs.List.{AllByRecursion};
ghost use Rattle.lt_face.specs.Limits.{most_programs, most_workers};
ghost use Rattle.lt_model.specs.declared.syntax.Item.TheVariants as items;
ghost use Rattle.lt_model.specs.Limits.{IsProgramWithin, IsWithinLimits};
ghost use Rattle.lt_model.specs.Report.{World as ModelWorld};
ghost use Rattle.lt_gen.specs.Answered.{Answer, answers_to};
ghost use Rattle.lt_gen.specs.Counted.{Counts, HasFewPrints};
ghost use Rattle.lt_world.specs.Batches.{checked_of, good_ones};
ghost use Rattle.lt_runs.specs.Counting.{answered_by, HasRoomFor};
ghost use Rattle.lt_world.specs.World.{IsWorld, Shows, Takes};

use lt_edges::Gate;
use lt_face::NoMemory;
use lt_gen::Summary;
use lt_model::reply::Reply;
use lt_model::syntax::{Item, Program};
use lt_world::batch::Judgement;
use lt_world::world::World;
use std::alloc::Global;
use std::sync::Wait;
use std::thread::Threads;

/// What a script has made, and what its programs answered.
#[derive(Drop)]
pub struct Come {
    pub world: World,
    pub summary: Summary,
}

// Counts what the programs of a batch answered. Those without a code take their replies from the list.
fn count_programs(
    summary: &mut Summary,
    programs: &[Program],
    judgements: &[Judgement],
    replies: &[Reply],
)
    requires checks { length judgements.now ≡ length programs.now }
    requires some_replies { length (good_ones judgements.now) ≤ length replies.now }
    requires few { AllByRecursion HasFewPrints replies.now }
    requires room { HasRoomFor summary.old (length programs.now) }
    ensures counts { (answers : List Answer) → Counts summary.old answers → Counts summary.new (answers ++ answered_by programs.now (map checked_of judgements.now) replies.now) }
    ensures programs { summary.new.programs ≡ summary.old.programs }
{
    let mut next = 0;
    for (i, program) in programs.iter().enumerate() {
        match &judgements[i] {
            Judgement::Good(_) => {
                summary.count(&program.name, &replies[next]);
                next += 1;
            }
            Judgement::Bad { .. } => {}
        }
    }
}

/// Runs a batch and counts what its programs answered. Nothing is written.
pub fn count_batch<R: Threads + Wait + Sync, G: Gate>(
    rt: &R,
    alloc: Global,
    world: &mut World,
    summary: &mut Summary,
    programs: &[Program],
    workers: u32,
    gate: &G,
) -> Result<(), NoMemory>
    requires workers { (1 ≤ workers) × (workers ≤ most_workers) }
    requires world { IsWorld world.old }
    requires within { AllByRecursion IsProgramWithin programs.now }
    requires few { length programs.now ≤ most_programs }
    requires room { HasRoomFor summary.old most_programs }
    ensures world { OnOk result (Takes world.old (items.Batch programs.now) world.new) }
    ensures counts { OnOk result ((m : ModelWorld) (answers : List Answer) → Shows world.old m → Counts summary.old answers → Counts summary.new (answers ++ answers_to m (items.Batch programs.now))) }
    ensures programs { OnOk result (summary.new.programs ≡ summary.old.programs) }
{
    let ran = world.run(rt, alloc, programs, false, workers, gate)?;
    let replies = ran.replies.as_slice();
    count_programs(summary, programs, &ran.judgements, replies);
    Ok(())
}

/// Runs an item and counts what its programs answered. Nothing is written. The version that a batch makes is kept.
pub fn count_kept<R: Threads + Wait + Sync, G: Gate>(
    rt: &R,
    alloc: Global,
    world: &mut World,
    summary: &mut Summary,
    item: Item,
    workers: u32,
    gate: &G,
) -> Result<(), NoMemory>
    requires workers { (1 ≤ workers) × (workers ≤ most_workers) }
    requires world { IsWorld world.old }
    requires within { IsWithinLimits item }
    requires room { HasRoomFor summary.old most_programs }
    ensures world { OnOk result (Takes world.old item world.new) }
    ensures counts { OnOk result ((m : ModelWorld) (answers : List Answer) → Shows world.old m → Counts summary.old answers → Counts summary.new (answers ++ answers_to m item)) }
    ensures programs { OnOk result (summary.new.programs ≡ summary.old.programs) }
{
    match item {
        Item::Relation { name, kinds, keys } => {
            world.declare(name, kinds, keys)?;
            Ok(())
        }
        Item::Batch { programs } => {
            let programs = programs.as_slice();
            count_batch(rt, alloc, world, summary, programs, workers, gate)?;
            Ok(())
        }
        Item::Show { .. } => Ok(()),
    }
}
