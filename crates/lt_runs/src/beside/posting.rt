//! Batches that are run, and the versions that are posted of them.
ghost use Rattle.std.specs.Prelude.{◌≡◌, ◌≤◌, ◌<◌, ◌+◌, ◌++◌, ℕ, List, length, Some, slice_get, OnOk};
ghost use Rattle.std.specs.List.{AllByRecursion};
ghost use Rattle.lt_face.specs.Limits.{most_programs, most_workers};
ghost use Rattle.lt_model.specs.declared.syntax.Item.TheVariants as items;
ghost use Rattle.lt_model.specs.Limits.{IsProgramWithin, IsWithinLimits};
ghost use Rattle.lt_model.specs.Report.{World as ModelWorld};
ghost use Rattle.lt_gen.specs.Answered.{Answer, answers_to};
ghost use Rattle.lt_gen.specs.Counted.{Counts};
ghost use Rattle.lt_readers.specs.Boards.{posted, poster_board};
ghost use Rattle.lt_readers.specs.declared.version.Version.{Version as VersionType};
ghost use Rattle.lt_runs.specs.Coming.{IsBatch};
ghost use Rattle.lt_runs.specs.Counting.{HasRoomFor};
ghost use Rattle.lt_runs.specs.Posting.{HasPosted, IsToPost};
ghost use Rattle.lt_runs.specs.Reading.{IsPosted};
ghost use Rattle.lt_world.specs.World.{IsWorld, Shows, Takes};

use crate::come::{Come, count_batch};
use lt_edges::Gate;
use lt_face::NoMemory;
use lt_model::syntax::{Item, Program};
use lt_readers::Poster;
use std::alloc::Global;
use std::mem::replace;
use std::sync::Wait;
use std::thread::Threads;

// Runs a batch, counts what its programs answered, and posts the version that it made.
fn post_batch<R: Threads + Wait + Sync, G: Gate>(
    rt: &R,
    alloc: Global,
    come: &mut Come,
    programs: &[Program],
    workers: u32,
    gate: &G,
    poster: &mut Poster,
) -> Result<(), NoMemory>
    requires workers { (1 ≤ workers) × (workers ≤ most_workers) }
    requires world { IsWorld come.old.world }
    requires within { AllByRecursion IsProgramWithin programs.now }
    requires few { length programs.now ≤ most_programs }
    requires room { HasRoomFor come.old.summary most_programs }
    requires posted { (most : ℕ) × IsPosted most come.old.world.versions (posted poster.old) × (length (posted poster.old) < most) }
    ensures world { OnOk result (Takes come.old.world (items.Batch programs.now) come.new.world) }
    ensures counts { OnOk result ((m : ModelWorld) (answers : List Answer) → Shows come.old.world m → Counts come.old.summary answers → Counts come.new.summary (answers ++ answers_to m (items.Batch programs.now))) }
    ensures programs { OnOk result (come.new.summary.programs ≡ come.old.summary.programs) }
    ensures posted { OnOk result ((most : ℕ) → IsPosted most come.old.world.versions (posted poster.old) → IsPosted most come.new.world.versions (posted poster.new)) }
    ensures first { OnOk result ((v : VersionType) → slice_get (posted poster.old) 0 ≡ Some v → slice_get (posted poster.new) 0 ≡ Some v) }
    ensures longer { OnOk result (length (posted poster.new) ≡ length (posted poster.old) + 1) }
    ensures board { poster_board poster.new ≡ poster_board poster.old }
{
    count_batch(
        rt,
        alloc,
        &mut come.world,
        &mut come.summary,
        programs,
        workers,
        gate,
    )?;
    let _number = poster.post(rt, &come.world.database)?;
    Ok(())
}

// Runs an item that is a batch, and posts its version.
fn post_one<R: Threads + Wait + Sync, G: Gate>(
    rt: &R,
    alloc: Global,
    come: &mut Come,
    batch: Item,
    workers: u32,
    gate: &G,
    poster: &mut Poster,
) -> Result<(), NoMemory>
    requires workers { (1 ≤ workers) × (workers ≤ most_workers) }
    requires world { IsWorld come.old.world }
    requires within { IsWithinLimits batch }
    requires batch { IsBatch batch }
    requires room { HasRoomFor come.old.summary most_programs }
    requires posted { (most : ℕ) × IsPosted most come.old.world.versions (posted poster.old) × (length (posted poster.old) < most) }
    ensures world { OnOk result (Takes come.old.world batch come.new.world) }
    ensures counts { OnOk result ((m : ModelWorld) (answers : List Answer) → Shows come.old.world m → Counts come.old.summary answers → Counts come.new.summary (answers ++ answers_to m batch)) }
    ensures programs { OnOk result (come.new.summary.programs ≡ come.old.summary.programs) }
    ensures posted { OnOk result ((most : ℕ) → IsPosted most come.old.world.versions (posted poster.old) → IsPosted most come.new.world.versions (posted poster.new)) }
    ensures first { OnOk result ((v : VersionType) → slice_get (posted poster.old) 0 ≡ Some v → slice_get (posted poster.new) 0 ≡ Some v) }
    ensures longer { OnOk result (length (posted poster.new) ≡ length (posted poster.old) + 1) }
    ensures board { poster_board poster.new ≡ poster_board poster.old }
{
    match batch {
        Item::Batch { programs } => {
            let programs = programs.as_slice();
            post_batch(rt, alloc, come, programs, workers, gate, poster)?;
            Ok(())
        }
        Item::Relation { .. } => Ok(()),
        Item::Show { .. } => Ok(()),
    }
}

// Runs the batches, and posts each version.
fn post_each<R: Threads + Wait + Sync, G: Gate>(
    rt: &R,
    alloc: Global,
    come: &mut Come,
    batches: Vec<Item>,
    workers: u32,
    gate: &G,
    poster: &mut Poster,
) -> Result<(), NoMemory>
    requires { IsToPost come.old batches.items workers (posted poster.old) }
    ensures posted { OnOk result (HasPosted come.old batches.items (posted poster.old) (posted poster.new) come.new) }
    ensures board { poster_board poster.new ≡ poster_board poster.old }
{
    for batch in batches {
        post_one(rt, alloc, come, batch, workers, gate, poster)?;
    }
    Ok(())
}

/// Takes the batches, runs them, and posts each version.
pub fn post_all<R: Threads + Wait + Sync, G: Gate>(
    rt: &R,
    alloc: Global,
    workers: u32,
    gate: &G,
    batches: &mut Vec<Item>,
    come: &mut Come,
    poster: &mut Poster,
) -> Result<(), NoMemory>
    requires { IsToPost come.old batches.old.items workers (posted poster.old) }
    ensures posted { OnOk result (HasPosted come.old batches.old.items (posted poster.old) (posted poster.new) come.new) }
    ensures board { poster_board poster.new ≡ poster_board poster.old }
{
    let batches = replace(batches, Vec::new(alloc));
    post_each(rt, alloc, come, batches, workers, gate, poster)?;
    Ok(())
}
