//! Runs of programs on the snapshot that all workers make together, before a circuit or a line starts.
ghost use Rattle.std.specs.Prelude.{◌≡◌, ◌≤◌, [], None, map, IfOk, IfSome};
ghost use Rattle.std.specs.Arc.{arc_value};
ghost use Rattle.std.specs.List.{AllByRecursion};
ghost use Rattle.std.specs.Option.{option_map};
ghost use Rattle.lt_face.specs.Limits.{most_workers};
ghost use Rattle.lt_model.specs.Fits.{Fits};
ghost use Rattle.lt_base.specs.Tables.{state_of};
ghost use Rattle.lt_program.specs.Tally.{HasIndexes};
ghost use Rattle.lt_batch.specs.Early.{AreEarly, early_of};
ghost use Rattle.lt_batch.specs.LeafRun.{IsRunOn};
ghost use Rattle.lt_batch.specs.Priors.{helper};
ghost use Rattle.lt_batch.specs.Work.{AreRunnable};

use crate::leaf::LeafTally;
use crate::ties::Ties;
use lt_base::Database;
use lt_delta::Marks;
use lt_face::memory::NoMemory;
use lt_face::moves::Moves;
use lt_program::{has_long_join, run_split};
use lt_query::Planned;
use std::alloc::Global;
use std::sync::{Arc, Wait};
use std::thread::Threads;

/// The run of a program on the snapshot, by so many parts, where it is free and one of its joins is long.
fn early_run<R: Threads + Wait + Sync>(
    rt: &R,
    prog: &Arc<Planned>,
    snapshot: &Database,
    parts: u32,
    is_free: bool,
) -> Result<Option<LeafTally>, NoMemory>
    requires fits { Fits (state_of snapshot.now) (arc_value prog.now) }
    requires indexes { HasIndexes snapshot.now (arc_value prog.now) }
    requires parts { (1 ≤ parts) × (parts ≤ most_workers) }
    ensures { IfOk result (λ run. IfSome run (IsRunOn (arc_value prog.now) (state_of snapshot.now) [])) }
{
    if !is_free || !has_long_join(prog, snapshot) {
        return Ok(None);
    }
    let mut moves: Moves<()> = Moves::new();
    let run = run_split(rt, prog, snapshot, parts, &mut moves)?;
    let on = Marks::empty(prog.allocator())?;
    Ok(Some(LeafTally { run, on }))
}

/// Whether no program before the one at the place has a bearing on it. No clause speaks of it.
fn is_free_at(ties: &[Ties], place: usize) -> bool {
    place < ties.len() && ties[place].is_free()
}

/// The early run of each program with a long join that none before it has a bearing on: it will be asked for as it is. Where there
/// are as many programs as workers, none is made.
pub(crate) fn all_early<R: Threads + Wait + Sync>(
    rt: &R,
    alloc: Global,
    snapshot: &Database,
    progs: &[Arc<Planned>],
    ties: &[Ties],
    workers: u32,
) -> Result<Vec<Option<LeafTally>>, NoMemory>
    requires runnable { AreRunnable (state_of snapshot.now) (map arc_value progs.now) }
    requires indexed { AllByRecursion (HasIndexes snapshot.now) (map arc_value progs.now) }
    requires workers { (1 ≤ workers) × (workers ≤ most_workers) }
    ensures { IfOk result (λ early. AreEarly (state_of snapshot.now) (map arc_value progs.now) early.items) }
{
    let mut all = Vec::new(alloc);
    if progs.len() >= workers as usize {
        return Ok(all);
    }
    for prog in progs {
        let is_free = is_free_at(ties, all.len());
        let tally = early_run(rt, prog, snapshot, workers, is_free)?;
        all.push(tally)?;
    }
    Ok(all)
}

/// The early run at the place, if there is one.
fn early_in(early: &Vec<Option<LeafTally>>, place: usize) -> Option<&LeafTally>
    ensures { option_map (λ run. run.now) result ≡ early_of early.now.items place }
{
    if place >= early.len() {
        return None;
    }
    early[place].as_ref()
}

/// The tally that the leaf at the place restates: its prior, and without one its early run, if there is one.
pub(crate) fn helper_in<'a>(
    early: &'a Vec<Option<LeafTally>>,
    prior: Option<&'a LeafTally>,
    place: usize,
) -> Option<&'a LeafTally>
    ensures { option_map (λ old. old.now) result ≡ helper (early_of early.now.items place) (option_map (λ old. old.now) prior.entry) }
{
    match prior {
        None => early_in(early, place),
        Some(old) => Some(old),
    }
}
