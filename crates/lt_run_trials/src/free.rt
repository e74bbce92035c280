//! Pairs of programs of which the second reads, or doesn't, what the first writes.
ghost use Rattle.std.specs.Prelude.{◌≡◌, [], length, map};
ghost use Rattle.std.specs.Arc.{arc_value};
ghost use Rattle.std.specs.List.{AllByRecursion};
ghost use Rattle.lt_model.specs.Marks.{Marks as MarksView};
ghost use Rattle.lt_base.specs.Tables.{state_of};
ghost use Rattle.lt_batch.specs.LeafRun.{StandsFor};
ghost use Rattle.lt_batch.specs.Work.{FitsBatch, IsLeaf};
ghost use Rattle.lt_run_trials.specs.Fitting.{AreBoth, FitsBoth};

use crate::agree::holds_at;
use crate::texts::{Pairs, programs_over, stocked};
use lt_base::Database;
use lt_batch::{BatchWork, LeafTally};
use lt_circuit::LeafWork;
use lt_delta::Marks;
use lt_face::memory::NoMemory;
use lt_face::moves::Moves;
use lt_query::Planned;
use std::alloc::Global;
use std::sync::Arc;
use std::thread::Threads;

/// Whether this run of the second program is taken as it is behind this effect: then no move is made.
fn is_taken(work: &BatchWork, second: &LeafTally, effect: &Marks) -> Result<bool, NoMemory>
    requires leaf { IsLeaf work.now 1 }
    requires effect { FitsBatch work.now effect.now }
    requires second { (c : MarksView) × FitsBatch work.now c × StandsFor work.now second.now 1 c }
{
    let mut moves: Moves<()> = Moves::new();
    let again = work.work(1, Some(second), effect, &mut moves)?;
    drop(again);
    Ok(moves.ticks() == 0)
}

/// Whether the second program's run on the snapshot is taken behind this run of the first.
fn is_taken_behind(work: &BatchWork, none: &Marks, first: &LeafTally) -> Result<bool, NoMemory>
    requires leaves { IsLeaf work.now 0 × IsLeaf work.now 1 }
    requires none { FitsBatch work.now none.now }
    requires first { StandsFor work.now first.now 0 none.now }
{
    let mut moves: Moves<()> = Moves::new();
    let second = work.work(1, None, none, &mut moves)?;
    let is_so = is_taken(work, &second, work.effect(first));
    drop(second);
    is_so
}

/// Whether the second program can begin on the snapshot for good; and whether its run there is taken behind the first.
fn goes_free(work: &BatchWork, none: &Marks) -> Result<(bool, bool), NoMemory>
    requires leaves { IsLeaf work.now 0 × IsLeaf work.now 1 }
    requires none { FitsBatch work.now none.now }
{
    let mut moves: Moves<()> = Moves::new();
    let first = work.work(0, None, none, &mut moves)?;
    let taken = is_taken_behind(work, none, &first);
    drop(first);
    Ok((work.is_free(1), taken?))
}

/// Both of two programs on a database without other marks.
#[tactic(auto, using(crate::proofs::Fitting::all_fit))]
fn found_on<R: Threads + Sync>(
    rt: &R,
    alloc: Global,
    db: &Database,
    none: &Marks,
    progs: &[Arc<Planned>],
) -> Result<(bool, bool), NoMemory>
    requires both { AreBoth (state_of db.now) }
    requires none { none.now ≡ [] }
    requires two { length progs.now ≡ 2 }
    requires fit { AllByRecursion FitsBoth (map arc_value progs.now) }
{
    let work = BatchWork::new(rt, alloc, db, progs)?;
    let found = goes_free(&work, none);
    drop(work);
    found
}

/// Both of these two, where e is declared so.
fn is_free<R: Threads + Sync>(
    rt: &R,
    alloc: Global,
    pairs: Pairs,
    first: &str,
    second: &str,
) -> Result<(bool, bool), NoMemory> {
    let none = Marks::empty(alloc)?;
    let progs = programs_over(alloc, pairs, &[first, second], 2)?;
    let db = stocked(rt, alloc, "insert r(1); insert e(1, 2);")?;
    let found = found_on(rt, alloc, &db, &none, &progs);
    drop(db);
    found
}

/// A plain insert reads nothing, and one that displaces rows reads its own relation.
#[test]
fn what_reads_nothing_that_was_written_is_free(rt: HostRuntime) -> Result<(), NoMemory> {
    for (row, pairs, first, second, want) in [
        (
            "of another relation",
            Pairs::Plain,
            "insert r(5);",
            "insert r(y) where e(x, y);",
            true,
        ),
        (
            "of what was written",
            Pairs::Plain,
            "insert r(5);",
            "print (x) where r(x);",
            false,
        ),
        (
            "two inserts",
            Pairs::Plain,
            "insert e(1, 5);",
            "insert e(1, 6);",
            true,
        ),
        (
            "two inserts with keys",
            Pairs::Keyed,
            "insert e(1, 5);",
            "insert e(1, 6);",
            false,
        ),
    ] {
        let found = is_free(&rt, rt.alloc(), pairs, first, second)?;
        holds_at(&rt, found == (want, want), row);
    }
    Ok(())
}
