//! Runs of programs on one database at the same time, before their turn. Where nothing that a program reads is written before its turn,
//! what it answers and writes there it does in its place, too; a run that is kept is corrected at its turn.
ghost use Rattle.std.specs.Prelude.{◌≡◌, ◌<◌, ℕ, List, [], None, true, map, length, slice_index_or, IfOk, IfSome, OnOk};
ghost use Rattle.std.specs.Arc.{arc_value};
ghost use Rattle.std.specs.List.{AllByRecursion};
ghost use Rattle.lt_face.specs.State.{State};
ghost use Rattle.lt_model.specs.declared.normal.Stmt.{Stmt};
ghost use Rattle.lt_model.specs.Fits.{Fits, FitMarks};
ghost use Rattle.lt_model.specs.Marks.{Marks as MarksView, and_then, laid};
ghost use Rattle.lt_base.specs.Tables.{state_of};
ghost use Rattle.lt_program.specs.Tally.{HasIndexes};
ghost use Rattle.lt_batch.specs.Folding.{AreAhead, AreAllInPlace, AreInPlace, IsEarly, IsInPlace, IsKeptSince, IsRanOn, IsWhole};

use crate::bearing::bear_on;
use lt_base::Database;
use lt_delta::Marks;
use lt_face::memory::NoMemory;
use lt_face::moves::Moves;
use lt_program::{Ran, Tally, run, run_in_place};
use lt_query::Planned;
use lt_restate::restate_marks;
use std::alloc::Global;
use std::sync::Arc;
use std::sync::atomic::{AtomicU64, Ordering};
use std::thread::{Threads, map_indices};

/// A program that is to be run before its turn: its place, and whether its run is kept, so that it can be corrected.
#[derive(Clone, Copy)]
pub(crate) struct Task {
    pub place: usize,
    pub keeps: bool,
}

/// What was run of a program before its turn: what it answered and wrote, or all that its run keeps.
#[derive(Drop)]
pub(crate) enum Early {
    Ran(Ran),
    Kept(Tally),
}

/// The run of the program at the place before its turn, and how many moves that took.
#[derive(Drop)]
pub(crate) struct Ahead {
    pub place: usize,
    pub early: Early,
    pub moves: u64,
}

/// The run of a program on the database, kept or not.
fn run_early<L>(
    prog: &Arc<Planned>,
    db: &Database,
    keeps: bool,
    moves: &mut Moves<L>,
) -> Result<Early, NoMemory>
    requires fits { Fits (state_of db.now) (arc_value prog.now) }
    requires indexes { HasIndexes db.now (arc_value prog.now) }
    ensures { IfOk result (IsEarly (arc_value prog.now) (state_of db.now) []) }
{
    if keeps {
        let tally = run(prog, db, moves)?;
        return Ok(Early::Kept(tally));
    }
    let mut own = db.share()?;
    let ran = run_in_place(prog, &mut own, true, moves)?;
    Ok(Early::Ran(ran))
}

/// The run of the program at the place.
fn ran_at(progs: &[Arc<Planned>], db: &Database, task: Task) -> Result<Ahead, NoMemory>
    requires below { task.place < length progs.now }
    requires fit { AllByRecursion (Fits (state_of db.now)) (map arc_value progs.now) }
    requires indexes { AllByRecursion (HasIndexes db.now) (map arc_value progs.now) }
    ensures { IfOk result (λ one. IsInPlace (map arc_value progs.now) (state_of db.now) one) }
{
    let mut moves: Moves<()> = Moves::new();
    let early = run_early(&progs[task.place], db, task.keeps, &mut moves)?;
    Ok(Ahead {
        place: task.place,
        early,
        moves: moves.ticks(),
    })
}

/// Puts the run of the program at the place behind the others, if there is one.
fn push_run(
    all: &mut Vec<Ahead>,
    progs: &[Arc<Planned>],
    db: &Database,
    task: Task,
) -> Result<(), NoMemory>
    requires fit { AllByRecursion (Fits (state_of db.now)) (map arc_value progs.now) }
    requires indexes { AllByRecursion (HasIndexes db.now) (map arc_value progs.now) }
    requires before { AllByRecursion (IsInPlace (map arc_value progs.now) (state_of db.now)) all.old.items }
    ensures { OnOk result (AllByRecursion (IsInPlace (map arc_value progs.now) (state_of db.now)) all.new.items) }
{
    if task.place >= progs.len() {
        return Ok(());
    }
    let one = ran_at(progs, db, task)?;
    all.push(one)?;
    Ok(())
}

/// The runs of those programs that are taken here: each time the next of the tasks, of which other workers take some, too.
fn take_tasks(
    alloc: Global,
    progs: &[Arc<Planned>],
    tasks: &[Task],
    db: &Database,
    next: &AtomicU64,
) -> Result<Vec<Ahead>, NoMemory>
    requires fit { AllByRecursion (Fits (state_of db.now)) (map arc_value progs.now) }
    requires indexes { AllByRecursion (HasIndexes db.now) (map arc_value progs.now) }
    ensures { AreInPlace (map arc_value progs.now) (state_of db.now) result }
{
    let mut all = Vec::new(alloc);
    for _turns in 0..tasks.len() {
        let turn = next.fetch_add(1, Ordering::SeqCst) as usize;
        if turn >= tasks.len() {
            return Ok(all);
        }
        push_run(&mut all, progs, db, tasks[turn])?;
    }
    Ok(all)
}

/// So many places without a run.
fn no_runs(alloc: Global, count: usize) -> Result<Vec<Option<Ahead>>, NoMemory>
    ensures long { IfOk result (λ all. length all.items ≡ count) }
    ensures none { IfOk result (λ all. (p : ℕ) → slice_index_or all.items p None ≡ None) }
{
    let mut all: Vec<Option<Ahead>> = Vec::with_capacity(alloc, count)?;
    for _place in 0..count {
        all.push(None)?;
    }
    Ok(all)
}

/// Puts the run at its place, if there is one.
fn put_one(all: &mut Vec<Option<Ahead>>, one: Ahead)
    ensures long { length all.new.items ≡ length all.old.items }
    ensures ahead { (programs : List (List Stmt)) (s : State) → AreAhead programs s [] 0 all.old.items → IsInPlace programs s one → AreAhead programs s [] 0 all.new.items }
{
    let place = one.place;
    if place >= all.len() {
        return;
    }
    all[place] = Some(one);
}

/// Puts the runs at their places.
fn put_all(all: &mut Vec<Option<Ahead>>, runs: Vec<Ahead>)
    ensures long { length all.new.items ≡ length all.old.items }
    ensures ahead { (programs : List (List Stmt)) (s : State) → AreAhead programs s [] 0 all.old.items → AllByRecursion (IsInPlace programs s) runs.items → AreAhead programs s [] 0 all.new.items }
{
    for one in runs {
        put_one(all, one);
    }
}

/// The runs of all lists, each at its place.
fn placed(
    alloc: Global,
    count: usize,
    lists: Vec<Result<Vec<Ahead>, NoMemory>>,
) -> Result<Vec<Option<Ahead>>, NoMemory>
    ensures long { IfOk result (λ all. length all.items ≡ count) }
    ensures ahead { (programs : List (List Stmt)) (s : State) → AreAllInPlace programs s lists.items → IfOk result (λ all. AreAhead programs s [] 0 all.items) }
{
    let mut all = no_runs(alloc, count)?;
    for list in lists {
        let runs = list?;
        put_all(&mut all, runs);
    }
    Ok(all)
}

/// Runs these programs on the database, by so many threads, where there can be these.
pub(crate) fn run_ahead<R: Threads + Sync>(
    rt: &R,
    alloc: Global,
    progs: &[Arc<Planned>],
    tasks: &[Task],
    db: &Database,
    threads: usize,
) -> Result<Vec<Option<Ahead>>, NoMemory>
    requires fit { AllByRecursion (Fits (state_of db.now)) (map arc_value progs.now) }
    requires indexes { AllByRecursion (HasIndexes db.now) (map arc_value progs.now) }
    ensures long { IfOk result (λ all. length all.items ≡ length progs.now) }
    ensures ahead { IfOk result (λ all. AreAhead (map arc_value progs.now) (state_of db.now) [] 0 all.items) }
{
    let next = AtomicU64::new(0);
    let taken = |_thread: usize| -> Result<Vec<Ahead>, NoMemory>
        requires { AllByRecursion (Fits (state_of db.now)) (map arc_value progs.now) × AllByRecursion (HasIndexes db.now) (map arc_value progs.now) }
        ensures { AreInPlace (map arc_value progs.entry.now) (state_of db.entry.now) result }
    { take_tasks(alloc, progs, tasks, db, &next) };
    let lists = map_indices(rt, alloc, threads, &taken)?;
    placed(alloc, progs.len(), lists)
}

/// What a program whose run is kept does on the database, by the marks that were written since: only those statements are evaluated
/// again that a changed row touches. It is told whether none was.
pub(crate) fn corrected(
    alloc: Global,
    _prog: &Planned,
    db: &Database,
    old: Tally,
    since: &Marks,
) -> Result<(Ran, bool), NoMemory>
    requires fits { Fits (state_of db.now) _prog.now }
    requires indexes { HasIndexes db.now _prog.now }
    requires kept { IsKeptSince _prog.now (state_of db.now) since.now old }
    ensures { IfOk result (λ out. IsRanOn _prog.now (state_of db.now) out.0) }
{
    let none = Marks::empty(alloc)?;
    let mut moves: Moves<()> = Moves::new();
    let out = restate_marks(&old, db, &none, since, &mut moves)?;
    let (new, touches) = out;
    let marks = new.marks().share()?;
    let reply = new.into_reply();
    Ok((Ran { reply, marks }, touches.len() == 0))
}

/// Whether there is no run, or one that is kept.
fn is_kept(one: &Option<Ahead>) -> bool
    ensures { result ≡ true → IfSome one.now (λ ahead. IsWhole ahead.early) }
{
    match one {
        None => true,
        Some(ahead) => match &ahead.early {
            Early::Kept(_) => true,
            Early::Ran(_) => false,
        },
    }
}

/// Lets the run go if the marks have a bearing on its program, and it isn't kept.
fn let_one_go(one: &mut Option<Ahead>, prog: &Planned, marks: &Marks)
    ensures { (s : State) (since : MarksView) → FitMarks s marks.now → IfSome one.old (λ was. IsEarly prog.now s since was.early) → IfSome one.new (λ is. IsEarly prog.now (laid s marks.now) (and_then since marks.now) is.early) }
{
    if is_kept(one) {
        return;
    }
    if !bear_on(prog.statements(), marks) {
        return;
    }
    *one = None;
}

/// Lets those runs go that the marks have a bearing on and that aren't kept, of the programs from a place on.
pub(crate) fn let_go(
    ahead: &mut Vec<Option<Ahead>>,
    progs: &[Arc<Planned>],
    from: usize,
    marks: &Marks,
)
    requires { length ahead.old.items ≡ length progs.now }
    ensures long { length ahead.new.items ≡ length ahead.old.items }
    ensures left { (s : State) (since : MarksView) → FitMarks s marks.now → AreAhead (map arc_value progs.now) s since from ahead.old.items → AreAhead (map arc_value progs.now) (laid s marks.now) (and_then since marks.now) from ahead.new.items }
{
    for place in from..ahead.len() {
        let prog = &progs[place];
        let_one_go(&mut ahead[place], prog, marks);
    }
}
