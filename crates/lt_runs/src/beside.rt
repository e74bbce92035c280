//! Readers that ask beside the batches of a bench.
ghost use Rattle.std.specs.Prelude.{◌≡◌, ◌≤◌, ◌+◌, ◌*◌, ◌++◌, List, length, Some, slice_get, IfOk, OnOk};
ghost use Rattle.std.specs.Arc.{arc_value};
ghost use Rattle.std.specs.List.{AllByRecursion};
ghost use denote.Param.Send.{IsSync};
ghost use Rattle.lt_face.specs.Limits.{most_workers};
ghost use Rattle.lt_face.specs.State.{State};
ghost use Rattle.lt_model.specs.declared.syntax.Item.{Item as ItemType};
ghost use Rattle.lt_model.specs.Fits.{Fits};
ghost use Rattle.lt_model.specs.Limits.{IsWithinLimits};
ghost use Rattle.lt_check.specs.States.{IsStateOf};
ghost use Rattle.lt_gen.specs.Script.{bench_items, bench_schema};
ghost use Rattle.lt_query.specs.Planned.{HaveWidths};
ghost use Rattle.lt_readers.specs.Boards.{posted, poster_board, reader_board, seen};
ghost use Rattle.lt_readers.specs.declared.reader.Reader.{Reader as ReaderType};
ghost use Rattle.lt_readers.specs.declared.version.Version.{Version as VersionType};
ghost use Rattle.lt_runs.specs.Asking.{WereAsked};
ghost use Rattle.lt_runs.specs.Coming.{HasCome, HasRun};
ghost use Rattle.lt_runs.specs.Posting.{HasPosted, IsToPost};
ghost use Rattle.lt_runs.specs.Reading.{IsReady};
ghost use Rattle.lt_world.specs.World.{Shows};

use crate::come::{Come, count_kept};
use crate::generated::Generated;
use lt_check::check::{CheckFault, check};
use lt_edges::Gate;
use lt_face::NoMemory;
use lt_gen::{Summary, stock_query};
use lt_model::normal::Prog;
use lt_model::syntax::Item;
use lt_query::Planned;
use lt_readers::{Board, Poster, Reader};
use lt_world::world::World;
use std::alloc::Global;
use std::sync::{Arc, Wait};
use std::thread::{Threads, join_mut};

mod asking;
mod comparing;
mod posting;

pub use asking::{Asker, queries};
pub use comparing::compare;
pub use posting::post_all;

/// Items before the first version that is posted: the two relations, and the batch that loads.
const OPENING: usize = 3;

// Runs the items before the first version that is posted, and keeps that.
fn opened<R: Threads + Wait + Sync, G: Gate>(
    rt: &R,
    alloc: Global,
    first: Vec<Item>,
    programs: u32,
    workers: u32,
    gate: &G,
) -> Result<Come, NoMemory>
    requires within { AllByRecursion IsWithinLimits first.items }
    requires few { length first.items ≤ 1027 }
    requires workers { (1 ≤ workers) × (workers ≤ most_workers) }
    ensures run { IfOk result (λ come. HasRun Shows first.items come.world come.summary) }
    ensures programs { IfOk result (λ come. come.summary.programs ≡ programs) }
{
    let mut world = World::new(alloc)?;
    let mut summary = Summary::new(u64::from(programs));
    for item in first {
        count_kept(rt, alloc, &mut world, &mut summary, item, workers, gate)?;
    }
    Ok(Come { world, summary })
}

// The program, with the routes of its plans.
fn planned(alloc: Global, prog: Prog) -> Result<Arc<Planned>, NoMemory>
    requires widths { HaveWidths prog }
    ensures { IfOk result (λ planned. arc_value planned ≡ prog) }
{
    let prog = Arc::new(alloc, prog)?;
    let planned = Planned::new(alloc, &prog)?;
    let shared = Arc::new(alloc, planned)?;
    Ok(shared)
}

// What readers ask, as a program of the session's relations.
fn asked(alloc: Global, world: &World) -> Result<Arc<Planned>, NoMemory>
    requires { world.now.schema ≡ bench_schema }
    ensures { IfOk result (λ asked. (state : State) → IsStateOf bench_schema state → Fits state (arc_value asked)) }
{
    let program = stock_query(alloc)?;
    match check(alloc, &program, world.schema.schema()) {
        Ok(prog) => {
            let asked = planned(alloc, prog)?;
            Ok(asked)
        }
        Err(CheckFault::NoMemory) => Err(NoMemory),
        Err(CheckFault::Bad { .. }) => unreachable!(),
    }
}

// The batches, and beside them the queries.
fn both<R: Threads + Wait + Sync, G: Gate>(
    rt: &R,
    alloc: Global,
    workers: u32,
    asked: &Arc<Planned>,
    gate: &G,
    readers: &mut Vec<Reader>,
    batches: &mut Vec<Item>,
    come: &mut Come,
    poster: &mut Poster,
) -> (
    Result<Vec<Result<Asker, NoMemory>>, NoMemory>,
    Result<(), NoMemory>,
)
    requires post { IsToPost come.old batches.old.items workers (posted poster.old) }
    requires few { length readers.old.items ≤ 8 }
    requires ready { AllByRecursion (λ (r : ReaderType). IsReady (arc_value asked.now) (seen r)) readers.old.items }
    ensures asked { IfOk result.0 (λ all. WereAsked (arc_value asked.now) readers.old.items all.items) }
    ensures posted { OnOk result.1 (HasPosted come.old batches.old.items (posted poster.old) (posted poster.new) come.new) }
    ensures board { poster_board poster.new ≡ poster_board poster.old }
{
    let mut ask = || -> Result<Vec<Result<Asker, NoMemory>>, NoMemory>
        requires { IsSync R.row × (length readers.now.items ≤ 8) × AllByRecursion (λ (r : ReaderType). IsReady (arc_value asked.now) (seen r)) readers.now.items }
        ensures { IfOk result (λ all. WereAsked (arc_value asked.entry.now) readers.entry.now.items all.items) }
    { queries(rt, alloc, asked, gate, readers) };
    let mut post = || -> Result<(), NoMemory>
        requires { IsSync R.row × IsToPost come.now batches.now.items workers (posted poster.now) }
        ensures { OnOk result (HasPosted come.entry.now batches.entry.now.items (posted poster.entry.now) (posted poster.exit.now) come.exit.now) × (poster_board poster.exit.now ≡ poster_board poster.entry.now) }
    { post_all(rt, alloc, workers, gate, batches, come, poster) };
    join_mut(rt, &mut ask, &mut post)
}

// Runs the batches and the queries beside each other: what came of them, how many queries there were, and how many of their replies
// are those on the versions that they name.
fn read_beside<R: Threads + Wait + Sync, G: Gate>(
    rt: &R,
    alloc: Global,
    workers: u32,
    asked: &Arc<Planned>,
    gate: &G,
    readers: Vec<Reader>,
    batches: Vec<Item>,
    come: Come,
    poster: &mut Poster,
) -> Result<(Come, u64, u64), NoMemory>
    requires post { IsToPost come batches.items workers (posted poster.old) }
    requires most { (first : VersionType) → slice_get (posted poster.old) 0 ≡ Some first → first.most ≡ 1 + length batches.items }
    requires one { length (posted poster.old) ≡ 1 }
    requires few { length readers.items ≤ 8 }
    requires seen { AllByRecursion (λ (r : ReaderType). (seen r ≡ posted poster.old) × (reader_board r ≡ poster_board poster.old)) readers.items }
    requires fits { IsReady (arc_value asked.now) (posted poster.old) }
    ensures come { (front : List ItemType) → HasRun Shows front come.world come.summary → IfOk result (λ out. HasRun Shows (front ++ batches.items) out.0.world out.0.summary) }
    ensures programs { IfOk result (λ out. out.0.summary.programs ≡ come.summary.programs) }
    ensures reads { IfOk result (λ out. out.1 ≡ 16 * length readers.items) }
    ensures equal { IfOk result (λ out. out.2 ≡ 16 * length readers.items) }
{
    let mut readers = readers;
    let mut batches = batches;
    let mut come = come;
    let (queried, ran) = both(
        rt,
        alloc,
        workers,
        asked,
        gate,
        &mut readers,
        &mut batches,
        &mut come,
        poster,
    );
    let _ran = ran?;
    let all = queried?;
    let read = compare(rt, poster, &come.world.versions, all, asked)?;
    Ok((come, read.0, read.1))
}

/// Runs the items of the generated script, the readers beside the batches that buy: what came of them, how many queries the readers
/// made, and how many of their replies are those on the versions that they name.
pub fn run_beside<R: Threads + Wait + Sync, G: Gate>(
    rt: &R,
    alloc: Global,
    script: Vec<Item>,
    generated: Generated,
    workers: u32,
    gate: &G,
) -> Result<(Come, u64, u64), NoMemory>
    requires script { script.items ≡ bench_items generated.seed generated.items generated.programs }
    requires within { AllByRecursion IsWithinLimits script.items }
    requires few { length script.items ≤ 1027 }
    requires readers { (1 ≤ generated.readers) × (generated.readers ≤ 8) }
    requires workers { (1 ≤ workers) × (workers ≤ most_workers) }
    ensures come { IfOk result (λ out. HasCome script.items out.0) }
    ensures programs { IfOk result (λ out. out.0.summary.programs ≡ generated.programs) }
    ensures reads { IfOk result (λ out. out.1 ≡ 16 * generated.readers) }
    ensures equal { IfOk result (λ out. out.2 ≡ 16 * generated.readers) }
{
    let mut first = script;
    let batches = first.split_off(OPENING)?;
    let come = opened(rt, alloc, first, generated.programs, workers, gate)?;
    let asked = asked(alloc, &come.world)?;
    let most = batches.len() as u64 + 1;
    let board = Board::start(rt, alloc, 1, most, &come.world.database, generated.readers)?;
    let (mut poster, readers) = board;
    let read = read_beside(
        rt,
        alloc,
        workers,
        &asked,
        gate,
        readers,
        batches,
        come,
        &mut poster,
    );
    poster.close(rt);
    read
}
