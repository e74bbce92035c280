//! The run of a batch.
ghost use Rattle.std.specs.Prelude.{◌≡◌, ◌<◌, ◌≤◌, ℕ, map, length, slice_index_or, [], ◌∷◌, IfOk};
ghost use Rattle.std.specs.Arc.{arc_value};
ghost use Rattle.std.specs.List.{AllByRecursion};
ghost use Rattle.lt_face.specs.Limits.{most_programs, most_workers};
ghost use Rattle.lt_model.specs.Fits.{IsWide, Fits, FitMarks};
ghost use Rattle.lt_base.specs.Tables.{state_of};
ghost use Rattle.lt_circuit.specs.Circuit.{state, AreOfWorkers, IsReplay};
ghost use Rattle.lt_net.specs.Net.{IsSettled};
ghost use Rattle.lt_net.specs.Tree.{leaf_value};
ghost use Rattle.lt_program.specs.Run.{AreReplied};
ghost use Rattle.lt_batch.specs.Work.{AreRunnable};
ghost use Rattle.lt_batch.specs.Batch.{serial_replies, serial_effects, serial_state, does_at};

use crate::gathering::{gathered, left};
use crate::outcome::Outcome;
use crate::work::BatchWork;
use lt_base::Database;
use lt_circuit::Circuit;
use lt_edges::Gate;
use lt_face::memory::NoMemory;
use lt_query::Planned;
use lt_workers::settle;
use std::alloc::Global;
use std::sync::{Arc, Wait};
use std::thread::Threads;

/// The circuit over the programs, settled, with the work that it does.
fn settled<R: Threads + Wait + Sync, G: Gate>(
    rt: &R,
    alloc: Global,
    db: &Database,
    progs: &[Arc<Planned>],
    workers: u32,
    gate: &G,
) -> Result<(Arc<BatchWork>, Circuit<BatchWork>), NoMemory>
    requires few { length progs.now ≤ most_programs }
    requires workers { (1 ≤ workers) × (workers ≤ most_workers) }
    requires fit { AllByRecursion (Fits (state_of db.now)) (map arc_value progs.now) }
    ensures work { IfOk result (λ out. out.1.work ≡ arc_value out.0) }
    ensures programs { IfOk result (λ out. out.1.work.programs ≡ map arc_value progs.now) }
    ensures batches { IfOk result (λ out. out.1.work.batches ≡ map arc_value progs.now ∷ []) }
    ensures snapshot { IfOk result (λ out. state_of out.1.work.snapshot ≡ state_of db.now) }
    ensures runnable { IfOk result (λ out. AreRunnable (state_of out.1.work.snapshot) out.1.work.programs) }
    ensures settled { IfOk result (λ out. IsSettled (state out.1)) }
    ensures leaves { IfOk result (λ out. out.1.board.leaves ≡ length progs.now) }
    ensures journal { IfOk result (λ out. IsReplay (does_at (map arc_value progs.now) (state_of db.now)) out.1.board out.1.journal) }
    ensures workers { IfOk result (λ out. AreOfWorkers out.1.journal) }
{
    let work = BatchWork::new(rt, alloc, db, progs)?;
    let work = work.begin_early(rt, alloc, workers)?;
    let work = Arc::new(alloc, work)?;
    let leaves = progs.len() as u32;
    let circuit = Circuit::start(alloc, work.clone()?, leaves)?;
    let circuit = settle(rt, alloc, circuit, workers, gate)?;
    let _entries = circuit.journal();
    Ok((work, circuit))
}

/// Runs the programs of a batch, each on the database corrected by what those before it write. The replies, the effects
/// and the database left are those of the programs one after another. The circuit that did it is settled, and its
/// journal replays to it.
///
/// So many workers do its jobs, each in a thread of its own. A worker passes `gate` before each of its jobs. Where there are fewer
/// programs than workers, the long joins of a program that none before it has a bearing on are first worked on by all of them
/// together, on the database as it is.
pub fn run_batch<R: Threads + Wait + Sync, G: Gate>(
    rt: &R,
    alloc: Global,
    db: &Database,
    progs: &[Arc<Planned>],
    workers: u32,
    gate: &G,
) -> Result<Outcome, NoMemory>
    requires few { length progs.now ≤ most_programs }
    requires workers { (1 ≤ workers) × (workers ≤ most_workers) }
    requires fit { AllByRecursion (Fits (state_of db.now)) (map arc_value progs.now) }
    ensures replies { IfOk result (λ out. out.replies ≡ serial_replies (map arc_value progs.now) (state_of db.now)) }
    ensures effects { IfOk result (λ out. out.effects ≡ serial_effects (map arc_value progs.now) (state_of db.now)) }
    ensures state { IfOk result (λ out. state_of out.db ≡ serial_state (map arc_value progs.now) (state_of db.now)) }
    ensures programs { IfOk result (λ out. out.circuit.work.programs ≡ map arc_value progs.now) }
    ensures batches { IfOk result (λ out. out.circuit.work.batches ≡ map arc_value progs.now ∷ []) }
    ensures snapshot { IfOk result (λ out. state_of out.circuit.work.snapshot ≡ state_of db.now) }
    ensures settled { IfOk result (λ out. IsSettled (state out.circuit)) }
    ensures leaves { IfOk result (λ out. out.circuit.board.leaves ≡ length progs.now) }
    ensures circuit { IfOk result (λ out. (i : ℕ) → i < length progs.now → leaf_value out.circuit.board.leaves (state out.circuit) i ≡ slice_index_or out.effects i []) }
    ensures journal { IfOk result (λ out. IsReplay (does_at (map arc_value progs.now) (state_of db.now)) out.circuit.board out.circuit.journal) }
    ensures workers { IfOk result (λ out. AreOfWorkers out.circuit.journal) }
    ensures fit { IfOk result (λ out. AllByRecursion (FitMarks (state_of db.now)) out.effects) }
    ensures widths { IfOk result (λ out. (relation width : ℕ) → IsWide (state_of db.now) relation width → IsWide (state_of out.db) relation width) }
    ensures printed { IfOk result (λ out. AllByRecursion AreReplied out.replies) }
{
    let (work, circuit) = settled(rt, alloc, db, progs, workers, gate)?;
    let (replies, effects) = gathered(alloc, &circuit, progs.len() as u32)?;
    let db = left(work.snapshot(), &circuit)?;
    Ok(Outcome {
        replies,
        effects,
        db,
        circuit,
    })
}
