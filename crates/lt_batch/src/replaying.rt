//! The replay of a journal that was written down.
ghost use Rattle.std.specs.Prelude.{◌≡◌, ◌<◌, ◌≤◌, ℕ, List, [], ◌∷◌, map, length, slice_index_or, IfOk, IfErr};
ghost use Rattle.std.specs.Arc.{arc_value};
ghost use Rattle.std.specs.List.{AllByRecursion};
ghost use Rattle.lt_face.specs.Limits.{most_programs};
ghost use Rattle.lt_model.specs.Fits.{IsWide, Fits, FitMarks};
ghost use Rattle.lt_base.specs.Tables.{state_of};
ghost use Rattle.lt_circuit.specs.Circuit.{state, AreOfWorkers, IsReplay};
ghost use Rattle.lt_circuit.specs.Shape.{shape, shape_net};
ghost use Rattle.lt_net.specs.Net.{Net, State, IsSettled, opening};
ghost use Rattle.lt_net.specs.Tree.{leaf_value};
ghost use Rattle.lt_program.specs.Run.{AreReplied};
ghost use Rattle.lt_batch.specs.Batch.{serial_replies, serial_effects, serial_state, does_at};
ghost use Rattle.lt_batch.specs.Work.{AreRunnable, batch_does};
ghost use Rattle.lt_batch.specs.Replaying.{IsFault, LeadTo, batch_net, written_of};
ghost use Rattle.lt_batch.specs.declared.replaying.Written.{Written as WrittenView};
ghost use Rattle.lt_batch.specs.declared.replaying.ReplayFault.TheVariants.{Entry as EntryFault};

use crate::entries::follow;
use crate::gathering::{gathered, left};
use crate::outcome::Outcome;
use crate::work::BatchWork;
use lt_base::Database;
use lt_circuit::{Circuit, LeafWork};
use lt_face::items::Items;
use lt_face::memory::NoMemory;
use lt_query::Planned;
use std::alloc::Global;
use std::sync::Arc;
use std::thread::Threads;

/// An entry of a journal as it is written down: its worker, and its code, which is three times the job's, plus 1 for a finish and 2
/// for an abandon.
#[derive(Clone, Copy, Debug, PartialEq, Eq)]
pub struct Written {
    pub worker: u32,
    pub code: u32,
}

/// The entries of a journal in their order.
pub type Journal = Items<Written>;

/// Why entries aren't the journal of a settled circuit: entry `e`, from 1, is the first that isn't legal; or all are legal, the
/// circuit isn't settled, and `e` is one more than there are.
#[derive(Clone, Copy, Debug, PartialEq, Eq)]
pub enum ReplayFault {
    Entry { e: u64 },
    NoMemory,
}

impl From<NoMemory> for ReplayFault {
    ghost use Rattle.lt_batch.specs.declared.replaying.ReplayFault.TheVariants as faults;
    ghost use Rattle.std.specs.Prelude.{◌≡◌};

    ghost from_gives = { λ _ fault. fault ≡ faults.NoMemory };

    fn from(_: NoMemory) -> ReplayFault {
        ReplayFault::NoMemory
    }
}

/// The circuit's journal as it is written down.
pub fn write_down<W: LeafWork>(alloc: Global, circuit: &Circuit<W>) -> Result<Journal, NoMemory>
    requires { circuit.now.board.leaves ≤ most_programs }
    ensures { IfOk result (λ entries. entries ≡ map written_of circuit.now.journal) }
{
    let mut entries = Items::new(alloc);
    let journal = circuit.journal();
    for i in 0..journal.len() {
        let entry = journal[i];
        let written = Written {
            worker: entry.worker,
            code: entry.code(),
        };
        entries.push(written)?;
    }
    Ok(entries)
}

/// Entries that lead to a settled state have no fault.
pub fn settled_entries_are_faultless()
    ensures { (net : Net) (entries : List WrittenView) (s : State) → LeadTo net entries s → IsSettled s → (e : ℕ) → IsFault net entries e → ⊥ }
{}

/// A new circuit over the programs, with the work that it does.
fn opened<R: Threads + Sync>(
    rt: &R,
    alloc: Global,
    db: &Database,
    progs: &[Arc<Planned>],
) -> Result<(Arc<BatchWork>, Circuit<BatchWork>), NoMemory>
    requires few { length progs.now ≤ most_programs }
    requires fit { AllByRecursion (Fits (state_of db.now)) (map arc_value progs.now) }
    ensures work { IfOk result (λ out. out.1.work ≡ arc_value out.0) }
    ensures programs { IfOk result (λ out. out.1.work.programs ≡ map arc_value progs.now) }
    ensures batches { IfOk result (λ out. out.1.work.batches ≡ map arc_value progs.now ∷ []) }
    ensures snapshot { IfOk result (λ out. state_of out.1.work.snapshot ≡ state_of db.now) }
    ensures runnable { IfOk result (λ out. AreRunnable (state_of out.1.work.snapshot) out.1.work.programs) }
    ensures leaves { IfOk result (λ out. out.1.board.leaves ≡ length progs.now) }
    ensures opening { IfOk result (λ out. state out.1 ≡ opening (shape_net (shape batch_does out.1))) }
    ensures journal { IfOk result (λ out. out.1.journal ≡ []) }
{
    let work = BatchWork::new(rt, alloc, db, progs)?;
    let work = Arc::new(alloc, work)?;
    let circuit = Circuit::start(alloc, work.clone()?, progs.len() as u32)?;
    Ok((work, circuit))
}

/// A circuit over the programs that the entries settle, with the work that it does.
fn followed<R: Threads + Sync>(
    rt: &R,
    alloc: Global,
    db: &Database,
    progs: &[Arc<Planned>],
    entries: &[Written],
) -> Result<(Arc<BatchWork>, Circuit<BatchWork>), ReplayFault>
    requires few { length progs.now ≤ most_programs }
    requires fit { AllByRecursion (Fits (state_of db.now)) (map arc_value progs.now) }
    ensures work { IfOk result (λ out. out.1.work ≡ arc_value out.0) }
    ensures programs { IfOk result (λ out. out.1.work.programs ≡ map arc_value progs.now) }
    ensures batches { IfOk result (λ out. out.1.work.batches ≡ map arc_value progs.now ∷ []) }
    ensures snapshot { IfOk result (λ out. state_of out.1.work.snapshot ≡ state_of db.now) }
    ensures runnable { IfOk result (λ out. AreRunnable (state_of out.1.work.snapshot) out.1.work.programs) }
    ensures settled { IfOk result (λ out. IsSettled (state out.1)) }
    ensures leaves { IfOk result (λ out. out.1.board.leaves ≡ length progs.now) }
    ensures journal { IfOk result (λ out. IsReplay (does_at (map arc_value progs.now) (state_of db.now)) out.1.board out.1.journal) }
    ensures workers { IfOk result (λ out. AreOfWorkers out.1.journal) }
    ensures entries { IfOk result (λ out. map written_of out.1.journal ≡ entries.now) }
    ensures faultless { IfOk result (λ _. (e : ℕ) → IsFault (batch_net (map arc_value progs.now) (state_of db.now)) entries.now e → ⊥) }
    ensures fault { IfErr result (λ fault. (e : ℕ) → fault ≡ EntryFault e → IsFault (batch_net (map arc_value progs.now) (state_of db.now)) entries.now e) }
{
    let opened = opened(rt, alloc, db, progs)?;
    let (work, mut circuit) = opened;
    follow(alloc, &mut circuit, entries)?;
    let _entries = circuit.journal();
    Ok((work, circuit))
}

/// What a batch gives by a journal that was written down: each entry is done on a new circuit over the programs. The replies, the
/// effects and the database left are those of the programs one after another. The circuit is settled, and the entries are its
/// journal. A fault comes where no circuit has such a journal, and only there.
pub fn replay_batch<R: Threads + Sync>(
    rt: &R,
    alloc: Global,
    db: &Database,
    progs: &[Arc<Planned>],
    entries: &[Written],
) -> Result<Outcome, ReplayFault>
    requires few { length progs.now ≤ most_programs }
    requires fit { AllByRecursion (Fits (state_of db.now)) (map arc_value progs.now) }
    ensures replies { IfOk result (λ out. out.replies ≡ serial_replies (map arc_value progs.now) (state_of db.now)) }
    ensures effects { IfOk result (λ out. out.effects ≡ serial_effects (map arc_value progs.now) (state_of db.now)) }
    ensures state { IfOk result (λ out. state_of out.db ≡ serial_state (map arc_value progs.now) (state_of db.now)) }
    ensures programs { IfOk result (λ out. out.circuit.work.programs ≡ map arc_value progs.now) }
    ensures batches { IfOk result (λ out. out.circuit.work.batches ≡ map arc_value progs.now ∷ []) }
    ensures snapshot { IfOk result (λ out. state_of out.circuit.work.snapshot ≡ state_of db.now) }
    ensures settled { IfOk result (λ out. IsSettled (state out.circuit)) }
    ensures leaves { IfOk result (λ out. out.circuit.board.leaves ≡ length progs.now) }
    ensures circuit { IfOk result (λ out. (i : ℕ) → i < length progs.now → leaf_value out.circuit.board.leaves (state out.circuit) i ≡ slice_index_or out.effects i []) }
    ensures journal { IfOk result (λ out. IsReplay (does_at (map arc_value progs.now) (state_of db.now)) out.circuit.board out.circuit.journal) }
    ensures workers { IfOk result (λ out. AreOfWorkers out.circuit.journal) }
    ensures entries { IfOk result (λ out. map written_of out.circuit.journal ≡ entries.now) }
    ensures fit { IfOk result (λ out. AllByRecursion (FitMarks (state_of db.now)) out.effects) }
    ensures widths { IfOk result (λ out. (relation width : ℕ) → IsWide (state_of db.now) relation width → IsWide (state_of out.db) relation width) }
    ensures printed { IfOk result (λ out. AllByRecursion AreReplied out.replies) }
    ensures faultless { IfOk result (λ _. (e : ℕ) → IsFault (batch_net (map arc_value progs.now) (state_of db.now)) entries.now e → ⊥) }
    ensures fault { IfErr result (λ fault. (e : ℕ) → fault ≡ EntryFault e → IsFault (batch_net (map arc_value progs.now) (state_of db.now)) entries.now e) }
{
    let (work, circuit) = followed(rt, alloc, db, progs, entries)?;
    let (replies, effects) = gathered(alloc, &circuit, progs.len() as u32)?;
    let db = left(work.snapshot(), &circuit)?;
    Ok(Outcome {
        replies,
        effects,
        db,
        circuit,
    })
}
