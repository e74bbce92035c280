//! What the leaves of a settled circuit answered and wrote.
ghost use Rattle.std.specs.Prelude.{◌≡◌, ◌<◌, ◌≤◌, ℕ, [], ◌∷◌, length, slice_index_or, IfOk};
ghost use Rattle.std.specs.List.{AllByRecursion};
ghost use Rattle.lt_face.specs.Limits.{most_programs};
ghost use Rattle.lt_model.specs.Fits.{FitMarks};
ghost use Rattle.lt_model.specs.Marks.{laid};
ghost use Rattle.lt_base.specs.Tables.{state_of};
ghost use Rattle.lt_circuit.specs.Circuit.{state};
ghost use Rattle.lt_net.specs.Net.{IsSettled};
ghost use Rattle.lt_net.specs.Tree.{leaf_value, then_all};
ghost use Rattle.lt_program.specs.Run.{AreReplied};
ghost use Rattle.lt_batch.specs.Batch.{serial_replies, serial_effects, serial_state};
ghost use Rattle.lt_batch.specs.Work.{AreRunnable};

use crate::outcome::{Effects, Replies};
use crate::work::BatchWork;
use lt_base::Database;
use lt_circuit::Circuit;
use lt_face::items::Items;
use lt_face::memory::NoMemory;
use lt_program::copied_reply;
use std::alloc::Global;

/// The replies and the effects of all leaves.
pub(crate) fn gathered(
    alloc: Global,
    circuit: &Circuit<BatchWork>,
    leaves: u32,
) -> Result<(Replies, Effects), NoMemory>
    requires settled { IsSettled (state circuit.now) }
    requires leaves { leaves ≡ circuit.now.board.leaves }
    requires few { leaves ≤ most_programs }
    requires batch { circuit.now.work.batches ≡ circuit.now.work.programs ∷ [] }
    requires programs { circuit.now.board.leaves ≡ length circuit.now.work.programs }
    requires runnable { AreRunnable (state_of circuit.now.work.snapshot) circuit.now.work.programs }
    ensures replies { IfOk result (λ out. out.0 ≡ serial_replies circuit.now.work.programs (state_of circuit.now.work.snapshot)) }
    ensures effects { IfOk result (λ out. out.1 ≡ serial_effects circuit.now.work.programs (state_of circuit.now.work.snapshot)) }
    ensures leaves { IfOk result (λ out. (i : ℕ) → i < circuit.now.board.leaves → leaf_value circuit.now.board.leaves (state circuit.now) i ≡ slice_index_or out.1 i []) }
    ensures state { IfOk result (λ _. serial_state circuit.now.work.programs (state_of circuit.now.work.snapshot) ≡ laid (state_of circuit.now.work.snapshot) (then_all (leaf_value circuit.now.board.leaves (state circuit.now)) [] circuit.now.board.leaves)) }
    ensures whole_fits { IfOk result (λ _. FitMarks (state_of circuit.now.work.snapshot) (then_all (leaf_value circuit.now.board.leaves (state circuit.now)) [] circuit.now.board.leaves)) }
    ensures fit { IfOk result (λ out. AllByRecursion (FitMarks (state_of circuit.now.work.snapshot)) out.1) }
    ensures printed { IfOk result (λ out. AllByRecursion AreReplied out.0) }
{
    let mut replies = Items::new(alloc);
    let mut effects = Items::new(alloc);
    for leaf in 0..leaves {
        let reply = copied_reply(alloc, circuit.tally(leaf).reply())?;
        let effect = circuit.effect(leaf).share()?;
        replies.push(reply)?;
        effects.push(effect)?;
    }
    Ok((replies, effects))
}

/// The snapshot with all that the leaves of a settled circuit wrote laid on it.
pub(crate) fn left(snapshot: &Database, circuit: &Circuit<BatchWork>) -> Result<Database, NoMemory>
    requires settled { IsSettled (state circuit.now) }
    requires fits { FitMarks (state_of snapshot.now) (then_all (leaf_value circuit.now.board.leaves (state circuit.now)) [] circuit.now.board.leaves) }
    ensures { IfOk result (λ db. state_of db ≡ laid (state_of snapshot.now) (then_all (leaf_value circuit.now.board.leaves (state circuit.now)) [] circuit.now.board.leaves)) }
{
    let mut db = snapshot.share()?;
    db.lay(circuit.root_effect())?;
    Ok(db)
}
