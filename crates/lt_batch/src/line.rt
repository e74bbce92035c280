//! The run of batches as one line.
ghost use Rattle.std.specs.Prelude.{◌≡◌, ◌<◌, ◌≤◌, ◌++◌, ℕ, List, map, length, slice_index_or, [], IfOk, OnOk, OnErr};
ghost use Rattle.std.specs.Arc.{arc_value};
ghost use Rattle.std.specs.List.{AllByRecursion};
ghost use Rattle.lt_face.specs.Limits.{most_programs, most_workers};
ghost use Rattle.lt_model.specs.Fits.{IsWide, Fits, FitMarks};
ghost use Rattle.lt_model.specs.Marks.{Marks as MarksView, AreMarks};
ghost use Rattle.lt_model.specs.declared.normal.Stmt.{Stmt};
ghost use Rattle.lt_base.specs.Tables.{state_of};
ghost use Rattle.lt_circuit.specs.Line.{line_state, IsLineReplay};
ghost use Rattle.lt_circuit.specs.Row.{most_segments, sizes};
ghost use Rattle.lt_net.specs.Alone.{IsUnclaimed};
ghost use Rattle.lt_net.specs.Line.{part, size_in};
ghost use Rattle.lt_net.specs.Net.{IsSettled};
ghost use Rattle.lt_net.specs.Tree.{leaf_value};
ghost use Rattle.lt_program.specs.Run.{AreReplied};
ghost use Rattle.lt_batch.specs.Line.{programs_of, last_state, line_does, line_effects, line_marks, line_replies, line_states, states_by, HasGivenFront};
ghost use Rattle.lt_batch.specs.LineRun.{IsOverBatches};

use crate::line_gathering::{gathered_line, left_by_line};
use crate::outcome::LineOutcome;
use crate::spans::ProgList;
use crate::work::BatchWork;
use lt_base::Database;
use lt_circuit::Line;
use lt_edges::Gate;
use lt_face::memory::NoMemory;
use lt_net::front_is_final;
use lt_workers::{OnFinal, settle_line};
use std::alloc::Global;
use std::sync::{Arc, Wait};
use std::thread::Threads;

// How many programs each batch has.
fn sizes_of(alloc: Global, batches: &[ProgList]) -> Result<Vec<u32>, NoMemory>
    requires { AllByRecursion (λ (programs : List (List Stmt)). length programs ≤ most_programs) (programs_of batches.now) }
    ensures { IfOk result (λ sizes. sizes.items ≡ map length (programs_of batches.now)) }
{
    let mut sizes = Vec::with_capacity(alloc, batches.len())?;
    for batch in batches {
        sizes.push(batch.len() as u32)?;
    }
    Ok(sizes)
}

/// The line over the batches at its opening, with the work that it does.
fn opened_line<R: Threads + Wait + Sync>(
    rt: &R,
    alloc: Global,
    db: &Database,
    batches: &[ProgList],
    leaves: &[u32],
    workers: u32,
) -> Result<(Arc<BatchWork>, Line<BatchWork>), NoMemory>
    requires short { length batches.now ≤ most_segments }
    requires few { AllByRecursion (λ (programs : List (List Stmt)). length programs ≤ most_programs) (programs_of batches.now) }
    requires leaves { leaves.now ≡ map length (programs_of batches.now) }
    requires workers { (1 ≤ workers) × (workers ≤ most_workers) }
    requires fit { AllByRecursion (AllByRecursion (Fits (state_of db.now))) (programs_of batches.now) }
    ensures work { IfOk result (λ out. out.1.work ≡ arc_value out.0) }
    ensures batches { IfOk result (λ out. out.1.work.batches ≡ programs_of batches.now) }
    ensures snapshot { IfOk result (λ out. state_of out.1.work.snapshot ≡ state_of db.now) }
    ensures over { IfOk result (λ out. IsOverBatches out.1.work (sizes out.1.row)) }
    ensures free { IfOk result (λ out. IsUnclaimed (line_state out.1)) }
{
    let work = BatchWork::of_line(rt, alloc, db, batches)?;
    let work = work.begin_early(rt, alloc, workers)?;
    let work = Arc::new(alloc, work)?;
    let line = Line::start(alloc, work.clone()?, leaves)?;
    Ok((work, line))
}

/// What the batches of a settled line gave.
fn outcome_of(
    alloc: Global,
    work: &BatchWork,
    line: Line<BatchWork>,
    leaves: &[u32],
) -> Result<LineOutcome, NoMemory>
    requires over { IsOverBatches line.work (sizes line.row) }
    requires settled { IsSettled (line_state line) }
    requires work { line.work ≡ work.now }
    requires leaves { leaves.now ≡ map length line.work.batches }
    ensures replies { IfOk result (λ out. out.replies ≡ line_replies line.work.batches (state_of line.work.snapshot)) }
    ensures effects { IfOk result (λ out. out.effects ≡ line_effects line.work.batches (state_of line.work.snapshot)) }
    ensures state { IfOk result (λ out. state_of out.db ≡ last_state line.work.batches (state_of line.work.snapshot)) }
    ensures work { IfOk result (λ out. out.line.work ≡ line.work) }
    ensures sizes { IfOk result (λ out. sizes out.line.row ≡ sizes line.row) }
    ensures settled { IfOk result (λ out. IsSettled (line_state out.line)) }
    ensures leaves { IfOk result (λ out. (s i : ℕ) → i < size_in (sizes out.line.row) s →
        leaf_value (size_in (sizes out.line.row) s) (part s (line_state out.line)) i ≡ slice_index_or (slice_index_or out.effects s []) i []) }
    ensures journal { IfOk result (λ out. IsLineReplay (line_does line.work.batches (state_of line.work.snapshot)) out.line.row out.line.journal) }
    ensures fit { IfOk result (λ out. AllByRecursion (AllByRecursion (FitMarks (state_of line.work.snapshot))) out.effects) }
    ensures widths { IfOk result (λ out. (relation width : ℕ) → IsWide (state_of line.work.snapshot) relation width → IsWide (state_of out.db) relation width) }
    ensures printed { IfOk result (λ out. AllByRecursion (AllByRecursion AreReplied) out.replies) }
{
    front_is_final();
    let _entries = line.journal();
    let (replies, effects) = gathered_line(alloc, &line, leaves)?;
    let db = left_by_line(work.snapshot(), &line, leaves.len() as u32)?;
    Ok(LineOutcome {
        replies,
        effects,
        db,
        line,
    })
}

/// Runs batches one after another as one line: each program on the database corrected by what those before it write, in all
/// batches. The replies, the effects and the database left are those of the batches one after another. The line that did it
/// is settled, and its journal replays to it.
///
/// `on` is given what each batch wrote in all, in order, once no later event can change it. Laid one after another on the
/// database these are the states that the batches left. After want of memory it was given those of the first few batches.
///
/// So many workers do its jobs, each in a thread of its own. A worker passes `gate` before each of its jobs. Where the batches have
/// fewer programs than there are workers, long joins are worked on before as those of one batch.
pub fn run_line<R: Threads + Wait + Sync, G: Gate, O: OnFinal + Send>(
    rt: &R,
    alloc: Global,
    db: &Database,
    batches: &[ProgList],
    workers: u32,
    gate: &G,
    on: &mut O,
) -> Result<LineOutcome, NoMemory>
    requires short { length batches.now ≤ most_segments }
    requires few { AllByRecursion (λ (programs : List (List Stmt)). length programs ≤ most_programs) (programs_of batches.now) }
    requires workers { (1 ≤ workers) × (workers ≤ most_workers) }
    requires fit { AllByRecursion (AllByRecursion (Fits (state_of db.now))) (programs_of batches.now) }
    requires base { (marks : MarksView) → FitMarks (state_of db.now) marks → AreMarks marks → O.fits on.old marks }
    ensures replies { IfOk result (λ out. out.replies ≡ line_replies (programs_of batches.now) (state_of db.now)) }
    ensures effects { IfOk result (λ out. out.effects ≡ line_effects (programs_of batches.now) (state_of db.now)) }
    ensures state { IfOk result (λ out. state_of out.db ≡ last_state (programs_of batches.now) (state_of db.now)) }
    ensures given { OnOk result (O.given on.new ≡ O.given on.old ++ line_marks (programs_of batches.now) (state_of db.now)) }
    ensures prefix { OnErr result (HasGivenFront (O.given on.old) (O.given on.new) (line_marks (programs_of batches.now) (state_of db.now))) }
    ensures states { states_by (state_of db.now) (line_marks (programs_of batches.now) (state_of db.now)) ≡ line_states (programs_of batches.now) (state_of db.now) }
    ensures base { (marks : MarksView) → O.fits on.old marks → O.fits on.new marks }
    ensures programs { IfOk result (λ out. out.line.work.batches ≡ programs_of batches.now) }
    ensures snapshot { IfOk result (λ out. state_of out.line.work.snapshot ≡ state_of db.now) }
    ensures settled { IfOk result (λ out. IsSettled (line_state out.line)) }
    ensures sizes { IfOk result (λ out. sizes out.line.row ≡ map length (programs_of batches.now)) }
    ensures leaves { IfOk result (λ out. (s i : ℕ) → i < size_in (sizes out.line.row) s →
        leaf_value (size_in (sizes out.line.row) s) (part s (line_state out.line)) i ≡ slice_index_or (slice_index_or out.effects s []) i []) }
    ensures journal { IfOk result (λ out. IsLineReplay (line_does (programs_of batches.now) (state_of db.now)) out.line.row out.line.journal) }
    ensures fit { IfOk result (λ out. AllByRecursion (AllByRecursion (FitMarks (state_of db.now))) out.effects) }
    ensures widths { IfOk result (λ out. (relation width : ℕ) → IsWide (state_of db.now) relation width → IsWide (state_of out.db) relation width) }
    ensures printed { IfOk result (λ out. AllByRecursion (AllByRecursion AreReplied) out.replies) }
{
    db.look_over();
    front_is_final();
    let leaves = sizes_of(alloc, batches)?;
    let (work, line) = opened_line(rt, alloc, db, batches, &leaves, workers)?;
    let done = settle_line(rt, alloc, line, workers, gate, on)?;
    let _entries = done.journal();
    let outcome = outcome_of(alloc, &work, done, &leaves)?;
    Ok(outcome)
}
