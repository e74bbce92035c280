//! A line settled, and what its segments do handed on.
ghost use Rattle.std.specs.Prelude.{◌≡◌, ◌≤◌, ◌++◌, ℕ, List, IfOk, length};
ghost use Rattle.lt_face.specs.Limits.{most_workers};
ghost use Rattle.lt_model.specs.declared.mark.Mark.{Mark};
ghost use Rattle.lt_net.specs.Alone.{IsUnclaimed};
ghost use Rattle.lt_net.specs.Net.{IsSettled};
ghost use Rattle.lt_circuit.specs.Line.{line_state};
ghost use Rattle.lt_circuit.specs.Row.{sizes};
ghost use Rattle.lt_workers.specs.Given.{roots, Gives, GaveSome, HasGiven};

use crate::beginning::Begun;
use crate::giving::give_up_to;
use crate::line_beginning::begin_line;
use crate::on_final::OnFinal;
use crate::settling::needed;
use crate::shared::Shared;
use lt_circuit::{LeafWork, Line};
use lt_edges::Gate;
use lt_face::NoMemory;
use std::alloc::Global;
use std::sync::Wait;
use std::thread::Threads;

// The line settled alone where it isn't yet.
fn settled_alone<W: LeafWork>(line: Line<W>) -> Result<Line<W>, NoMemory>
    requires free { IsUnclaimed (line_state line) }
    ensures work { IfOk result (λ done. done.work ≡ line.work) }
    ensures sizes { IfOk result (λ done. sizes done.row ≡ sizes line.row) }
    ensures settled { IfOk result (λ done. IsSettled (line_state done)) }
    ensures given { IfOk result (λ done. (g : List (List Mark)) (k : ℕ) → Gives (sizes line.row) (line_state line) (line_state done) g g k k) }
{
    if line.settled() {
        return Ok(line);
    }
    let mut line = line;
    let _before = line.journal();
    let _segments = line.segment_count();
    line.settle_alone()?;
    let _after = line.journal();
    Ok(line)
}

// The line settled alone where it isn't yet, and what of it wasn't handed on is now.
fn finished<R: Threads + Wait + Sync, W: LeafWork, O: OnFinal>(
    rt: &R,
    line: Line<W>,
    on: &mut O,
    count: u32,
) -> Result<Line<W>, NoMemory>
    requires free { IsUnclaimed (line_state line) }
    requires base { (m : List Mark) → W.fits line.work m → O.fits on.old m }
    ensures work { IfOk result (λ done. done.work ≡ line.work) }
    ensures sizes { IfOk result (λ done. sizes done.row ≡ sizes line.row) }
    ensures settled { IfOk result (λ done. IsSettled (line_state done)) }
    ensures given { (before : List (List Mark)) → HasGiven (sizes line.row) before (O.given on.old) count (line_state line) → IfOk result (λ done. O.given on.new ≡ before ++ roots (line_state done) (length (sizes line.row))) }
    ensures some { (before : List (List Mark)) → HasGiven (sizes line.row) before (O.given on.old) count (line_state line) → GaveSome (W.does line.work) (sizes line.row) before (O.given on.new) }
    ensures base { (m : List Mark) → O.fits on.old m → O.fits on.new m }
{
    let _before = line.journal();
    let line = settled_alone(line)?;
    let _after = line.journal();
    let segments = line.segment_count();
    let mut count = count;
    give_up_to(rt, &line, on, &mut count, segments)?;
    Ok(line)
}

// The line after so many workers were at it at the same time, settled. What they leave one settles alone.
fn settled_by_all<R: Threads + Wait + Sync, W: LeafWork + Send + Sync, G: Gate, O: OnFinal + Send>(
    rt: &R,
    alloc: Global,
    line: Line<W>,
    workers: u32,
    runs_ahead: bool,
    gate: &G,
    on: &mut O,
    count: u32,
) -> Result<Line<W>, NoMemory>
where
    W::Tally: Send + Sync,
    requires workers { (1 ≤ workers) × (workers ≤ most_workers) }
    requires free { IsUnclaimed (line_state line) }
    requires base { (m : List Mark) → W.fits line.work m → O.fits on.old m }
    ensures work { IfOk result (λ done. done.work ≡ line.work) }
    ensures sizes { IfOk result (λ done. sizes done.row ≡ sizes line.row) }
    ensures settled { IfOk result (λ done. IsSettled (line_state done)) }
    ensures given { (before : List (List Mark)) → HasGiven (sizes line.row) before (O.given on.old) count (line_state line) → IfOk result (λ done. O.given on.new ≡ before ++ roots (line_state done) (length (sizes line.row))) }
    ensures some { (before : List (List Mark)) → HasGiven (sizes line.row) before (O.given on.old) count (line_state line) → GaveSome (W.does line.work) (sizes line.row) before (O.given on.new) }
    ensures base { (m : List Mark) → O.fits on.old m → O.fits on.new m }
{
    let _before = line.journal();
    let _segments = line.segment_count();
    let (mut shared, mut seat) = Shared::new(alloc, line, workers)?;
    shared.runs_ahead = runs_ahead;
    let mut count = count;
    shared.fan_line_from(rt, &mut seat, gate, on, &mut count);
    let line = shared.close(seat);
    finished(rt, line, on, count)
}

// The line settled after its beginning, by those who are called.
fn settled_after<R: Threads + Wait + Sync, W: LeafWork + Send + Sync, G: Gate, O: OnFinal + Send>(
    rt: &R,
    alloc: Global,
    line: Line<W>,
    workers: u32,
    begun: Begun,
    gate: &G,
    on: &mut O,
    count: u32,
) -> Result<Line<W>, NoMemory>
where
    W::Tally: Send + Sync,
    requires workers { (1 ≤ workers) × (workers ≤ most_workers) }
    requires free { IsUnclaimed (line_state line) }
    requires base { (m : List Mark) → W.fits line.work m → O.fits on.old m }
    ensures work { IfOk result (λ done. done.work ≡ line.work) }
    ensures sizes { IfOk result (λ done. sizes done.row ≡ sizes line.row) }
    ensures settled { IfOk result (λ done. IsSettled (line_state done)) }
    ensures given { (before : List (List Mark)) → HasGiven (sizes line.row) before (O.given on.old) count (line_state line) → IfOk result (λ done. O.given on.new ≡ before ++ roots (line_state done) (length (sizes line.row))) }
    ensures some { (before : List (List Mark)) → HasGiven (sizes line.row) before (O.given on.old) count (line_state line) → GaveSome (W.does line.work) (sizes line.row) before (O.given on.new) }
    ensures base { (m : List Mark) → O.fits on.old m → O.fits on.new m }
{
    match begun {
        Begun::All => settled_by_all(rt, alloc, line, workers, true, gate, on, count),
        Begun::Free => settled_by_all(rt, alloc, line, workers, false, gate, on, count),
        Begun::Ended => finished(rt, line, on, count),
        Begun::On => finished(rt, line, on, count),
    }
}

/// The line settled, and the effect of each segment handed to `on`, in order, each once. One worker begins alone, and the others
/// are called as for a circuit. The first worker hands on what is final between its jobs, while the others run, and the rest once
/// all have ended. After want of memory the effects of some first segments were handed on.
pub fn settle_line<R: Threads + Wait + Sync, W: LeafWork + Send + Sync, G: Gate, O: OnFinal + Send>(
    rt: &R,
    alloc: Global,
    line: Line<W>,
    workers: u32,
    gate: &G,
    on: &mut O,
) -> Result<Line<W>, NoMemory>
where
    W::Tally: Send + Sync,
    requires workers { (1 ≤ workers) × (workers ≤ most_workers) }
    requires free { IsUnclaimed (line_state line) }
    requires base { (m : List Mark) → W.fits line.work m → O.fits on.old m }
    ensures work { IfOk result (λ done. done.work ≡ line.work) }
    ensures sizes { IfOk result (λ done. sizes done.row ≡ sizes line.row) }
    ensures settled { IfOk result (λ done. IsSettled (line_state done)) }
    ensures given { IfOk result (λ done. O.given on.new ≡ O.given on.old ++ roots (line_state done) (length (sizes line.row))) }
    ensures some { GaveSome (W.does line.work) (sizes line.row) (O.given on.old) (O.given on.new) }
    ensures base { (m : List Mark) → O.fits on.old m → O.fits on.new m }
{
    let workers = needed(workers, line.leaves());
    let mut line = line;
    let mut count = 0;
    let begun = begin_line(rt, &mut line, gate, workers, on, &mut count);
    settled_after(rt, alloc, line, workers, begun, gate, on, count)
}
