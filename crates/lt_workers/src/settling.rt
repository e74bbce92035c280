//! A circuit settled by several workers.
ghost use Rattle.std.specs.Prelude.{◌≡◌, ◌≤◌, IfOk};
ghost use Rattle.lt_face.specs.Limits.{most_workers};
ghost use Rattle.lt_net.specs.Alone.{IsUnclaimed};
ghost use Rattle.lt_circuit.specs.Circuit.{state};
ghost use Rattle.lt_net.specs.Net.{IsSettled};

use crate::beginning::{Begun, begin};
use crate::shared::Shared;
use lt_circuit::{Circuit, LeafWork};
use lt_edges::Gate;
use lt_face::NoMemory;
use std::alloc::Global;
use std::sync::Wait;
use std::thread::Threads;

// The circuit settled alone where it isn't yet.
fn settled_alone<W: LeafWork>(circuit: Circuit<W>) -> Result<Circuit<W>, NoMemory>
    requires free { IsUnclaimed (state circuit) }
    ensures work { IfOk result (λ done. done.work ≡ circuit.work) }
    ensures leaves { IfOk result (λ done. done.board.leaves ≡ circuit.board.leaves) }
    ensures settled { IfOk result (λ done. IsSettled (state done)) }
{
    if circuit.settled() {
        return Ok(circuit);
    }
    let mut circuit = circuit;
    circuit.settle_alone()?;
    Ok(circuit)
}

// Not more workers than leaves, and one at least.
pub(crate) fn needed(workers: u32, leaves: u32) -> u32
    requires { 1 ≤ workers }
    ensures some { 1 ≤ result }
    ensures few { result ≤ workers }
{
    if leaves == 0 {
        return 1;
    }
    if leaves < workers { leaves } else { workers }
}

// One worker's beginning on the circuit.
fn begun<R: Wait, W: LeafWork, G: Gate>(
    rt: &R,
    circuit: &mut Circuit<W>,
    gate: &G,
    workers: u32,
) -> Begun
    requires free { IsUnclaimed (state circuit.old) }
    ensures work { circuit.new.work ≡ circuit.old.work }
    ensures leaves { circuit.new.board.leaves ≡ circuit.old.board.leaves }
    ensures free { IsUnclaimed (state circuit.new) }
{
    begin(rt, circuit, gate, workers)
}

// The circuit after so many workers were at it at the same time, settled. What they leave one settles alone.
fn settled_by_all<R: Threads + Wait + Sync, W: LeafWork + Send + Sync, G: Gate>(
    rt: &R,
    alloc: Global,
    circuit: Circuit<W>,
    workers: u32,
    runs_ahead: bool,
    gate: &G,
) -> Result<Circuit<W>, NoMemory>
where
    W::Tally: Send + Sync,
    requires workers { (1 ≤ workers) × (workers ≤ most_workers) }
    requires free { IsUnclaimed (state circuit) }
    ensures work { IfOk result (λ done. done.work ≡ circuit.work) }
    ensures leaves { IfOk result (λ done. done.board.leaves ≡ circuit.board.leaves) }
    ensures settled { IfOk result (λ done. IsSettled (state done)) }
{
    let (mut shared, mut seat) = Shared::new(alloc, circuit, workers)?;
    shared.runs_ahead = runs_ahead;
    shared.fan_out(rt, &mut seat, gate);
    settled_alone(shared.close(seat))
}

/// The circuit settled. One worker begins alone, and the others are called, no more than there are leaves, where leaves have shown
/// to be dear; at a gate that may hold a worker until another comes all are there from the start. What they leave, where memory
/// was refused, one settles alone.
pub fn settle<R: Threads + Wait + Sync, W: LeafWork + Send + Sync, G: Gate>(
    rt: &R,
    alloc: Global,
    circuit: Circuit<W>,
    workers: u32,
    gate: &G,
) -> Result<Circuit<W>, NoMemory>
where
    W::Tally: Send + Sync,
    requires workers { (1 ≤ workers) × (workers ≤ most_workers) }
    requires free { IsUnclaimed (state circuit) }
    ensures work { IfOk result (λ done. done.work ≡ circuit.work) }
    ensures leaves { IfOk result (λ done. done.board.leaves ≡ circuit.board.leaves) }
    ensures settled { IfOk result (λ done. IsSettled (state done)) }
{
    let workers = needed(workers, circuit.leaves());
    if gate.waits() {
        return settled_by_all(rt, alloc, circuit, workers, true, gate);
    }
    let mut circuit = circuit;
    match begun(rt, &mut circuit, gate, workers) {
        Begun::All => settled_by_all(rt, alloc, circuit, workers, true, gate),
        Begun::Free => settled_by_all(rt, alloc, circuit, workers, false, gate),
        Begun::Ended => settled_alone(circuit),
        Begun::On => settled_alone(circuit),
    }
}
