//! Circuits of whose works one is refused.
use crate::agree::{holds, holds_of};
use crate::circuits::ONE_WORKER;
use crate::comparing::{are_marks, is_journal};
use crate::sample::{SERIAL, Sample};
use lt_circuit::Circuit;
use lt_edges::OpenGate;
use lt_face::NoMemory;
use lt_workers::Shared;
use std::alloc::Global;
use std::sync::{Arc, Wait};
use std::thread::Threads;

/// Whether the circuit has no claim, and a journal of these two parts.
fn has_done(circuit: &Circuit<Sample>, first: &[(u32, u32)], then: &[(u32, u32)]) -> bool {
    let journal = circuit.journal();
    let (before, behind) = journal.split_at(first.len().min(journal.len()));
    circuit.in_flight() == 0 && is_journal(before, first) && is_journal(behind, then)
}

/// One worker gives up the first leaf of two, as its work is refused, and then settles both.
const GIVEN_UP: [(u32, u32); 2] = [(0, 0), (0, 2)];

/// Whether the circuit goes so.
fn gives_up_and_goes_on(alloc: Global) -> Result<bool, NoMemory> {
    let work = Arc::new(alloc, Sample::refusing(alloc, 0))?;
    let mut circuit = Circuit::start(alloc, work, 2)?;
    let refused = circuit.settle_alone().is_err() && has_done(&circuit, &GIVEN_UP, &[]);
    circuit.settle_alone()?;
    let is_so = refused
        && has_done(&circuit, &GIVEN_UP, &ONE_WORKER)
        && are_marks(alloc, circuit.root_effect(), &SERIAL[..1]);
    drop(circuit);
    Ok(is_so)
}

#[test]
fn a_refused_work_is_done_again(rt: HostRuntime) -> Result<(), NoMemory> {
    holds(&rt, gives_up_and_goes_on(rt.alloc())?);
    Ok(())
}

/// Whether a circuit of four leaves, of whose works this one is refused, is settled at the second call.
fn settles_at_last(alloc: Global, refused: u32) -> Result<bool, NoMemory> {
    let work = Arc::new(alloc, Sample::refusing(alloc, refused))?;
    let mut circuit = Circuit::start(alloc, work, 4)?;
    let first = circuit.settle_alone();
    let is_free = circuit.in_flight() == 0 && circuit.settled() == first.is_ok();
    circuit.settle_alone()?;
    let is_so = is_free && are_marks(alloc, circuit.root_effect(), &SERIAL[..3]);
    drop(circuit);
    Ok(is_so)
}

#[test]
fn each_refused_work_is_done_again(rt: HostRuntime) -> Result<(), NoMemory> {
    for refused in 0..12u32 {
        let is_so = settles_at_last(rt.alloc(), refused)?;
        holds_of(&rt, is_so, &[refused as usize]);
    }
    Ok(())
}

/// Whether three workers at four leaves, of whose works this one is refused, leave no claim, and one settles the rest.
fn settles_after<R: Threads + Wait + Sync>(
    rt: &R,
    alloc: Global,
    refused: u32,
) -> Result<bool, NoMemory> {
    let work = Arc::new(alloc, Sample::refusing(alloc, refused))?;
    let circuit = Circuit::start(alloc, work, 4)?;
    let (shared, mut seat) = Shared::new(alloc, circuit, 3)?;
    shared.fan_out(rt, &mut seat, &OpenGate);
    let mut circuit = shared.close(seat);
    let is_free = circuit.in_flight() == 0;
    circuit.settle_alone()?;
    let is_so = is_free && are_marks(alloc, circuit.root_effect(), &SERIAL[..3]);
    drop(circuit);
    Ok(is_so)
}

#[test]
fn workers_give_up_what_is_refused(rt: HostRuntime) -> Result<(), NoMemory> {
    for refused in 0..8u32 {
        let is_so = settles_after(&rt, rt.alloc(), refused)?;
        holds_of(&rt, is_so, &[refused as usize]);
    }
    Ok(())
}
