//! Circuits by hand, event by event: of each the worker, and three times the job's code, with 1 more where the job was done.
use crate::agree::holds;
use crate::comparing::{are_marks, is_journal};
use crate::floor::Floor;
use crate::sample::{SERIAL, Sample};
use lt_circuit::Circuit;
use lt_face::NoMemory;
use lt_face::key::Key;
use std::alloc::Global;
use std::sync::Arc;

/// The events of one worker over two leaves.
pub(crate) const ONE_WORKER: [(u32, u32); 10] = [
    (0, 0),
    (0, 1),
    (0, 3),
    (0, 4),
    (0, 6),
    (0, 7),
    (0, 9),
    (0, 10),
    (0, 3),
    (0, 4),
];

/// Those of two: leaf 1 finishes while the merge runs on what stood before.
const TWO_WORKERS: [(u32, u32); 12] = [
    (0, 0),
    (1, 9),
    (0, 1),
    (0, 3),
    (1, 10),
    (0, 4),
    (1, 6),
    (1, 7),
    (0, 3),
    (0, 4),
    (1, 9),
    (1, 10),
];

/// Whether the circuit's journal is this, its effect this, and it is settled or isn't.
fn stands(
    alloc: Global,
    circuit: &Circuit<Sample>,
    events: &[(u32, u32)],
    rows: &[(Key, bool)],
    settled: bool,
) -> bool {
    is_journal(circuit.journal(), events)
        && are_marks(alloc, circuit.root_effect(), rows)
        && circuit.settled() == settled
}

/// Whether one worker settles two leaves by these events.
fn one_settles_two(alloc: Global) -> Result<bool, NoMemory> {
    let work = Arc::new(alloc, Sample::new(alloc))?;
    let mut circuit = Circuit::start(alloc, work, 2)?;
    circuit.settle_alone()?;
    let is_so = stands(alloc, &circuit, &ONE_WORKER, &SERIAL[..1], true);
    drop(circuit);
    Ok(is_so)
}

#[test]
fn one_worker_settles_two_programs(rt: HostRuntime) -> Result<(), NoMemory> {
    holds(&rt, one_settles_two(rt.alloc())?);
    Ok(())
}

/// Whether the one leaf is given to the first worker, and what the second is told before and after its finish.
fn leaf_goes_round(floor: &mut Floor<Sample>) -> bool {
    let leaf = floor.begins_leaf(0);
    let busy = floor.is_told(1);
    let done = floor.follow(&[(0, 1)]);
    let settled = floor.is_told(0);
    leaf && busy && done == 1 && settled
}

/// Whether the one leaf of a circuit goes so.
fn one_leaf_goes_round(alloc: Global) -> Result<bool, NoMemory> {
    let mut floor = Floor::start(alloc, Sample::new(alloc), 1)?;
    let is_so = leaf_goes_round(&mut floor);
    drop(floor);
    Ok(is_so)
}

#[test]
fn one_leaf_is_claimed_and_finished(rt: HostRuntime) -> Result<(), NoMemory> {
    holds(&rt, one_leaf_goes_round(rt.alloc())?);
    Ok(())
}

/// Whether the circuit of two leaves stands so behind these events.
fn stands_after(
    alloc: Global,
    events: &[(u32, u32)],
    rows: &[(Key, bool)],
    settled: bool,
) -> Result<bool, NoMemory> {
    let mut floor = Floor::start(alloc, Sample::new(alloc), 2)?;
    floor.follow(events);
    let is_so = stands(alloc, floor.circuit(), events, rows, settled);
    drop(floor);
    Ok(is_so)
}

/// The merge on what stood before is dirtied, and then each overtakes the other.
#[test]
fn two_workers_overtake_each_other(rt: HostRuntime) -> Result<(), NoMemory> {
    let alloc = rt.alloc();
    holds(
        &rt,
        stands_after(alloc, &TWO_WORKERS[..6], &[(1, false)], false)?,
    );
    holds(&rt, stands_after(alloc, &TWO_WORKERS, &[(1, true)], true)?);
    Ok(())
}
