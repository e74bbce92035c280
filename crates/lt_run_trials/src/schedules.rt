//! Orders of events over the leaves of the sample, by tables and at random: claims that are given up, dirtied and overtaken.
ghost use Rattle.std.specs.Prelude.{◌≤◌};

use crate::agree::{holds_at, holds_of};
use crate::comparing::are_marks;
use crate::floor::Floor;
use crate::sample::{SERIAL, Sample};
use lt_face::NoMemory;
use rand_core::Rng;
use rand_pcg::Pcg32;
use std::alloc::Global;

/// Whether the leaves, once both workers have given up what they hold and one of them has settled the circuit, did what they do one
/// after another.
fn ends_serial(alloc: Global, floor: Floor<Sample>, leaves: usize) -> Result<bool, NoMemory> {
    let mut circuit = floor.clear();
    circuit.settle_alone()?;
    let is_so = 0 < leaves
        && leaves <= 4
        && are_marks(alloc, circuit.root_effect(), &SERIAL[..leaves - 1]);
    drop(circuit);
    Ok(is_so)
}

/// Whether so many of these events can be done over four leaves, and these end so.
fn settles_from(alloc: Global, events: &[(u32, u32)], could: usize) -> Result<bool, NoMemory> {
    let mut floor = Floor::start(alloc, Sample::new(alloc), 4)?;
    let done = floor.follow(events);
    let is_serial = ends_serial(alloc, floor, 4)?;
    Ok(done == could && is_serial)
}

/// Events by their workers and codes, and how many of them can be done.
const TABLE: [(&str, &[(u32, u32)], usize); 3] = [
    (
        "a merge on what stood before is given up",
        &[(0, 0), (1, 9), (0, 1), (0, 12), (1, 10), (0, 14)],
        6,
    ),
    (
        "a leaf's correction changes while it runs; it is given up and taken again",
        &[
            (0, 0),
            (1, 9),
            (0, 1),
            (0, 15),
            (0, 16),
            (1, 11),
            (1, 9),
            (0, 27),
        ],
        8,
    ),
    (
        "what another holds, what isn't Pending and what names no job isn't given",
        &[
            (1, 27),
            (0, 27),
            (1, 28),
            (1, 27),
            (1, 3),
            (1, 3000),
            (0, 18),
            (0, 19),
            (0, 39),
            (0, 40),
            (1, 0),
            (1, 1),
        ],
        8,
    ),
];

#[test]
fn what_is_given_up_is_settled(rt: HostRuntime) -> Result<(), NoMemory> {
    for (row, events, could) in TABLE {
        holds_at(&rt, settles_from(rt.alloc(), events, could)?, row);
    }
    Ok(())
}

/// So many events of two workers at random. Some of the codes name no job. It tells how many could be done.
fn play(floor: &mut Floor<Sample>, random: &mut Pcg32, draws: u32) -> usize {
    let mut done: usize = 0;
    for _ in 0..draws {
        let event = (random.next_u32() % 2, random.next_u32() % 48);
        done = done.saturating_add(floor.follow(&[event]));
    }
    done
}

/// Whether so many leaves end so after events at random, each of which has its entry.
fn settles(alloc: Global, random: &mut Pcg32, leaves: u32, draws: u32) -> Result<bool, NoMemory>
    requires { leaves ≤ 4 }
{
    let mut floor = Floor::start(alloc, Sample::new(alloc), leaves)?;
    let done = play(&mut floor, random, draws);
    let is_written = floor.circuit().journal().len() == done;
    let is_serial = ends_serial(alloc, floor, leaves as usize)?;
    Ok(is_written && is_serial)
}

#[test]
fn any_events_settle_to_the_serial_marks(rt: HostRuntime) -> Result<(), NoMemory> {
    let mut random = Pcg32::new(1, 1);
    for list in 0..10_000u32 {
        let is_so = settles(rt.alloc(), &mut random, 2 + list % 3, list % 25)?;
        holds_of(&rt, is_so, &[list as usize]);
    }
    Ok(())
}
