//! Lines that workers settle, and what is handed on of them.
ghost use Rattle.std.specs.Prelude.{◌≤◌, ⊤};

use crate::agree::{holds, holds_of};
use crate::comparing::are_marks;
use crate::sample::Sample;
use lt_circuit::Line;
use lt_delta::Marks;
use lt_edges::{Gate, MeetGate, OpenGate};
use lt_face::NoMemory;
use lt_workers::{OnFinal, settle_line};
use std::alloc::Global;
use std::sync::{Arc, Wait};
use std::thread::Threads;

/// How many turns a worker waits for another at most.
const TURNS: u64 = 1_000_000;

/// Keeps what it is handed. The segment of this number is refused once.
#[derive(Drop)]
struct Kept {
    effects: Vec<Marks>,
    segments: Vec<u32>,
    refused: u32,
}

/// Nothing was handed on yet.
fn nothing_kept(alloc: Global, refused: u32) -> Kept {
    Kept {
        effects: Vec::new(alloc),
        segments: Vec::new(alloc),
        refused,
    }
}

impl OnFinal for Kept {
    ghost fits = { λ kept marks. ⊤ };

    ghost given = { λ kept. kept.effects.items };

    fn on_final<R: Threads + Wait + Sync>(
        &mut self,
        _rt: &R,
        segment: u32,
        effect: &Marks,
    ) -> Result<(), NoMemory> {
        if segment == self.refused {
            self.refused = u32::MAX;
            return Err(NoMemory);
        }
        let effect = effect.share()?;
        self.segments.push(segment)?;
        self.effects.push(effect)?;
        Ok(())
    }
}

/// Whether the effects of three segments of two leaves, one and one were kept, in order, each once.
fn are_kept(alloc: Global, kept: &Kept) -> bool {
    kept.segments.as_slice() == [0, 1, 2].as_slice()
        && kept.effects.len() == 3
        && are_marks(alloc, &kept.effects[0], &[(1, true)])
        && are_marks(alloc, &kept.effects[1], &[(256, true)])
        && are_marks(alloc, &kept.effects[2], &[(512, false)])
}

/// Whether three segments that so many workers settle past this gate are handed on, of which one is refused once.
fn hands_on<R: Threads + Wait + Sync, G: Gate>(
    rt: &R,
    alloc: Global,
    workers: u32,
    gate: &G,
    refused: u32,
) -> Result<bool, NoMemory>
    requires { (1 ≤ workers) × (workers ≤ 16) }
{
    let mut kept = nothing_kept(alloc, refused);
    let work = Arc::new(alloc, Sample::new(alloc))?;
    let line = Line::start(alloc, work, &[2, 1, 1])?;
    let line = settle_line(rt, alloc, line, workers, gate, &mut kept)?;
    let is_so = line.settled() && are_kept(alloc, &kept);
    drop(line);
    drop(kept);
    Ok(is_so)
}

/// Also where the second segment is refused at first.
#[test]
fn what_is_final_is_handed_on_in_order(rt: HostRuntime) -> Result<(), NoMemory> {
    for refused in [9u32, 1] {
        for workers in [1u32, 2, 3] {
            let is_so = hands_on(&rt, rt.alloc(), workers, &OpenGate, refused)?;
            holds_of(&rt, is_so, &[refused as usize, workers as usize]);
        }
    }
    Ok(())
}

/// Whether two workers meet at leaves of two segments: no order on one thread passes both gates.
fn segments_meet<R: Threads + Wait + Sync>(
    rt: &R,
    alloc: Global,
    held: u32,
    awaited: u32,
) -> Result<bool, NoMemory> {
    let gate = MeetGate::new(held, awaited, TURNS);
    let is_so = hands_on(rt, alloc, 2, &gate, 9)? && gate.met();
    drop(gate);
    Ok(is_so)
}

#[test]
fn two_segments_meet_at_a_gate(rt: HostRuntime) -> Result<(), NoMemory> {
    holds(&rt, segments_meet(&rt, rt.alloc(), 0, 2048)?);
    holds(&rt, segments_meet(&rt, rt.alloc(), 2048, 0)?);
    Ok(())
}
