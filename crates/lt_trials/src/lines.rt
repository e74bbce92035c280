//! Lines of segments, by hand: how far the front is behind each event, and one worker that settles a line.
ghost use Rattle.std.specs.Prelude.{◌≡◌, ◌≢◌, ◌≤◌, ◌<◌, ℕ, None, IfOk, length};
ghost use Rattle.lt_net.specs.Alone.{IsUnclaimed};
ghost use Rattle.lt_net.specs.Line.{AreSizes};
ghost use Rattle.lt_circuit.specs.Line.{line_state};
ghost use Rattle.lt_circuit.specs.Row.{sizes};
ghost use Rattle.lt_trials.specs.LineHands.{IsInHand};

use crate::agree::holds;
use crate::parity::Parity;
use lt_circuit::{Job, Line, LineEntry, This};
use lt_face::{Moves, NoMemory};
use std::alloc::Global;
use std::sync::Arc;

/// The opening over so many leaves in each segment.
fn opening(alloc: Global, leaves: &[u32]) -> Result<Line<Parity>, NoMemory>
    requires few { AreSizes leaves.now }
    requires short { length leaves.now ≤ 8 }
    ensures sizes { IfOk result (λ line. sizes line.row ≡ leaves.now) }
    ensures free { IfOk result (λ line. IsUnclaimed (line_state line)) }
{
    let work = Arc::new(alloc, Parity { alloc })?;
    let line = Line::start(alloc, work, leaves)?;
    Ok(line)
}

/// The end of the worker's claim, if it has one. It tells whether what it held was done.
fn end(line: &mut Line<Parity>, hand: &mut Option<Job<Parity>>, worker: u32) -> bool
    requires worker { worker < 16 }
    requires hand { IsInHand line.old worker hand.old }
    ensures hand { IsInHand line.new worker hand.new }
    ensures empty { hand.new ≡ None }
    ensures work { line.new.work ≡ line.old.work }
    ensures sizes { sizes line.new.row ≡ sizes line.old.row }
    ensures others { (v : ℕ) → v ≢ worker → (line_state line.new).claim v ≡ (line_state line.old).claim v }
{
    match hand.take() {
        None => false,
        Some(job) => {
            let mut moves: Moves<()> = Moves::new();
            match job.work(&mut moves) {
                Ok(output) => {
                    line.finish(worker, output);
                    true
                }
                Err(job) => {
                    line.abandon(worker, job);
                    false
                }
            }
        }
    }
}

/// A claim of this job. It tells whether the job was given.
fn begin(line: &mut Line<Parity>, hand: &mut Option<Job<Parity>>, worker: u32, code: u32) -> bool
    requires worker { worker < 16 }
    requires hand { IsInHand line.old worker hand.old }
    ensures hand { IsInHand line.new worker hand.new }
    ensures work { line.new.work ≡ line.old.work }
    ensures sizes { sizes line.new.row ≡ sizes line.old.row }
    ensures others { (v : ℕ) → v ≢ worker → (line_state line.new).claim v ≡ (line_state line.old).claim v }
{
    if hand.is_some() {
        return false;
    }
    match line.claim_this(worker, code) {
        This::Job(job) => {
            *hand = Some(job);
            true
        }
        This::NotPending => false,
        This::NoMemory => false,
    }
}

/// Worker 0 takes the job of this code and ends it. It tells whether it could.
fn run(line: &mut Line<Parity>, code: u32) -> bool
    requires free { IsUnclaimed (line_state line.old) }
    ensures free { IsUnclaimed (line_state line.new) }
{
    let mut hand = None;
    let began = begin(line, &mut hand, 0, code);
    let ended = end(line, &mut hand, 0);
    drop(hand);
    began && ended
}

/// The code of an entry of a line that has few segments.
fn small_code(entry: LineEntry) -> Option<u32> {
    if entry.job < 20_000 {
        Some(entry.code())
    } else {
        None
    }
}

/// Whether these are the codes of the entries, all of worker 0.
fn is_journal(journal: &[LineEntry], codes: &[u32]) -> bool {
    if journal.len() != codes.len() {
        return false;
    }
    for (i, entry) in journal.iter().enumerate() {
        if entry.worker != 0 || small_code(*entry) != Some(codes[i]) {
            return false;
        }
    }
    true
}

/// Whether, of two segments of a leaf each, the second's leaf, the first's, the Pass and the second's again move the front to 0, 1,
/// 1 and 2.
fn passes(alloc: Global) -> Result<bool, NoMemory> {
    let mut line = opening(alloc, &[1, 1])?;
    let mut fronts = true;
    for (code, front) in [(2048, 0), (0, 1), (2047, 1), (2048, 2)] {
        let ran = run(&mut line, code);
        fronts = fronts && ran && line.front() == front;
    }
    let codes = [6144, 6145, 0, 1, 6141, 6142, 6144, 6145];
    let is_so = fronts && line.settled() && is_journal(line.journal(), &codes);
    drop(line);
    Ok(is_so)
}

#[test]
fn a_pass_moves_the_front(rt: HostRuntime) -> Result<(), NoMemory> {
    holds(&rt, passes(rt.alloc())?);
    Ok(())
}

/// Whether one worker settles segments of two leaves, none and one.
fn settles_alone(alloc: Global) -> Result<bool, NoMemory> {
    let mut line = opening(alloc, &[2, 0, 1])?;
    line.settle_alone()?;
    let is_over = line.settled() && line.front() == 3;
    drop(line);
    Ok(is_over)
}

#[test]
fn one_worker_settles_a_line(rt: HostRuntime) -> Result<(), NoMemory> {
    holds(&rt, settles_alone(rt.alloc())?);
    Ok(())
}
