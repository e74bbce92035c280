//! Two workers at a circuit, driven by the codes of a journal.
ghost use Rattle.std.specs.Prelude.{◌≡◌, ◌≢◌, ◌<◌, ◌≤◌, ℕ, None, IfOk};
ghost use Rattle.lt_net.specs.Alone.{IsUnclaimed};
ghost use Rattle.lt_circuit.specs.Circuit.{CircuitView, state};
ghost use Rattle.lt_circuit.specs.Hands.{AreInHand, IsInHand};

use lt_circuit::{Circuit, Claim, Job, JobName, LeafWork, This};
use lt_face::{Moves, NoMemory};
use std::alloc::Global;
use std::marker::Model;
use std::sync::Arc;

/// A circuit, and what its two workers hold.
#[derive(Drop)]
pub struct Floor<W: LeafWork> {
    circuit: Circuit<W>,
    first: Option<Job<W>>,
    second: Option<Job<W>>,
}

impl<W: LeafWork> Model for Floor<W> {
    ghost Value = { CircuitView W W.Tally };

    ghost view = { λ f. f.circuit };

    ghost invariant = { λ f. AreInHand f.circuit f.first f.second };
}

/// A claim of this job. It tells whether the job was given.
fn begin<W: LeafWork>(
    circuit: &mut Circuit<W>,
    hand: &mut Option<Job<W>>,
    worker: u32,
    code: u32,
) -> bool
    requires worker { worker < 16 }
    requires hand { IsInHand circuit.old worker hand.old }
    ensures hand { IsInHand circuit.new worker hand.new }
    ensures leaves { circuit.new.board.leaves ≡ circuit.old.board.leaves }
    ensures work { circuit.new.work ≡ circuit.old.work }
    ensures others { (v : ℕ) → v ≢ worker → (state circuit.new).claim v ≡ (state circuit.old).claim v }
{
    if hand.is_some() {
        return false;
    }
    match circuit.claim_this(worker, code) {
        This::Job(job) => {
            *hand = Some(job);
            true
        }
        This::NotPending => false,
        This::NoMemory => false,
    }
}

/// The end of the worker's claim, by a finish or by an abandon. It tells whether there was one.
fn end<W: LeafWork>(
    circuit: &mut Circuit<W>,
    hand: &mut Option<Job<W>>,
    worker: u32,
    finishes: bool,
) -> bool
    requires worker { worker < 16 }
    requires hand { IsInHand circuit.old worker hand.old }
    ensures hand { IsInHand circuit.new worker hand.new }
    ensures empty { hand.new ≡ None }
    ensures leaves { circuit.new.board.leaves ≡ circuit.old.board.leaves }
    ensures work { circuit.new.work ≡ circuit.old.work }
    ensures others { (v : ℕ) → v ≢ worker → (state circuit.new).claim v ≡ (state circuit.old).claim v }
{
    match hand.take() {
        None => false,
        Some(job) => {
            if !finishes {
                circuit.abandon(worker, job);
                return true;
            }
            let mut moves: Moves<()> = Moves::new();
            match job.work(&mut moves) {
                Ok(output) => {
                    circuit.finish(worker, output);
                    true
                }
                Err(job) => {
                    circuit.abandon(worker, job);
                    false
                }
            }
        }
    }
}

/// The event of this code: a claim of the job, or an end of what the worker holds. It tells whether it could be done.
fn act<W: LeafWork>(
    circuit: &mut Circuit<W>,
    hand: &mut Option<Job<W>>,
    worker: u32,
    code: u32,
) -> bool
    requires worker { worker < 16 }
    requires hand { IsInHand circuit.old worker hand.old }
    ensures hand { IsInHand circuit.new worker hand.new }
    ensures leaves { circuit.new.board.leaves ≡ circuit.old.board.leaves }
    ensures work { circuit.new.work ≡ circuit.old.work }
    ensures others { (v : ℕ) → v ≢ worker → (state circuit.new).claim v ≡ (state circuit.old).claim v }
{
    match code % 3 {
        0 => begin(circuit, hand, worker, code / 3),
        1 => end(circuit, hand, worker, true),
        _ => end(circuit, hand, worker, false),
    }
}

/// What a worker is told that asks for any job: which one it was given, or how many claims stand.
#[derive(Drop)]
enum Told {
    Job(JobName),
    Claims(u32),
    Nothing,
}

/// A claim of any job.
fn any<W: LeafWork>(circuit: &mut Circuit<W>, hand: &mut Option<Job<W>>, worker: u32) -> Told
    requires worker { worker < 16 }
    requires hand { IsInHand circuit.old worker hand.old }
    ensures hand { IsInHand circuit.new worker hand.new }
    ensures leaves { circuit.new.board.leaves ≡ circuit.old.board.leaves }
    ensures work { circuit.new.work ≡ circuit.old.work }
    ensures others { (v : ℕ) → v ≢ worker → (state circuit.new).claim v ≡ (state circuit.old).claim v }
{
    if hand.is_some() {
        return Told::Nothing;
    }
    match circuit.claim(worker) {
        Claim::Job(job) => {
            let name = job.name();
            *hand = Some(job);
            Told::Job(name)
        }
        Claim::Busy { in_flight } => Told::Claims(in_flight),
        Claim::Settled => Told::Claims(0),
        Claim::NoMemory => Told::Nothing,
    }
}

impl<W: LeafWork> Floor<W> {
    /// The opening, with empty hands.
    pub fn start(alloc: Global, work: W, leaves: u32) -> Result<Floor<W>, NoMemory>
        requires few { leaves ≤ 256 }
        requires has { (i : ℕ) → i < leaves → W.has work i }
        ensures leaves { IfOk result (λ floor. floor.board.leaves ≡ leaves) }
    {
        let work = Arc::new(alloc, work)?;
        let circuit = Circuit::start(alloc, work, leaves)?;
        Ok(Floor {
            circuit,
            first: None,
            second: None,
        })
    }

    pub fn circuit(&self) -> &Circuit<W>
        ensures { result.now ≡ self.now }
    {
        &self.circuit
    }

    /// The first worker claims any job. It tells whether that is this leaf's.
    pub fn begins_leaf(&mut self, leaf: u32) -> bool
        ensures leaves { self.new.board.leaves ≡ self.old.board.leaves }
    {
        match any(&mut self.circuit, &mut self.first, 0) {
            Told::Job(name) => name == JobName::Leaf(leaf),
            Told::Claims(_) => false,
            Told::Nothing => false,
        }
    }

    /// The second worker asks for any job. It tells whether there is none, and this many claims stand.
    pub fn is_told(&mut self, in_flight: u32) -> bool
        ensures leaves { self.new.board.leaves ≡ self.old.board.leaves }
    {
        match any(&mut self.circuit, &mut self.second, 1) {
            Told::Claims(count) => count == in_flight,
            Told::Job(_) => false,
            Told::Nothing => false,
        }
    }

    /// The event of this worker and code. It tells whether it could be done.
    fn act(&mut self, worker: u32, code: u32) -> bool
        ensures leaves { self.new.board.leaves ≡ self.old.board.leaves }
    {
        if worker == 0 {
            act(&mut self.circuit, &mut self.first, 0, code)
        } else {
            act(&mut self.circuit, &mut self.second, 1, code)
        }
    }

    /// The events of these workers and codes, in turn. It tells how many could be done.
    pub fn follow(&mut self, events: &[(u32, u32)]) -> usize
        ensures leaves { self.new.board.leaves ≡ self.old.board.leaves }
    {
        let mut done: usize = 0;
        for event in events {
            if self.act(event.0, event.1) {
                done = done.saturating_add(1);
            }
        }
        done
    }

    /// The circuit, with both hands' jobs given up.
    pub fn clear(self) -> Circuit<W>
        ensures leaves { result.board.leaves ≡ self.board.leaves }
        ensures free { IsUnclaimed (state result) }
    {
        let Floor {
            mut circuit,
            mut first,
            mut second,
        } = self;
        end(&mut circuit, &mut first, 0, false);
        end(&mut circuit, &mut second, 1, false);
        drop(first);
        drop(second);
        circuit
    }
}
