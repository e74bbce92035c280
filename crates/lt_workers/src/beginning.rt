//! What one worker does before others are called: all, where leaves are cheap. Threads cost more than such leaves, and a process
//! that ever started one pays more for all its memory.
ghost use Rattle.std.specs.Prelude.{◌≡◌, ◌≢◌, ℕ, ◌<◌, ◌^◌, Some, None};
ghost use Rattle.lt_net.specs.Alone.{IsUnclaimed};
ghost use Rattle.lt_workers.specs.Alone.{WentAlone};

use crate::machine::Machine;
use crate::pace::Pace;
use lt_circuit::Claim;
use lt_edges::Gate;
use lt_face::Moves;
use std::sync::Wait;

/// How one worker's beginning goes on.
#[derive(Clone, Copy, PartialEq, Eq)]
pub(crate) enum Begun {
    /// With the next job.
    On,
    /// It has ended: nothing is left, or memory was refused.
    Ended,
    /// Others are called for leaves that hang on none before them.
    Free,
    /// Others are called for all leaves.
    All,
}

// How many free leaves never ran, with the one whose job was given.
fn free_leaves<M: Machine>(machine: &M, job: &M::Job) -> u32 {
    let others = machine.free_leaf_count();
    if M::is_free(job) {
        others.saturating_add(1)
    } else {
        others
    }
}

// Who is called before this job is done: others where it is a leaf's, as then all inner jobs are done.
fn called<M: Machine>(machine: &M, pace: &Pace, workers: u32, job: &M::Job) -> Begun {
    if workers < 2 || !M::is_leaf(job) {
        return Begun::On;
    }
    if pace.runs_ahead() {
        return Begun::All;
    }
    if pace.is_worth(free_leaves(machine, job)) {
        return Begun::Free;
    }
    Begun::On
}

// Passes the gate and does the job, which worker 0 claimed. No other claim stands.
fn work_alone<R: Wait, M: Machine, G: Gate>(
    rt: &R,
    machine: &mut M,
    job: M::Job,
    gate: &G,
    pace: &mut Pace,
) -> Begun
    requires work { M.is_job_of (M.stand machine.old).basis job }
    requires claim { (M.stand machine.old).state.claim 0 ≡ Some (M.claim_of job) }
    requires coded { (M.claim_of job).job < 2 ^ 32 }
    requires others { (v : ℕ) → v ≢ 0 → (M.stand machine.old).state.claim v ≡ None }
    ensures went { WentAlone M.net (M.stand machine.old) (M.stand machine.new) }
{
    gate.pass(rt, 0, M::code(&job));
    let mut moves: Moves<()> = Moves::new();
    match M::work(job, &mut moves) {
        Ok(output) => {
            pace.note::<M>(&output);
            machine.end(0, output);
            Begun::On
        }
        Err(job) => {
            machine.give_up(0, job);
            Begun::Ended
        }
    }
}

/// Does one job more as worker 0, or gives it back where it is a leaf's and others are called.
pub(crate) fn go_on_alone<R: Wait, M: Machine, G: Gate>(
    rt: &R,
    machine: &mut M,
    gate: &G,
    pace: &mut Pace,
    workers: u32,
) -> Begun
    requires free { IsUnclaimed (M.stand machine.old).state }
    ensures went { WentAlone M.net (M.stand machine.old) (M.stand machine.new) }
{
    match machine.ask(0) {
        Claim::Job(given) => {
            let called = called(machine, pace, workers, &given);
            if called == Begun::On {
                return work_alone(rt, machine, given, gate, pace);
            }
            machine.give_up(0, given);
            called
        }
        Claim::Busy { in_flight: _ } => Begun::Ended,
        Claim::Settled => Begun::Ended,
        Claim::NoMemory => Begun::Ended,
    }
}

/// Does jobs as worker 0 until the machine is settled, memory is refused, or leaves have shown to be dear and the next job is a
/// leaf's. It answers who is called then.
pub(crate) fn begin<R: Wait, M: Machine, G: Gate>(
    rt: &R,
    machine: &mut M,
    gate: &G,
    workers: u32,
) -> Begun
    requires free { IsUnclaimed (M.stand machine.old).state }
    ensures went { WentAlone M.net (M.stand machine.old) (M.stand machine.new) }
{
    let mut pace = Pace::start(machine.leaf_count());
    for _ in rt.forever() {
        let begun = go_on_alone(rt, machine, gate, &mut pace, workers);
        if begun != Begun::On {
            return begun;
        }
    }
    unreachable!()
}
