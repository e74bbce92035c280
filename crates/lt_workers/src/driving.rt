//! Workers that do jobs until none is left.
ghost use Rattle.std.specs.Prelude.{◌≡◌, ◌<◌, ◌^◌, true, Some};
ghost use Rattle.lt_turn.specs.Seats.{view, IsIdle};
ghost use Rattle.lt_workers.specs.Seats.{IsSeatOf};
ghost use Rattle.lt_workers.specs.Seen.{AreFree, Claims, IsOfBasis};
ghost use Rattle.lt_workers.specs.Driven.{AreOthersFree, Drives, Goes, either_of};
ghost use denote.Param.Send.{IsSync};

use crate::handed::Handed;
use crate::machine::Machine;
use crate::shared::Shared;
use lt_circuit::Claim;
use lt_edges::Gate;
use lt_face::Moves;
use lt_turn::Seat;
use std::sync::Wait;
use std::thread::{Threads, join_mut};

/// Why workers ended.
#[derive(Clone, Copy, Debug, PartialEq, Eq)]
pub enum Ended {
    /// The last claim saw that all is settled.
    Settled,
    /// Memory was refused, and the job given back.
    NoMemory,
    /// A worker but the first gave its job back, since to run ahead what may be tied to others doesn't pay. A seat with the first
    /// worker never ends so.
    Spared,
}

// Whether the worker gives a job back to go: an inner job, where it isn't the first and nothing that may be tied to others is run ahead.
// No free leaf is left then.
fn is_left(worker: u32, ahead: Option<u32>, is_leaf: bool) -> bool
    ensures { result ≡ true → 0 < worker }
{
    match ahead {
        Some(leaves) => worker > 0 && leaves == 0 && !is_leaf,
        None => false,
    }
}

impl<M: Machine + Send + Sync> Shared<M>
where
    M::Basis: Send + Sync,
    M::Job: Send + Sync,
    M::Output: Send + Sync,
    M::Spent: Send + Sync,
{
    // Claims a job and does it. Where none is due it waits for others' entries.
    pub(crate) fn go_on<R: Wait, G: Gate>(
        &self,
        rt: &R,
        seat: &mut Seat<Handed<M>>,
        gate: &G,
    ) -> Option<Ended>
        requires turn { IsSeatOf self.now seat.old }
        requires idle { IsIdle (view seat.old) }
        requires free { AreFree M.net (view seat.old) }
        ensures turn { IsSeatOf self.now seat.new }
        ensures goes { Goes M.net (view seat.old) (view seat.new) result }
    {
        let ahead = self.ahead(gate.waits());
        match self.claim_due(rt, seat, ahead) {
            Claim::Settled => Some(Ended::Settled),
            Claim::NoMemory => Some(Ended::NoMemory),
            Claim::Busy { in_flight: _ } => {
                self.turn.wait_for_entries(rt, seat);
                None
            }
            Claim::Job(job) => self.take_up(rt, seat, job, gate, ahead),
        }
    }

    // Does the job, or gives it back, where the worker isn't the first, and to run ahead what may be tied to others doesn't pay.
    fn take_up<R: Wait, G: Gate>(
        &self,
        rt: &R,
        seat: &mut Seat<Handed<M>>,
        job: M::Job,
        gate: &G,
        ahead: Option<u32>,
    ) -> Option<Ended>
        requires turn { IsSeatOf self.now seat.old }
        requires idle { IsIdle (view seat.old) }
        requires work { IsOfBasis (view seat.old) (λ b. M.is_job_of b job) }
        requires claim { Claims M.net (view seat.old) (view seat.old).first (Some (M.claim_of job)) }
        requires coded { (M.claim_of job).job < 2 ^ 32 }
        requires others { AreOthersFree M.net (view seat.old) }
        ensures turn { IsSeatOf self.now seat.new }
        ensures goes { Goes M.net (view seat.old) (view seat.new) result }
    {
        if is_left(seat.first(), ahead, M::is_leaf(&job)) {
            self.abandon(rt, seat, job);
            return Some(Ended::Spared);
        }
        self.work_on(rt, seat, job, gate)
    }

    // Passes the gate, does the job outside the turn, and ends the claim.
    fn work_on<R: Wait, G: Gate>(
        &self,
        rt: &R,
        seat: &mut Seat<Handed<M>>,
        job: M::Job,
        gate: &G,
    ) -> Option<Ended>
        requires turn { IsSeatOf self.now seat.old }
        requires idle { IsIdle (view seat.old) }
        requires work { IsOfBasis (view seat.old) (λ b. M.is_job_of b job) }
        requires claim { Claims M.net (view seat.old) (view seat.old).first (Some (M.claim_of job)) }
        requires coded { (M.claim_of job).job < 2 ^ 32 }
        requires others { AreOthersFree M.net (view seat.old) }
        ensures turn { IsSeatOf self.now seat.new }
        ensures goes { Goes M.net (view seat.old) (view seat.new) result }
    {
        gate.pass(rt, seat.first(), M::code(&job));
        let mut moves: Moves<()> = Moves::new();
        match M::work(job, &mut moves) {
            Ok(output) => {
                self.luck.note::<M>(&output, moves.ticks());
                self.finish(rt, seat, output);
                None
            }
            Err(job) => {
                self.abandon(rt, seat, job);
                Some(Ended::NoMemory)
            }
        }
    }

    /// Does jobs as the seat's first worker until the machine is settled, memory is refused, or the worker is spared. One that finds
    /// no Pending job while others work asks again.
    pub fn drive<R: Wait, G: Gate>(&self, rt: &R, seat: &mut Seat<Handed<M>>, gate: &G) -> Ended
        requires turn { IsSeatOf self.now seat.old }
        requires idle { IsIdle (view seat.old) }
        requires free { AreFree M.net (view seat.old) }
        ensures turn { IsSeatOf self.now seat.new }
        ensures drives { Drives M.net (view seat.old) (view seat.new) result }
    {
        for _ in rt.forever() {
            if let Some(ended) = self.go_on(rt, seat, gate) {
                return ended;
            }
        }
        unreachable!()
    }

    // Each of the two seats in a thread of its own.
    #[cycle(fan_out)]
    fn halves<R: Threads + Wait + Sync, G: Gate>(
        &self,
        rt: &R,
        low: &mut Seat<Handed<M>>,
        high: &mut Seat<Handed<M>>,
        gate: &G,
    ) -> (Ended, Ended)
        requires low { IsSeatOf self.now low.old × IsIdle (view low.old) × AreFree M.net (view low.old) }
        requires high { IsSeatOf self.now high.old × IsIdle (view high.old) × AreFree M.net (view high.old) }
        ensures low { IsSeatOf self.now low.new × Drives M.net (view low.old) (view low.new) result.0 }
        ensures high { IsSeatOf self.now high.new × Drives M.net (view high.old) (view high.new) result.1 }
    {
        join_mut(
            rt,
            &mut || -> Ended
                requires { IsSync R.row × IsSeatOf self.now low.now × IsIdle (view low.now) × AreFree M.net (view low.now) }
                ensures { IsSeatOf self.entry.now low.exit.now × Drives M.net (view low.entry.now) (view low.exit.now) result }
            { self.fan_out(rt, low, gate) },
            &mut || -> Ended
                requires { IsSync R.row × IsSeatOf self.now high.now × IsIdle (view high.now) × AreFree M.net (view high.now) }
                ensures { IsSeatOf self.entry.now high.exit.now × Drives M.net (view high.entry.now) (view high.exit.now) result }
            { self.fan_out(rt, high, gate) },
        )
    }

    /// Each worker of the seat in a thread of its own, by halves. A part whose halves were refused goes on as one worker.
    #[cycle(fan_out)]
    pub fn fan_out<R: Threads + Wait + Sync, G: Gate>(
        &self,
        rt: &R,
        seat: &mut Seat<Handed<M>>,
        gate: &G,
    ) -> Ended
        requires turn { IsSeatOf self.now seat.old }
        requires idle { IsIdle (view seat.old) }
        requires free { AreFree M.net (view seat.old) }
        ensures turn { IsSeatOf self.now seat.new }
        ensures drives { Drives M.net (view seat.old) (view seat.new) result }
    {
        let first = seat.first();
        let end = seat.end();
        if end - first < 2 {
            return self.drive(rt, seat, gate);
        }
        let middle = first + (end - first) / 2;
        let Ok(mut high) = self.turn.split(seat, middle) else {
            return self.drive(rt, seat, gate);
        };
        let (one, other) = self.halves(rt, seat, &mut high, gate);
        self.turn.join(seat, high);
        either(one, other)
    }
}

// Settled where one of two parts ended so, else spared only where both were.
pub(crate) fn either(one: Ended, other: Ended) -> Ended
    ensures { result ≡ either_of one other }
{
    match one {
        Ended::Settled => Ended::Settled,
        Ended::NoMemory => match other {
            Ended::Settled => Ended::Settled,
            Ended::NoMemory => Ended::NoMemory,
            Ended::Spared => Ended::NoMemory,
        },
        Ended::Spared => other,
    }
}
