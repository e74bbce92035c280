//! A machine that workers hand on from turn to turn.
ghost use Rattle.std.specs.Prelude.{◌≡◌, ℕ, ◌<◌, ◌≤◌, ◌^◌, ⊤, length, Option, Some, None, IfOk};
ghost use Rattle.lt_face.specs.Limits.{most_workers};
ghost use Rattle.lt_net.specs.Alone.{IsUnclaimed};
ghost use Rattle.lt_net.specs.Net.{Claim as NetClaim};
ghost use Rattle.lt_turn.specs.Journal.{Extends};
ghost use Rattle.lt_turn.specs.Rule.{holding, opening_view};
ghost use Rattle.lt_turn.specs.Seats.{view, IsIdle, MayGive};
ghost use Rattle.lt_workers.specs.Seats.{IsSeatOf};
ghost use Rattle.lt_workers.specs.Seen.{AreFree, BeginsFree, Claims, IsMove, IsOfBasis, IsStanding, Knows};
ghost use Rattle.lt_workers.specs.Driven.{GaveBack};
ghost use Rattle.lt_workers.specs.Visit.{Did, HasAnswer, IsGiven, IsSame, KeepsOthers};

use crate::handed::Handed;
use crate::machine::Machine;
use crate::pace::Luck;
use lt_circuit::Claim;
use lt_face::NoMemory;
use lt_turn::{Seat, Turn};
use std::alloc::Global;
use std::sync::Wait;

/// A machine that workers hand on. Between two turns it is the replay of its journal.
#[derive(Drop)]
pub struct Shared<M: Machine> {
    pub(crate) turn: Turn<Handed<M>>,
    /// Whether leaves are run ahead that may be tied to others, how many behind the front, and what came of them. No clause speaks of it.
    pub(crate) runs_ahead: bool,
    window: u32,
    pub(crate) luck: Luck,
}

// How many leaves behind the front so many workers run ahead.
fn window(workers: u32) -> u32 {
    workers.saturating_mul(2)
}

// Whether a job is due for the worker, with so many leaves run ahead, or any is.
fn is_due<M: Machine>(machine: &mut M, worker: u32, ahead: Option<u32>) -> bool
    ensures { machine.new ≡ machine.old }
{
    match ahead {
        Some(leaves) => machine.is_due(worker, leaves),
        None => true,
    }
}

// The worker asks for a job where one is due for it, with so many leaves run ahead, or in any case. Else it has a look alone, and is told to
// be busy.
fn asked<M: Machine>(machine: &mut M, worker: u32, ahead: Option<u32>) -> Claim<M::Job>
    requires worker { worker < most_workers }
    requires free { (M.stand machine.old).state.claim worker ≡ None }
    ensures moved { IsMove M.net worker (M.stand machine.old) (M.stand machine.new) }
    ensures short { length (M.stand machine.new).pairs < 2 ^ 62 }
    ensures given { IsGiven M.claim_of M.is_job_of (M.stand machine.new) worker result }
{
    if is_due(machine, worker, ahead) {
        return machine.ask(worker);
    }
    let _entries = machine.entries();
    Claim::Busy { in_flight: 1 }
}

impl<M: Machine> Shared<M> {
    // How many leaves behind the front are run ahead now. None where any Pending job is taken, as a gate may hold a worker until another
    // comes.
    pub(crate) fn ahead(&self, waits: bool) -> Option<u32> {
        if waits {
            return None;
        }
        if self.runs_ahead && self.luck.is_good() {
            Some(self.window)
        } else {
            Some(0)
        }
    }

    /// The machine for so many workers, and the seat that has all their numbers.
    pub fn new(
        alloc: Global,
        machine: M,
        workers: u32,
    ) -> Result<(Shared<M>, Seat<Handed<M>>), NoMemory>
        requires workers { (1 ≤ workers) × (workers ≤ most_workers) }
        requires free { IsUnclaimed (M.stand machine).state }
        ensures turn { IfOk result (λ r. IsSeatOf r.0 r.1) }
        ensures view { IfOk result (λ r. view r.1 ≡ opening_view (M.stand machine).basis (M.stand machine).pairs workers) }
        ensures known { IfOk result (λ r. Knows M.net (view r.1) (M.stand machine).state) }
        ensures free { IfOk result (λ r. AreFree M.net (view r.1)) }
        ensures begun { IfOk result (λ r. BeginsFree M.net (view r.1)) }
    {
        let _entries = machine.entries();
        let handed = Handed { machine };
        match Turn::new(alloc, handed, workers) {
            Ok((turn, seat)) => Ok((
                Shared {
                    turn,
                    runs_ahead: true,
                    window: window(workers),
                    luck: Luck::start(),
                },
                seat,
            )),
            Err(refused) => Err(refused),
        }
    }

    // Waits for the turn and takes the machine, of which the seat knows its own workers' claims.
    pub(crate) fn receive<R: Wait>(&self, rt: &R, seat: &mut Seat<Handed<M>>) -> Handed<M>
        requires turn { IsSeatOf self.now seat.old }
        requires idle { IsIdle (view seat.old) }
        ensures turn { IsSeatOf self.now seat.new }
        ensures opening { (view seat.old).opening ≡ Some (M.stand result.machine).basis }
        ensures extends { Extends (view seat.old).first (view seat.old).end (view seat.old).seen (M.stand result.machine).pairs }
        ensures view { view seat.new ≡ holding (view seat.old) (M.stand result.machine).pairs }
        ensures replayed { IsStanding M.net (M.stand result.machine) }
        ensures claims { (v : ℕ) (claim : Option NetClaim) → (view seat.old).first ≤ v → v < (view seat.old).end → Claims M.net (view seat.old) v claim → (M.stand result.machine).state.claim v ≡ claim }
    {
        let handed = self.turn.take(rt, seat);
        let _entries = handed.machine.entries();
        handed
    }

    // Gives the machine back, of which the seat knows all.
    pub(crate) fn give_back(&self, seat: &mut Seat<Handed<M>>, handed: Handed<M>)
        requires turn { IsSeatOf self.now seat.old }
        requires opening { (view seat.old).opening ≡ Some (M.stand handed.machine).basis }
        requires journal { MayGive (view seat.old) (M.stand handed.machine).pairs }
        requires short { length (M.stand handed.machine).pairs < 2 ^ 62 }
        requires replayed { IsStanding M.net (M.stand handed.machine) }
        ensures turn { IsSeatOf self.now seat.new }
        ensures same { IsSame (view seat.old) (view seat.new) }
        ensures seen { (view seat.new).seen ≡ (M.stand handed.machine).pairs }
        ensures known { Knows M.net (view seat.new) (M.stand handed.machine).state }
        ensures claims { (v : ℕ) (claim : Option NetClaim) → (M.stand handed.machine).state.claim v ≡ claim → Claims M.net (view seat.new) v claim }
    {
        self.turn.give(seat, handed);
    }

    /// Asks for a job as the seat's first worker.
    pub fn claim<R: Wait>(&self, rt: &R, seat: &mut Seat<Handed<M>>) -> Claim<M::Job>
        requires turn { IsSeatOf self.now seat.old }
        requires idle { IsIdle (view seat.old) }
        requires free { Claims M.net (view seat.old) (view seat.old).first None }
        ensures turn { IsSeatOf self.now seat.new }
        ensures same { IsSame (view seat.old) (view seat.new) }
        ensures answer { Did M.net M.stand (λ before after worker. M.gives before after worker result) (view seat.old) (view seat.new) }
        ensures has { HasAnswer M.net M.claim_of M.is_job_of (view seat.new) result }
        ensures others { KeepsOthers M.net (view seat.old) (view seat.new) }
    {
        let mut handed = self.receive(rt, seat);
        let answer = handed.machine.ask(seat.first());
        self.give_back(seat, handed);
        answer
    }

    // Asks for a job as the seat's first worker where one is due for it, with so many leaves run ahead, or in any case. Else it is told to be
    // busy.
    pub(crate) fn claim_due<R: Wait>(
        &self,
        rt: &R,
        seat: &mut Seat<Handed<M>>,
        ahead: Option<u32>,
    ) -> Claim<M::Job>
        requires turn { IsSeatOf self.now seat.old }
        requires idle { IsIdle (view seat.old) }
        requires free { Claims M.net (view seat.old) (view seat.old).first None }
        ensures turn { IsSeatOf self.now seat.new }
        ensures same { IsSame (view seat.old) (view seat.new) }
        ensures answer { Did M.net M.stand (λ before after worker. ⊤) (view seat.old) (view seat.new) }
        ensures has { HasAnswer M.net M.claim_of M.is_job_of (view seat.new) result }
        ensures others { KeepsOthers M.net (view seat.old) (view seat.new) }
    {
        let mut handed = self.receive(rt, seat);
        let answer = asked(&mut handed.machine, seat.first(), ahead);
        self.give_back(seat, handed);
        answer
    }

    /// The job of the seat's first worker is done, and this is its output.
    pub fn finish<R: Wait>(&self, rt: &R, seat: &mut Seat<Handed<M>>, output: M::Output)
        requires turn { IsSeatOf self.now seat.old }
        requires idle { IsIdle (view seat.old) }
        requires work { IsOfBasis (view seat.old) (λ b. M.is_output_of b output) }
        requires claim { Claims M.net (view seat.old) (view seat.old).first (Some (M.claim_by output)) }
        ensures turn { IsSeatOf self.now seat.new }
        ensures same { IsSame (view seat.old) (view seat.new) }
        ensures finishes { Did M.net M.stand (λ before after worker. M.stores before after worker output) (view seat.old) (view seat.new) }
        ensures free { Claims M.net (view seat.new) (view seat.new).first None }
        ensures others { KeepsOthers M.net (view seat.old) (view seat.new) }
    {
        let mut handed = self.receive(rt, seat);
        let spent = handed.machine.end(seat.first(), output);
        self.give_back(seat, handed);
        drop(spent);
    }

    /// The seat's first worker gives its job up.
    pub fn abandon<R: Wait>(&self, rt: &R, seat: &mut Seat<Handed<M>>, job: M::Job)
        requires turn { IsSeatOf self.now seat.old }
        requires idle { IsIdle (view seat.old) }
        requires work { IsOfBasis (view seat.old) (λ b. M.is_job_of b job) }
        requires claim { Claims M.net (view seat.old) (view seat.old).first (Some (M.claim_of job)) }
        ensures turn { IsSeatOf self.now seat.new }
        ensures same { IsSame (view seat.old) (view seat.new) }
        ensures abandons { Did M.net M.stand (λ before after worker. M.takes_back before after worker job) (view seat.old) (view seat.new) }
        ensures gave_back { GaveBack (view seat.new) }
        ensures free { Claims M.net (view seat.new) (view seat.new).first None }
        ensures others { KeepsOthers M.net (view seat.old) (view seat.new) }
    {
        let mut handed = self.receive(rt, seat);
        let spent = handed.machine.give_up(seat.first(), job);
        self.give_back(seat, handed);
        drop(spent);
    }

    /// The machine, with all that every seat wrote down. Where none of the workers has a claim, no claim stands.
    pub fn close(self, seat: Seat<Handed<M>>) -> M
        requires turn { IsSeatOf self seat }
        requires every { ((view seat).first ≡ 0) × ((view seat).end ≡ (view seat).workers) }
        requires idle { IsIdle (view seat) }
        ensures opening { (view seat).opening ≡ Some (M.stand result).basis }
        ensures journal { (M.stand result).pairs ≡ (view seat).seen }
        ensures replayed { IsStanding M.net (M.stand result) }
        ensures free { BeginsFree M.net (view seat) → AreFree M.net (view seat) → IsUnclaimed (M.stand result).state }
    {
        let Self {
            turn,
            runs_ahead: _,
            window: _,
            luck: _,
        } = self;
        let Handed { machine } = turn.close(seat);
        let _entries = machine.entries();
        machine
    }
}
