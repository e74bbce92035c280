//! Workers at a line, of whom the first hands on what is final while the others run.
ghost use Rattle.std.specs.Prelude.{◌≡◌, ◌+◌, ◌<◌, List, IfErr, IfNone, IfOk, IfSome, OnOk, length};
ghost use Rattle.lt_model.specs.declared.mark.Mark.{Mark};
ghost use Rattle.lt_net.specs.Line.{AreSizes, IsPast};
ghost use Rattle.lt_net.specs.Net.{State};
ghost use Rattle.lt_circuit.specs.Line.{line_state};
ghost use Rattle.lt_circuit.specs.Row.{sizes};
ghost use Rattle.lt_turn.specs.Seats.{view, IsIdle};
ghost use Rattle.lt_workers.specs.declared.driving.Ended.TheVariants.{Settled};
ghost use Rattle.lt_workers.specs.Driven.{Continues, Drives, EndsAt, Goes};
ghost use Rattle.lt_workers.specs.Given.{GivesOn, HasGiven, HasSeenGiven, IsAhead, IsFinal, IsPassed};
ghost use Rattle.lt_workers.specs.Machines.{line_net_of};
ghost use Rattle.lt_workers.specs.Seats.{IsSeatOf};
ghost use Rattle.lt_workers.specs.Seen.{AreFree, IsKnown, IsOfBasis, Knows};
ghost use denote.Param.Send.{IsSync};

use crate::driving::{Ended, either};
use crate::handed::Handed;
use crate::machine::Machine;
use crate::on_final::OnFinal;
use crate::shared::Shared;
use lt_circuit::{LeafWork, Line};
use lt_delta::Marks;
use lt_edges::Gate;
use lt_face::NoMemory;
use lt_turn::Seat;
use std::sync::Wait;
use std::thread::{Threads, join_mut};

/// A second owner of the effect of a segment that the front has passed. None where it hasn't.
fn share_passed<W: LeafWork>(line: &Line<W>, segment: u32) -> Result<Option<Marks>, NoMemory>
    ensures passed { IfOk result (λ found. IfSome found (λ m. IsPassed (sizes line.now.row) (line_state line.now) segment m)) }
    ensures fits { IfOk result (λ found. IfSome found (λ m. W.fits line.now.work m)) }
    ensures ahead { IfOk result (λ found. IfNone found (segment < length (sizes line.now.row) → IsPast (segment + 1) (line_state line.now) → ⊥)) }
{
    let front = line.front();
    if front <= segment {
        return Ok(None);
    }
    let effect = line.root_effect(segment).share()?;
    Ok(Some(effect))
}

impl<W: LeafWork + Send + Sync> Shared<Line<W>>
where
    W::Tally: Send + Sync,
{
    // How many segments there are. A visit that adds no entry.
    fn count_segments<R: Wait>(&self, rt: &R, seat: &mut Seat<Handed<Line<W>>>) -> u32
        requires turn { IsSeatOf self.now seat.old }
        requires idle { IsIdle (view seat.old) }
        requires free { AreFree (line_net_of W.does) (view seat.old) }
        ensures turn { IsSeatOf self.now seat.new }
        ensures continues { Continues (line_net_of W.does) (view seat.old) (view seat.new) }
        ensures count { IsOfBasis (view seat.old) (λ b. result ≡ length b.sizes) }
        ensures small { IsOfBasis (view seat.old) (λ b. AreSizes b.sizes) }
    {
        let handed = self.receive(rt, seat);
        let _entries = handed.machine.entries();
        let count = handed.machine.segment_count();
        self.give_back(seat, handed);
        count
    }

    // The effect of this segment, where the front has passed it. A visit that adds no entry.
    fn find_final<R: Wait>(
        &self,
        rt: &R,
        seat: &mut Seat<Handed<Line<W>>>,
        segment: u32,
    ) -> Result<Option<Marks>, NoMemory>
        requires turn { IsSeatOf self.now seat.old }
        requires idle { IsIdle (view seat.old) }
        requires free { AreFree (line_net_of W.does) (view seat.old) }
        ensures turn { IsSeatOf self.now seat.new }
        ensures continues { Continues (line_net_of W.does) (view seat.old) (view seat.new) }
        ensures known { IsKnown (line_net_of W.does) (view seat.new) }
        ensures effect { IfOk result (λ found. IfSome found (λ m. IsFinal W.does W.fits (view seat.new) segment m)) }
        ensures ahead { IfOk result (λ found. IfNone found (IsAhead W.does (view seat.new) segment)) }
    {
        let handed = self.receive(rt, seat);
        let _entries = handed.machine.entries();
        let _segments = handed.machine.segment_count();
        let found = share_passed(&handed.machine, segment);
        self.give_back(seat, handed);
        found
    }

    // Hands on what is final of the segments from `count` to below `end`, outside the turn, and counts it.
    fn hand_on<R: Threads + Wait + Sync, O: OnFinal>(
        &self,
        rt: &R,
        seat: &mut Seat<Handed<Line<W>>>,
        on: &mut O,
        count: &mut u32,
        end: u32,
    ) -> Result<(), NoMemory>
        requires turn { IsSeatOf self.now seat.old }
        requires idle { IsIdle (view seat.old) }
        requires free { AreFree (line_net_of W.does) (view seat.old) }
        requires base { IsOfBasis (view seat.old) (λ b. (m : List Mark) → W.fits b.work m → O.fits on.old m) }
        ensures turn { IsSeatOf self.now seat.new }
        ensures continues { Continues (line_net_of W.does) (view seat.old) (view seat.new) }
        ensures known { IsKnown (line_net_of W.does) (view seat.old) → IsKnown (line_net_of W.does) (view seat.new) }
        ensures refused { IfErr result (λ _. IsKnown (line_net_of W.does) (view seat.new)) }
        ensures ahead { OnOk result (count.new < end → IsAhead W.does (view seat.new) count.new) }
        ensures given { GivesOn W.does (view seat.old) (view seat.new) (O.given on.old) (O.given on.new) count.old count.new }
        ensures base { (m : List Mark) → O.fits on.old m → O.fits on.new m }
    {
        for segment in *count..end {
            let found = self.find_final(rt, seat, segment)?;
            let Some(effect) = found else {
                return Ok(());
            };
            on.on_final(rt, segment, &effect)?;
            *count = segment + 1;
        }
        Ok(())
    }

    // Hands on what is final, then claims a job and does it.
    fn step_line<R: Threads + Wait + Sync, G: Gate, O: OnFinal>(
        &self,
        rt: &R,
        seat: &mut Seat<Handed<Line<W>>>,
        gate: &G,
        on: &mut O,
        count: &mut u32,
        end: u32,
    ) -> Option<Ended>
        requires turn { IsSeatOf self.now seat.old }
        requires idle { IsIdle (view seat.old) }
        requires free { AreFree (line_net_of W.does) (view seat.old) }
        requires base { IsOfBasis (view seat.old) (λ b. (m : List Mark) → W.fits b.work m → O.fits on.old m) }
        ensures turn { IsSeatOf self.now seat.new }
        ensures goes { Goes (line_net_of W.does) (view seat.old) (view seat.new) result }
        ensures given { GivesOn W.does (view seat.old) (view seat.new) (O.given on.old) (O.given on.new) count.old count.new }
        ensures base { (m : List Mark) → O.fits on.old m → O.fits on.new m }
    {
        match self.hand_on(rt, seat, on, count, end) {
            Ok(()) => self.go_on(rt, seat, gate),
            Err(_refused) => Some(Ended::NoMemory),
        }
    }

    // Does jobs as the seat's first worker, and hands on what is final between them.
    fn drive_line<R: Threads + Wait + Sync, G: Gate, O: OnFinal>(
        &self,
        rt: &R,
        seat: &mut Seat<Handed<Line<W>>>,
        gate: &G,
        on: &mut O,
        count: &mut u32,
        end: u32,
    ) -> Ended
        requires turn { IsSeatOf self.now seat.old }
        requires idle { IsIdle (view seat.old) }
        requires free { AreFree (line_net_of W.does) (view seat.old) }
        requires base { IsOfBasis (view seat.old) (λ b. (m : List Mark) → W.fits b.work m → O.fits on.old m) }
        ensures turn { IsSeatOf self.now seat.new }
        ensures drives { Drives (line_net_of W.does) (view seat.old) (view seat.new) result }
        ensures given { GivesOn W.does (view seat.old) (view seat.new) (O.given on.old) (O.given on.new) count.old count.new }
        ensures base { (m : List Mark) → O.fits on.old m → O.fits on.new m }
    {
        for _ in rt.forever() {
            if let Some(ended) = self.step_line(rt, seat, gate, on, count, end) {
                return ended;
            }
        }
        unreachable!()
    }

    // The first worker in a thread of its own, and the others, each in one.
    fn drive_both<R: Threads + Wait + Sync, G: Gate, O: OnFinal + Send>(
        &self,
        rt: &R,
        low: &mut Seat<Handed<Line<W>>>,
        high: &mut Seat<Handed<Line<W>>>,
        gate: &G,
        on: &mut O,
        count: &mut u32,
        end: u32,
    ) -> (Ended, Ended)
        requires low { IsSeatOf self.now low.old × IsIdle (view low.old) × AreFree (line_net_of W.does) (view low.old) }
        requires high { IsSeatOf self.now high.old × IsIdle (view high.old) × AreFree (line_net_of W.does) (view high.old) }
        requires base { IsOfBasis (view low.old) (λ b. (m : List Mark) → W.fits b.work m → O.fits on.old m) }
        ensures low { IsSeatOf self.now low.new × Drives (line_net_of W.does) (view low.old) (view low.new) result.0 }
        ensures high { IsSeatOf self.now high.new × Drives (line_net_of W.does) (view high.old) (view high.new) result.1 }
        ensures given { GivesOn W.does (view low.old) (view low.new) (O.given on.old) (O.given on.new) count.old count.new }
        ensures base { (m : List Mark) → O.fits on.old m → O.fits on.new m }
    {
        join_mut(
            rt,
            &mut || -> Ended
                requires { IsSync R.row × IsSeatOf self.now low.now × IsIdle (view low.now) × AreFree (line_net_of W.does) (view low.now) × IsOfBasis (view low.now) (λ b. (m : List Mark) → W.fits b.work m → O.fits on.now m) }
                ensures { IsSeatOf self.entry.now low.exit.now × Drives (line_net_of W.does) (view low.entry.now) (view low.exit.now) result × GivesOn W.does (view low.entry.now) (view low.exit.now) (O.given on.entry.now) (O.given on.exit.now) count.entry.now count.exit.now × ((m : List Mark) → O.fits on.entry.now m → O.fits on.exit.now m) }
            { self.drive_line(rt, low, gate, on, count, end) },
            &mut || -> Ended
                requires { IsSync R.row × IsSeatOf self.now high.now × IsIdle (view high.now) × AreFree (line_net_of W.does) (view high.now) }
                ensures { IsSeatOf self.entry.now high.exit.now × Drives (line_net_of W.does) (view high.entry.now) (view high.exit.now) result }
            { self.fan_out(rt, high, gate) },
        )
    }

    // All workers of the seat, each in a thread of its own, of whom the first hands on what is final. Where threads were refused, the
    // first goes on alone.
    fn drive_all<R: Threads + Wait + Sync, G: Gate, O: OnFinal + Send>(
        &self,
        rt: &R,
        seat: &mut Seat<Handed<Line<W>>>,
        gate: &G,
        on: &mut O,
        count: &mut u32,
        end: u32,
    ) -> Ended
        requires turn { IsSeatOf self.now seat.old }
        requires idle { IsIdle (view seat.old) }
        requires free { AreFree (line_net_of W.does) (view seat.old) }
        requires base { IsOfBasis (view seat.old) (λ b. (m : List Mark) → W.fits b.work m → O.fits on.old m) }
        ensures turn { IsSeatOf self.now seat.new }
        ensures drives { Drives (line_net_of W.does) (view seat.old) (view seat.new) result }
        ensures given { GivesOn W.does (view seat.old) (view seat.new) (O.given on.old) (O.given on.new) count.old count.new }
        ensures base { (m : List Mark) → O.fits on.old m → O.fits on.new m }
    {
        let first = seat.first();
        if seat.end() - first < 2 {
            return self.drive_line(rt, seat, gate, on, count, end);
        }
        let Ok(mut high) = self.turn.split(seat, first + 1) else {
            return self.drive_line(rt, seat, gate, on, count, end);
        };
        let (one, other) = self.drive_both(rt, seat, &mut high, gate, on, count, end);
        self.turn.join(seat, high);
        either(one, other)
    }

    // Hands on the rest where the line is settled. It is told as settled only where all was handed on then.
    fn hand_on_rest<R: Threads + Wait + Sync, O: OnFinal>(
        &self,
        rt: &R,
        seat: &mut Seat<Handed<Line<W>>>,
        on: &mut O,
        count: &mut u32,
        end: u32,
        ended: Ended,
    ) -> Ended
        requires turn { IsSeatOf self.now seat.old }
        requires idle { IsIdle (view seat.old) }
        requires free { AreFree (line_net_of W.does) (view seat.old) }
        requires ends { EndsAt (line_net_of W.does) (view seat.old) ended }
        requires end { IsOfBasis (view seat.old) (λ b. end ≡ length b.sizes) }
        requires base { IsOfBasis (view seat.old) (λ b. (m : List Mark) → W.fits b.work m → O.fits on.old m) }
        ensures turn { IsSeatOf self.now seat.new }
        ensures drives { Drives (line_net_of W.does) (view seat.old) (view seat.new) result }
        ensures given { GivesOn W.does (view seat.old) (view seat.new) (O.given on.old) (O.given on.new) count.old count.new }
        ensures base { (m : List Mark) → O.fits on.old m → O.fits on.new m }
        ensures all { result ≡ Settled → (before : List (List Mark)) → HasSeenGiven W.does (view seat.old) before (O.given on.old) count.old → count.new ≡ end }
    {
        match ended {
            Ended::Settled => match self.hand_on(rt, seat, on, count, end) {
                Ok(()) => Ended::Settled,
                Err(_refused) => Ended::NoMemory,
            },
            Ended::NoMemory => Ended::NoMemory,
            Ended::Spared => Ended::Spared,
        }
    }

    /// As `fan_line`, where the effects of the first `count` segments were handed on before.
    pub(crate) fn fan_line_from<R: Threads + Wait + Sync, G: Gate, O: OnFinal + Send>(
        &self,
        rt: &R,
        seat: &mut Seat<Handed<Line<W>>>,
        gate: &G,
        on: &mut O,
        count: &mut u32,
    ) -> Ended
        requires turn { IsSeatOf self.now seat.old }
        requires idle { IsIdle (view seat.old) }
        requires free { AreFree (line_net_of W.does) (view seat.old) }
        requires base { IsOfBasis (view seat.old) (λ b. (m : List Mark) → W.fits b.work m → O.fits on.old m) }
        ensures turn { IsSeatOf self.now seat.new }
        ensures drives { Drives (line_net_of W.does) (view seat.old) (view seat.new) result }
        ensures given { GivesOn W.does (view seat.old) (view seat.new) (O.given on.old) (O.given on.new) count.old count.new }
        ensures base { (m : List Mark) → O.fits on.old m → O.fits on.new m }
        ensures small { IsOfBasis (view seat.old) (λ b. AreSizes b.sizes) }
        ensures all { result ≡ Settled → (before : List (List Mark)) → HasSeenGiven W.does (view seat.old) before (O.given on.old) count.old → IsOfBasis (view seat.old) (λ b. count.new ≡ length b.sizes) }
    {
        let end = self.count_segments(rt, seat);
        let ended = self.drive_all(rt, seat, gate, on, count, end);
        self.hand_on_rest(rt, seat, on, count, end, ended)
    }

    /// Each worker of the seat in a thread of its own. The first one hands the effect of each segment to `on` when the front has
    /// passed it, in order, each once, between its jobs and outside the turn. It answers, too, how many were handed on.
    pub fn fan_line<R: Threads + Wait + Sync, G: Gate, O: OnFinal + Send>(
        &self,
        rt: &R,
        seat: &mut Seat<Handed<Line<W>>>,
        gate: &G,
        on: &mut O,
    ) -> (Ended, u32)
        requires turn { IsSeatOf self.now seat.old }
        requires idle { IsIdle (view seat.old) }
        requires free { AreFree (line_net_of W.does) (view seat.old) }
        requires base { IsOfBasis (view seat.old) (λ b. (m : List Mark) → W.fits b.work m → O.fits on.old m) }
        ensures turn { IsSeatOf self.now seat.new }
        ensures drives { Drives (line_net_of W.does) (view seat.old) (view seat.new) result.0 }
        ensures given { (s : State) → Knows (line_net_of W.does) (view seat.new) s → IsOfBasis (view seat.new) (λ b. HasGiven b.sizes (O.given on.old) (O.given on.new) result.1 s) }
        ensures base { (m : List Mark) → O.fits on.old m → O.fits on.new m }
        ensures all { result.0 ≡ Settled → IsOfBasis (view seat.old) (λ b. result.1 ≡ length b.sizes) }
    {
        let mut count = 0;
        let ended = self.fan_line_from(rt, seat, gate, on, &mut count);
        (ended, count)
    }
}
