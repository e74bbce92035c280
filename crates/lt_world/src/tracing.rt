//! A run that keeps the journals of its batches.
ghost use Rattle.std.specs.Prelude.{◌≡◌, ◌≤◌, ◌++◌, ◌∷◌, [], List, length, map, true, IfOk, OnOk, OnErr};
ghost use Rattle.std.specs.List.{AllByRecursion};
ghost use Rattle.lt_face.specs.Limits.{most_programs, most_workers};
ghost use Rattle.lt_model.specs.declared.syntax.Item.TheVariants as items;
ghost use Rattle.lt_model.specs.declared.syntax.Program.{Program as ProgramType};
ghost use Rattle.lt_model.specs.Check.{checked};
ghost use Rattle.lt_model.specs.Limits.{IsProgramWithin, IsWithinLimits};
ghost use Rattle.lt_model.specs.Report.{opening, World as ModelWorld};
ghost use Rattle.lt_base.specs.Tables.{state_of};
ghost use Rattle.lt_batch.specs.Replaying.{written_of};
ghost use Rattle.lt_world.specs.Batches.{checked_of, good_ones as goods_of, IsRun};
ghost use Rattle.lt_world.specs.Outcomes.{HasSettled, IsOutcome};
ghost use Rattle.lt_world.specs.Traces.{KeepsBlock};
ghost use Rattle.lt_world.specs.World.{IsWorld, said, Shows, Takes};
ghost use Rattle.lt_world.specs.Writing.{Writes};

use crate::batch::{Judgement, Ran, good_ones, put_ran};
use crate::halt::Halt;
use crate::options::Options;
use crate::world::World;
use lt_batch::{BatchWork, Outcome, run_batch, write_down};
use lt_blocks::Block;
use lt_circuit::Circuit;
use lt_edges::{Gate, Sink};
use lt_face::NoMemory;
use lt_model::syntax::{Item, Program};
use std::alloc::Global;
use std::sync::Wait;
use std::thread::Threads;

/// What a batch did, and the circuit that did it.
#[derive(Drop)]
pub struct Whole {
    pub ran: Ran,
    pub circuit: Circuit<BatchWork>,
}

/// What a script has made so far, and the journals of its batches, where they are kept.
#[derive(Drop)]
pub struct Traced {
    pub world: World,
    pub blocks: Vec<Block>,
}

impl World {
    /// Makes what a batch left the database and its next version.
    pub fn keep_outcome(
        &mut self,
        judgements: Vec<Judgement>,
        outcome: Outcome,
    ) -> Result<Whole, NoMemory>
        requires world { IsWorld self.old }
        requires outcome { IsOutcome (goods_of judgements.items) (state_of self.old.database) outcome }
        ensures ran { IfOk result (λ whole. (programs : List ProgramType) → map checked_of judgements.items ≡ map (λ (p : ProgramType). checked p self.old.schema) programs → IsRun self.old programs true whole.ran) }
        ensures circuit { IfOk result (λ whole. HasSettled (goods_of whole.ran.judgements.items) (state_of self.old.database) whole.circuit) }
        ensures world { OnOk result ((programs : List ProgramType) → map checked_of judgements.items ≡ map (λ (p : ProgramType). checked p self.old.schema) programs → Takes self.old (items.Batch programs) self.new) }
        ensures schema { OnOk result (self.new.schema ≡ self.old.schema) }
        ensures kept_database { OnErr result (self.new.database ≡ self.old.database) }
        ensures kept_versions { OnErr result (self.new.versions ≡ self.old.versions) }
    {
        let number = self.next_number();
        let Outcome {
            replies,
            effects,
            db,
            circuit,
        } = outcome;
        self.keep(db)?;
        let ran = Ran {
            number,
            judgements,
            replies,
            effects,
        };
        Ok(Whole { ran, circuit })
    }

    /// Runs a batch by so many workers and makes its version. The programs without a code are the leaves of a repair circuit, which is
    /// given, too. After want of memory the database and the versions are as before.
    pub fn run_whole<R: Threads + Wait + Sync, G: Gate>(
        &mut self,
        rt: &R,
        alloc: Global,
        programs: &[Program],
        workers: u32,
        gate: &G,
    ) -> Result<Whole, NoMemory>
        requires workers { (1 ≤ workers) × (workers ≤ most_workers) }
        requires world { IsWorld self.old }
        requires within { AllByRecursion IsProgramWithin programs.now }
        requires few { length programs.now ≤ most_programs }
        ensures ran { IfOk result (λ whole. IsRun self.old programs.now true whole.ran) }
        ensures circuit { IfOk result (λ whole. HasSettled (goods_of whole.ran.judgements.items) (state_of self.old.database) whole.circuit) }
        ensures world { OnOk result (Takes self.old (items.Batch programs.now) self.new) }
        ensures schema { OnOk result (self.new.schema ≡ self.old.schema) }
        ensures kept_database { OnErr result (self.new.database ≡ self.old.database) }
        ensures kept_versions { OnErr result (self.new.versions ≡ self.old.versions) }
    {
        let judgements = self.schema.judge_all(alloc, programs)?;
        let good = good_ones(alloc, &judgements)?;
        let outcome = run_batch(rt, alloc, &self.database, &good, workers, gate)?;
        let whole = self.keep_outcome(judgements, outcome)?;
        Ok(whole)
    }
}

// Keeps the journal of the circuit that ran a batch.
fn keep_block(alloc: Global, blocks: &mut Vec<Block>, whole: &Whole) -> Result<(), NoMemory>
    requires leaves { whole.now.circuit.board.leaves ≤ most_programs }
    requires replies { length whole.now.ran.replies ≤ most_programs }
    ensures { OnOk result (blocks.new.items ≡ blocks.old.items ++ record { number = whole.now.ran.number; programs = length whole.now.ran.replies; entries = map written_of whole.now.circuit.journal } ∷ []) }
{
    let entries = write_down(alloc, &whole.circuit)?;
    blocks.push(Block {
        number: whole.ran.number,
        programs: whole.ran.replies.len() as u32,
        entries,
    })?;
    Ok(())
}

impl Traced {
    /// No relation, no version but the empty one, and no journal.
    pub fn new(alloc: Global) -> Result<Traced, NoMemory>
        ensures shows { IfOk result (λ session. Shows session.world opening) }
        ensures none { IfOk result (λ session. session.blocks.items ≡ []) }
    {
        let world = World::new(alloc)?;
        Ok(Traced {
            world,
            blocks: Vec::new(alloc),
        })
    }

    // Runs a batch, writes its lines, and keeps its journal.
    fn batch<R: Threads + Wait + Sync, K: Sink, G: Gate>(
        &mut self,
        rt: &R,
        alloc: Global,
        sink: &mut K,
        programs: &[Program],
        options: Options,
        gate: &G,
    ) -> Result<(), Halt>
        requires workers { (1 ≤ options.workers) × (options.workers ≤ most_workers) }
        requires world { IsWorld self.old.world }
        requires within { AllByRecursion IsProgramWithin programs.now }
        requires few { length programs.now ≤ most_programs }
        ensures world { OnOk result (Takes self.old.world (items.Batch programs.now) self.new.world) }
        ensures text { (m : ModelWorld) → Shows self.old.world m → Writes result (K.holds sink.old) (K.holds sink.new) (K.faults sink.old) (K.faults sink.new) (said options.marks m (items.Batch programs.now)) }
        ensures block { OnOk result ((m : ModelWorld) → Shows self.old.world m → KeepsBlock true m (items.Batch programs.now) self.old.blocks.items self.new.blocks.items) }
    {
        let whole = self
            .world
            .run_whole(rt, alloc, programs, options.workers, gate)?;
        let headings = self.world.schema.headings();
        put_ran(sink, programs, &whole.ran, headings, options.marks)?;
        keep_block(alloc, &mut self.blocks, &whole)?;
        Ok(())
    }

    /// Takes the next item of a script: what it answers is written. Where traces are asked for, the journal of a batch is kept.
    pub fn take<R: Threads + Wait + Sync, K: Sink, G: Gate>(
        &mut self,
        rt: &R,
        alloc: Global,
        sink: &mut K,
        item: Item,
        options: Options,
        gate: &G,
    ) -> Result<(), Halt>
        requires workers { (1 ≤ options.workers) × (options.workers ≤ most_workers) }
        requires world { IsWorld self.old.world }
        requires within { IsWithinLimits item }
        ensures world { OnOk result (Takes self.old.world item self.new.world) }
        ensures text { (m : ModelWorld) → Shows self.old.world m → Writes result (K.holds sink.old) (K.holds sink.new) (K.faults sink.old) (K.faults sink.new) (said options.marks m item) }
        ensures block { OnOk result ((m : ModelWorld) → Shows self.old.world m → KeepsBlock options.trace m item self.old.blocks.items self.new.blocks.items) }
    {
        if !options.trace {
            return self.world.take(rt, alloc, sink, item, options, gate);
        }
        match item {
            Item::Batch { programs } => {
                self.batch(rt, alloc, sink, programs.as_slice(), options, gate)
            }
            item => self.world.take(rt, alloc, sink, item, options, gate),
        }
    }
}
