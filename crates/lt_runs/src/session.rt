//! A script's items as they come: batches that follow each other may wait, to be run as one line.
ghost use Rattle.std.specs.Prelude.{◌≡◌, ◌≤◌, ◌<◌, ◌++◌, ◌∷◌, [], length, false, IfOk, OnOk};
ghost use Rattle.std.specs.List.{AllByRecursion};
ghost use Rattle.lt_circuit.specs.Row.{most_segments};
ghost use Rattle.lt_face.specs.Limits.{most_workers};
ghost use Rattle.lt_model.specs.declared.syntax.Item.TheVariants as items;
ghost use Rattle.lt_model.specs.Limits.{IsWithinLimits};
ghost use Rattle.lt_model.specs.Report.{opening, World as ModelWorld};
ghost use Rattle.lt_world.specs.Lines.{items_of, said_all, TakesAll};
ghost use Rattle.lt_runs.specs.Waiting.{AnswersSome, held, IsReady};
ghost use Rattle.lt_world.specs.World.{IsWorld, Shows};
ghost use Rattle.lt_world.specs.Writing.{Writes};

use lt_edges::{Gate, Sink};
use lt_face::NoMemory;
use lt_model::syntax::{Item, ProgramList};
use lt_world::halt::Halt;
use lt_world::options::Options;
use lt_world::tracing::Traced;
use lt_world::world::World;
use std::alloc::Global;
use std::sync::Wait;
use std::thread::Threads;

/// What a script has made so far, and the batches that wait to be run as one line.
#[derive(Drop)]
pub struct Session {
    pub made: Traced,
    pub waiting: Vec<ProgramList>,
}

impl Session {
    /// No relation, no version but the empty one, no journal, and no batch that waits.
    pub fn new(alloc: Global) -> Result<Session, NoMemory>
        ensures shows { IfOk result (λ session. Shows session.made.world opening) }
        ensures none { IfOk result (λ session. session.made.blocks.items ≡ []) }
        ensures waiting { IfOk result (λ session. session.waiting.items ≡ []) }
    {
        let made = Traced::new(alloc)?;
        Ok(Session {
            made,
            waiting: Vec::new(alloc),
        })
    }

    /// Whether a batch waits.
    pub fn has_waiting(&self) -> bool {
        self.waiting.len() > 0
    }

    /// Runs the batches that wait as one line, and writes their lines. One alone is run as a batch.
    pub fn run_waiting<R: Threads + Wait + Sync, K: Sink, G: Gate>(
        &mut self,
        rt: &R,
        alloc: Global,
        sink: &mut K,
        options: Options,
        gate: &G,
    ) -> Result<(), Halt>
        requires workers { (1 ≤ options.workers) × (options.workers ≤ most_workers) }
        requires world { IsWorld self.old.made.world }
        requires within { AllByRecursion IsWithinLimits (held self.old) }
        requires short { length self.old.waiting.items ≤ most_segments }
        ensures world { OnOk result (TakesAll self.old.made.world (held self.old) self.new.made.world) }
        ensures waiting { OnOk result (self.new.waiting.items ≡ []) }
        ensures blocks { OnOk result (self.new.made.blocks ≡ self.old.made.blocks) }
        ensures text { (m : ModelWorld) → Shows self.old.made.world m → Writes result (K.holds sink.old) (K.holds sink.new) (K.faults sink.old) (K.faults sink.new) (said_all options.marks m (held self.old)) }
    {
        run_batches(
            &mut self.made.world,
            rt,
            alloc,
            sink,
            &self.waiting,
            options,
            gate,
        )?;
        self.waiting.clear();
        Ok(())
    }

    // Has a batch wait.
    fn keep(&mut self, programs: ProgramList) -> Result<(), NoMemory>
        ensures waiting { OnOk result (self.new.waiting.items ≡ self.old.waiting.items ++ programs ∷ []) }
        ensures made { self.new.made ≡ self.old.made }
    {
        self.waiting.push(programs)?;
        Ok(())
    }

    // Has a batch wait, and runs the line once it is full.
    fn hold<R: Threads + Wait + Sync, K: Sink, G: Gate>(
        &mut self,
        rt: &R,
        alloc: Global,
        sink: &mut K,
        programs: ProgramList,
        options: Options,
        gate: &G,
    ) -> Result<(), Halt>
        requires workers { (1 ≤ options.workers) × (options.workers ≤ most_workers) }
        requires pipeline { (1 ≤ options.pipeline) × (options.pipeline ≤ most_segments) }
        requires ready { IsReady options self.old }
        requires within { IsWithinLimits (items.Batch programs) }
        requires untraced { options.trace ≡ false }
        ensures ready { OnOk result (IsReady options self.new) }
        ensures answers { (m : ModelWorld) → Shows self.old.made.world m → AnswersSome result options m (held self.old ++ items.Batch programs ∷ []) self.old self.new (K.holds sink.old) (K.holds sink.new) (K.faults sink.old) (K.faults sink.new) }
    {
        self.keep(programs)?;
        if self.waiting.len() < options.pipeline as usize {
            return Ok(());
        }
        self.run_waiting(rt, alloc, sink, options, gate)
    }

    // Takes an item behind the batches that wait: they are run before.
    fn take_behind<R: Threads + Wait + Sync, K: Sink, G: Gate>(
        &mut self,
        rt: &R,
        alloc: Global,
        sink: &mut K,
        item: Item,
        options: Options,
        gate: &G,
    ) -> Result<(), Halt>
        requires workers { (1 ≤ options.workers) × (options.workers ≤ most_workers) }
        requires pipeline { (1 ≤ options.pipeline) × (options.pipeline ≤ most_segments) }
        requires ready { IsReady options self.old }
        requires within { IsWithinLimits item }
        requires untraced { options.trace ≡ false }
        ensures ready { OnOk result (IsReady options self.new) }
        ensures answers { (m : ModelWorld) → Shows self.old.made.world m → AnswersSome result options m (held self.old ++ item ∷ []) self.old self.new (K.holds sink.old) (K.holds sink.new) (K.faults sink.old) (K.faults sink.new) }
    {
        self.run_waiting(rt, alloc, sink, options, gate)?;
        self.made.take(rt, alloc, sink, item, options, gate)
    }

    /// Takes the next item of a script. What it answers is written, behind what the batches before it do that waited; a batch itself
    /// may wait for the next. Where traces are asked for no batch waits.
    pub fn take<R: Threads + Wait + Sync, K: Sink, G: Gate>(
        &mut self,
        rt: &R,
        alloc: Global,
        sink: &mut K,
        item: Item,
        options: Options,
        gate: &G,
    ) -> Result<(), Halt>
        requires workers { (1 ≤ options.workers) × (options.workers ≤ most_workers) }
        requires pipeline { (1 ≤ options.pipeline) × (options.pipeline ≤ most_segments) }
        requires ready { IsReady options self.old }
        requires within { IsWithinLimits item }
        ensures ready { OnOk result (IsReady options self.new) }
        ensures answers { (m : ModelWorld) → Shows self.old.made.world m → AnswersSome result options m (held self.old ++ item ∷ []) self.old self.new (K.holds sink.old) (K.holds sink.new) (K.faults sink.old) (K.faults sink.new) }
    {
        if !options.waits() {
            return self.made.take(rt, alloc, sink, item, options, gate);
        }
        match item {
            Item::Batch { programs } => self.hold(rt, alloc, sink, programs, options, gate),
            item => self.take_behind(rt, alloc, sink, item, options, gate),
        }
    }
}

// Runs batches as one line, and one alone as a batch, and writes their lines. Where there is none nothing is done.
fn run_batches<R: Threads + Wait + Sync, K: Sink, G: Gate>(
    world: &mut World,
    rt: &R,
    alloc: Global,
    sink: &mut K,
    batches: &[ProgramList],
    options: Options,
    gate: &G,
) -> Result<(), Halt>
    requires workers { (1 ≤ options.workers) × (options.workers ≤ most_workers) }
    requires world { IsWorld world.old }
    requires within { AllByRecursion IsWithinLimits (items_of batches.now) }
    requires short { length batches.now ≤ most_segments }
    ensures world { OnOk result (TakesAll world.old (items_of batches.now) world.new) }
    ensures text { (m : ModelWorld) → Shows world.old m → Writes result (K.holds sink.old) (K.holds sink.new) (K.faults sink.old) (K.faults sink.new) (said_all options.marks m (items_of batches.now)) }
{
    if batches.len() == 0 {
        return Ok(());
    }
    if batches.len() == 1 {
        let programs = &batches[0];
        return world.batch(rt, alloc, sink, programs.as_slice(), options, gate);
    }
    world.line(rt, alloc, sink, batches, options, gate)
}
