//! A script that is run by journals that were written down.
ghost use Rattle.std.specs.Prelude.{◌≡◌, ◌⊎◌, ◌≤◌, ◌<◌, ◌↔◌, ℕ, List, length, true, slice_get, IsTrue, IfSome, IfNone, IfOk, IfErr, OnOk, OnErr};
ghost use Rattle.std.specs.List.{AllByRecursion};
ghost use Rattle.std.specs.Io.KnownBytes.{Keeps};
ghost use Rattle.lt_face.specs.Limits.{most_programs};
ghost use Rattle.lt_model.specs.declared.syntax.Item.TheVariants as items;
ghost use Rattle.lt_model.specs.Limits.{IsProgramWithin, IsWithinLimits};
ghost use Rattle.lt_model.specs.Report.{World as ModelWorld};
ghost use Rattle.lt_batch.specs.declared.replaying.Written.{Written as WrittenType};
ghost use Rattle.lt_world.specs.declared.replaying.Misstep.TheVariants as missteps;
ghost use Rattle.lt_world.specs.Batches.{IsRun};
ghost use Rattle.lt_world.specs.Replays.{begun_at, misstep_at, misstep_of, HasJournal, IsRightAt, IsRightItem, IsWrongAt, IsWrongItem, ReplayWrites};
ghost use Rattle.lt_world.specs.World.{IsWorld, said, Shows, Takes};

use crate::batch::{Ran, good_ones, put_ran};
use crate::halt::Halt;
use crate::world::World;
use lt_batch::{ReplayFault, Written, replay_batch};
use lt_blocks::Block;
use lt_edges::{Failed, Sink};
use lt_face::NoMemory;
use lt_model::syntax::{Item, Program};
use std::alloc::Global;
use std::thread::Threads;

/// Why an item isn't taken: the block of its batch isn't right at this place, or it can't be told.
#[derive(Clone, Copy, Debug, PartialEq, Eq)]
pub enum Misstep {
    Bad { place: u64 },
    NoMemory,
    Failed,
}

impl From<NoMemory> for Misstep {
    ghost from_gives = { λ _ e. e ≡ missteps.NoMemory };

    fn from(_: NoMemory) -> Misstep {
        Misstep::NoMemory
    }
}

impl From<Failed> for Misstep {
    ghost from_gives = { λ _ e. e ≡ missteps.Failed };

    fn from(_: Failed) -> Misstep {
        Misstep::Failed
    }
}

impl From<Halt> for Misstep {
    ghost from_gives = { λ halt e. e ≡ misstep_of halt };

    fn from(halt: Halt) -> Misstep {
        match halt {
            Halt::NoMemory => Misstep::NoMemory,
            Halt::Failed => Misstep::Failed,
        }
    }
}

impl From<ReplayFault> for Misstep {
    ghost from_gives = { λ fault e. e ≡ misstep_at fault };

    fn from(fault: ReplayFault) -> Misstep {
        match fault {
            ReplayFault::Entry { e } => Misstep::Bad { place: e },
            ReplayFault::NoMemory => Misstep::NoMemory,
        }
    }
}

// The journal of the batch with this number, from 1 on, and so many programs without a code, where the block at its place is its.
fn journal_of(blocks: &[Block], number: u64, programs: usize) -> Option<&[Written]>
    requires { 1 ≤ number }
    ensures some { IfSome result (λ entries. HasJournal blocks.now number programs entries.now) }
    ensures none { IfNone result ((entries : List WrittenType) → HasJournal blocks.now number programs entries → ⊥) }
{
    let Some(block) = blocks.get((number - 1) as usize) else {
        return None;
    };
    let is_of_batch = block.number == number;
    if !is_of_batch {
        return None;
    }
    let has_programs = block.programs as usize == programs;
    if !has_programs {
        return None;
    }
    Some(block.entries.as_slice())
}

impl World {
    /// Runs a batch by the journal of its block, which stands at its place among these, and makes its version. Where the block isn't
    /// right nothing is done.
    pub fn replay<R: Threads + Sync>(
        &mut self,
        rt: &R,
        alloc: Global,
        programs: &[Program],
        blocks: &[Block],
    ) -> Result<Ran, Misstep>
        requires world { IsWorld self.old }
        requires within { AllByRecursion IsProgramWithin programs.now }
        requires few { length programs.now ≤ most_programs }
        ensures ran { IfOk result (λ ran. IsRun self.old programs.now true ran) }
        ensures right { IfOk result (λ _. (m : ModelWorld) → Shows self.old m → IsRightAt (begun_at m programs.now) (slice_get blocks.now (length m.versions))) }
        ensures world { OnOk result (Takes self.old (items.Batch programs.now) self.new) }
        ensures schema { OnOk result (self.new.schema ≡ self.old.schema) }
        ensures wrong { IfErr result (λ misstep. (place : ℕ) → misstep ≡ missteps.Bad place → (m : ModelWorld) → Shows self.old m → IsWrongAt (begun_at m programs.now) (slice_get blocks.now (length m.versions)) place) }
        ensures unwritten { IfErr result (λ misstep. misstep ≡ missteps.Failed → ⊥) }
        ensures kept_versions { OnErr result (self.new.versions ≡ self.old.versions) }
    {
        let judgements = self.schema.judge_all(alloc, programs)?;
        let good = good_ones(alloc, &judgements)?;
        let number = self.next_number();
        let Some(entries) = journal_of(blocks, number, good.len()) else {
            return Err(Misstep::Bad { place: 0 });
        };
        let outcome = replay_batch(rt, alloc, &self.database, &good, entries)?;
        let whole = self.keep_outcome(judgements, outcome)?;
        Ok(whole.ran)
    }
}

/// What a script has made so far, and the blocks of its batches.
#[derive(Drop)]
pub struct Replayed {
    pub world: World,
    pub blocks: Vec<Block>,
}

impl Replayed {
    /// The number of the batch that comes next.
    pub fn next_batch(&self) -> u64
        ensures { result ≡ length self.now.world.versions }
    {
        self.world.next_number()
    }

    /// Whether there is a block at the place of the batch that comes next.
    pub fn has_next_block(&self) -> bool
        requires { IsWorld self.now.world }
        ensures { (m : ModelWorld) → Shows self.now.world m → IsTrue result ↔ (length m.versions < length self.now.blocks.items) }
    {
        (self.next_batch() as usize) <= self.blocks.len()
    }

    // Runs a batch by its block and writes its lines.
    fn batch<R: Threads + Sync, K: Sink>(
        &mut self,
        rt: &R,
        alloc: Global,
        sink: &mut K,
        programs: &[Program],
        marks: bool,
    ) -> Result<(), Misstep>
        requires world { IsWorld self.old.world }
        requires within { AllByRecursion IsProgramWithin programs.now }
        requires few { length programs.now ≤ most_programs }
        ensures world { OnOk result (Takes self.old.world (items.Batch programs.now) self.new.world) }
        ensures blocks { self.new.blocks ≡ self.old.blocks }
        ensures right { OnOk result ((m : ModelWorld) → Shows self.old.world m → IsRightAt (begun_at m programs.now) (slice_get self.old.blocks.items (length m.versions))) }
        ensures wrong { IfErr result (λ misstep. (place : ℕ) → misstep ≡ missteps.Bad place → (m : ModelWorld) → Shows self.old.world m → IsWrongAt (begun_at m programs.now) (slice_get self.old.blocks.items (length m.versions)) place) }
        ensures kept { IfErr result (λ misstep. (place : ℕ) → misstep ≡ missteps.Bad place → self.new.world.versions ≡ self.old.world.versions) }
        ensures text { (m : ModelWorld) → Shows self.old.world m → ReplayWrites result (K.holds sink.old) (K.holds sink.new) (K.faults sink.old) (K.faults sink.new) (said marks m (items.Batch programs.now)) }
        ensures part { OnErr result ((m : ModelWorld) → Shows self.old.world m → IsRightAt (begun_at m programs.now) (slice_get self.old.blocks.items (length m.versions)) ⊎ Keeps (K.holds sink.old) (K.holds sink.new)) }
    {
        let ran = self.world.replay(rt, alloc, programs, &self.blocks)?;
        put_ran(sink, programs, &ran, self.world.schema.headings(), marks)?;
        Ok(())
    }

    /// Takes the next item of a script: what it answers is written. Where it is a batch whose block isn't right, nothing is.
    pub fn take<R: Threads + Sync, K: Sink>(
        &mut self,
        rt: &R,
        alloc: Global,
        sink: &mut K,
        item: Item,
        marks: bool,
    ) -> Result<(), Misstep>
        requires world { IsWorld self.old.world }
        requires within { IsWithinLimits item }
        ensures world { OnOk result (Takes self.old.world item self.new.world) }
        ensures blocks { self.new.blocks ≡ self.old.blocks }
        ensures right { OnOk result ((m : ModelWorld) → Shows self.old.world m → IsRightItem m item self.old.blocks.items) }
        ensures wrong { IfErr result (λ misstep. (place : ℕ) → misstep ≡ missteps.Bad place → (m : ModelWorld) → Shows self.old.world m → IsWrongItem m item self.old.blocks.items place) }
        ensures kept { IfErr result (λ misstep. (place : ℕ) → misstep ≡ missteps.Bad place → self.new.world.versions ≡ self.old.world.versions) }
        ensures text { (m : ModelWorld) → Shows self.old.world m → ReplayWrites result (K.holds sink.old) (K.holds sink.new) (K.faults sink.old) (K.faults sink.new) (said marks m item) }
        ensures part { OnErr result ((m : ModelWorld) → Shows self.old.world m → IsRightItem m item self.old.blocks.items ⊎ Keeps (K.holds sink.old) (K.holds sink.new)) }
    {
        match item {
            Item::Relation { name, kinds, keys } => {
                self.world.relation(sink, name, kinds, keys)?;
                Ok(())
            }
            Item::Batch { programs } => self.batch(rt, alloc, sink, programs.as_slice(), marks),
            Item::Show { name, at } => {
                self.world.show(alloc, sink, &name, at)?;
                Ok(())
            }
        }
    }
}
