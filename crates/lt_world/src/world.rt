//! What a script has made so far.
ghost use Rattle.std.specs.Prelude.{◌≡◌, ◌≤◌, ◌++◌, ◌∷◌, [], length, map, Bool, IfOk, OnOk, OnErr};
ghost use Rattle.std.specs.List.{AllByRecursion};
ghost use Rattle.std.specs.Option.{option_copied, option_map_or};
ghost use Rattle.lt_face.specs.Limits.{most_programs, most_workers};
ghost use Rattle.lt_model.specs.declared.syntax.Item.TheVariants as items;
ghost use Rattle.lt_model.specs.declared.syntax.Program.{Program as ProgramType};
ghost use Rattle.lt_model.specs.Check.{checked};
ghost use Rattle.lt_model.specs.Limits.{IsWithinLimits, IsProgramWithin};
ghost use Rattle.lt_model.specs.Report.{bad_text, opening};
ghost use Rattle.lt_report.specs.Puts.{Puts};
ghost use Rattle.lt_world.specs.Versions.{database_of};
ghost use Rattle.lt_world.specs.Writing.{Writes};

use crate::batch::{Judgement, Ran, good_ones, put_ran};
use crate::halt::Halt;
use crate::options::Options;
use crate::prepared::Prepared;
use lt_base::Database;
use lt_batch::{Folded, Pace, fold_batch};
use lt_check::schema::DeclareFault;
use lt_edges::{Failed, Gate, Sink};
use lt_face::NoMemory;
use lt_model::kind::KindList;
use lt_model::name::Name;
use lt_model::syntax::{Item, Program};
use lt_report::{put_bad_item, put_rows};
use lt_versions::Versions;
use std::alloc::Global;
use std::sync::Wait;
use std::thread::Threads;

/// The relations by name, the database, and its versions by number. Version 0 has no relations.
#[derive(Drop)]
pub struct World {
    pub schema: Prepared,
    pub database: Database,
    pub versions: Versions,
    /// How dear programs showed to be. No clause speaks of it.
    pub pace: Pace,
}

// The database of now, or of a version that is there.
fn database_at<'a>(
    now: &'a Database,
    versions: &'a Versions,
    at: Option<u64>,
) -> Option<&'a Database>
    ensures { option_copied result ≡ database_of now.now versions.now at }
{
    match at {
        None => Some(now),
        Some(version) => versions.at(version),
    }
}

impl World {
    ghost use Rattle.lt_model.specs.Report as model;
    ghost use Rattle.lt_world.specs.Batches.{checked_of, IsRun};
    ghost use Rattle.lt_world.specs.World.{IsWorld, said, Shows, ShowsNow, Takes};

    /// No relation, and no version but the empty one.
    pub fn new(alloc: Global) -> Result<World, NoMemory>
        ensures { IfOk result (λ world. Shows world opening) }
    {
        let versions = Versions::new(alloc)?;
        Ok(World {
            schema: Prepared::new(alloc),
            database: Database::empty(alloc),
            versions,
            pace: Pace::start(),
        })
    }

    /// A relation more, without rows, or the code that the item has.
    pub fn declare(
        &mut self,
        name: Name,
        kinds: KindList,
        keys: u32,
    ) -> Result<Option<u32>, NoMemory>
        requires { IsWithinLimits (items.Relation name kinds keys) }
        ensures world { OnOk result (Takes self.old (items.Relation name kinds keys) self.new) }
        ensures code { IfOk result (λ code. (marks : Bool) (m : model.World) → Shows self.old m → said marks m (items.Relation name kinds keys) ≡ option_map_or bad_text code []) }
    {
        let width = kinds.as_slice().len();
        match self.schema.declare(name, kinds, keys) {
            Ok(_) => {
                self.database = self.database.declared(width)?;
                Ok(None)
            }
            Err(DeclareFault::Taken) => Ok(Some(24)),
            Err(DeclareFault::Full) => Ok(Some(25)),
            Err(DeclareFault::NoMemory) => Err(NoMemory),
        }
    }

    /// Takes a declaration. The code that it has is written.
    pub fn relation<K: Sink>(
        &mut self,
        sink: &mut K,
        name: Name,
        kinds: KindList,
        keys: u32,
    ) -> Result<(), Halt>
        requires { IsWithinLimits (items.Relation name kinds keys) }
        ensures world { OnOk result (Takes self.old (items.Relation name kinds keys) self.new) }
        ensures text { (marks : Bool) (m : model.World) → Shows self.old m → Writes result (K.holds sink.old) (K.holds sink.new) (K.faults sink.old) (K.faults sink.new) (said marks m (items.Relation name kinds keys)) }
    {
        let code = self.declare(name, kinds, keys)?;
        match code {
            Some(code) => {
                put_bad_item(sink, code)?;
                Ok(())
            }
            None => Ok(()),
        }
    }

    /// Writes what a relation holds, or what it held at a version.
    pub fn show<K: Sink>(
        &self,
        alloc: Global,
        sink: &mut K,
        name: &Name,
        at: Option<u64>,
    ) -> Result<(), Failed>
        requires { IsWorld self.now }
        ensures { (marks : Bool) (m : model.World) → Shows self.now m → Puts result (K.holds sink.old) (K.holds sink.new) (K.faults sink.old) (K.faults sink.new) (said marks m (items.Show name.now at)) }
    {
        let Some(number) = self.schema.find(name) else {
            return put_bad_item(sink, 20);
        };
        let Some(database) = database_at(&self.database, &self.versions, at) else {
            return put_bad_item(sink, 26);
        };
        let columns = self.schema.columns(name);
        let rows = database.rows(number);
        put_rows(sink, alloc, name, at, columns, rows)
    }

    /// The number that the next version has.
    pub fn next_number(&self) -> u64
        ensures { result ≡ length self.now.versions }
    {
        let (last, _) = self.versions.latest();
        last + 1
    }

    /// Makes this the database and its next version.
    pub fn keep(&mut self, database: Database) -> Result<(), NoMemory>
        ensures database { OnOk result (self.new.database ≡ database) }
        ensures versions { OnOk result (self.new.versions ≡ self.old.versions ++ database ∷ []) }
        ensures schema { OnOk result (self.new.schema ≡ self.old.schema) }
        ensures kept_database { OnErr result (self.new.database ≡ self.old.database) }
        ensures kept_versions { OnErr result (self.new.versions ≡ self.old.versions) }
    {
        let version = database.share()?;
        self.versions.publish(version)?;
        self.database = database;
        Ok(())
    }

    /// Gives up the versions that were made; those that come are numbered from 1 on.
    pub fn forget_versions(&mut self, alloc: Global) -> Result<(), NoMemory>
        ensures { OnOk result ((m : model.World) → Shows self.old m → ShowsNow self.new m) }
    {
        self.versions = Versions::new(alloc)?;
        Ok(())
    }

    /// Runs a batch by so many workers and makes its version. What its programs wrote is kept, where the marks are asked for. After
    /// want of memory the database and the versions are as before.
    pub fn run<R: Threads + Wait + Sync, G: Gate>(
        &mut self,
        rt: &R,
        alloc: Global,
        programs: &[Program],
        marks: bool,
        workers: u32,
        gate: &G,
    ) -> Result<Ran, NoMemory>
        requires workers { (1 ≤ workers) × (workers ≤ most_workers) }
        requires world { IsWorld self.old }
        requires within { AllByRecursion IsProgramWithin programs.now }
        requires few { length programs.now ≤ most_programs }
        ensures ran { IfOk result (λ ran. IsRun self.old programs.now marks ran) }
        ensures world { OnOk result (Takes self.old (items.Batch programs.now) self.new) }
        ensures schema { OnOk result (self.new.schema ≡ self.old.schema) }
        ensures kept_database { OnErr result (self.new.database ≡ self.old.database) }
        ensures kept_versions { OnErr result (self.new.versions ≡ self.old.versions) }
    {
        let judgements = self.schema.judge_all(alloc, programs)?;
        let good = good_ones(alloc, &judgements)?;
        let folded = fold_batch(
            rt,
            alloc,
            &self.database,
            &good,
            marks,
            workers,
            gate,
            &mut self.pace,
        )?;
        let Folded {
            replies,
            effects,
            db,
        } = folded;
        let number = self.next_number();
        self.keep(db)?;
        Ok(Ran {
            number,
            judgements,
            replies,
            effects,
        })
    }

    // Runs a batch and writes its lines; what the check of each program gave.
    fn answer<R: Threads + Wait + Sync, K: Sink, G: Gate>(
        &mut self,
        rt: &R,
        alloc: Global,
        sink: &mut K,
        programs: &[Program],
        options: Options,
        gate: &G,
    ) -> Result<Vec<Judgement>, Halt>
        requires workers { (1 ≤ options.workers) × (options.workers ≤ most_workers) }
        requires world { IsWorld self.old }
        requires within { AllByRecursion IsProgramWithin programs.now }
        requires few { length programs.now ≤ most_programs }
        ensures checked { IfOk result (λ judgements. map checked_of judgements.items ≡ map (λ (p : ProgramType). checked p self.new.schema) programs.now) }
        ensures world { OnOk result (Takes self.old (items.Batch programs.now) self.new) }
        ensures text { (m : model.World) → Shows self.old m → Writes result (K.holds sink.old) (K.holds sink.new) (K.faults sink.old) (K.faults sink.new) (said options.marks m (items.Batch programs.now)) }
    {
        let ran = self.run(rt, alloc, programs, options.marks, options.workers, gate)?;
        put_ran(sink, programs, &ran, self.schema.headings(), options.marks)?;
        let Ran { judgements, .. } = ran;
        Ok(judgements)
    }

    /// Runs a batch and writes its lines.
    pub fn batch<R: Threads + Wait + Sync, K: Sink, G: Gate>(
        &mut self,
        rt: &R,
        alloc: Global,
        sink: &mut K,
        programs: &[Program],
        options: Options,
        gate: &G,
    ) -> Result<(), Halt>
        requires workers { (1 ≤ options.workers) × (options.workers ≤ most_workers) }
        requires world { IsWorld self.old }
        requires within { AllByRecursion IsProgramWithin programs.now }
        requires few { length programs.now ≤ most_programs }
        ensures world { OnOk result (Takes self.old (items.Batch programs.now) self.new) }
        ensures text { (m : model.World) → Shows self.old m → Writes result (K.holds sink.old) (K.holds sink.new) (K.faults sink.old) (K.faults sink.new) (said options.marks m (items.Batch programs.now)) }
    {
        let _judgements = self.answer(rt, alloc, sink, programs, options, gate)?;
        Ok(())
    }

    /// Takes the next item of a script: what it answers is written.
    pub fn take<R: Threads + Wait + Sync, K: Sink, G: Gate>(
        &mut self,
        rt: &R,
        alloc: Global,
        sink: &mut K,
        item: Item,
        options: Options,
        gate: &G,
    ) -> Result<(), Halt>
        requires workers { (1 ≤ options.workers) × (options.workers ≤ most_workers) }
        requires world { IsWorld self.old }
        requires within { IsWithinLimits item }
        ensures world { OnOk result (Takes self.old item self.new) }
        ensures text { (m : model.World) → Shows self.old m → Writes result (K.holds sink.old) (K.holds sink.new) (K.faults sink.old) (K.faults sink.new) (said options.marks m item) }
    {
        match item {
            Item::Relation { name, kinds, keys } => self.relation(sink, name, kinds, keys),
            Item::Batch { programs } => {
                let judgements = self.answer(rt, alloc, sink, programs.as_slice(), options, gate)?;
                self.schema.retire(programs, judgements);
                Ok(())
            }
            Item::Show { name, at } => {
                self.show(alloc, sink, &name, at)?;
                Ok(())
            }
        }
    }
}
