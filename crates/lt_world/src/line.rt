//! Batches that follow each other, run as one line.
ghost use Rattle.std.specs.Prelude.{◌≡◌, ◌≤◌, ◌<◌, ◌+◌, ◌^◌, ◌++◌, List, length, map, IfOk, OnOk};
ghost use Rattle.std.specs.List.{AllByRecursion};
ghost use Rattle.lt_face.specs.Limits.{most_programs, most_workers};
ghost use Rattle.lt_face.specs.State.{State};
ghost use Rattle.lt_model.specs.declared.normal.Stmt.{Stmt};
ghost use Rattle.lt_model.specs.Check.{Checked as CheckedType};
ghost use Rattle.lt_model.specs.Fits.{Fits, FitMarks};
ghost use Rattle.lt_model.specs.Limits.{IsWithinLimits};
ghost use Rattle.lt_model.specs.Report.{World as ModelWorld};
ghost use Rattle.lt_base.specs.Tables.{state_of};
ghost use Rattle.lt_check.specs.States.{IsStateOf};
ghost use Rattle.lt_circuit.specs.Row.{most_segments};
ghost use Rattle.lt_batch.specs.Line.{last_state, line_effects, line_replies, line_states, programs_of};
ghost use Rattle.lt_program.specs.Run.{AreReplied};
ghost use Rattle.lt_report.specs.Puts.{Puts};
ghost use Rattle.lt_world.specs.Batches.{FitsIfGood};
ghost use Rattle.lt_world.specs.Lines.{all_checked, checks_of, goods_of, HaveAnswers, IsLineRun, items_of, line_text, said_all, TakesAll};
ghost use Rattle.lt_world.specs.World.{IsWorld, Shows};
ghost use Rattle.lt_world.specs.Writing.{Writes};

use crate::batch::{Judgement, good_ones, put_answers};
use crate::halt::Halt;
use crate::options::Options;
use crate::prepared::Prepared;
use crate::publishing::{Publisher, Start};
use crate::world::World;
use lt_base::Database;
use lt_batch::{LineEffects, LineOutcome, LineReplies, ProgList, run_line};
use lt_edges::{Failed, Gate, Sink};
use lt_face::NoMemory;
use lt_model::name::Headings;
use lt_model::syntax::ProgramList;
use lt_versions::Versions;
use std::alloc::Global;
use std::marker::Brand;
use std::mem;
use std::sync::Wait;
use std::thread::Threads;

/// What the batches of a line did: the number of the first, what the check of each program gave, batch after batch, and of those
/// without a code the replies and marks.
#[derive(Drop)]
pub struct LineRan {
    pub number: u64,
    pub judgements: Vec<Vec<Judgement>>,
    pub replies: LineReplies,
    pub effects: LineEffects,
}

// Checks the programs of each batch.
fn line_judged(
    alloc: Global,
    batches: &[ProgramList],
    schema: &mut Prepared,
) -> Result<Vec<Vec<Judgement>>, NoMemory>
    requires { AllByRecursion IsWithinLimits (items_of batches.now) }
    ensures checked { IfOk result (λ judged. checks_of judged.items ≡ all_checked schema.old batches.now) }
    ensures fit { IfOk result (λ judged. (state : State) → IsStateOf schema.old state → AllByRecursion (λ (cs : List CheckedType). AllByRecursion (FitsIfGood state) cs) (checks_of judged.items)) }
    ensures same { schema.new ≡ schema.old }
{
    let mut all = Vec::new(alloc);
    for programs in batches {
        let judgements = schema.judge_all(alloc, programs.as_slice())?;
        all.push(judgements)?;
    }
    Ok(all)
}

// The programs of each batch that have no code.
fn line_goods(alloc: Global, judged: &[Vec<Judgement>]) -> Result<Vec<ProgList>, NoMemory>
    ensures { IfOk result (λ goods. programs_of goods.items ≡ goods_of judged.now) }
{
    let mut all = Vec::new(alloc);
    for judgements in judged {
        let good = good_ones(alloc, judgements)?;
        all.push(good)?;
    }
    Ok(all)
}

// Runs batches as one line on the database. The version of each is published as soon as it is final. After want of memory those of
// the first few may have been.
fn run_published<B: Start + Send, R: Threads + Wait + Sync, G: Gate>(
    rt: &R,
    alloc: Global,
    database: &Database,
    versions: &mut Versions,
    batches: &[ProgList],
    workers: u32,
    gate: &G,
) -> Result<LineOutcome, NoMemory>
    requires state { state_of database.now ≡ B.state }
    requires versions { map state_of versions.old ≡ B.versions }
    requires short { length batches.now ≤ most_segments }
    requires few { AllByRecursion (λ (programs : List (List Stmt)). length programs ≤ most_programs) (programs_of batches.now) }
    requires workers { (1 ≤ workers) × (workers ≤ most_workers) }
    requires fit { AllByRecursion (AllByRecursion (Fits (state_of database.now))) (programs_of batches.now) }
    ensures versions { OnOk result (map state_of versions.new ≡ map state_of versions.old ++ line_states (programs_of batches.now) (state_of database.now)) }
    ensures replies { IfOk result (λ out. out.replies ≡ line_replies (programs_of batches.now) (state_of database.now)) }
    ensures effects { IfOk result (λ out. out.effects ≡ line_effects (programs_of batches.now) (state_of database.now)) }
    ensures state { IfOk result (λ out. state_of out.db ≡ last_state (programs_of batches.now) (state_of database.now)) }
    ensures fit { IfOk result (λ out. AllByRecursion (AllByRecursion (FitMarks (state_of database.now))) out.effects) }
    ensures printed { IfOk result (λ out. AllByRecursion (AllByRecursion AreReplied) out.replies) }
{
    let none = Versions::new(alloc)?;
    let first = database.share()?;
    let until_now = mem::replace(versions, none);
    let mut publisher: Publisher<B> = Publisher::new(alloc, first, until_now);
    let result = run_line(rt, alloc, database, batches, workers, gate, &mut publisher);
    *versions = publisher.into_versions();
    let outcome = result?;
    Ok(outcome)
}

// The lines of batches in their order.
fn put_line<K: Sink>(
    sink: &mut K,
    batches: &[ProgramList],
    ran: &LineRan,
    headings: &Headings,
    marks: bool,
) -> Result<(), Failed>
    requires few { ran.now.number + length batches.now < 2 ^ 64 }
    requires answers { HaveAnswers headings.now batches.now ran.now.judgements.items ran.now.replies ran.now.effects }
    ensures { Puts result (K.holds sink.old) (K.holds sink.new) (K.faults sink.old) (K.faults sink.new) (line_text marks headings.now ran.now.number batches.now (checks_of ran.now.judgements.items) ran.now.replies ran.now.effects) }
{
    let judgements = ran.judgements.as_slice();
    let replies = ran.replies.as_slice();
    let effects = ran.effects.as_slice();
    for (i, programs) in batches.iter().enumerate() {
        put_answers(
            sink,
            ran.number + i as u64,
            programs.as_slice(),
            &judgements[i],
            &replies[i],
            &effects[i],
            headings,
            marks,
        )?;
    }
    Ok(())
}

impl World {
    // Runs batches as one line and makes their versions.
    fn run_batches<R: Threads + Wait + Sync, G: Gate>(
        &mut self,
        rt: &R,
        alloc: Global,
        batches: &[ProgramList],
        workers: u32,
        gate: &G,
    ) -> Result<LineRan, NoMemory>
        requires workers { (1 ≤ workers) × (workers ≤ most_workers) }
        requires world { IsWorld self.old }
        requires within { AllByRecursion IsWithinLimits (items_of batches.now) }
        requires short { length batches.now ≤ most_segments }
        ensures ran { IfOk result (λ ran. IsLineRun self.old batches.now ran) }
        ensures world { OnOk result (TakesAll self.old (items_of batches.now) self.new) }
        ensures schema { OnOk result (self.new.schema ≡ self.old.schema) }
    {
        let judgements = line_judged(alloc, batches, &mut self.schema)?;
        let goods = line_goods(alloc, &judgements)?;
        let outcome = run_published::<Brand, R, G>(
            rt,
            alloc,
            &self.database,
            &mut self.versions,
            &goods,
            workers,
            gate,
        )?;
        let LineOutcome {
            replies,
            effects,
            db,
            ..
        } = outcome;
        self.database = db;
        let next = self.next_number();
        Ok(LineRan {
            number: next - batches.len() as u64,
            judgements,
            replies,
            effects,
        })
    }

    /// Runs batches that follow each other as one line, and writes their lines.
    pub fn line<R: Threads + Wait + Sync, K: Sink, G: Gate>(
        &mut self,
        rt: &R,
        alloc: Global,
        sink: &mut K,
        batches: &[ProgramList],
        options: Options,
        gate: &G,
    ) -> Result<(), Halt>
        requires workers { (1 ≤ options.workers) × (options.workers ≤ most_workers) }
        requires world { IsWorld self.old }
        requires within { AllByRecursion IsWithinLimits (items_of batches.now) }
        requires short { length batches.now ≤ most_segments }
        ensures world { OnOk result (TakesAll self.old (items_of batches.now) self.new) }
        ensures text { (m : ModelWorld) → Shows self.old m → Writes result (K.holds sink.old) (K.holds sink.new) (K.faults sink.old) (K.faults sink.new) (said_all options.marks m (items_of batches.now)) }
    {
        let ran = self.run_batches(rt, alloc, batches, options.workers, gate)?;
        put_line(sink, batches, &ran, self.schema.headings(), options.marks)?;
        Ok(())
    }
}
