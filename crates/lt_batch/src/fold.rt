//! The run of a batch in order: each program on the database that those before it left, which takes its marks as they come. Where the
//! programs show to be dear and other workers are there, the next ones are run ahead by all of them.
ghost use Rattle.std.specs.Prelude.{◌≡◌, ◌<◌, ◌≤◌, ◌++◌, ◌∷◌, [], ℕ, true, map, take, length, IfOk, IfSome, OnOk};
ghost use Rattle.std.specs.Arc.{arc_value};
ghost use Rattle.std.specs.List.{AllByRecursion};
ghost use Rattle.lt_face.specs.Limits.{most_programs, most_workers};
ghost use Rattle.lt_model.specs.Fits.{IsWide, Fits, FitMarks};
ghost use Rattle.lt_base.specs.Tables.{state_of};
ghost use Rattle.lt_program.specs.Alone.{kept_if};
ghost use Rattle.lt_program.specs.Run.{AreReplied};
ghost use Rattle.lt_program.specs.Tally.{HasIndexes};
ghost use Rattle.lt_batch.specs.Batch.{serial_replies, serial_effects, serial_state};
ghost use Rattle.lt_batch.specs.Folding.{AreAhead, HasGone, HasRun, IsAlike, IsEarly, IsRanOn};

use crate::ahead::{Ahead, Early, corrected, let_go, run_ahead};
use crate::batch::run_batch;
use crate::outcome::{Effects, Outcome, Replies};
use crate::pace::Pace;
use crate::round::Round;
use lt_base::Database;
use lt_delta::Marks;
use lt_edges::Gate;
use lt_face::items::Items;
use lt_face::memory::NoMemory;
use lt_face::moves::Moves;
use lt_program::{Ran, has_indexes, has_long_join, indexed, run_in_place, run_split_in_place};
use lt_query::Planned;
use std::alloc::Global;
use std::sync::{Arc, Wait};
use std::thread::Threads;

/// What a batch answered and wrote, and the database that it left.
#[derive(Drop)]
pub struct Folded {
    pub replies: Replies,
    pub effects: Effects,
    pub db: Database,
}

/// A batch so far.
#[derive(Drop)]
struct Fold {
    replies: Replies,
    effects: Effects,
    db: Database,
    keeps: bool,
    pace: Pace,
}

impl Fold {
    /// No program yet.
    fn new(
        alloc: Global,
        db: &Database,
        count: usize,
        keeps: bool,
        pace: Pace,
    ) -> Result<Fold, NoMemory>
        ensures replies { IfOk result (λ fold. fold.replies ≡ []) }
        ensures effects { IfOk result (λ fold. fold.effects ≡ []) }
        ensures db { IfOk result (λ fold. fold.db ≡ db.now) }
        ensures keeps { IfOk result (λ fold. fold.keeps ≡ keeps) }
    {
        let replies = Vec::with_capacity(alloc, count)?;
        let effects = Vec::with_capacity(alloc, count)?;
        let db = db.share()?;
        Ok(Fold {
            replies: Items::from_vec(replies),
            effects: Items::from_vec(effects),
            db,
            keeps,
            pace,
        })
    }

    /// Makes the indexes that the program needs, where they lack.
    fn index<R: Threads + Sync>(&mut self, rt: &R, prog: &Planned) -> Result<(), NoMemory>
        requires { Fits (state_of self.old.db) prog.now }
        ensures indexes { OnOk result (HasIndexes self.new.db prog.now) }
        ensures alike { OnOk result (IsAlike self.old self.new) }
    {
        if has_indexes(&self.db, prog) {
            return Ok(());
        }
        let db = indexed(rt, &self.db, prog)?;
        self.db = db;
        Ok(())
    }

    /// Makes the indexes that the next programs need.
    fn index_all<R: Threads + Sync>(
        &mut self,
        rt: &R,
        progs: &[Arc<Planned>],
    ) -> Result<(), NoMemory>
        requires { AllByRecursion (Fits (state_of self.old.db)) (map arc_value progs.now) }
        ensures indexes { OnOk result (AllByRecursion (HasIndexes self.new.db) (map arc_value progs.now)) }
        ensures alike { OnOk result (IsAlike self.old self.new) }
    {
        for prog in progs {
            self.index(rt, prog)?;
        }
        Ok(())
    }

    /// Puts down what the next program did. Of its marks nothing is kept where they aren't asked for.
    fn push(&mut self, alloc: Global, ran: Ran) -> Result<(), NoMemory>
        ensures replies { OnOk result (self.new.replies ≡ self.old.replies ++ ran.reply ∷ []) }
        ensures effects { OnOk result (self.new.effects ≡ self.old.effects ++ kept_if self.old.keeps ran.marks ∷ []) }
        ensures db { self.new.db ≡ self.old.db }
        ensures keeps { self.new.keeps ≡ self.old.keeps }
    {
        let Ran { reply, marks } = ran;
        let marks = asked_for(alloc, self.keeps, marks)?;
        self.replies.push(reply)?;
        self.effects.push(marks)?;
        Ok(())
    }

    /// Runs the next program.
    fn go_on(&mut self, prog: &Planned, keeps: bool) -> Result<Ran, NoMemory>
        requires fit { Fits (state_of self.old.db) prog.now }
        requires indexes { HasIndexes self.old.db prog.now }
        ensures { IfOk result (HasRun prog.now keeps self.old self.new) }
    {
        let mut moves: Moves<()> = Moves::new();
        let ran = run_in_place(prog, &mut self.db, keeps, &mut moves)?;
        self.pace.count(moves.ticks(), ran.marks.len());
        Ok(ran)
    }

    /// Runs the next program, its long joins by all workers together, or by as many as there are processors.
    fn go_on_by_parts<R: Threads + Wait + Sync>(
        &mut self,
        rt: &R,
        prog: &Planned,
        workers: u32,
    ) -> Result<Ran, NoMemory>
        requires fit { Fits (state_of self.old.db) prog.now }
        requires indexes { HasIndexes self.old.db prog.now }
        requires workers { (1 ≤ workers) × (workers ≤ most_workers) }
        ensures { IfOk result (HasRun prog.now self.old.keeps self.old self.new) }
    {
        let mut moves: Moves<()> = Moves::new();
        let keeps = self.keeps;
        let parts = self.pace.at_most(rt, workers);
        let ran = run_split_in_place(rt, prog, &mut self.db, keeps, parts, &mut moves)?;
        Ok(ran)
    }

    /// Takes what the next program did ahead, which it does in its place, too.
    fn take(&mut self, _prog: &Planned, ran: Ran) -> Result<Ran, NoMemory>
        requires { IsRanOn _prog.now (state_of self.old.db) ran }
        ensures { IfOk result (HasRun _prog.now true self.old self.new) }
    {
        self.db.lay(&ran.marks)?;
        Ok(ran)
    }

    /// Runs the next program, or takes its run, if it was run ahead.
    fn take_or_go_on(
        &mut self,
        alloc: Global,
        prog: &Planned,
        ahead: Option<Ahead>,
        since: &Marks,
    ) -> Result<Ran, NoMemory>
        requires fit { Fits (state_of self.old.db) prog.now }
        requires indexes { HasIndexes self.old.db prog.now }
        requires ahead { IfSome ahead (λ one. IsEarly prog.now (state_of self.old.db) since.now one.early) }
        ensures { IfOk result (HasRun prog.now true self.old self.new) }
    {
        let Some(one) = ahead else {
            return self.go_on(prog, true);
        };
        let Ahead {
            place: _,
            early,
            moves,
        } = one;
        match early {
            Early::Ran(ran) => {
                self.pace.count(moves, ran.marks.len());
                self.pace.note(moves, ran.marks.len());
                self.take(prog, ran)
            }
            Early::Kept(tally) => {
                let (ran, stood) = corrected(alloc, prog, &self.db, tally, since)?;
                self.pace.count(moves, ran.marks.len());
                if stood {
                    self.pace.note(moves, ran.marks.len());
                }
                self.take(prog, ran)
            }
        }
    }

    /// The next programs. Some were run ahead on the database so far.
    fn go_round(
        &mut self,
        alloc: Global,
        round: &[Arc<Planned>],
        ahead: &mut Vec<Option<Ahead>>,
    ) -> Result<(), NoMemory>
        requires fit { AllByRecursion (Fits (state_of self.old.db)) (map arc_value round.now) }
        requires indexes { AllByRecursion (HasIndexes self.old.db) (map arc_value round.now) }
        requires long { length ahead.old.items ≡ length round.now }
        requires ahead { AreAhead (map arc_value round.now) (state_of self.old.db) [] 0 ahead.old.items }
        ensures { OnOk result (HasGone (map arc_value round.now) self.old self.new) }
    {
        let mut since = Marks::empty(alloc)?;
        for i in 0..round.len() {
            let prog = &round[i];
            let one = ahead[i].take();
            let ran = self.take_or_go_on(alloc, prog, one, &since)?;
            let_go(ahead, round, i + 1, &ran.marks);
            since.add(&ran.marks)?;
            self.push(alloc, ran)?;
        }
        Ok(())
    }

    /// The next programs, of which some are run ahead by several threads, and taken or corrected in order.
    fn go_on_together<R: Threads + Wait + Sync>(
        &mut self,
        rt: &R,
        alloc: Global,
        progs: &[Arc<Planned>],
        round: &Round,
    ) -> Result<(), NoMemory>
        requires { AllByRecursion (Fits (state_of self.old.db)) (map arc_value progs.now) }
        ensures { OnOk result (HasGone (map arc_value progs.now) self.old self.new) }
    {
        self.index_all(rt, progs)?;
        let tasks = round.tasks.as_slice();
        let mut ahead = run_ahead(rt, alloc, progs, tasks, &self.db, round.threads)?;
        self.go_round(alloc, progs, &mut ahead)?;
        self.pace.end_round(round);
        Ok(())
    }

    /// The next program.
    fn go_one<R: Threads + Wait + Sync>(
        &mut self,
        rt: &R,
        alloc: Global,
        prog: &Planned,
        parts: u32,
    ) -> Result<(), NoMemory>
        requires fit { Fits (state_of self.old.db) prog.now }
        requires parts { (1 ≤ parts) × (parts ≤ most_workers) }
        ensures { OnOk result (HasGone (prog.now ∷ []) self.old self.new) }
    {
        self.index(rt, prog)?;
        let ran = self.ran_one(rt, prog, parts)?;
        self.push(alloc, ran)?;
        Ok(())
    }

    /// Runs the next program, its long joins by so many parts.
    fn ran_one<R: Threads + Wait + Sync>(
        &mut self,
        rt: &R,
        prog: &Planned,
        parts: u32,
    ) -> Result<Ran, NoMemory>
        requires fit { Fits (state_of self.old.db) prog.now }
        requires indexes { HasIndexes self.old.db prog.now }
        requires parts { (1 ≤ parts) × (parts ≤ most_workers) }
        ensures { IfOk result (HasRun prog.now self.old.keeps self.old self.new) }
    {
        if parts > 1 && has_long_join(prog, &self.db) {
            return self.go_on_by_parts(rt, prog, parts);
        }
        let keeps = self.keeps;
        self.go_on(prog, keeps)
    }

    /// Some of the next programs: several together, where that is worth it, and else one. Answers how many.
    fn go_some<R: Threads + Wait + Sync>(
        &mut self,
        rt: &R,
        alloc: Global,
        progs: &[Arc<Planned>],
        workers: u32,
        parts: u32,
    ) -> Result<usize, NoMemory>
        requires some { 0 < length progs.now }
        requires fit { AllByRecursion (Fits (state_of self.old.db)) (map arc_value progs.now) }
        requires parts { (1 ≤ parts) × (parts ≤ most_workers) }
        ensures some { IfOk result (λ count. (1 ≤ count) × (count ≤ length progs.now)) }
        ensures gone { IfOk result (λ count. HasGone (map arc_value (take count progs.now)) self.old self.new) }
    {
        let round = self.pace.next_round(rt, alloc, progs, workers)?;
        let together = round.threads > 1;
        if together {
            let count = progs.len().min(round.count.max(1));
            let (next, _) = progs.split_at(count);
            self.go_on_together(rt, alloc, next, &round)?;
            return Ok(count);
        }
        let prog = &progs[0];
        self.go_one(rt, alloc, prog, parts)?;
        Ok(1)
    }

    /// All programs of a batch.
    fn go_all<R: Threads + Wait + Sync>(
        &mut self,
        rt: &R,
        alloc: Global,
        progs: &[Arc<Planned>],
        workers: u32,
    ) -> Result<(), NoMemory>
        requires fit { AllByRecursion (Fits (state_of self.old.db)) (map arc_value progs.now) }
        requires workers { (1 ≤ workers) × (workers ≤ most_workers) }
        ensures { OnOk result (HasGone (map arc_value progs.now) self.old self.new) }
    {
        let parts = parts_for(progs.len(), workers);
        let mut next = 0;
        'steps: while next < progs.len() {
            let (_, left) = progs.split_at(next);
            let count = self.go_some(rt, alloc, left, workers, parts)?;
            next += count;
        }
        Ok(())
    }
}

/// The marks, where they are asked for.
fn asked_for(alloc: Global, keeps: bool, marks: Marks) -> Result<Marks, NoMemory>
    ensures { IfOk result (λ some. some ≡ kept_if keeps marks) }
{
    if keeps {
        return Ok(marks);
    }
    if marks.len() == 0 {
        return Ok(marks);
    }
    let none = Marks::empty(alloc)?;
    Ok(none)
}

/// By how many parts long joins are worked on: by as many as workers, where there are fewer programs.
fn parts_for(programs: usize, workers: u32) -> u32
    requires { (1 ≤ workers) × (workers ≤ most_workers) }
    ensures { (1 ≤ result) × (result ≤ most_workers) }
{
    if programs < workers as usize {
        return workers;
    }
    1
}

/// Runs the programs of a batch, one after another. The replies and the database left are those of the programs one after another, and
/// so are the effects, where they are asked for.
///
/// Where there are several workers and the programs show to be dear, some of the next ones are run ahead by several threads on the
/// database so far.
/// At its turn a run is corrected by what was written since: what no changed row touches stays. At a gate that may hold a worker until
/// another comes they are run by a circuit. The pace is kept from batch to batch.
pub fn fold_batch<R: Threads + Wait + Sync, G: Gate>(
    rt: &R,
    alloc: Global,
    db: &Database,
    progs: &[Arc<Planned>],
    keeps: bool,
    workers: u32,
    gate: &G,
    pace: &mut Pace,
) -> Result<Folded, NoMemory>
    requires few { length progs.now ≤ most_programs }
    requires workers { (1 ≤ workers) × (workers ≤ most_workers) }
    requires fit { AllByRecursion (Fits (state_of db.now)) (map arc_value progs.now) }
    ensures replies { IfOk result (λ out. out.replies ≡ serial_replies (map arc_value progs.now) (state_of db.now)) }
    ensures effects { keeps ≡ true → IfOk result (λ out. out.effects ≡ serial_effects (map arc_value progs.now) (state_of db.now)) }
    ensures each { IfOk result (λ out. length out.effects ≡ length progs.now) }
    ensures state { IfOk result (λ out. state_of out.db ≡ serial_state (map arc_value progs.now) (state_of db.now)) }
    ensures fit { IfOk result (λ out. AllByRecursion (FitMarks (state_of db.now)) out.effects) }
    ensures widths { IfOk result (λ out. (relation width : ℕ) → IsWide (state_of db.now) relation width → IsWide (state_of out.db) relation width) }
    ensures printed { IfOk result (λ out. AllByRecursion AreReplied out.replies) }
{
    if gate.waits() {
        let outcome = run_batch(rt, alloc, db, progs, workers, gate)?;
        let Outcome {
            replies,
            effects,
            db,
            circuit: _,
        } = outcome;
        return Ok(Folded {
            replies,
            effects,
            db,
        });
    }
    let mut fold = Fold::new(alloc, db, progs.len(), keeps, *pace)?;
    fold.go_all(rt, alloc, progs, workers)?;
    *pace = fold.pace;
    let Fold {
        replies,
        effects,
        db,
        keeps: _,
        pace: _,
    } = fold;
    let mut db = db;
    db.age();
    Ok(Folded {
        replies,
        effects,
        db,
    })
}
