//! The run of a program whose long joins are worked on by parts, each in a thread of its own.
ghost use Rattle.std.specs.Prelude.{◌≡◌, ◌≤◌, ◌+◌, ℕ, List, true, length, IfOk, OnOk};
ghost use Rattle.std.specs.Arc.{arc_value};
ghost use Rattle.lt_face.specs.Limits.{most_workers};
ghost use Rattle.lt_model.specs.Fits.{Fits, FitMarks};
ghost use Rattle.lt_model.specs.Run.{run as run_of};
ghost use Rattle.lt_model.specs.Marks.{laid};
ghost use Rattle.lt_base.specs.Tables.{state_of, has_index};
ghost use Rattle.lt_program.specs.Alone.{kept_if};
ghost use Rattle.lt_program.specs.Run.{AreReplied};
ghost use Rattle.lt_program.specs.Split.{cost_of_first_by, split_cost};
ghost use Rattle.lt_program.specs.Tally.{HasIndexes, IsRun, ends_at, has_ended};

use crate::going::{Ran, run_by};
use crate::joining::{Joiner, answered_alone, found_whole, slices_whole};
use crate::tally::{Tally, run_kept_by};
use crate::worth::is_worth;
use lt_base::Database;
use lt_edges::OpenGate;
use lt_face::items::RowList;
use lt_face::memory::NoMemory;
use lt_face::moves::Moves;
use lt_join::{Slices, answers_split, answers_split_alone, slices_split};
use lt_model::normal::{Body, TermList};
use lt_query::{Plan, Planned};
use lt_sense::Gathering;
use std::alloc::Global;
use std::sync::{Arc, Wait};
use std::thread::Threads;

/// Each long join is worked on by so many parts, each in a thread of its own where there can be one. Whether it is long is judged by the
/// database that it joins on.
#[derive(Drop)]
pub(crate) struct ByParts<'a, R: Threads + Wait + Sync> {
    rt: &'a R,
    parts: u32,
}

impl<'a, R: Threads + Wait + Sync, L: Send> Joiner<L> for ByParts<'a, R> {
    ghost use Rattle.std.specs.Thread.{IsSend, IsSync};
    ghost use Rattle.lt_face.specs.Limits.{most_workers};
    ghost use Rattle.lt_program.specs.Split.{split_cost};

    ghost is_ready = { λ by. IsSync R.row × IsSend L.row × (1 ≤ by.parts) × (by.parts ≤ most_workers) };

    ghost most = { λ by body state. split_cost by.parts body state };

    fn rows(
        &self,
        alloc: Global,
        tables: &Database,
        body: &Body,
        plan: &Plan,
        terms: &TermList,
        moves: &mut Moves<L>,
    ) -> Result<RowList, NoMemory> {
        if is_worth(tables, body, plan.guides.as_slice()) {
            let rows = answers_split_alone(
                self.rt, alloc, body, plan, terms, tables, self.parts, &OpenGate, moves,
            )?;
            return Ok(rows);
        }
        let rows = answered_alone(alloc, tables, body, plan, terms, moves)?;
        Ok(rows)
    }

    fn found(
        &self,
        alloc: Global,
        tables: &Database,
        body: &Body,
        plan: &Plan,
        terms: &TermList,
        moves: &mut Moves<L>,
    ) -> Result<(RowList, Gathering), NoMemory> {
        if is_worth(tables, body, plan.guides.as_slice()) {
            let found = answers_split(
                self.rt, alloc, body, plan, terms, tables, self.parts, &OpenGate, moves,
            )?;
            return Ok(found);
        }
        let found = found_whole(alloc, tables, body, plan, terms, moves)?;
        Ok(found)
    }

    fn slices(
        &self,
        alloc: Global,
        tables: &Database,
        body: &Body,
        plan: &Plan,
        terms: &TermList,
        moves: &mut Moves<L>,
    ) -> Result<Slices, NoMemory> {
        if is_worth(tables, body, plan.guides.as_slice()) {
            let found = slices_split(
                self.rt, alloc, body, plan, terms, tables, self.parts, &OpenGate, moves,
            )?;
            return Ok(found);
        }
        let found = slices_whole(alloc, tables, body, plan, terms, moves)?;
        Ok(found)
    }
}

/// As `run`, with each long join worked on by so many parts, each in a thread of its own. `moves` rises by at most so many times what the
/// joins of the statements up to the program's end may take.
pub fn run_split<R: Threads + Wait + Sync, L: Send>(
    rt: &R,
    prog: &Arc<Planned>,
    base: &Database,
    parts: u32,
    moves: &mut Moves<L>,
) -> Result<Tally, NoMemory>
    requires fits { Fits (state_of base.now) (arc_value prog.now) }
    requires indexes { HasIndexes base.now (arc_value prog.now) }
    requires parts { (1 ≤ parts) × (parts ≤ most_workers) }
    ensures program { IfOk result (λ t. t.program ≡ arc_value prog.now) }
    ensures base { IfOk result (λ t. t.base ≡ base.now) }
    ensures ended { IfOk result (λ t. has_ended t ≡ true) }
    ensures parts { IfOk result (λ t. IsRun t) }
    ensures reply { IfOk result (λ t. t.reply ≡ (run_of (arc_value prog.now) (state_of base.now)).0) }
    ensures marks { IfOk result (λ t. t.marks ≡ (run_of (arc_value prog.now) (state_of base.now)).1) }
    ensures fits { IfOk result (λ t. FitMarks (state_of base.now) t.marks) }
    ensures printed { IfOk result (λ t. AreReplied t.reply) }
    ensures evaluated { IfOk result (λ t. length t.parts ≡ ends_at (arc_value prog.now) (state_of base.now)) }
    ensures moves { moves.new ≤ moves.old + cost_of_first_by (split_cost parts) (ends_at (arc_value prog.now) (state_of base.now)) (arc_value prog.now) (state_of base.now) }
    ensures rises { moves.old ≤ moves.new }
{
    let by = ByParts { rt, parts };
    let tally = run_kept_by(&by, prog, base, moves)?;
    Ok(tally)
}

/// As `run_in_place`, with each long join worked on by so many parts, each in a thread of its own. `moves` rises by at most so many
/// times what the joins of the statements up to the program's end may take.
pub fn run_split_in_place<R: Threads + Wait + Sync, L: Send>(
    rt: &R,
    prog: &Planned,
    db: &mut Database,
    keeps: bool,
    parts: u32,
    moves: &mut Moves<L>,
) -> Result<Ran, NoMemory>
    requires fits { Fits (state_of db.old) prog.now }
    requires indexes { HasIndexes db.old prog.now }
    requires parts { (1 ≤ parts) × (parts ≤ most_workers) }
    ensures reply { IfOk result (λ ran. ran.reply ≡ (run_of prog.now (state_of db.old)).0) }
    ensures marks { IfOk result (λ ran. ran.marks ≡ kept_if keeps (run_of prog.now (state_of db.old)).1) }
    ensures state { OnOk result (state_of db.new ≡ laid (state_of db.old) (run_of prog.now (state_of db.old)).1) }
    ensures indexes { OnOk result ((relation : ℕ) (columns : List ℕ) → has_index db.new relation columns ≡ has_index db.old relation columns) }
    ensures fits { OnOk result (FitMarks (state_of db.old) (run_of prog.now (state_of db.old)).1) }
    ensures printed { IfOk result (λ ran. AreReplied ran.reply) }
    ensures moves { moves.new ≤ moves.old + cost_of_first_by (split_cost parts) (ends_at prog.now (state_of db.old)) prog.now (state_of db.old) }
    ensures rises { moves.old ≤ moves.new }
{
    let by = ByParts { rt, parts };
    let ran = run_by(&by, prog, db, keeps, moves)?;
    Ok(ran)
}
