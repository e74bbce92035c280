//! The run of a program on a database that takes its marks as they come. What is said of moves holds also where memory is refused.
ghost use Rattle.std.specs.Prelude.{◌≡◌, ◌≤◌, ◌<◌, ◌+◌, ◌||◌, ◌==◌, ℕ, List, [], true, false, length, nat_lt, slice_get, Some, OnOk, IfOk};
ghost use Rattle.lt_face.specs.State.{State};
ghost use Rattle.lt_model.specs.declared.normal.Stmt.{Stmt as StmtType};
ghost use Rattle.lt_model.specs.Fits.{Fits, FitMarks};
ghost use Rattle.lt_model.specs.Marks.{laid};
ghost use Rattle.lt_model.specs.Run.{run as run_of};
ghost use Rattle.lt_model.specs.State.{IsState};
ghost use Rattle.lt_base.specs.Tables.{Table, state_of, has_index};
ghost use Rattle.lt_program.specs.Alone.{IsAccepted, IsUnderWay, and_then_if, is_refusing, kept_if, with_prints};
ghost use Rattle.lt_program.specs.Kept.{IsOrdered, refused_by as refuses, written_by as writes};
ghost use Rattle.lt_program.specs.Run.{AreReplied};
ghost use Rattle.lt_program.specs.Split.{cost_of_first_by, cost_on_by};
ghost use Rattle.lt_program.specs.Tally.{HasIndexes, cost_of_first, ends_at, is_refused};
ghost use Rattle.lt_program.specs.Undo.{IsBack};

use crate::alone::outcome_alone;
use crate::course::print;
use crate::joining::{Joiner, Whole};
use crate::kept::{into_first, refused_by, written_by};
use crate::part::Found;
use crate::reading::may_refuse;
use crate::tally::is_refusal;
use crate::writing::{take_back, write};
use lt_base::Database;
use lt_delta::Marks;
use lt_face::items::Items;
use lt_face::memory::NoMemory;
use lt_face::moves::Moves;
use lt_model::kind::KindList;
use lt_model::mark::Mark;
use lt_model::normal::Stmt;
use lt_model::reply::{Printed, Reply};
use lt_query::{Plan, Planned};
use std::alloc::Global;

/// What a program answered and wrote.
#[derive(Drop)]
pub struct Ran {
    pub reply: Reply,
    pub marks: Marks,
}

/// The reply of the statements so far, their marks, where they are kept, and what takes the database back.
#[derive(Drop)]
pub(crate) struct Going {
    pub reply: Reply,
    pub marks: Marks,
    pub undo: Vec<Mark>,
}

/// Whether the run of so many statements is over, of which so many were evaluated.
fn is_over(going: &Going, evaluated: usize, count: usize) -> bool
    ensures { result ≡ (is_refused going.now.reply || evaluated == count) }
{
    is_refusal(&going.reply) || evaluated == count
}

/// How many statements there are up to the last one that may refuse the program.
fn last_refusing(stmts: &[Stmt]) -> usize
    ensures { (j : ℕ) (stmt : StmtType) → slice_get stmts.now j ≡ Some stmt → is_refusing stmt ≡ true → j < result }
{
    let mut count = stmts.len();
    'last: while count > 0 {
        let stmt = &stmts[count - 1];
        if may_refuse(stmt) {
            return count;
        }
        count -= 1;
    }
    0
}

impl Going {
    /// No statement yet.
    fn new(alloc: Global) -> Result<Going, NoMemory>
        ensures reply { IfOk result (λ going. going.reply ≡ Reply.Done []) }
        ensures marks { IfOk result (λ going. going.marks ≡ []) }
        ensures undo { IfOk result (λ going. going.undo.items ≡ []) }
    {
        Ok(Going {
            reply: Reply::Done(Items::new(alloc)),
            marks: Marks::empty(alloc)?,
            undo: Vec::new(alloc),
        })
    }

    /// The program is refused, and what it wrote is taken back.
    fn refuse(&mut self, alloc: Global, db: &mut Database, number: u32) -> Result<(), NoMemory>
        requires back { (base : State) × IsBack base (state_of db.old) self.old.undo.items }
        ensures reply { OnOk result (self.new.reply ≡ Reply.Refused number) }
        ensures marks { OnOk result (self.new.marks ≡ []) }
        ensures state { OnOk result ((base : State) → IsBack base (state_of db.old) self.old.undo.items → state_of db.new ≡ base) }
        ensures indexes { OnOk result ((relation : ℕ) (columns : List ℕ) → has_index db.new relation columns ≡ has_index db.old relation columns) }
    {
        take_back(db, self.undo.as_slice())?;
        self.marks = Marks::empty(alloc)?;
        self.reply = Reply::Refused(number);
        Ok(())
    }

    /// Keeps the marks that the statement writes, where they are asked for.
    fn keep(
        &mut self,
        alloc: Global,
        stmt: &Stmt,
        outcome: &Found,
        keeps: bool,
    ) -> Result<(), NoMemory>
        requires { IsOrdered outcome.now }
        ensures { OnOk result (self.new ≡ record self.old { marks = and_then_if keeps self.old.marks (writes stmt.now outcome.now) }) }
    {
        if !keeps {
            return Ok(());
        }
        let marks = written_by(alloc, stmt, outcome)?;
        self.marks.add(&marks)?;
        Ok(())
    }

    /// Keeps what the statement prints.
    fn print(
        &mut self,
        alloc: Global,
        number: u32,
        stmt: &Stmt,
        outcome: Found,
    ) -> Result<(), NoMemory>
        ensures { OnOk result (self.new ≡ record self.old { reply = with_prints number stmt.now outcome self.old.reply }) }
    {
        match stmt {
            Stmt::Print { kinds, .. } => {
                let rows = into_first(alloc, outcome);
                let kinds = KindList::from_kinds(alloc, kinds.as_slice());
                print(
                    &mut self.reply,
                    Printed {
                        statement: number,
                        kinds,
                        rows,
                    },
                )
            }
            Stmt::Insert { .. } => Ok(()),
            Stmt::Delete { .. } => Ok(()),
            Stmt::Replace { .. } => Ok(()),
            Stmt::Require { .. } => Ok(()),
        }
    }

    /// What comes of a statement with this outcome. What it writes is logged where a later one may refuse the program.
    fn accept(
        &mut self,
        alloc: Global,
        db: &mut Database,
        number: u32,
        stmt: &Stmt,
        outcome: Found,
        keeps: bool,
        logs: bool,
    ) -> Result<(), NoMemory>
        requires state { IsState (state_of db.old) }
        requires ordered { IsOrdered outcome }
        requires fits { refuses stmt.now outcome ≡ false → FitMarks (state_of db.old) (writes stmt.now outcome) }
        requires back { refuses stmt.now outcome ≡ true → (base : State) × IsBack base (state_of db.old) self.old.undo.items }
        ensures { OnOk result (IsAccepted number stmt.now outcome keeps logs self.old db.old self.new db.new) }
    {
        if refused_by(stmt, &outcome) {
            self.refuse(alloc, db, number)?;
            return Ok(());
        }
        write(db, stmt, &outcome, &mut self.undo, logs)?;
        self.keep(alloc, stmt, &outcome, keeps)?;
        self.print(alloc, number, stmt, outcome)?;
        Ok(())
    }

    /// One more of the program's statements.
    fn go_on<J: Joiner<L>, L>(
        &mut self,
        by: &J,
        prog: &Planned,
        db: &mut Database,
        number: usize,
        keeps: bool,
        logs: bool,
        moves: &mut Moves<L>,
    ) -> Result<(), NoMemory>
        requires ready { J.is_ready by.now }
        requires more { number < length prog.now }
        requires going { is_refused self.old.reply ≡ false }
        requires under_way { (base : List Table) × (refusing : ℕ) × IsUnderWay prog.now base keeps refusing number self.old db.old }
        ensures under_way { OnOk result ((base : List Table) (refusing : ℕ) → logs ≡ nat_lt (number + 1) refusing
            → IsUnderWay prog.now base keeps refusing number self.old db.old → IsUnderWay prog.now base keeps refusing (number + 1) self.new db.new) }
        ensures cost { moves.new ≤ moves.old + cost_on_by (J.most by.now) (slice_get prog.now number) (state_of db.old) }
        ensures rises { moves.old ≤ moves.new }
    {
        let stmt: &Stmt = &prog.statements()[number];
        let plan: &Plan = &prog.plans()[number];
        let alloc = prog.allocator();
        let outcome = outcome_alone(by, alloc, db, stmt, plan, moves)?;
        let place = number as u32 + 1;
        self.accept(alloc, db, place, stmt, outcome, keeps, logs)?;
        Ok(())
    }
}

/// As `run_in_place`, with its joins done in this way.
pub(crate) fn run_by<J: Joiner<L>, L>(
    by: &J,
    prog: &Planned,
    db: &mut Database,
    keeps: bool,
    moves: &mut Moves<L>,
) -> Result<Ran, NoMemory>
    requires ready { J.is_ready by.now }
    requires fits { Fits (state_of db.old) prog.now }
    requires indexes { HasIndexes db.old prog.now }
    ensures reply { IfOk result (λ ran. ran.reply ≡ (run_of prog.now (state_of db.old)).0) }
    ensures marks { IfOk result (λ ran. ran.marks ≡ kept_if keeps (run_of prog.now (state_of db.old)).1) }
    ensures state { OnOk result (state_of db.new ≡ laid (state_of db.old) (run_of prog.now (state_of db.old)).1) }
    ensures indexes { OnOk result ((relation : ℕ) (columns : List ℕ) → has_index db.new relation columns ≡ has_index db.old relation columns) }
    ensures fits { OnOk result (FitMarks (state_of db.old) (run_of prog.now (state_of db.old)).1) }
    ensures printed { IfOk result (λ ran. AreReplied ran.reply) }
    ensures moves { moves.new ≤ moves.old + cost_of_first_by (J.most by.now) (ends_at prog.now (state_of db.old)) prog.now (state_of db.old) }
    ensures rises { moves.old ≤ moves.new }
{
    db.look_over();
    let stmts = prog.statements();
    let count = stmts.len();
    let refusing = last_refusing(stmts);
    let mut going = Going::new(prog.allocator())?;
    let mut number = 0;
    'steps: while !is_over(&going, number, count) {
        going.go_on(by, prog, db, number, keeps, number + 1 < refusing, moves)?;
        number += 1;
    }
    let Going {
        reply,
        marks,
        undo: _,
    } = going;
    Ok(Ran { reply, marks })
}

/// Runs a program that fits the database, which has the indexes that the program needs and takes its marks as they come. They are given,
/// too, where that is asked for. After want of memory the database is no more than let go. `moves` rises by at most what the joins of the
/// statements up to the program's end may take, also where memory is refused, and never falls.
pub fn run_in_place<L>(
    prog: &Planned,
    db: &mut Database,
    keeps: bool,
    moves: &mut Moves<L>,
) -> Result<Ran, NoMemory>
    requires fits { Fits (state_of db.old) prog.now }
    requires indexes { HasIndexes db.old prog.now }
    ensures reply { IfOk result (λ ran. ran.reply ≡ (run_of prog.now (state_of db.old)).0) }
    ensures marks { IfOk result (λ ran. ran.marks ≡ kept_if keeps (run_of prog.now (state_of db.old)).1) }
    ensures state { OnOk result (state_of db.new ≡ laid (state_of db.old) (run_of prog.now (state_of db.old)).1) }
    ensures indexes { OnOk result ((relation : ℕ) (columns : List ℕ) → has_index db.new relation columns ≡ has_index db.old relation columns) }
    ensures fits { OnOk result (FitMarks (state_of db.old) (run_of prog.now (state_of db.old)).1) }
    ensures printed { IfOk result (λ ran. AreReplied ran.reply) }
    ensures moves { moves.new ≤ moves.old + cost_of_first (ends_at prog.now (state_of db.old)) prog.now (state_of db.old) }
    ensures rises { moves.old ≤ moves.new }
{
    let ran = run_by(&Whole, prog, db, keeps, moves)?;
    Ok(ran)
}

/// The reply and the marks of a program that fits the database, which has the indexes that the program needs.
/// `moves` rises by at most what the joins of the statements up to the program's end may take, also where memory is refused, and
/// never falls.
pub fn run_alone<L>(prog: &Planned, base: &Database, moves: &mut Moves<L>) -> Result<Ran, NoMemory>
    requires fits { Fits (state_of base.now) prog.now }
    requires indexes { HasIndexes base.now prog.now }
    ensures reply { IfOk result (λ ran. ran.reply ≡ (run_of prog.now (state_of base.now)).0) }
    ensures marks { IfOk result (λ ran. ran.marks ≡ (run_of prog.now (state_of base.now)).1) }
    ensures fits { IfOk result (λ ran. FitMarks (state_of base.now) ran.marks) }
    ensures printed { IfOk result (λ ran. AreReplied ran.reply) }
    ensures moves { moves.new ≤ moves.old + cost_of_first (ends_at prog.now (state_of base.now)) prog.now (state_of base.now) }
    ensures rises { moves.old ≤ moves.new }
{
    let mut own = base.share()?;
    let ran = run_in_place(prog, &mut own, true, moves)?;
    Ok(ran)
}
