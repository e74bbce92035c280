//! `Tally`: the run of a program on a database, statement by statement.
ghost use Rattle.std.specs.Prelude.{◌≡◌, ◌≤◌, ◌+◌, ◌||◌, ◌==◌, ◌<◌, Some, ◌++◌, ◌∷◌, [], true, false, length, slice_get, OnOk, OnErr, IfOk, IsTrue};
ghost use Rattle.std.specs.Arc.{arc_value};
ghost use Rattle.lt_face.specs.Rows.{has_row};
ghost use Rattle.lt_face.specs.State.{rows_in};
ghost use Rattle.lt_model.specs.Fits.{Fits, FitMarks};
ghost use Rattle.lt_model.specs.Run.{run as run_of};
ghost use Rattle.lt_base.specs.Tables.{state_of};
ghost use Rattle.lt_query.specs.Lists.{IsRising};
ghost use Rattle.lt_sense.specs.Sense.{AgreeWhereCovered};
ghost use Rattle.lt_join.specs.Mended.{HaveTouched};
ghost use Rattle.lt_program.specs.Part.{Part as PartType};
ghost use Rattle.lt_program.specs.Run.{AreReplied};
ghost use Rattle.lt_program.specs.Split.{IsNoLess, cost_of_first_by, cost_on_by};
ghost use Rattle.lt_program.specs.Tally.{HasIndexes, IsRun, IsOneMore, IsMendedPart, has_ended, is_refused, is_next_sliced as is_sliced_next, cost_of_first, cost_on, mending_on, ends_at, run_of_first, sense_of, state_before};

use crate::course::Course;
use crate::joining::{Joiner, Whole};
use crate::kept::marks_past;
use crate::part::SharedPart;
use crate::slicing::is_sliced;
use lt_base::Database;
use lt_delta::Marks;
use lt_face::items::Items;
use lt_face::key::Key;
use lt_face::memory::NoMemory;
use lt_face::moves::Moves;
use lt_face::row::Row;
use lt_model::normal::Stmt;
use lt_model::reply::Reply;
use lt_query::{Plan, Planned};
use std::marker::Model;
use std::sync::Arc;

/// The run of a program on a database, as far as it has come.
#[derive(Drop)]
pub struct Tally {
    prog: Arc<Planned>,
    base: Database,
    course: Course,
}

impl Model for Tally {
    ghost use Rattle.std.specs.Arc.{arc_value};
    ghost use Rattle.lt_program.specs.Tally.{TallyView};
    ghost use Rattle.lt_program.specs.Sound.{tally_of, IsSound};

    ghost Value = { TallyView };

    ghost view = { λ t. tally_of (arc_value t.prog) t.base t.course };

    ghost invariant = { λ t. IsSound (arc_value t.prog) t.base t.course };
}

/// Whether a requirement was false, or two rows of one statement clashed.
pub(crate) fn is_refusal(reply: &Reply) -> bool
    ensures { result ≡ is_refused reply.now }
{
    match reply {
        Reply::Done(_) => false,
        Reply::Refused(_) => true,
    }
}

/// Whether the run of so many statements is over.
fn is_over(course: &Course, count: usize) -> bool
    ensures { result ≡ (is_refused course.now.reply || length course.now.parts == count) }
{
    is_refusal(&course.reply) || course.parts.len() == count
}

impl Tally {
    /// The tally of a program on a database, before its first statement. The program fits the database, which has the
    /// indexes that the program needs.
    pub fn begin(prog: &Arc<Planned>, base: &Database) -> Result<Tally, NoMemory>
        requires fits { Fits (state_of base.now) (arc_value prog.now) }
        requires indexes { HasIndexes base.now (arc_value prog.now) }
        ensures program { IfOk result (λ t. t.program ≡ arc_value prog.now) }
        ensures base { IfOk result (λ t. t.base ≡ base.now) }
        ensures none { IfOk result (λ t. t.parts ≡ []) }
    {
        base.look_over();
        let course = Course::new(prog.allocator())?;
        let base = base.share()?;
        let prog = prog.clone()?;
        Ok(Tally { prog, base, course })
    }

    /// A second owner of the same run, with a copy of its reply.
    pub fn share(&self) -> Result<Tally, NoMemory>
        ensures { IfOk result (λ same. same ≡ self.now) }
    {
        let prog = self.prog.clone()?;
        let base = self.base.share()?;
        let course = self.course.share()?;
        Ok(Tally { prog, base, course })
    }

    /// Evaluates the next statement, on the state with the marks of those before it laid on it. Want of memory leaves the
    /// tally as it was. `moves` rises by at most what the joins of the statement may take, also then, and never falls.
    pub fn evaluate<L>(&mut self, moves: &mut Moves<L>) -> Result<(), NoMemory>
        requires going { has_ended self.old ≡ false }
        ensures one { OnOk result (IsOneMore self.old self.new) }
        ensures moves { moves.new ≤ moves.old + cost_on (slice_get self.old.program (length self.old.parts)) (state_before (length self.old.parts) self.old.program (state_of self.old.base)) }
        ensures rises { moves.old ≤ moves.new }
        ensures err { OnErr result (self.new ≡ self.old) }
    {
        self.evaluate_by(&Whole, moves)?;
        Ok(())
    }

    /// As `evaluate`, with its joins done in this way.
    fn evaluate_by<J: Joiner<L>, L>(&mut self, by: &J, moves: &mut Moves<L>) -> Result<(), NoMemory>
        requires ready { J.is_ready by.now }
        requires least { IsNoLess (J.most by.now) }
        requires going { has_ended self.old ≡ false }
        ensures one { OnOk result (IsOneMore self.old self.new) }
        ensures moves { moves.new ≤ moves.old + cost_on_by (J.most by.now) (slice_get self.old.program (length self.old.parts)) (state_before (length self.old.parts) self.old.program (state_of self.old.base)) }
        ensures rises { moves.old ≤ moves.new }
        ensures err { OnErr result (self.new ≡ self.old) }
    {
        let number = self.course.parts.len();
        let stmt: &Stmt = &self.prog.statements()[number];
        let plan: &Plan = &self.prog.plans()[number];
        self.course
            .evaluate(by, &self.base, number as u32 + 1, stmt, plan, moves)?;
        Ok(())
    }

    /// Takes the next statement's answers or truth, and its sense, from another tally of the program that evaluated it. The
    /// states before it agree wherever that sense covers a row. Want of memory leaves the tally as it was.
    pub fn keep(&mut self, old: &Tally) -> Result<(), NoMemory>
        requires going { has_ended self.old ≡ false }
        requires program { old.now.program ≡ self.old.program }
        requires evaluated { length self.old.parts < length old.now.parts }
        requires agree { (part : PartType) → slice_get old.now.parts (length self.old.parts) ≡ Some part → AgreeWhereCovered (sense_of part) (state_before (length self.old.parts) old.now.program (state_of old.now.base)) (state_before (length self.old.parts) self.old.program (state_of self.old.base)) }
        ensures one { OnOk result (IsOneMore self.old self.new) }
        ensures kept { OnOk result ((part : PartType) → slice_get old.now.parts (length self.old.parts) ≡ Some part → self.new.parts ≡ self.old.parts ++ part ∷ []) }
        ensures err { OnErr result (self.new ≡ self.old) }
    {
        let number = self.course.parts.len();
        let stmt: &Stmt = &self.prog.statements()[number];
        let part = &old.parts()[number];
        self.course.keep(&self.base, number as u32 + 1, stmt, part)?;
        Ok(())
    }

    /// Does the next statement, which is kept by slices, by mending what another tally of the program kept of it. The keys
    /// ascend, and have each that is touched between the states before the statement. Their slices are joined anew and the root
    /// gaps cut there; all other slices are shared. Want of memory leaves the tally as it was. `moves` rises by at most what the
    /// joins of the keys' slices may take, also then, and never falls.
    pub fn mend<L>(
        &mut self,
        old: &Tally,
        keys: &Items<Key>,
        moves: &mut Moves<L>,
    ) -> Result<(), NoMemory>
        requires going { has_ended self.old ≡ false }
        requires sliced { is_sliced_next self.old ≡ true }
        requires program { old.now.program ≡ self.old.program }
        requires evaluated { length self.old.parts < length old.now.parts }
        requires keys { IsRising keys.now }
        requires touched { (part : PartType) → slice_get old.now.parts (length self.old.parts) ≡ Some part → HaveTouched keys.now part.sense part.slices (state_before (length self.old.parts) old.now.program (state_of old.now.base)) (state_before (length self.old.parts) self.old.program (state_of self.old.base)) }
        ensures one { OnOk result (IsOneMore self.old self.new) }
        ensures mended { OnOk result ((part : PartType) → slice_get old.now.parts (length self.old.parts) ≡ Some part → (new : PartType) × (self.new.parts ≡ self.old.parts ++ new ∷ []) × IsMendedPart keys.now part new) }
        ensures moves { moves.new ≤ moves.old + mending_on keys.now (slice_get self.old.program (length self.old.parts)) (state_before (length self.old.parts) self.old.program (state_of self.old.base)) }
        ensures rises { moves.old ≤ moves.new }
        ensures err { OnErr result (self.new ≡ self.old) }
    {
        let number = self.course.parts.len();
        let stmt: &Stmt = &self.prog.statements()[number];
        let plan: &Plan = &self.prog.plans()[number];
        let kept = &old.parts()[number];
        self.course.mend(
            &self.base,
            number as u32 + 1,
            stmt,
            plan,
            kept.part(),
            keys,
            moves,
        )?;
        Ok(())
    }

    /// Whether there is a next statement that is kept by slices.
    pub fn is_next_sliced(&self) -> bool
        ensures { result ≡ is_sliced_next self.now }
    {
        let number = self.course.parts.len();
        let stmts = self.prog.statements();
        if number < stmts.len() {
            let stmt: &Stmt = &stmts[number];
            return is_sliced(stmt);
        }
        false
    }

    /// Whether the state with the marks so far laid on it has the row.
    pub fn has(&self, relation: u32, row: &Row) -> bool
        ensures { result ≡ has_row (rows_in (state_before (length self.now.parts) self.now.program (state_of self.now.base)) relation) row.now }
    {
        self.base.has_with(&self.course.marks, relation, row)
    }

    /// The marks after a statement that was evaluated, of the marks before it.
    pub fn marks_after(&self, place: usize, before: &Marks) -> Result<Marks, NoMemory>
        requires there { place < length self.now.parts }
        requires before { before.now ≡ (run_of_first place self.now.program (state_of self.now.base)).1 }
        ensures value { IfOk result (λ marks. marks ≡ (run_of_first (place + 1) self.now.program (state_of self.now.base)).1) }
        ensures fits { IfOk result (λ marks. FitMarks (state_of self.now.base) marks) }
    {
        let stmt: &Stmt = &self.prog.statements()[place];
        let part = &self.course.parts.as_slice()[place];
        let marks = marks_past(self.prog.allocator(), stmt, part.part().outcome(), before)?;
        Ok(marks)
    }

    /// Whether every statement was evaluated, or one was a false requirement or a clash. Then the reply and the marks are the program's.
    pub fn ended(&self) -> bool
        ensures value { result ≡ has_ended self.now }
        ensures reply { IsTrue result → self.now.reply ≡ (run_of self.now.program (state_of self.now.base)).0 }
        ensures marks { IsTrue result → self.now.marks ≡ (run_of self.now.program (state_of self.now.base)).1 }
        ensures run { IsRun self.now }
        ensures fits { FitMarks (state_of self.now.base) self.now.marks }
        ensures printed { AreReplied self.now.reply }
    {
        is_over(&self.course, self.prog.statements().len())
    }

    /// How many statements were evaluated.
    pub fn evaluated(&self) -> usize
        ensures { result ≡ length self.now.parts }
    {
        self.course.parts.len()
    }

    /// A part for each statement evaluated, in their order: its answers or truth on the state before it, and what these
    /// were sensitive to.
    pub fn parts(&self) -> &[SharedPart]
        ensures parts { result.now ≡ self.now.parts }
        ensures run { IsRun self.now }
    {
        self.course.parts.as_slice()
    }

    /// The program.
    pub fn program(&self) -> &Arc<Planned>
        ensures { arc_value result.now ≡ self.now.program }
    {
        &self.prog
    }

    /// The database that the program runs on.
    pub fn base(&self) -> &Database
        ensures { result.now ≡ self.now.base }
    {
        &self.base
    }

    /// The reply of the statements evaluated.
    pub fn reply(&self) -> &Reply
        ensures reply { result.now ≡ self.now.reply }
        ensures run { IsRun self.now }
        ensures printed { AreReplied self.now.reply }
    {
        &self.course.reply
    }

    /// The reply of the statements evaluated; the rest is given up.
    pub fn into_reply(self) -> Reply
        ensures reply { result ≡ self.reply }
        ensures printed { AreReplied result }
    {
        let Tally {
            prog: _,
            base: _,
            course,
        } = self;
        course.reply
    }

    /// The marks of the statements evaluated.
    pub fn marks(&self) -> &Marks
        ensures marks { result.now ≡ self.now.marks }
        ensures run { IsRun self.now }
        ensures fits { FitMarks (state_of self.now.base) self.now.marks }
    {
        &self.course.marks
    }
}

/// As `run`, with its joins done in this way.
pub(crate) fn run_kept_by<J: Joiner<L>, L>(
    by: &J,
    prog: &Arc<Planned>,
    base: &Database,
    moves: &mut Moves<L>,
) -> Result<Tally, NoMemory>
    requires ready { J.is_ready by.now }
    requires least { IsNoLess (J.most by.now) }
    requires fits { Fits (state_of base.now) (arc_value prog.now) }
    requires indexes { HasIndexes base.now (arc_value prog.now) }
    ensures program { IfOk result (λ t. t.program ≡ arc_value prog.now) }
    ensures base { IfOk result (λ t. t.base ≡ base.now) }
    ensures ended { IfOk result (λ t. has_ended t ≡ true) }
    ensures parts { IfOk result (λ t. IsRun t) }
    ensures reply { IfOk result (λ t. t.reply ≡ (run_of (arc_value prog.now) (state_of base.now)).0) }
    ensures marks { IfOk result (λ t. t.marks ≡ (run_of (arc_value prog.now) (state_of base.now)).1) }
    ensures fits { IfOk result (λ t. FitMarks (state_of base.now) t.marks) }
    ensures printed { IfOk result (λ t. AreReplied t.reply) }
    ensures evaluated { IfOk result (λ t. length t.parts ≡ ends_at (arc_value prog.now) (state_of base.now)) }
    ensures moves { moves.new ≤ moves.old + cost_of_first_by (J.most by.now) (ends_at (arc_value prog.now) (state_of base.now)) (arc_value prog.now) (state_of base.now) }
    ensures rises { moves.old ≤ moves.new }
{
    let mut tally = Tally::begin(prog, base)?;
    'statements: while !tally.ended() {
        tally.evaluate_by(by, moves)?;
    }
    Ok(tally)
}

/// The whole run of a program that fits the database, which has the indexes that the program needs. `moves` rises by at most
/// what the joins of the statements up to the program's end may take, also where memory is refused, and never falls.
pub fn run<L>(prog: &Arc<Planned>, base: &Database, moves: &mut Moves<L>) -> Result<Tally, NoMemory>
    requires fits { Fits (state_of base.now) (arc_value prog.now) }
    requires indexes { HasIndexes base.now (arc_value prog.now) }
    ensures program { IfOk result (λ t. t.program ≡ arc_value prog.now) }
    ensures base { IfOk result (λ t. t.base ≡ base.now) }
    ensures ended { IfOk result (λ t. has_ended t ≡ true) }
    ensures parts { IfOk result (λ t. IsRun t) }
    ensures reply { IfOk result (λ t. t.reply ≡ (run_of (arc_value prog.now) (state_of base.now)).0) }
    ensures marks { IfOk result (λ t. t.marks ≡ (run_of (arc_value prog.now) (state_of base.now)).1) }
    ensures fits { IfOk result (λ t. FitMarks (state_of base.now) t.marks) }
    ensures printed { IfOk result (λ t. AreReplied t.reply) }
    ensures evaluated { IfOk result (λ t. length t.parts ≡ ends_at (arc_value prog.now) (state_of base.now)) }
    ensures moves { moves.new ≤ moves.old + cost_of_first (ends_at (arc_value prog.now) (state_of base.now)) (arc_value prog.now) (state_of base.now) }
    ensures rises { moves.old ≤ moves.new }
{
    let tally = run_kept_by(&Whole, prog, base, moves)?;
    Ok(tally)
}
