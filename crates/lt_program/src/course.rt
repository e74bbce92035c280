//! How far the run of a program has come on a database.
ghost use Rattle.std.specs.Prelude.{◌≡◌, ◌≤◌, ◌+◌, ℕ, List, true, false, None, OnOk, OnErr, IfOk, ◌++◌, ◌∷◌, []};
ghost use Rattle.lt_face.specs.State.{State};
ghost use Rattle.lt_model.specs.Effect.{effect as effect_of};
ghost use Rattle.lt_model.specs.Fits.{FitMarks};
ghost use Rattle.lt_model.specs.Marks.{Marks as MarksView, AreMarks, and_then, laid};
ghost use Rattle.lt_base.specs.Tables.{Table, state_of, has_index};
ghost use Rattle.lt_query.specs.Needs.{body_of as body_in};
ghost use Rattle.lt_query.specs.Lists.{IsRising};
ghost use Rattle.lt_query.specs.Stated.{stated_plan};
ghost use Rattle.lt_join.specs.Mended.{HaveTouched};
ghost use Rattle.lt_join.specs.MendedPlan.{mending_cost};
ghost use Rattle.lt_program.specs.Part.{Part as PartType};
ghost use Rattle.lt_program.specs.Asked.{CanEvaluate};
ghost use Rattle.lt_program.specs.Effect.{view};
ghost use Rattle.lt_program.specs.Run.{reads_rows};
ghost use Rattle.lt_program.specs.Split.{IsNoLess, statement_cost_by};
ghost use Rattle.lt_program.specs.Tally.{IsLaid, IsLaidOn, IsLaidUpTo, IsPartOn, IsMendedPart, Grows, is_refused, is_sliced, next, those, with_print, statement_cost};

use crate::copying::copied_reply;
use crate::effect::Effect;
use crate::evaluation::{Step, evaluated, mended};
use crate::joining::{Joiner, Whole};
use crate::kept::effect_by;
use crate::part::{Certificate, Part, SharedPart};
use crate::reading::reads_some;
use lt_base::Database;
use lt_delta::Marks;
use lt_face::items::Items;
use lt_face::key::Key;
use lt_face::memory::NoMemory;
use lt_face::moves::Moves;
use lt_model::normal::Stmt;
use lt_model::reply::{Printed, Reply};
use lt_query::Plan;
use lt_sense::Sense;
use std::alloc::Global;
use std::mem;

/// A database with the first of a program's marks laid on it, and the marks that came after these.
#[derive(Drop)]
pub(crate) struct Laid {
    pub tables: Database,
    pub later: Option<Marks>,
}

/// The parts, the reply and the marks of the statements so far. Marks are laid on the database at the first statement that
/// reads rows after them, and not before; what is laid stays so.
#[derive(Drop)]
pub(crate) struct Course {
    pub laid: Option<Laid>,
    pub parts: Items<SharedPart>,
    pub reply: Reply,
    pub marks: Marks,
}

impl Laid {
    /// The database with the later marks laid on it, too.
    fn finish(self) -> Result<Database, NoMemory>
        requires { FitMarks (state_of self.tables) (those self.later) }
        ensures state { IfOk result (λ tables. state_of tables ≡ laid (state_of self.tables) (those self.later)) }
        ensures indexes { IfOk result (λ tables. (relation : ℕ) (columns : List ℕ) → has_index tables relation columns ≡ has_index self.tables relation columns) }
    {
        let Laid { tables, later } = self;
        match later {
            None => Ok(tables),
            Some(marks) => {
                let mut all = tables;
                all.lay(&marks)?;
                Ok(all)
            }
        }
    }
}

/// The marks with others after them.
fn joined(first: Option<Marks>, marks: &Marks) -> Result<Marks, NoMemory>
    ensures { IfOk result (λ all. all ≡ and_then (those first) marks.now) }
{
    match first {
        None => {
            let _ascending = marks.len();
            let same = marks.share()?;
            Ok(same)
        }
        Some(mut all) => {
            all.add(marks)?;
            Ok(all)
        }
    }
}

/// What is laid, with more marks to be laid after it. Where there is no memory for them, it is given up.
fn followed(laid: Laid, marks: &Marks) -> Option<Laid>
    ensures { (base : List Table) (before : MarksView) → IsLaidUpTo base before laid → IsLaid base (and_then before marks.now) result }
{
    let Laid { tables, later } = laid;
    match joined(later, marks) {
        Ok(all) => Some(Laid {
            tables,
            later: Some(all),
        }),
        Err(NoMemory) => None,
    }
}

/// What is laid, with more marks to be laid after it, if anything is.
fn followed_by(laid: Option<Laid>, marks: &Marks) -> Option<Laid>
    ensures { (base : List Table) (before : MarksView) → IsLaid base before laid → IsLaid base (and_then before marks.now) result }
{
    match laid {
        None => None,
        Some(laid) => followed(laid, marks),
    }
}

/// The database with the marks laid on it, of which the first may be laid.
fn all_laid(laid: Option<Laid>, base: &Database, marks: &Marks) -> Result<Database, NoMemory>
    requires laid { IsLaid base.now marks.now laid }
    requires fits { FitMarks (state_of base.now) marks.now }
    ensures laid { IfOk result (IsLaidOn base.now marks.now) }
    ensures ascending { AreMarks marks.now }
{
    let _ascending = marks.len();
    match laid {
        Some(laid) => {
            base.look_over();
            let tables = laid.finish()?;
            Ok(tables)
        }
        None => {
            let tables = base.laid(marks)?;
            Ok(tables)
        }
    }
}

/// The part, sensitive to nothing.
fn insensitive(alloc: Global, part: Part) -> Part
    ensures { result ≡ record { outcome = part.outcome; sense = record { gaps = []; hits = [] }; slices = []; by_key = false } }
{
    Part::new(part.into_outcome(), Certificate::Whole(Sense::none(alloc)))
}

/// One more printed list, unless the program was refused. Want of memory leaves the reply as it was.
pub(crate) fn print(reply: &mut Reply, printed: Printed) -> Result<(), NoMemory>
    ensures ok { OnOk result (reply.new ≡ with_print reply.old printed) }
    ensures err { OnErr result (reply.new ≡ reply.old) }
{
    match reply {
        Reply::Done(prints) => {
            prints.push(printed)?;
            Ok(())
        }
        Reply::Refused(_) => Ok(()),
    }
}

/// Second owners of the parts.
fn shared_parts(alloc: Global, parts: &[SharedPart]) -> Result<Items<SharedPart>, NoMemory>
    ensures { IfOk result (λ shared. shared ≡ parts.now) }
{
    let mut shared = Items::new(alloc);
    for part in parts {
        let part = part.share()?;
        shared.push(part)?;
    }
    Ok(shared)
}

impl Course {
    /// No statement yet.
    pub(crate) fn new(alloc: Global) -> Result<Course, NoMemory>
        ensures laid { IfOk result (λ course. course.laid ≡ None) }
        ensures parts { IfOk result (λ course. course.parts ≡ []) }
        ensures reply { IfOk result (λ course. course.reply ≡ Reply.Done []) }
        ensures marks { IfOk result (λ course. course.marks ≡ []) }
    {
        Ok(Course {
            laid: None,
            parts: Items::new(alloc),
            reply: Reply::Done(Items::new(alloc)),
            marks: Marks::empty(alloc)?,
        })
    }

    /// The same course again, without what is laid.
    pub(crate) fn share(&self) -> Result<Course, NoMemory>
        ensures { IfOk result (λ course. course ≡ record self.now { laid = None }) }
    {
        let alloc = self.parts.allocator();
        let parts = shared_parts(alloc, self.parts.as_slice())?;
        let reply = copied_reply(alloc, &self.reply)?;
        let marks = self.marks.share()?;
        Ok(Course {
            laid: None,
            parts,
            reply,
            marks,
        })
    }

    /// Takes the database on which the marks are laid.
    fn take_laid(&mut self, base: &Database) -> Result<Database, NoMemory>
        requires laid { IsLaid base.now self.old.marks self.old.laid }
        requires fits { FitMarks (state_of base.now) self.old.marks }
        ensures laid { IfOk result (IsLaidOn base.now self.old.marks) }
        ensures ascending { AreMarks self.old.marks }
        ensures rest { self.new ≡ record self.old { laid = None } }
    {
        let laid = mem::replace(&mut self.laid, None);
        let tables = all_laid(laid, base, &self.marks)?;
        Ok(tables)
    }

    /// Keeps marks that aren't laid yet, where a database is laid.
    fn follow(&mut self, marks: &Marks)
        ensures rest { self.new ≡ record self.old { laid = self.new.laid } }
        ensures laid { (base : List Table) (before : MarksView) → IsLaid base before self.old.laid → IsLaid base (and_then before marks.now) self.new.laid }
    {
        let laid = mem::replace(&mut self.laid, None);
        self.laid = followed_by(laid, marks);
    }

    /// One more part that leaves the reply as it is, and these marks after the others.
    fn write(&mut self, part: SharedPart, marks: &Marks) -> Result<(), NoMemory>
        ensures ok { OnOk result (self.new ≡ record self.old { laid = self.new.laid; parts = self.old.parts ++ part ∷ []; marks = and_then self.old.marks marks.now }) }
        ensures laid { (base : List Table) → IsLaid base self.old.marks self.old.laid → IsLaid base self.new.marks self.new.laid }
        ensures err { OnErr result (self.new ≡ self.old) }
    {
        self.parts.push(part)?;
        match self.marks.add(marks) {
            Ok(()) => {
                self.follow(marks);
                Ok(())
            }
            Err(NoMemory) => {
                self.parts.pop();
                Err(NoMemory)
            }
        }
    }

    /// One more part, and the program is refused.
    fn refuse(&mut self, number: u32, part: SharedPart) -> Result<(), NoMemory>
        ensures ok { OnOk result (self.new ≡ record { laid = None; parts = self.old.parts ++ part ∷ []; reply = Reply.Refused number; marks = [] }) }
        ensures err { OnErr result (self.new ≡ self.old) }
    {
        let none = Marks::empty(self.parts.allocator())?;
        self.parts.push(part)?;
        self.laid = None;
        self.reply = Reply::Refused(number);
        self.marks = none;
        Ok(())
    }

    /// One more part, and what it prints.
    fn print(&mut self, part: SharedPart, printed: Printed) -> Result<(), NoMemory>
        ensures ok { OnOk result (self.new ≡ record self.old { parts = self.old.parts ++ part ∷ []; reply = with_print self.old.reply printed }) }
        ensures err { OnErr result (self.new ≡ self.old) }
    {
        self.parts.push(part)?;
        match print(&mut self.reply, printed) {
            Ok(()) => Ok(()),
            Err(NoMemory) => {
                self.parts.pop();
                Err(NoMemory)
            }
        }
    }

    /// One more part, and its effect.
    fn accept(&mut self, number: u32, part: SharedPart, effect: Effect) -> Result<(), NoMemory>
        requires { is_refused self.old.reply ≡ false }
        ensures parts { OnOk result (self.new.parts ≡ self.old.parts ++ part ∷ []) }
        ensures reply { OnOk result (self.new.reply ≡ (next number (view effect) (self.old.reply, self.old.marks)).0) }
        ensures marks { OnOk result (self.new.marks ≡ (next number (view effect) (self.old.reply, self.old.marks)).1) }
        ensures laid { (base : List Table) → IsLaid base self.old.marks self.old.laid → IsLaid base self.new.marks self.new.laid }
        ensures err { OnErr result (self.new ≡ self.old) }
    {
        match effect {
            Effect::Writes(marks) => self.write(part, &marks),
            Effect::Requires(true) => {
                self.parts.push(part)?;
                Ok(())
            }
            Effect::Requires(false) => self.refuse(number, part),
            Effect::Clashes => self.refuse(number, part),
            Effect::Prints(kinds, rows) => self.print(
                part,
                Printed {
                    statement: number,
                    kinds,
                    rows,
                },
            ),
        }
    }

    /// One more statement, which reads no relation.
    fn evaluate_alone<L>(
        &mut self,
        base: &Database,
        number: u32,
        stmt: &Stmt,
        plan: &Plan,
        moves: &mut Moves<L>,
    ) -> Result<(), NoMemory>
        requires plan { plan.now ≡ stated_plan (body_in stmt.now) }
        requires going { is_refused self.old.reply ≡ false }
        requires reads { reads_rows stmt.now ≡ false }
        requires can_evaluate { CanEvaluate base.now stmt.now }
        requires laid { IsLaid base.now self.old.marks self.old.laid }
        ensures ok { OnOk result (Grows number stmt.now (state_of base.now) self.old self.new) }
        ensures cost { moves.new ≤ moves.old + statement_cost stmt.now (laid (state_of base.now) self.old.marks) }
        ensures moves { moves.old ≤ moves.new }
        ensures laid { IsLaid base.now self.new.marks self.new.laid }
        ensures err { OnErr result (self.new ≡ self.old) }
    {
        let alloc = self.parts.allocator();
        let step = evaluated(&Whole, alloc, base, stmt, plan, moves)?;
        let Step { part, effect } = step;
        let part = SharedPart::new(alloc, insensitive(alloc, part))?;
        self.accept(number, part, effect)?;
        Ok(())
    }

    /// One more statement, which was evaluated on the database with the marks so far laid on it. That database stays laid.
    fn take_step(
        &mut self,
        _base: &Database,
        number: u32,
        _stmt: &Stmt,
        tables: Database,
        step: Step,
    ) -> Result<(), NoMemory>
        requires going { is_refused self.old.reply ≡ false }
        requires laid { IsLaidOn _base.now self.old.marks tables }
        requires ascending { AreMarks self.old.marks }
        requires part { IsPartOn _stmt.now (state_of tables) step.part }
        requires effect { view step.effect ≡ effect_of _stmt.now (state_of tables) }
        ensures ok { OnOk result (Grows number _stmt.now (state_of _base.now) self.old self.new) }
        ensures parts { OnOk result (self.new.parts ≡ self.old.parts ++ step.part ∷ []) }
        ensures laid { IsLaid _base.now self.new.marks self.new.laid }
        ensures parts_kept { OnErr result (self.new.parts ≡ self.old.parts) }
        ensures reply_kept { OnErr result (self.new.reply ≡ self.old.reply) }
        ensures marks_kept { OnErr result (self.new.marks ≡ self.old.marks) }
    {
        self.laid = Some(Laid {
            tables,
            later: None,
        });
        let Step { part, effect } = step;
        let part = SharedPart::new(self.parts.allocator(), part)?;
        self.accept(number, part, effect)?;
        Ok(())
    }

    /// One more statement, on the database with the marks so far laid on it.
    fn evaluate_laid<J: Joiner<L>, L>(
        &mut self,
        by: &J,
        base: &Database,
        number: u32,
        stmt: &Stmt,
        plan: &Plan,
        moves: &mut Moves<L>,
    ) -> Result<(), NoMemory>
        requires ready { J.is_ready by.now }
        requires plan { plan.now ≡ stated_plan (body_in stmt.now) }
        requires going { is_refused self.old.reply ≡ false }
        requires can_evaluate { CanEvaluate base.now stmt.now }
        requires marks { FitMarks (state_of base.now) self.old.marks }
        requires laid { IsLaid base.now self.old.marks self.old.laid }
        ensures ok { OnOk result (Grows number stmt.now (state_of base.now) self.old self.new) }
        ensures cost { moves.new ≤ moves.old + statement_cost_by (J.most by.now) stmt.now (laid (state_of base.now) self.old.marks) }
        ensures moves { moves.old ≤ moves.new }
        ensures laid { IsLaid base.now self.new.marks self.new.laid }
        ensures parts_kept { OnErr result (self.new.parts ≡ self.old.parts) }
        ensures reply_kept { OnErr result (self.new.reply ≡ self.old.reply) }
        ensures marks_kept { OnErr result (self.new.marks ≡ self.old.marks) }
    {
        let alloc = self.parts.allocator();
        let tables = self.take_laid(base)?;
        let step = evaluated(by, alloc, &tables, stmt, plan, moves)?;
        self.take_step(base, number, stmt, tables, step)?;
        Ok(())
    }

    /// One more statement, kept by slices: this part of it, which is of some state, is mended at these keys.
    pub(crate) fn mend<L>(
        &mut self,
        base: &Database,
        number: u32,
        stmt: &Stmt,
        plan: &Plan,
        old: &Part,
        keys: &Items<Key>,
        moves: &mut Moves<L>,
    ) -> Result<(), NoMemory>
        requires plan { plan.now ≡ stated_plan (body_in stmt.now) }
        requires going { is_refused self.old.reply ≡ false }
        requires can_evaluate { CanEvaluate base.now stmt.now }
        requires marks { FitMarks (state_of base.now) self.old.marks }
        requires laid { IsLaid base.now self.old.marks self.old.laid }
        requires sliced { is_sliced stmt.now ≡ true }
        requires old { (state : State) × IsPartOn stmt.now state old.now × HaveTouched keys.now old.now.sense old.now.slices state (laid (state_of base.now) self.old.marks) }
        requires keys { IsRising keys.now }
        ensures ok { OnOk result (Grows number stmt.now (state_of base.now) self.old self.new) }
        ensures mended { OnOk result ((new : PartType) × (self.new.parts ≡ self.old.parts ++ new ∷ []) × IsMendedPart keys.now old.now new) }
        ensures cost { moves.new ≤ moves.old + mending_cost keys.now (body_in stmt.now) (stated_plan (body_in stmt.now)) (laid (state_of base.now) self.old.marks) }
        ensures moves { moves.old ≤ moves.new }
        ensures laid { IsLaid base.now self.new.marks self.new.laid }
        ensures parts_kept { OnErr result (self.new.parts ≡ self.old.parts) }
        ensures reply_kept { OnErr result (self.new.reply ≡ self.old.reply) }
        ensures marks_kept { OnErr result (self.new.marks ≡ self.old.marks) }
    {
        let alloc = self.parts.allocator();
        let tables = self.take_laid(base)?;
        let step = mended(alloc, &tables, stmt, plan, old, keys, moves)?;
        self.take_step(base, number, stmt, tables, step)?;
        Ok(())
    }

    /// One more statement, whose part this is: nothing is joined.
    pub(crate) fn keep(
        &mut self,
        _base: &Database,
        number: u32,
        stmt: &Stmt,
        part: &SharedPart,
    ) -> Result<(), NoMemory>
        requires going { is_refused self.old.reply ≡ false }
        requires part { IsPartOn stmt.now (laid (state_of _base.now) self.old.marks) part.now }
        requires laid { IsLaid _base.now self.old.marks self.old.laid }
        ensures ok { OnOk result (Grows number stmt.now (state_of _base.now) self.old self.new) }
        ensures kept { OnOk result (self.new.parts ≡ self.old.parts ++ part.now ∷ []) }
        ensures laid { IsLaid _base.now self.new.marks self.new.laid }
        ensures err { OnErr result (self.new ≡ self.old) }
    {
        let effect = effect_by(self.parts.allocator(), stmt, part.part().outcome())?;
        let part = part.share()?;
        self.accept(number, part, effect)?;
        Ok(())
    }

    /// One more statement.
    pub(crate) fn evaluate<J: Joiner<L>, L>(
        &mut self,
        by: &J,
        base: &Database,
        number: u32,
        stmt: &Stmt,
        plan: &Plan,
        moves: &mut Moves<L>,
    ) -> Result<(), NoMemory>
        requires ready { J.is_ready by.now }
        requires least { IsNoLess (J.most by.now) }
        requires plan { plan.now ≡ stated_plan (body_in stmt.now) }
        requires going { is_refused self.old.reply ≡ false }
        requires can_evaluate { CanEvaluate base.now stmt.now }
        requires marks { FitMarks (state_of base.now) self.old.marks }
        requires laid { IsLaid base.now self.old.marks self.old.laid }
        ensures ok { OnOk result (Grows number stmt.now (state_of base.now) self.old self.new) }
        ensures cost { moves.new ≤ moves.old + statement_cost_by (J.most by.now) stmt.now (laid (state_of base.now) self.old.marks) }
        ensures moves { moves.old ≤ moves.new }
        ensures laid { IsLaid base.now self.new.marks self.new.laid }
        ensures parts_kept { OnErr result (self.new.parts ≡ self.old.parts) }
        ensures reply_kept { OnErr result (self.new.reply ≡ self.old.reply) }
        ensures marks_kept { OnErr result (self.new.marks ≡ self.old.marks) }
    {
        if reads_some(stmt) {
            self.evaluate_laid(by, base, number, stmt, plan, moves)?;
        } else {
            self.evaluate_alone(base, number, stmt, plan, moves)?;
        }
        Ok(())
    }
}
