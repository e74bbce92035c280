//! Programs as text, over the relations r(int) and e(int, int) or e(int -> int), and databases with these.
ghost use Rattle.std.specs.Prelude.{◌≡◌, ◌≤◌, [], ◌∷◌, length, map, IfOk, IfSome};
ghost use Rattle.std.specs.Arc.{arc_value};
ghost use Rattle.std.specs.List.{AllByRecursion};
ghost use Rattle.lt_model.specs.Fits.{Fits, FitMarks};
ghost use Rattle.lt_model.specs.Limits.{IsProgramWithin};
ghost use Rattle.lt_base.specs.Tables.{state_of};
ghost use Rattle.lt_program.specs.Tally.{HasIndexes};
ghost use Rattle.lt_run_trials.specs.Fitting.{AreBoth, FitsBoth};

use crate::comparing::is_same_reply;
use lt_base::Database;
use lt_check::check::{CheckFault, check};
use lt_check::schema::{DeclareFault, Schema};
use lt_delta::Marks;
use lt_face::memory::NoMemory;
use lt_face::moves::Moves;
use lt_model::kind::{Kind, KindList};
use lt_model::name::Name;
use lt_model::normal::Prog;
use lt_program::{Ran, Tally, indexed, run, run_alone};
use lt_query::laws::plans_of_bodies;
use lt_query::{Planned, plan_all};
use lt_script::{Item, ProgramList, Reader, Step};
use std::alloc::Global;
use std::sync::Arc;
use std::thread::Threads;

/// How e is declared.
#[derive(Clone, Copy)]
pub(crate) enum Pairs {
    /// As e(int, int).
    Plain,
    /// As e(int -> int).
    Keyed,
}

impl Pairs {
    /// How many key columns e has.
    fn keys(self) -> u32
        ensures { (1 ≤ result) × (result ≤ 2) }
    {
        match self {
            Pairs::Plain => 2,
            Pairs::Keyed => 1,
        }
    }
}

/// The relations by name.
fn schema(alloc: Global, pairs: Pairs) -> Result<Schema, DeclareFault>
    ensures { IfOk result (λ schema. map (λ heading. length heading.1) schema ≡ 1 ∷ 2 ∷ []) }
{
    let mut schema = Schema::new(alloc);
    let r = KindList::from_kinds(alloc, &[Kind::Int]);
    schema.declare(Name::from_bytes(alloc, &[b'r']), r, 1)?;
    let e = KindList::from_kinds(alloc, &[Kind::Int, Kind::Int]);
    schema.declare(Name::from_bytes(alloc, &[b'e']), e, pairs.keys())?;
    Ok(schema)
}

/// A script of one program.
fn script_of(alloc: Global, statements: &str) -> Result<String, NoMemory> {
    let mut script = String::from_str(alloc, "batch program p ")?;
    script.push_str(statements)?;
    script.push_str(" end; commit;")?;
    Ok(script)
}

/// The programs of a script that begins with a batch.
fn programs_of(alloc: Global, script: &str) -> Option<ProgramList>
    ensures { IfSome result (λ programs. AllByRecursion IsProgramWithin programs) }
{
    let mut reader = Reader::over(script.as_bytes());
    match reader.next_item(alloc) {
        Step::Item(Item::Batch { programs }) => Some(programs),
        _ => None,
    }
}

/// The check of a first program. Where none is, the answer is as if memory had ended.
fn checked(alloc: Global, programs: &ProgramList, pairs: Pairs) -> Result<Prog, CheckFault>
    requires { AllByRecursion IsProgramWithin programs.now }
    ensures { IfOk result FitsBoth }
{
    let Ok(schema) = schema(alloc, pairs) else {
        return Err(CheckFault::NoMemory);
    };
    match programs.as_slice() {
        [program, ..] => check(alloc, program, &schema),
        [] => Err(CheckFault::NoMemory),
    }
}

/// The program of these statements where e is a plain relation.
pub(crate) fn program(alloc: Global, statements: &str) -> Result<Prog, NoMemory>
    ensures { IfOk result FitsBoth }
{
    let prog = program_over(alloc, Pairs::Plain, statements)?;
    Ok(prog)
}

/// The program of these statements. Where they have a fault or a code, the answer is as if memory had ended.
pub(crate) fn program_over(alloc: Global, pairs: Pairs, statements: &str) -> Result<Prog, NoMemory>
    ensures { IfOk result FitsBoth }
{
    let script = script_of(alloc, statements)?;
    let Some(programs) = programs_of(alloc, &script) else {
        return Err(NoMemory);
    };
    match checked(alloc, &programs, pairs) {
        Ok(prog) => Ok(prog),
        Err(_) => Err(NoMemory),
    }
}

/// So many programs, in the order of these texts, and after the last again from the first, where e is a plain relation.
pub(crate) fn programs(
    alloc: Global,
    texts: &[&str],
    count: usize,
) -> Result<Vec<Arc<Planned>>, NoMemory>
    requires { 1 ≤ length texts.now }
    ensures many { IfOk result (λ progs. length progs.items ≡ count) }
    ensures fit { IfOk result (λ progs. AllByRecursion FitsBoth (map arc_value progs.items)) }
{
    let progs = programs_over(alloc, Pairs::Plain, texts, count)?;
    Ok(progs)
}

/// The programs with the routes of their plans. Each shape is planned once, where they have few.
fn all_routed(
    alloc: Global,
    base: &Database,
    progs: &[Arc<Prog>],
) -> Result<Vec<Arc<Planned>>, NoMemory>
    requires { AllByRecursion (Fits (state_of base.now)) (map arc_value progs.now) }
    ensures { IfOk result (λ routed. map arc_value routed.items ≡ map arc_value progs.now) }
{
    plans_of_bodies();
    base.look_over();
    let planned = plan_all(alloc, progs)?;
    Ok(planned)
}

/// So many programs, in the order of these texts, and after the last again from the first.
pub(crate) fn programs_over(
    alloc: Global,
    pairs: Pairs,
    texts: &[&str],
    count: usize,
) -> Result<Vec<Arc<Planned>>, NoMemory>
    requires { 1 ≤ length texts.now }
    ensures many { IfOk result (λ progs. length progs.items ≡ count) }
    ensures fit { IfOk result (λ progs. AllByRecursion FitsBoth (map arc_value progs.items)) }
{
    let mut progs = Vec::new(alloc);
    for i in 0..count {
        let prog = program_over(alloc, pairs, texts[i % texts.len()])?;
        let prog = Arc::new(alloc, prog)?;
        progs.push(prog)?;
    }
    let base = bare(alloc)?;
    let routed = all_routed(alloc, &base, &progs)?;
    Ok(routed)
}

/// The relations without rows.
pub(crate) fn bare(alloc: Global) -> Result<Database, NoMemory>
    ensures { IfOk result (λ db. AreBoth (state_of db)) }
{
    let none = Database::empty(alloc);
    let one = none.declared(1)?;
    let both = one.declared(2)?;
    Ok(both)
}

/// The program with the routes of its plans.
pub(crate) fn routed(alloc: Global, base: &Database, prog: Prog) -> Result<Arc<Planned>, NoMemory>
    requires { Fits (state_of base.now) prog }
    ensures { IfOk result (λ routed. arc_value routed ≡ prog) }
{
    plans_of_bodies();
    base.look_over();
    let prog = Arc::new(alloc, prog)?;
    let planned = Planned::new(alloc, &prog)?;
    let shared = Arc::new(alloc, planned)?;
    Ok(shared)
}

/// Whether the run of which the reply and the marks alone are kept answers and writes what the other did.
pub(crate) fn is_same_ran(ran: &Ran, tally: &Tally) -> bool {
    is_same_reply(&ran.reply, tally.reply()) && Marks::equal(&ran.marks, tally.marks())
}

/// Whether two tallies have the same reply and the same marks.
pub(crate) fn is_same_run(one: &Tally, other: &Tally) -> bool {
    is_same_reply(one.reply(), other.reply()) && Marks::equal(one.marks(), other.marks())
}

/// Whether the whole run of which the reply and the marks alone are kept answers and writes what this one did.
fn is_alone(prog: &Arc<Planned>, db: &Database, tally: &Tally) -> Result<bool, NoMemory>
    requires fits { Fits (state_of db.now) (arc_value prog.now) }
    requires indexes { HasIndexes db.now (arc_value prog.now) }
{
    let mut moves: Moves<()> = Moves::new();
    let ran = run_alone(prog, db, &mut moves)?;
    let is_so = is_same_ran(&ran, tally);
    drop(ran);
    Ok(is_so)
}

/// The run by joins on a database with the indexes. Where the run of which the reply and the marks alone are kept isn't alike, the
/// answer is as if memory had ended.
pub(crate) fn joined_on(prog: &Arc<Planned>, db: &Database) -> Result<Tally, NoMemory>
    requires fits { Fits (state_of db.now) (arc_value prog.now) }
    requires indexes { HasIndexes db.now (arc_value prog.now) }
    ensures { IfOk result (λ tally. FitMarks (state_of db.now) tally.marks) }
{
    let mut moves: Moves<()> = Moves::new();
    let tally = run(prog, db, &mut moves)?;
    if !is_alone(prog, db, &tally)? {
        return Err(NoMemory);
    }
    Ok(tally)
}

/// The same where the indexes are still to be made.
pub(crate) fn joined<R: Threads + Sync>(
    rt: &R,
    alloc: Global,
    base: &Database,
    prog: Prog,
) -> Result<Tally, NoMemory>
    requires { Fits (state_of base.now) prog }
    ensures { IfOk result (λ tally. FitMarks (state_of base.now) tally.marks) }
{
    let shared = routed(alloc, base, prog)?;
    let db = indexed(rt, base, &shared)?;
    joined_on(&shared, &db)
}

/// The relations with these marks laid on them.
fn marked(base: &Database, marks: &Marks) -> Result<Database, NoMemory>
    requires both { AreBoth (state_of base.now) }
    requires fits { FitMarks (state_of base.now) marks.now }
    ensures { IfOk result (λ db. AreBoth (state_of db)) }
{
    let mut db = base.share()?;
    db.lay(marks)?;
    Ok(db)
}

/// The relations with what a program writes.
fn after<R: Threads + Sync>(
    rt: &R,
    alloc: Global,
    base: &Database,
    prog: Prog,
) -> Result<Database, NoMemory>
    requires both { AreBoth (state_of base.now) }
    requires fits { Fits (state_of base.now) prog }
    ensures { IfOk result (λ db. AreBoth (state_of db)) }
{
    let tally = joined(rt, alloc, base, prog)?;
    let db = marked(base, tally.marks())?;
    drop(tally);
    Ok(db)
}

/// The relations with the rows that these statements leave.
pub(crate) fn stocked<R: Threads + Sync>(
    rt: &R,
    alloc: Global,
    statements: &str,
) -> Result<Database, NoMemory>
    ensures { IfOk result (λ db. AreBoth (state_of db)) }
{
    let prog = program(alloc, statements)?;
    let base = bare(alloc)?;
    let db = after(rt, alloc, &base, prog)?;
    Ok(db)
}
