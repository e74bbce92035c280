//! Joins of small bodies: their answers, and what these depended on.
ghost use Rattle.std.specs.Prelude.{IfOk};
ghost use Rattle.lt_face.specs.State.{State};
ghost use Rattle.lt_model.specs.Fits.{IsBodyOf, FitsStatement};
ghost use Rattle.lt_base.specs.Tables.{state_of};
ghost use Rattle.lt_query.specs.Needs.{body_of as body_in};
ghost use Rattle.lt_query.specs.Runnable.{AreWide};
ghost use Rattle.lt_program.specs.Planned.{IsPlanned, ArePicked};
ghost use Rattle.lt_program.specs.Tally.{HasIndexesOf};

use crate::agree::holds_at;
use crate::comparing::{are_int_rows, int_row};
use crate::texts::{program, routed, stocked};
use lt_base::Database;
use lt_face::items::{Items, RowList};
use lt_face::memory::NoMemory;
use lt_face::moves::Moves;
use lt_join::{answers, answers_alone, some, some_alone};
use lt_model::normal::{Body, Stmt, TermList};
use lt_program::indexed;
use lt_query::laws::plans_of_bodies;
use lt_query::{Plan, plan};
use lt_sense::Sense;
use std::alloc::Global;
use std::thread::Threads;

/// The answers of a print, or whether a requirement's body has one, and what that was sensitive to.
#[derive(Drop)]
struct Finding {
    rows: RowList,
    /// The answers again, where nothing is kept of what they were sensitive to.
    alone: RowList,
    any: bool,
    sense: Sense,
}

/// The plan of a body that fits.
pub(crate) fn planned(body: &Body) -> Result<Plan, NoMemory>
    requires { (state : State) × AreWide state × IsBodyOf state body.now }
    ensures { IfOk result (IsPlanned body.now) }
{
    plans_of_bodies();
    let plan = plan(body)?;
    Ok(plan)
}

/// What a print finds.
fn answered(
    alloc: Global,
    db: &Database,
    body: &Body,
    terms: &TermList,
) -> Result<Finding, NoMemory>
    requires wide { AreWide (state_of db.now) }
    requires indexes { HasIndexesOf db.now body.now }
    requires fits { IsBodyOf (state_of db.now) body.now }
    requires terms { ArePicked body.now terms.now }
{
    let plan = planned(body)?;
    let mut moves = Moves::<()>::new();
    let (rows, gathered) = answers(alloc, body, &plan, terms, db, &mut moves)?;
    let sense = gathered.seal()?;
    let alone = answers_alone(alloc, body, &plan, terms, db, &mut moves)?;
    let any = rows.len() > 0;
    Ok(Finding {
        rows,
        alone,
        any,
        sense,
    })
}

/// What a requirement finds. Where it finds another truth when nothing is kept, the answer is as if memory had ended.
fn asked(alloc: Global, db: &Database, body: &Body) -> Result<Finding, NoMemory>
    requires wide { AreWide (state_of db.now) }
    requires indexes { HasIndexesOf db.now body.now }
    requires fits { IsBodyOf (state_of db.now) body.now }
{
    let plan = planned(body)?;
    let mut moves = Moves::<()>::new();
    let (any, gathered) = some(alloc, body, &plan, db, &mut moves)?;
    let sense = gathered.seal()?;
    let told = some_alone(alloc, body, &plan, db, &mut moves)?;
    if told != any {
        return Err(NoMemory);
    }
    Ok(Finding {
        rows: Items::new(alloc),
        alone: Items::new(alloc),
        any,
        sense,
    })
}

/// What a print or a requirement finds. Where it is neither, the answer is as if memory had ended.
fn evaluated(alloc: Global, db: &Database, stmt: &Stmt) -> Result<Finding, NoMemory>
    requires wide { AreWide (state_of db.now) }
    requires indexes { HasIndexesOf db.now (body_in stmt.now) }
    requires fits { FitsStatement (state_of db.now) stmt.now }
{
    match stmt {
        Stmt::Print { terms, body, .. } => answered(alloc, db, body, terms),
        Stmt::Require { body, .. } => asked(alloc, db, body),
        _ => Err(NoMemory),
    }
}

/// What a statement finds on the rows that others have left.
fn found<R: Threads + Sync>(
    rt: &R,
    alloc: Global,
    stock: &str,
    statement: &str,
) -> Result<Finding, NoMemory> {
    let prog = program(alloc, statement)?;
    let base = stocked(rt, alloc, stock)?;
    let prog = routed(alloc, &base, prog)?;
    let db = indexed(rt, &base, &prog)?;
    db.look_over();
    match prog.statements() {
        [stmt] => evaluated(alloc, &db, stmt),
        _ => Err(NoMemory),
    }
}

/// What a print answers, also where nothing is kept, or whether a requirement's body has an answer; and the ints of r, from the first of
/// each pair to the last, on whose rows that hangs: of those from -2 to 22 just these.
#[derive(Clone, Copy)]
struct Want<'a> {
    rows: &'a [i64],
    any: bool,
    covers: &'a [(i64, i64)],
}

/// Whether the int lies in one of the ranges.
fn lies_in(ranges: &[(i64, i64)], n: i64) -> bool {
    for (first, last) in ranges {
        if *first <= n && n <= *last {
            return true;
        }
    }
    false
}

/// Whether the sense covers just these ints of r, of those from -2 to 22.
fn covers_just(alloc: Global, sense: &Sense, ranges: &[(i64, i64)]) -> bool {
    for n in -2..23 {
        if sense.covers(0, &int_row(alloc, n)) != lies_in(ranges, n) {
            return false;
        }
    }
    true
}

/// Whether a statement finds this on the rows that others have left.
fn finds<R: Threads + Sync>(
    rt: &R,
    alloc: Global,
    stock: &str,
    statement: &str,
    want: &Want,
) -> Result<bool, NoMemory> {
    let found = found(rt, alloc, stock, statement)?;
    let is_so = found.any == want.any
        && are_int_rows(alloc, found.rows.as_slice(), want.rows)
        && are_int_rows(alloc, found.alone.as_slice(), want.rows)
        && covers_just(alloc, &found.sense, want.covers);
    drop(found);
    Ok(is_so)
}

const TWO_ROWS: &str = "insert r(1); insert r(9);";

/// Statements on the rows that others have left, and what they find.
const TABLE: [(&str, &str, Want<'static>); 8] = [
    // a range passes all
    (
        TWO_ROWS,
        "print (x) where r(x), x > 3;",
        Want {
            rows: &[9],
            any: true,
            covers: &[(-2, 22)],
        },
    ),
    // a pin ends its level with its find
    (
        TWO_ROWS,
        "print (x) where r(x), x = 1;",
        Want {
            rows: &[1],
            any: true,
            covers: &[(-2, 1)],
        },
    ),
    // a requirement stops at its first answer
    (
        "insert r(1); insert r(9); insert r(12);",
        "require some r(x), x > 3;",
        Want {
            rows: &[],
            any: true,
            covers: &[(-2, 9)],
        },
    ),
    // one without an answer passes all of the range, and seeks past what is below it
    (
        "insert r(1); insert r(2); insert r(3);",
        "require some r(x), x > 3;",
        Want {
            rows: &[],
            any: false,
            covers: &[(-2, 1), (4, 22)],
        },
    ),
    // a range ends at its upper bound
    (
        TWO_ROWS,
        "print (x) where r(x), x <= 3;",
        Want {
            rows: &[1],
            any: true,
            covers: &[(-2, 8)],
        },
    ),
    // a requirement that is met by an absent row keeps its gap, and what it met before
    (
        "insert r(1); insert r(2); insert r(9);",
        "require some r(x), not r(y), y = x + 1;",
        Want {
            rows: &[],
            any: true,
            covers: &[(-2, 3)],
        },
    ),
    // an absent row alone, and a row that is there in its place
    (
        "insert r(1);",
        "require some not r(4);",
        Want {
            rows: &[],
            any: true,
            covers: &[(4, 4)],
        },
    ),
    (
        "insert r(1);",
        "require some not r(1);",
        Want {
            rows: &[],
            any: false,
            covers: &[(1, 1)],
        },
    ),
];

#[test]
fn evaluations_hang_on_what_they_met(rt: HostRuntime) -> Result<(), NoMemory> {
    for (stock, statement, want) in TABLE {
        holds_at(
            &rt,
            finds(&rt, rt.alloc(), stock, statement, &want)?,
            statement,
        );
    }
    Ok(())
}
