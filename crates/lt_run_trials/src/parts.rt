//! Joins of small bodies by parts, each for a range of the first variable's keys.
ghost use Rattle.lt_model.specs.Fits.{IsBodyOf, FitsStatement};
ghost use Rattle.lt_base.specs.Tables.{state_of};
ghost use Rattle.lt_query.specs.Needs.{body_of as body_in};
ghost use Rattle.lt_query.specs.Runnable.{AreWide};
ghost use Rattle.lt_program.specs.Planned.{ArePicked};
ghost use Rattle.lt_program.specs.Tally.{HasIndexesOf};

use crate::agree::{holds, holds_at};
use crate::comparing::are_int_rows;
use crate::joins::planned;
use crate::texts::{program, routed, stocked};
use lt_base::Database;
use lt_edges::{Gate, MeetGate, OpenGate};
use lt_face::items::RowList;
use lt_face::memory::NoMemory;
use lt_face::moves::Moves;
use lt_face::row::Row;
use lt_join::{answers_split, answers_split_alone, rows_of_slices, slices_split};
use lt_model::normal::{Body, Stmt, TermList};
use lt_program::indexed;
use lt_values::cell_of_int;
use std::alloc::Global;
use std::sync::Wait;
use std::thread::Threads;

/// How a body is joined by parts.
#[derive(Clone, Copy)]
enum Way {
    WithSense,
    Alone,
    ByKey,
}

/// The rows of a join by so many parts. Where the number is not from 1 to 16, the answer is as if memory had ended. A body without
/// levels has no slices: there the rows are those of a join without a sense.
fn joined<R: Threads + Wait + Sync, G: Gate>(
    rt: &R,
    alloc: Global,
    db: &Database,
    body: &Body,
    terms: &TermList,
    parts: u32,
    way: Way,
    gate: &G,
) -> Result<RowList, NoMemory>
    requires wide { AreWide (state_of db.now) }
    requires indexes { HasIndexesOf db.now body.now }
    requires fits { IsBodyOf (state_of db.now) body.now }
    requires terms { ArePicked body.now terms.now }
{
    if parts == 0 || parts > 16 {
        return Err(NoMemory);
    }
    let plan = planned(body)?;
    let mut moves = Moves::<()>::new();
    if let Way::WithSense = way {
        let found = answers_split(rt, alloc, body, &plan, terms, db, parts, gate, &mut moves)?;
        return Ok(found.0);
    }
    if let Way::ByKey = way {
        if plan.levels.len() > 0 {
            let found = slices_split(rt, alloc, body, &plan, terms, db, parts, gate, &mut moves)?;
            return rows_of_slices(alloc, &found);
        }
    }
    let rows = answers_split_alone(rt, alloc, body, &plan, terms, db, parts, gate, &mut moves)?;
    Ok(rows)
}

/// Those of a print. Where the statement is none, the answer is as if memory had ended.
fn printed<R: Threads + Wait + Sync, G: Gate>(
    rt: &R,
    alloc: Global,
    db: &Database,
    stmt: &Stmt,
    parts: u32,
    way: Way,
    gate: &G,
) -> Result<RowList, NoMemory>
    requires wide { AreWide (state_of db.now) }
    requires indexes { HasIndexesOf db.now (body_in stmt.now) }
    requires fits { FitsStatement (state_of db.now) stmt.now }
{
    match stmt {
        Stmt::Print { terms, body, .. } => joined(rt, alloc, db, body, terms, parts, way, gate),
        _ => Err(NoMemory),
    }
}

/// Those of a print on the rows that other statements have left.
fn found<R: Threads + Wait + Sync, G: Gate>(
    rt: &R,
    alloc: Global,
    stock: &str,
    statement: &str,
    parts: u32,
    way: Way,
    gate: &G,
) -> Result<RowList, NoMemory> {
    let prog = program(alloc, statement)?;
    let base = stocked(rt, alloc, stock)?;
    let prog = routed(alloc, &base, prog)?;
    let db = indexed(rt, &base, &prog)?;
    db.look_over();
    match prog.statements() {
        [stmt] => printed(rt, alloc, &db, stmt, parts, way, gate),
        _ => Err(NoMemory),
    }
}

/// Whether a print answers these ints by each number of parts.
fn finds_by_parts<R: Threads + Wait + Sync>(
    rt: &R,
    alloc: Global,
    stock: &str,
    statement: &str,
    ints: &[i64],
) -> Result<bool, NoMemory> {
    for parts in 1..17 {
        for way in [Way::WithSense, Way::Alone, Way::ByKey] {
            let rows = found(rt, alloc, stock, statement, parts, way, &OpenGate)?;
            if !are_int_rows(alloc, rows.as_slice(), ints) {
                return Ok(false);
            }
        }
    }
    Ok(true)
}

/// Statements on the rows that others have left, and the ints of their answers.
const TABLE: [(&str, &str, &[i64]); 5] = [
    // sets of no row and of some
    ("", "print (x) where r(x);", &[]),
    (
        "insert r(5); insert r(7); insert r(9);",
        "print (x) where r(x);",
        &[5, 7, 9],
    ),
    // no atom at all
    ("insert r(1);", "print (3) where not r(2);", &[3]),
    // answers that don't ascend with the first variable, and of several assignments
    (
        "insert e(1, 9); insert e(2, 5); insert e(3, 9);",
        "print (y) where e(x, y);",
        &[5, 9],
    ),
    // triangles
    (
        "insert e(1, 2); insert e(2, 3); insert e(1, 3); insert e(3, 1); insert e(3, 4); insert e(1, 4); insert e(4, 2);",
        "print (z) where e(x, y), e(y, z), e(x, z);",
        &[2, 3, 4],
    ),
];

#[test]
fn parts_have_the_answers_of_the_whole(rt: HostRuntime) -> Result<(), NoMemory> {
    for (stock, statement, ints) in TABLE {
        let is_so = finds_by_parts(&rt, rt.alloc(), stock, statement, ints)?;
        holds_at(&rt, is_so, statement);
    }
    Ok(())
}

/// Whether these rows are the one triangle of three edges.
fn is_triangle(alloc: Global, rows: &[Row]) -> bool {
    let cells = [cell_of_int(1), cell_of_int(2), cell_of_int(3)];
    match rows {
        [row] => *row == Row::from_cells(alloc, &cells),
        _ => false,
    }
}

#[test]
fn two_parts_find_the_triangle(rt: HostRuntime) -> Result<(), NoMemory> {
    let stock = "insert e(1, 2); insert e(2, 3); insert e(1, 3);";
    let statement = "print (a, b, c) where e(a, b), e(b, c), e(a, c);";
    for way in [Way::WithSense, Way::Alone, Way::ByKey] {
        let rows = found(&rt, rt.alloc(), stock, statement, 2, way, &OpenGate)?;
        holds(&rt, is_triangle(rt.alloc(), rows.as_slice()));
    }
    Ok(())
}

/// How many turns a part waits for another at most.
const TURNS: u64 = 1_000_000;

/// The statements that leave 1 to 100 in r: 64 rows by doubling, and each of these 36 further on.
const HUNDRED: &str =
    "insert r(1); insert r(y) where r(x), y = x + 1; insert r(y) where r(x), y = x + 2; insert r(y) where r(x), y = x + 4; insert r(y) where r(x), y = x + 8; insert r(y) where r(x), y = x + 16; insert r(y) where r(x), y = x + 32; insert r(y) where r(x), y = x + 36;";

/// Whether a body over 100 rows has 100 answers by two parts, of which part `awaited` came by before part `held` went on.
fn meet<R: Threads + Wait + Sync>(
    rt: &R,
    alloc: Global,
    held: u32,
    awaited: u32,
    way: Way,
) -> Result<bool, NoMemory> {
    let gate = MeetGate::new(held, awaited, TURNS);
    let rows = found(rt, alloc, HUNDRED, "print (x) where r(x);", 2, way, &gate)?;
    let has_met = gate.met();
    drop(gate);
    Ok(rows.len() == 100 && has_met)
}

/// Part 0 waits for part 1, and in another join part 1 for part 0: no order on one thread passes both.
#[test]
fn two_parts_meet_at_a_gate(rt: HostRuntime) -> Result<(), NoMemory> {
    for way in [Way::WithSense, Way::Alone, Way::ByKey] {
        holds(&rt, meet(&rt, rt.alloc(), 0, 1, way)?);
        holds(&rt, meet(&rt, rt.alloc(), 1, 0, way)?);
    }
    Ok(())
}
