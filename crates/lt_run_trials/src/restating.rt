//! Programs restated on later states: what touches them, and how far they go then.
use crate::agree::holds_at;
use crate::comparing::{int_row, is_print};
use crate::restatement::restated_by;
use crate::serial::{Serial, one_after_another};
use crate::texts::{is_same_ran, programs};
use lt_face::memory::NoMemory;
use lt_face::row::Row;
use lt_program::{Ran, Tally};
use lt_restate::{Spot, Touch};
use lt_values::cell_of_int;
use std::alloc::Global;
use std::thread::Threads;

/// Whether the one touch is of statement 1 by 5, which wasn't there.
fn are_by_five(alloc: Global, touches: &[Touch]) -> bool {
    let spot = Spot::Gap {
        prefix: Row::from_cells(alloc, &[]),
        lo: cell_of_int(5),
        hi: cell_of_int(6),
    };
    match touches {
        [touch] => {
            touch.statement == 1
                && touch.relation == 0
                && touch.row == int_row(alloc, 5)
                && touch.spot == spot
        }
        _ => false,
    }
}

/// Whether these inserts touch the answers above 3 of 1 and 9 so, and turn them into these.
fn touches_by_five<R: Threads + Sync>(
    rt: &R,
    alloc: Global,
    inserts: &str,
    answers: &[i64],
) -> Result<bool, NoMemory> {
    let reading = "print (x) where r(x), x > 3;";
    let out = restated_by(rt, alloc, NINE, reading, "", inserts)?;
    let is_so = are_by_five(alloc, out.touches.as_slice())
        && are_by_five(alloc, out.named.as_slice())
        && is_print(alloc, out.old.reply(), &[9])
        && is_print(alloc, out.new.reply(), answers);
    drop(out);
    Ok(is_so)
}

/// Two rows of r.
const NINE: &str = "insert r(1); insert r(9);";

/// Inserts, more than a search for one int leaves gaps and hits.
const MANY: &str =
    "insert r(20); insert r(21); insert r(22); insert r(23); insert r(24); insert r(25); insert r(26); insert r(27); \
    insert e(1, 2); insert e(2, 3);";

const MANY_WITH_FIVE: &str =
    "insert r(20); insert r(21); insert r(22); insert r(23); insert r(24); insert r(25); insert r(26); insert r(27); \
    insert e(1, 2); insert e(2, 3); insert r(5);";

#[test]
fn an_insert_into_a_gap_touches(rt: HostRuntime) -> Result<(), NoMemory> {
    for (inserts, answers) in [
        ("insert r(5);", [5, 9].as_slice()),
        (
            MANY_WITH_FIVE,
            [5, 9, 20, 21, 22, 23, 24, 25, 26, 27].as_slice(),
        ),
    ] {
        let is_so = touches_by_five(&rt, rt.alloc(), inserts, answers)?;
        holds_at(&rt, is_so, inserts);
    }
    Ok(())
}

/// A program on rows that other statements left, which had the marks of the first ones and then have those of the second ones.
#[derive(Clone, Copy)]
struct Case<'a> {
    stock: &'a str,
    statements: &'a str,
    first: &'a str,
    second: &'a str,
}

/// What the second statements do by plain loops, and then the program.
fn in_order(alloc: Global, case: Case) -> Result<Serial, NoMemory> {
    let progs = programs(alloc, &[case.second, case.statements], 2)?;
    let serial = one_after_another(alloc, case.stock, &progs)?;
    Ok(serial)
}

/// Whether the last of two runs answers and writes what this one did.
fn is_last(runs: &[Ran], tally: &Tally) -> bool {
    match runs {
        [_, ran] => is_same_ran(ran, tally),
        _ => false,
    }
}

/// Whether so many of the program's statements are touched, by marks and by rows, and so many are then evaluated, which do what they do
/// in order.
fn touches<R: Threads + Sync>(
    rt: &R,
    alloc: Global,
    case: Case,
    touched: usize,
    evaluated: usize,
) -> Result<bool, NoMemory> {
    let out = restated_by(
        rt,
        alloc,
        case.stock,
        case.statements,
        case.first,
        case.second,
    )?;
    let serial = in_order(alloc, case)?;
    let is_so = out.touches.len() == touched
        && out.named.len() == touched
        && out.new.evaluated() == evaluated
        && is_last(&serial.runs, &out.new);
    drop(out);
    Ok(is_so)
}

const ONE: &str = "insert r(1);";

/// A program that is refused where r lacks 1.
const ASKING: &str = "require some r(1); insert r(2); print (x) where r(x);";

/// Some nights of a room, and three nights that are asked for.
const NIGHTS: &str =
    "insert e(1, 5); insert e(1, 6); insert e(1, 10); insert e(1, 11); insert e(1, 20);";

const THREE: &str = "print (d) where e(1, d), d >= 10, d < 13;";

/// Books two nights of room 1.
const BOOKING: &str = "require none e(1, 7); require none e(1, 8); insert e(1, 7); insert e(1, 8);";

const EDGES: &str = "insert e(1, 2); insert e(2, 3); insert e(1, 3);";

const TRIANGLE: &str = "print (a, b, c) where e(a, b), e(b, c), e(a, c);";

const PINNED: &str = "print (x) where r(x), x = 1;";

const ABSENT: &str = "require some not r(5);";

#[test]
fn what_was_asked_for_touches(rt: HostRuntime) -> Result<(), NoMemory> {
    for (row, stock, statements, first, second, touched, evaluated) in [
        ("past a pinned key", NINE, PINNED, "", "insert r(20);", 0, 1),
        ("many past a pinned key", NINE, PINNED, "", MANY, 0, 1),
        (
            "other nights",
            NIGHTS,
            THREE,
            "",
            "insert e(1, 8); insert e(1, 21); insert e(2, 11);",
            0,
            1,
        ),
        (
            "a night that was asked for",
            NIGHTS,
            THREE,
            "",
            "insert e(1, 12);",
            1,
            1,
        ),
        (
            "a booking of another room",
            NIGHTS,
            BOOKING,
            "",
            "insert e(2, 7); insert e(2, 8);",
            0,
            4,
        ),
        (
            "a booking of one of the nights",
            NIGHTS,
            BOOKING,
            "",
            "insert e(1, 7);",
            1,
            1,
        ),
        (
            "past the last edge",
            EDGES,
            TRIANGLE,
            "",
            "insert e(3, 4);",
            1,
            1,
        ),
        (
            "refused where the row goes",
            ONE,
            ASKING,
            "",
            "delete r(1);",
            1,
            1,
        ),
        (
            "done where it comes again",
            ONE,
            ASKING,
            "delete r(1);",
            "",
            1,
            3,
        ),
        (
            "an absent row comes",
            "insert r(4);",
            ABSENT,
            "",
            "insert r(5);",
            1,
            1,
        ),
        (
            "a row goes",
            "insert r(5);",
            ABSENT,
            "",
            "delete r(5);",
            1,
            1,
        ),
    ] {
        let case = Case {
            stock,
            statements,
            first,
            second,
        };
        holds_at(
            &rt,
            touches(&rt, rt.alloc(), case, touched, evaluated)?,
            row,
        );
    }
    Ok(())
}
