//! Batches in order and as circuits, beside the plain runs of their programs one after another; and what several workers begin together.
ghost use Rattle.std.specs.Prelude.{◌≤◌, length, map};
ghost use Rattle.std.specs.Arc.{arc_value};
ghost use Rattle.std.specs.List.{AllByRecursion};
ghost use Rattle.lt_run_trials.specs.Fitting.{FitsBoth};

use crate::agree::{holds_of, same_at};
use crate::comparing::{count, is_print, is_same_reply};
use crate::serial::{Serial, one_after_another};
use crate::splitting::LONG;
use crate::texts::{Pairs, programs, programs_over, stocked};
use lt_base::Database;
use lt_batch::{Folded, Outcome, Pace, fold_batch, run_batch};
use lt_delta::Marks;
use lt_edges::OpenGate;
use lt_face::items::RowList;
use lt_face::memory::NoMemory;
use lt_face::row::Row;
use lt_model::reply::Reply;
use lt_program::Ran;
use lt_query::Planned;
use std::alloc::Global;
use std::sync::{Arc, Wait};
use std::thread::Threads;

/// How e is declared, the rows that there are, and the programs, which come round again.
#[derive(Clone, Copy)]
pub(crate) struct Batch<'a> {
    pub pairs: Pairs,
    pub stock: &'a str,
    pub texts: &'a [&'a str],
}

/// Takes one.
const TAKING: &str = "require some r(n), n > 0; replace r(n) by r(m) where r(n), m = n - 1;";

/// Programs that read and write the rows of one relation.
pub(crate) const MIXED: Batch<'static> = Batch {
    pairs: Pairs::Plain,
    stock: "",
    texts: &[
        "insert r(0); print (x) where r(x);",
        TAKING,
        "delete r(2); print (x) where r(x);",
        "insert r(3); print (x) where r(x);",
        TAKING,
        "delete r(1); print (x) where r(x);",
        "insert r(2); print (x) where r(x);",
        TAKING,
        "delete r(0); print (x) where r(x);",
        "insert r(1); print (x) where r(x);",
        TAKING,
        "delete r(3); print (x) where r(x);",
    ],
};

/// Dear programs over all pairs of twelve. The first ones read nothing that those before them write, of the others some do.
pub(crate) const DEAR: Batch<'static> = Batch {
    pairs: Pairs::Plain,
    stock: "insert r(1); insert r(2); insert r(3); insert r(4); insert r(5); insert r(6); insert r(7); insert r(8); insert r(9); insert r(10); insert r(11); insert r(12); insert e(x, y) where r(x), r(y);",
    texts: &[
        "print (x, y) where e(x, y), e(y, x);",
        "print (x, y) where e(x, y), e(y, x), x < y;",
        "insert r(20); print (x, y) where e(x, y), e(y, x);",
        "print (x, y) where r(x), e(x, y), e(y, x);",
        "print (x, y) where e(x, y), e(y, x), x < 3;",
        "delete e(1, 2); print (x, y) where e(x, y), r(y), e(y, x);",
        "print (x, y) where e(x, y), e(y, x);",
        "insert e(1, 2); insert e(20, 1); print (x, y) where e(x, y), e(y, x);",
    ],
};

/// Programs that give keys values, also where a key has two rows.
pub(crate) const KEYED: Batch<'static> = Batch {
    pairs: Pairs::Keyed,
    stock: "insert r(1); insert r(4); insert e(2, 3); insert e(2, 4);",
    texts: &[
        "insert e(1, 5);",
        "insert e(1, 6); print (y) where e(1, y);",
        "insert e(x, 7) where r(x); print (x, y) where e(x, y);",
        "replace e(x, y) by e(x, z) where e(x, y), z = y + 1;",
        "insert e(2, x) where r(x);",
        "require some e(1, 8); delete e(1, y) where e(1, y);",
    ],
};

/// Programs that are refused behind statements that wrote, and others between them.
pub(crate) const REFUSED: Batch<'static> = Batch {
    pairs: Pairs::Keyed,
    stock: "insert r(1); insert r(4); insert e(2, 3); insert e(4, 4);",
    texts: &[
        "insert r(1); insert e(1, 5); delete e(2, 3); insert e(1, 6); require some e(1, 5);",
        "insert e(3, 1); insert e(x, y) where r(x), e(3, y); print (x, y) where e(x, y);",
        "insert r(9); delete r(4); insert e(9, x) where r(x); print (x) where r(x);",
        "replace e(x, y) by e(x, z) where e(x, y), z = y + 1; delete r(x) where r(x); require some r(x);",
        "replace e(x, y) by e(7, y) where e(x, y); insert r(7);",
        "delete e(x, y) where e(x, y), r(x); insert e(1, 2); insert r(5); require none r(5);",
        "insert r(6); print (x) where r(x);",
        "insert e(6, 6); insert e(6, 7); delete e(1, y) where e(1, y); require none e(6, 7); insert r(8);",
    ],
};

/// Whether these are the replies and the marks of the runs.
fn are_same_runs(replies: &[Reply], effects: &[Marks], runs: &[Ran]) -> bool {
    if replies.len() != runs.len() || effects.len() != runs.len() {
        return false;
    }
    for (i, ran) in runs.iter().enumerate() {
        if !is_same_reply(&replies[i], &ran.reply) || !Marks::equal(&effects[i], &ran.marks) {
            return false;
        }
    }
    true
}

/// Whether these are the rows of the relation.
fn are_its_rows(db: &Database, relation: u32, rows: &[Row]) -> bool {
    for row in rows {
        if !db.has(relation, row) {
            return false;
        }
    }
    count(db, relation) == rows.len()
}

/// Whether the database has exactly these two relations.
fn has_relations(db: &Database, relations: &[RowList]) -> bool {
    match relations {
        [r, e] => are_its_rows(db, 0, r.as_slice()) && are_its_rows(db, 1, e.as_slice()),
        _ => false,
    }
}

/// How a batch is run.
#[derive(Clone, Copy)]
enum Way {
    Circuit,
    InOrder,
}

/// What a batch does where r and e have the rows that these statements leave.
#[tactic(auto, using(crate::proofs::Fitting::all_fit))]
fn ran<R: Threads + Wait + Sync>(
    rt: &R,
    alloc: Global,
    stock: &str,
    progs: &[Arc<Planned>],
    workers: u32,
    way: Way,
) -> Result<Folded, NoMemory>
    requires few { length progs.now ≤ 256 }
    requires workers { (1 ≤ workers) × (workers ≤ 16) }
    requires fit { AllByRecursion FitsBoth (map arc_value progs.now) }
{
    let db = stocked(rt, alloc, stock)?;
    if let Way::InOrder = way {
        let mut pace = Pace::start_on(16, 64);
        let out = fold_batch(rt, alloc, &db, progs, true, workers, &OpenGate, &mut pace)?;
        return Ok(out);
    }
    let Outcome {
        replies,
        effects,
        db,
        circuit: _,
    } = run_batch(rt, alloc, &db, progs, workers, &OpenGate)?;
    Ok(Folded {
        replies,
        effects,
        db,
    })
}

/// Whether the batch does what its programs do one after another.
fn is_serial<R: Threads + Wait + Sync>(
    rt: &R,
    alloc: Global,
    stock: &str,
    progs: &[Arc<Planned>],
    serial: &Serial,
    workers: u32,
    way: Way,
) -> Result<bool, NoMemory>
    requires few { length progs.now ≤ 256 }
    requires workers { (1 ≤ workers) × (workers ≤ 16) }
    requires fit { AllByRecursion FitsBoth (map arc_value progs.now) }
{
    let out = ran(rt, alloc, stock, progs, workers, way)?;
    let is_so = are_same_runs(out.replies.as_slice(), out.effects.as_slice(), &serial.runs)
        && has_relations(&out.db, &serial.relations);
    drop(out);
    Ok(is_so)
}

/// Whether so many programs, in the order of the texts and again from the first, do both ways what they do one after another. Where
/// there are no texts, or too many programs or workers, the answer is as if memory had ended.
fn agrees<R: Threads + Wait + Sync>(
    rt: &R,
    alloc: Global,
    batch: Batch,
    count: usize,
    workers: u32,
) -> Result<bool, NoMemory> {
    if batch.texts.len() == 0 || count > 256 || workers == 0 || workers > 16 {
        return Err(NoMemory);
    }
    let progs = programs_over(alloc, batch.pairs, batch.texts, count)?;
    let serial = one_after_another(alloc, batch.stock, &progs)?;
    let circuit = is_serial(
        rt,
        alloc,
        batch.stock,
        &progs,
        &serial,
        workers,
        Way::Circuit,
    )?;
    let in_order = is_serial(
        rt,
        alloc,
        batch.stock,
        &progs,
        &serial,
        workers,
        Way::InOrder,
    )?;
    Ok(circuit && in_order)
}

/// The first of these numbers of programs and workers with which a batch does something else.
fn differs<R: Threads + Wait + Sync>(
    rt: &R,
    alloc: Global,
    batch: Batch,
    sizes: &[(usize, u32)],
) -> Result<Option<(usize, u32)>, NoMemory> {
    for (count, workers) in sizes {
        if !agrees(rt, alloc, batch, *count, *workers)? {
            return Ok(Some((*count, *workers)));
        }
    }
    Ok(None)
}

#[test]
fn batches_are_serial(rt: HostRuntime) -> Result<(), NoMemory> {
    for (row, batch, sizes) in [
        (
            "mixed",
            MIXED,
            [(0, 2), (1, 2), (7, 1), (64, 3), (256, 16)].as_slice(),
        ),
        ("keyed", KEYED, [(2, 2), (6, 1), (32, 4)].as_slice()),
        ("refused", REFUSED, [(8, 1), (40, 4)].as_slice()),
        ("dear", DEAR, [(12, 4), (80, 7), (80, 16)].as_slice()),
    ] {
        same_at(&rt, differs(&rt, rt.alloc(), batch, sizes)?, None, row);
    }
    Ok(())
}

/// Programs with long joins, each with what it prints. The first reads e and r, and the others what those before them write.
const TEXTS: [&str; 4] = [
    "insert r(z) where e(x, y), r(x), z = y + 1; print (x) where r(x), x > 4094;",
    "delete r(x) where r(x), x > 2; print (x) where r(x);",
    "delete e(x, y) where e(x, y), y > 3; print (x) where e(x, y), e(y, z);",
    "insert r(y) where e(x, y), r(x); print (x) where r(x), x > 1;",
];

const PRINTS: [&[i64]; 4] = [&[4095, 4096, 4097], &[0, 1, 2], &[0, 1], &[2, 3]];

/// Whether each reply is the print of its program.
fn are_prints(alloc: Global, replies: &[Reply]) -> bool {
    for (i, reply) in replies.iter().enumerate() {
        if i >= PRINTS.len() || !is_print(alloc, reply, PRINTS[i]) {
            return false;
        }
    }
    true
}

/// Whether the first of these programs print so on the long relations.
fn prints_long<R: Threads + Wait + Sync>(
    rt: &R,
    alloc: Global,
    count: usize,
    workers: u32,
) -> Result<bool, NoMemory>
    requires few { count ≤ 4 }
    requires workers { (1 ≤ workers) × (workers ≤ 16) }
{
    let progs = programs(alloc, &TEXTS, count)?;
    let out = ran(rt, alloc, LONG, &progs, workers, Way::Circuit)?;
    let is_so = out.replies.len() == count && are_prints(alloc, out.replies.as_slice());
    drop(out);
    Ok(is_so)
}

/// Where there are fewer programs than workers, these begin the first ones together.
#[test]
fn workers_begin_a_short_batch_together(rt: HostRuntime) -> Result<(), NoMemory> {
    for count in [1usize, 2, 4] {
        for workers in [1u32, 2, 4] {
            let is_so = prints_long(&rt, rt.alloc(), count, workers)?;
            holds_of(&rt, is_so, &[count, workers as usize]);
        }
    }
    Ok(())
}
