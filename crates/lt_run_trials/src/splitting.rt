//! Programs with long joins, run by parts and as a whole.
ghost use Rattle.std.specs.Prelude.{◌≤◌};
ghost use Rattle.std.specs.Arc.{arc_value};
ghost use Rattle.lt_model.specs.Fits.{Fits};
ghost use Rattle.lt_base.specs.Tables.{state_of};
ghost use Rattle.lt_program.specs.Tally.{HasIndexes};
ghost use Rattle.lt_run_trials.specs.Fitting.{AreBoth};

use crate::agree::holds_at;
use crate::texts::{Pairs, is_same_run, joined_on, program_over, routed, stocked};
use lt_base::Database;
use lt_face::memory::NoMemory;
use lt_face::moves::Moves;
use lt_model::normal::Prog;
use lt_program::{Tally, has_long_join, indexed, run_split};
use lt_query::Planned;
use std::alloc::Global;
use std::sync::{Arc, Wait};
use std::thread::Threads;

/// The numbers below 4096 as rows of r, and each with the next one in e: as few as are long.
pub(crate) const LONG: &str =
    "insert r(0); insert r(m) where r(n), m = n + 1; insert r(m) where r(n), m = n + 2; insert r(m) where r(n), m = n + 4; insert r(m) where r(n), m = n + 8; insert r(m) where r(n), m = n + 16; insert r(m) where r(n), m = n + 32; insert r(m) where r(n), m = n + 64; insert r(m) where r(n), m = n + 128; insert r(m) where r(n), m = n + 256; insert r(m) where r(n), m = n + 512; insert r(m) where r(n), m = n + 1024; insert r(m) where r(n), m = n + 2048; insert e(n, m) where r(n), m = n + 1;";

/// Whether the run by so many parts answers and writes what the whole one did.
fn splits<R: Threads + Wait + Sync>(
    rt: &R,
    prog: &Arc<Planned>,
    db: &Database,
    whole: &Tally,
    parts: u32,
) -> Result<bool, NoMemory>
    requires fits { Fits (state_of db.now) (arc_value prog.now) }
    requires indexes { HasIndexes db.now (arc_value prog.now) }
    requires parts { (1 ≤ parts) × (parts ≤ 16) }
{
    let mut moves: Moves<()> = Moves::new();
    let ran = run_split(rt, prog, db, parts, &mut moves)?;
    let is_so = is_same_run(&ran, whole);
    drop(ran);
    Ok(is_so)
}

/// Whether the runs by one part and by more do.
fn all_split<R: Threads + Wait + Sync>(
    rt: &R,
    prog: &Arc<Planned>,
    db: &Database,
    whole: &Tally,
) -> Result<bool, NoMemory>
    requires fits { Fits (state_of db.now) (arc_value prog.now) }
    requires indexes { HasIndexes db.now (arc_value prog.now) }
{
    for parts in [1u32, 2, 3, 16] {
        if !splits(rt, prog, db, whole, parts)? {
            return Ok(false);
        }
    }
    Ok(true)
}

/// Whether the program has a long join, or none, as is said, and does by parts what it does as a whole.
fn splits_on<R: Threads + Wait + Sync>(
    rt: &R,
    alloc: Global,
    base: &Database,
    prog: Prog,
    is_long: bool,
) -> Result<bool, NoMemory>
    requires { Fits (state_of base.now) prog }
{
    let prog = routed(alloc, base, prog)?;
    let db = indexed(rt, base, &prog)?;
    let whole = joined_on(&prog, &db)?;
    let all = all_split(rt, &prog, &db, &whole)?;
    drop(whole);
    Ok(all && has_long_join(&prog, &db) == is_long)
}

/// The same of the program of these statements, where e is declared so.
fn splits_over<R: Threads + Wait + Sync>(
    rt: &R,
    alloc: Global,
    db: &Database,
    pairs: Pairs,
    text: &str,
    is_long: bool,
) -> Result<bool, NoMemory>
    requires { AreBoth (state_of db.now) }
{
    let prog = program_over(alloc, pairs, text)?;
    splits_on(rt, alloc, db, prog, is_long)
}

/// Prints, writes and inserts that displace rows; and, without a long join, a pinned first variable and a truth alone.
#[test]
fn runs_by_parts_are_runs(rt: HostRuntime) -> Result<(), NoMemory> {
    let alloc = rt.alloc();
    let db = stocked(&rt, alloc, LONG)?;
    for (pairs, text, is_long) in [
        (Pairs::Plain, "print (x, z) where e(x, y), e(y, z);", true),
        (
            Pairs::Plain,
            "print (x, y) where e(x, y), r(y), not r(x);",
            true,
        ),
        (
            Pairs::Plain,
            "insert r(z) where e(x, y), r(x), z = y + 1; print (x) where r(x), x > 4094;",
            true,
        ),
        (
            Pairs::Plain,
            "delete e(x, y) where e(x, y), r(y); require some e(x, y); insert r(-1);",
            true,
        ),
        (
            Pairs::Plain,
            "replace e(x, y) by e(y, x) where e(x, y), r(x), x < 9; require none e(5, 6); print (x) where r(x), e(7, x);",
            true,
        ),
        (
            Pairs::Keyed,
            "insert e(x, z) where e(x, y), r(x), z = y + 1;",
            true,
        ),
        (
            Pairs::Keyed,
            "replace e(x, y) by e(x, z) where e(x, y), r(x), z = y + 1;",
            true,
        ),
        (Pairs::Plain, "print (y) where e(x, y), x = 5;", false),
        (
            Pairs::Plain,
            "require some r(x), x > 100; insert r(-1);",
            false,
        ),
    ] {
        holds_at(
            &rt,
            splits_over(&rt, alloc, &db, pairs, text, is_long)?,
            text,
        );
    }
    Ok(())
}
