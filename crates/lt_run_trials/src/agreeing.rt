//! Programs at random, run by joins and by plain loops.
ghost use Rattle.lt_run_trials.specs.Fitting.{FitsBoth};

use crate::agree::holds_at;
use crate::sampled::text;
use crate::serial::{no_rows, one_run};
use crate::texts::{Pairs, bare, is_same_ran, joined, program_over};
use lt_face::memory::NoMemory;
use lt_model::normal::Prog;
use lt_program::{Ran, Tally};
use rand_pcg::Pcg32;
use std::alloc::Global;
use std::thread::Threads;

/// The run by plain loops, on relations without rows.
pub(crate) fn plain(alloc: Global, prog: &Prog) -> Result<Ran, NoMemory>
    requires { FitsBoth prog.now }
{
    let mut relations = no_rows(alloc)?;
    one_run(alloc, &mut relations, prog.as_slice())
}

/// The run by joins, on relations without rows.
fn joined_alone<R: Threads + Sync>(rt: &R, alloc: Global, prog: Prog) -> Result<Tally, NoMemory>
    requires { FitsBoth prog }
{
    let base = bare(alloc)?;
    joined(rt, alloc, &base, prog)
}

/// Whether the run by joins answers and writes this.
fn does<R: Threads + Sync>(rt: &R, alloc: Global, prog: Prog, ran: &Ran) -> Result<bool, NoMemory>
    requires { FitsBoth prog }
{
    let tally = joined_alone(rt, alloc, prog)?;
    let is_so = is_same_ran(ran, &tally);
    drop(tally);
    Ok(is_so)
}

/// Whether the two runs of a program agree.
fn agrees<R: Threads + Sync>(
    rt: &R,
    alloc: Global,
    pairs: Pairs,
    text: &str,
) -> Result<bool, NoMemory> {
    let prog = program_over(alloc, pairs, text)?;
    let ran = plain(alloc, &prog)?;
    let is_so = does(rt, alloc, prog, &ran)?;
    drop(ran);
    Ok(is_so)
}

#[test]
fn joins_do_what_plain_loops_do(rt: HostRuntime) -> Result<(), NoMemory> {
    let alloc = rt.alloc();
    let mut random = Pcg32::new(1, 1);
    for _ in 0..200 {
        let text = text(alloc, &mut random)?;
        holds_at(&rt, agrees(&rt, alloc, Pairs::Plain, &text)?, &text);
        holds_at(&rt, agrees(&rt, alloc, Pairs::Keyed, &text)?, &text);
    }
    Ok(())
}
