//! Programs that run before those do that they read from, the last first, and are restated where the marks of these come.
ghost use Rattle.std.specs.Prelude.{◌≡◌, ◌≤◌, length, map, IfOk};
ghost use Rattle.std.specs.Arc.{arc_value};
ghost use Rattle.std.specs.List.{AllByRecursion};
ghost use Rattle.lt_net.specs.Net.{IsSettled};
ghost use Rattle.lt_circuit.specs.Circuit.{state};
ghost use Rattle.lt_run_trials.specs.Fitting.{FitsBoth};

use crate::agree::holds_at;
use crate::batches::{Batch, DEAR, KEYED, MIXED, REFUSED};
use crate::comparing::is_same_reply;
use crate::floor::Floor;
use crate::sampled::text;
use crate::serial::one_after_another;
use crate::texts::{Pairs, programs_over, stocked};
use lt_batch::BatchWork;
use lt_circuit::Circuit;
use lt_delta::Marks;
use lt_face::memory::NoMemory;
use lt_program::Ran;
use lt_query::Planned;
use rand_pcg::Pcg32;
use std::alloc::Global;
use std::sync::Arc;
use std::thread::Threads;

/// One worker runs each leaf, the last first. Of leaf i the job has the code 3 * i.
fn run_backwards(floor: &mut Floor<BatchWork>, leaves: u32)
    requires { leaves ≤ 256 }
    ensures { floor.new.board.leaves ≡ floor.old.board.leaves }
{
    for place in 0..leaves {
        let code = 9 * (leaves - 1 - place);
        floor.follow(&[(0, code), (0, code + 1)]);
    }
}

/// The circuit over the programs, settled once each of them has run before those do that stand before it.
#[tactic(auto, using(crate::proofs::Fitting::all_fit))]
fn settled_backwards<R: Threads + Sync>(
    rt: &R,
    alloc: Global,
    stock: &str,
    progs: &[Arc<Planned>],
) -> Result<Circuit<BatchWork>, NoMemory>
    requires few { length progs.now ≤ 256 }
    requires fit { AllByRecursion FitsBoth (map arc_value progs.now) }
    ensures settled { IfOk result (λ circuit. IsSettled (state circuit)) }
    ensures leaves { IfOk result (λ circuit. circuit.board.leaves ≡ length progs.now) }
{
    let db = stocked(rt, alloc, stock)?;
    let work = BatchWork::new(rt, alloc, &db, progs)?;
    let leaves = progs.len() as u32;
    let mut floor = Floor::start(alloc, work, leaves)?;
    run_backwards(&mut floor, leaves);
    let mut circuit = floor.clear();
    circuit.settle_alone()?;
    Ok(circuit)
}

/// Whether the leaves of a settled circuit answered and wrote what these runs did.
fn are_runs(circuit: &Circuit<BatchWork>, leaves: u32, runs: &[Ran]) -> bool
    requires settled { IsSettled (state circuit.now) }
    requires leaves { leaves ≡ circuit.now.board.leaves }
{
    for leaf in 0..leaves {
        let place = leaf as usize;
        if place >= runs.len() {
            return false;
        }
        if !is_same_reply(circuit.tally(leaf).reply(), &runs[place].reply)
            || !Marks::equal(circuit.effect(leaf), &runs[place].marks)
        {
            return false;
        }
    }
    true
}

/// Whether so many programs, in the order of the texts and again from the first, do so what they do one after another. Where there are
/// no texts, or too many programs, the answer is as if memory had ended.
fn agrees<R: Threads + Sync>(
    rt: &R,
    alloc: Global,
    batch: Batch,
    count: usize,
) -> Result<bool, NoMemory> {
    if batch.texts.len() == 0 || count > 256 {
        return Err(NoMemory);
    }
    let progs = programs_over(alloc, batch.pairs, batch.texts, count)?;
    let serial = one_after_another(alloc, batch.stock, &progs)?;
    let circuit = settled_backwards(rt, alloc, batch.stock, &progs)?;
    let is_so = are_runs(&circuit, count as u32, &serial.runs);
    drop(circuit);
    Ok(is_so)
}

#[test]
fn what_ran_too_early_is_restated(rt: HostRuntime) -> Result<(), NoMemory> {
    for (row, batch, count) in [
        ("mixed", MIXED, 24),
        ("keyed", KEYED, 18),
        ("refused", REFUSED, 24),
        ("dear", DEAR, 16),
    ] {
        holds_at(&rt, agrees(&rt, rt.alloc(), batch, count)?, row);
    }
    Ok(())
}

/// Whether three programs at random do so what they do one after another.
fn drawn_agree<R: Threads + Sync>(
    rt: &R,
    alloc: Global,
    pairs: Pairs,
    random: &mut Pcg32,
) -> Result<bool, NoMemory> {
    let first = text(alloc, random)?;
    let second = text(alloc, random)?;
    let third = text(alloc, random)?;
    let batch = Batch {
        pairs,
        stock: "",
        texts: &[first.as_str(), second.as_str(), third.as_str()],
    };
    agrees(rt, alloc, batch, 3)
}

#[test]
fn drawn_programs_are_restated(rt: HostRuntime) -> Result<(), NoMemory> {
    let mut random = Pcg32::new(1, 2);
    for _ in 0..60 {
        holds_at(
            &rt,
            drawn_agree(&rt, rt.alloc(), Pairs::Plain, &mut random)?,
            "plain",
        );
        holds_at(
            &rt,
            drawn_agree(&rt, rt.alloc(), Pairs::Keyed, &mut random)?,
            "keyed",
        );
    }
    Ok(())
}
