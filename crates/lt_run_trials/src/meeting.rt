//! Workers that work at the same time. That they do is shown here alone: no contract can say it.
ghost use Rattle.std.specs.Prelude.{◌≡◌, ◌≤◌, ◌<◌, ⊤, [], Some, length, map};
ghost use Rattle.std.specs.Arc.{arc_value};
ghost use Rattle.std.specs.List.{AllByRecursion};
ghost use Rattle.lt_run_trials.specs.Fitting.{FitsBoth};
ghost use Rattle.lt_model.specs.Marks.{AreMarks};
ghost use Rattle.lt_model.proofs.Composition.{AreMarks-and_then};

use crate::agree::holds;
use crate::texts::{programs, stocked};
use lt_batch::{Outcome, run_batch};
use lt_circuit::{Circuit, Entry, Event, JobName, LeafWork};
use lt_delta::Marks;
use lt_edges::{Gate, MeetGate, OpenGate, OrderGate};
use lt_face::{Moves, NoMemory};
use lt_model::reply::Reply;
use lt_query::Planned;
use lt_workers::{Shared, settle};
use std::alloc::Global;
use std::sync::atomic::{AtomicBool, Ordering};
use std::sync::{Arc, Wait};
use std::thread::{Threads, yield_now};

/// How many turns a worker waits for another at most.
const TURNS: u64 = 1_000_000;

/// The place of the first such event of the leaf's job.
fn first_of(journal: &[Entry], leaf: u32, event: Event) -> Option<usize> {
    journal.iter().position(|entry| entry.job == JobName::Leaf(leaf) && entry.event == event)
}

/// Whether one leaf was claimed first before another was finished first.
fn is_before(journal: &[Entry], claimed: u32, finished: u32) -> bool {
    match first_of(journal, claimed, Event::Claim) {
        Some(at) => match first_of(journal, finished, Event::Finish) {
            Some(then) => at < then,
            None => false,
        },
        None => false,
    }
}

/// A batch that so many workers run past this gate, where e has one row.
#[tactic(auto, using(crate::proofs::Fitting::all_fit))]
fn ran_past<R: Threads + Wait + Sync, G: Gate>(
    rt: &R,
    alloc: Global,
    progs: &[Arc<Planned>],
    workers: u32,
    gate: &G,
) -> Result<Outcome, NoMemory>
    requires few { length progs.now ≤ 256 }
    requires workers { (1 ≤ workers) × (workers ≤ 16) }
    requires fit { AllByRecursion FitsBoth (map arc_value progs.now) }
{
    let db = stocked(rt, alloc, "insert e(1, 2);")?;
    let out = run_batch(rt, alloc, &db, progs, workers, gate)?;
    Ok(out)
}

/// Whether the leaf `awaited` was claimed before the leaf `held` was finished, which a gate held until then.
fn meet<R: Threads + Wait + Sync>(
    rt: &R,
    alloc: Global,
    held: u32,
    awaited: u32,
) -> Result<bool, NoMemory>
    requires { (held ≤ 1) × (awaited ≤ 1) }
{
    let progs = programs(alloc, &["insert r(1);", "require some r(x);"], 2)?;
    let (held_code, awaited_code) = (JobName::Leaf(held).code(), JobName::Leaf(awaited).code());
    let gate = MeetGate::new(held_code, awaited_code, TURNS);
    let out = ran_past(rt, alloc, &progs, 2, &gate)?;
    let is_so = gate.met() && is_before(out.circuit.journal(), awaited, held);
    drop(out);
    Ok(is_so)
}

/// Leaf 0 waits for the claim of leaf 1, and in another batch leaf 1 for that of leaf 0: no order on one thread passes both.
#[test]
fn two_leaves_meet_at_a_gate(rt: HostRuntime) -> Result<(), NoMemory> {
    holds(&rt, meet(&rt, rt.alloc(), 0, 1)?);
    holds(&rt, meet(&rt, rt.alloc(), 1, 0)?);
    Ok(())
}

/// Takes one of two.
const BUYING: &str =
    "require some e(1, n), n > 0; replace e(1, n) by e(1, m) where e(1, n), m = n - 1;";

/// Whether the first two did what they are to do and the third was refused at its first statement.
fn is_third_refused(replies: &[Reply]) -> bool {
    match replies {
        [Reply::Done(_), Reply::Done(_), Reply::Refused(statement)] => *statement == 1,
        _ => false,
    }
}

/// Whether three buyers of two things, the last of whom begins first, are answered in their order.
fn buys_in_reverse<R: Threads + Wait + Sync>(rt: &R, alloc: Global) -> Result<bool, NoMemory> {
    let progs = programs(alloc, &[BUYING], 3)?;
    let gate = OrderGate::new(alloc, &[6, 3, 0], TURNS)?;
    let out = ran_past(rt, alloc, &progs, 3, &gate)?;
    let is_so = gate.passed() && is_third_refused(out.replies.as_slice());
    drop(out);
    Ok(is_so)
}

#[test]
fn the_last_may_begin_first(rt: HostRuntime) -> Result<(), NoMemory> {
    holds(&rt, buys_in_reverse(&rt, rt.alloc())?);
    Ok(())
}

/// Work whose two last leaves look, in their first runs, for each other to have begun.
#[derive(Drop)]
struct Meeting {
    alloc: Global,
    /// The number of the first of these two. What stands before is dear.
    first: u32,
    begun: [AtomicBool; 2],
    found: [AtomicBool; 2],
}

impl Meeting {
    /// Nobody has begun.
    fn new(alloc: Global, first: u32) -> Meeting {
        Meeting {
            alloc,
            first,
            begun: [AtomicBool::new(false), AtomicBool::new(false)],
            found: [AtomicBool::new(false), AtomicBool::new(false)],
        }
    }

    /// Looks for the other leaf's work, turn after turn.
    fn look(&self, own: usize, other: usize)
        requires { (own < 2) × (other < 2) }
    {
        if self.begun[own].swap(true, Ordering::SeqCst) {
            return;
        }
        for _ in 0..TURNS {
            if self.begun[other].load(Ordering::SeqCst) {
                self.found[own].store(true, Ordering::SeqCst);
                return;
            }
            yield_now();
        }
    }

    /// Whether each found the other.
    fn met(&self) -> bool {
        self.found[0].load(Ordering::SeqCst) && self.found[1].load(Ordering::SeqCst)
    }
}

impl LeafWork for Meeting {
    type Tally = Marks;

    ghost has = { λ w leaf. ⊤ };

    ghost fits = { λ w c. AreMarks c };

    ghost does = { λ w leaf c. [] };

    ghost stands_for = { λ w tally leaf c. tally ≡ [] };

    ghost bound = { λ w prior leaf c. Some 0 };

    ghost fits_marks = { λ w a fit. fit };

    ghost empty_fits = { λ w. tt };

    ghost then_fits = { λ w a b fit_a fit_b. AreMarks-and_then a b fit_a };

    ghost does_fits = { λ w leaf c there fit. tt };

    fn work<L>(
        &self,
        leaf: u32,
        _prior: Option<&Marks>,
        _correction: &Marks,
        _moves: &mut Moves<L>,
    ) -> Result<Marks, NoMemory> {
        if leaf == self.first {
            self.look(0, 1);
        } else if leaf > self.first {
            self.look(1, 0);
        }
        let marks = Marks::empty(self.alloc)?;
        Ok(marks)
    }

    fn effect<'a>(&self, tally: &'a Marks) -> &'a Marks {
        tally
    }

    fn weight(&self, _tally: &Marks) -> usize {
        1024
    }

    fn is_free(&self, _leaf: u32) -> bool {
        true
    }
}

/// Whether the works of two leaves met, outside the turn.
fn works_meet<R: Threads + Wait + Sync>(rt: &R, alloc: Global) -> Result<bool, NoMemory> {
    let work = Arc::new(alloc, Meeting::new(alloc, 0))?;
    let circuit = Circuit::start(alloc, work.clone()?, 2)?;
    let (shared, mut seat) = Shared::new(alloc, circuit, 2)?;
    shared.fan_out(rt, &mut seat, &OpenGate);
    let circuit = shared.close(seat);
    let is_so = work.met() && circuit.settled();
    drop(circuit);
    Ok(is_so)
}

#[test]
fn the_works_of_two_leaves_meet(rt: HostRuntime) -> Result<(), NoMemory> {
    holds(&rt, works_meet(&rt, rt.alloc())?);
    Ok(())
}

/// Whether the works of two leaves met behind a dear one, at a gate that holds nobody up.
fn called_meet<R: Threads + Wait + Sync>(rt: &R, alloc: Global) -> Result<bool, NoMemory> {
    let work = Arc::new(alloc, Meeting::new(alloc, 1))?;
    let circuit = Circuit::start(alloc, work.clone()?, 3)?;
    let circuit = settle(rt, alloc, circuit, 2, &OpenGate)?;
    let is_so = work.met() && circuit.settled();
    drop(circuit);
    Ok(is_so)
}

/// One worker begins alone. Behind a dear leaf it calls the other, else the two leaves would look in vain.
#[test]
fn others_are_called_behind_a_dear_leaf(rt: HostRuntime) -> Result<(), NoMemory> {
    holds(&rt, called_meet(&rt, rt.alloc())?);
    Ok(())
}
