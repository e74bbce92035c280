//! The work of batches: their programs as the leaves of a circuit, or of a line.
ghost use Rattle.std.specs.Prelude.{◌≡◌, ◌<◌, ◌≤◌, ◌+◌, ◌*◌, ◌&&◌, ℕ, List, [], ◌∷◌, None, map, length, IfOk, IfSome, IsTrue};
ghost use Rattle.lt_face.specs.Limits.{most_programs, most_workers};
ghost use Rattle.lt_face.specs.State.{State};
ghost use Rattle.std.specs.Arc.{arc_value};
ghost use Rattle.std.specs.List.{AllByRecursion};
ghost use Rattle.std.specs.Option.{option_map};
ghost use Rattle.lt_model.specs.Fits.{Fits, FitMarks};
ghost use Rattle.lt_model.specs.Marks.{Marks as MarksView, laid};
ghost use Rattle.lt_model.specs.Run.{run as run_of};
ghost use Rattle.lt_model.specs.declared.normal.Stmt.{Stmt};
ghost use Rattle.lt_base.specs.Tables.{state_of};
ghost use Rattle.lt_program.specs.Tally.{HasIndexes, cost_of_first, ends_at};
ghost use Rattle.lt_restate.specs.Touches.{cost_again};
ghost use Rattle.lt_circuit.specs.Row.{most_segments};
ghost use Rattle.lt_batch.specs.Early.{early_at};
ghost use Rattle.lt_batch.specs.LeafRun.{IsTallyOn, IsRunOn, StandsFor};
ghost use Rattle.lt_batch.specs.Line.{batch_at, programs_of};
ghost use Rattle.lt_batch.specs.Priors.{IsPriorOf, IsRestated, IsRestatedFrom, is_unlaid, run_bound, leaf_bound};
ghost use Rattle.lt_batch.specs.Spans.{parted, AreWithin};
ghost use Rattle.lt_batch.specs.Work.{AreRunnable, FitsBatch, IsLeaf, IsSnapshot, marks_for};

use crate::early::{all_early, helper_in};
use crate::indexing::all_indexed;
use crate::leaf::LeafTally;
use crate::spans::{ProgList, Span, has_segment, laid_alone, laid_out, place_of};
use crate::ties::{Ties, is_tied, ties_of};
use lt_base::Database;
use lt_circuit::LeafWork;
use lt_delta::Marks;
use lt_face::memory::NoMemory;
use lt_face::moves::Moves;
use lt_program::{Tally, reads_marked, run, weight_of};
use lt_query::Planned;
use lt_restate::restate_marks;
use std::alloc::Global;
use std::marker::Model;
use std::sync::{Arc, Wait};
use std::thread::Threads;

/// The programs of a batch, or of several that follow one another, and the snapshot that each of them starts on, with the indexes that
/// they need. Leaf 256 * s + i is program i of batch s.
#[derive(Drop)]
pub struct BatchWork {
    snapshot: Database,
    /// All programs, batch after batch.
    programs: ProgList,
    /// Where those of each batch stand.
    spans: Vec<Span>,
    /// The tallies of programs that were run on the snapshot before, by their places. Past the end there are none.
    early: Vec<Option<LeafTally>>,
    /// Of each program, which of those before it have a bearing on it. No clause speaks of it.
    ties: Vec<Ties>,
}

impl Model for BatchWork {
    ghost use Rattle.std.specs.Prelude.{map};
    ghost use Rattle.std.specs.Arc.{arc_value};
    ghost use Rattle.lt_batch.specs.Early.{IsBegun};
    ghost use Rattle.lt_batch.specs.Spans.{parted};
    ghost use Rattle.lt_batch.specs.Work.{BatchView};

    ghost Value = { BatchView };

    ghost view = { λ w. record { snapshot = w.snapshot; programs = map arc_value w.programs.items; batches = parted w.spans.items (map arc_value w.programs.items); early = parted w.spans.items w.early.items } };

    ghost invariant = { λ w. IsBegun w.snapshot (map arc_value w.programs.items) w.early.items w.spans.items };
}

/// What of a correction is laid on the snapshot before a program: all of it, or nothing where the program reads no relation
/// that one of its marks is on, since it does the same there.
fn marks_to_lay(prog: &Planned, correction: &Marks) -> Result<Marks, NoMemory>
    ensures marks { IfOk result (λ on. on ≡ marks_for prog.now correction.now) }
    ensures run { IfOk result (λ on. (s : State) → run_of prog.now (laid s on) ≡ run_of prog.now (laid s correction.now)) }
    ensures fits { IfOk result (λ on. (s : State) → FitMarks s correction.now → FitMarks s on) }
{
    if reads_marked(prog.statements(), correction) {
        let all = correction.share()?;
        Ok(all)
    } else {
        let none = Marks::empty(prog.allocator())?;
        Ok(none)
    }
}

/// The snapshot with the marks laid on it, and the indexes that the program needs.
fn corrected(snapshot: &Database, _prog: &Planned, on: &Marks) -> Result<Database, NoMemory>
    requires marks { FitMarks (state_of snapshot.now) on.now }
    requires fits { Fits (state_of snapshot.now) _prog.now }
    requires indexes { HasIndexes snapshot.now _prog.now }
    ensures state { IfOk result (λ base. state_of base ≡ laid (state_of snapshot.now) on.now) }
    ensures fits { IfOk result (λ base. Fits (state_of base) _prog.now) }
    ensures indexes { IfOk result (λ base. HasIndexes base _prog.now) }
{
    let base = snapshot.laid(on)?;
    Ok(base)
}

/// The run of a program on the snapshot with the marks laid on it.
fn begun<L>(
    prog: &Arc<Planned>,
    snapshot: &Database,
    on: &Marks,
    moves: &mut Moves<L>,
) -> Result<Tally, NoMemory>
    requires marks { FitMarks (state_of snapshot.now) on.now }
    requires fits { Fits (state_of snapshot.now) (arc_value prog.now) }
    requires indexes { HasIndexes snapshot.now (arc_value prog.now) }
    ensures run { IfOk result (IsTallyOn (arc_value prog.now) (state_of snapshot.now) on.now) }
    ensures moves { moves.new ≤ moves.old + cost_of_first (ends_at (arc_value prog.now) (laid (state_of snapshot.now) on.now)) (arc_value prog.now) (laid (state_of snapshot.now) on.now) }
    ensures rises { moves.old ≤ moves.new }
{
    let base = corrected(snapshot, prog, on)?;
    let tally = run(prog, &base, moves)?;
    Ok(tally)
}

/// The same by an old tally of the program, which ran on the snapshot with other marks laid on it.
fn restated<L>(
    prog: &Arc<Planned>,
    snapshot: &Database,
    old: &LeafTally,
    on: &Marks,
    moves: &mut Moves<L>,
) -> Result<Tally, NoMemory>
    requires marks { FitMarks (state_of snapshot.now) on.now }
    requires fits { Fits (state_of snapshot.now) (arc_value prog.now) }
    requires indexes { HasIndexes snapshot.now (arc_value prog.now) }
    requires prior { IsPriorOf (arc_value prog.now) (state_of snapshot.now) old.now }
    ensures run { IfOk result (IsTallyOn (arc_value prog.now) (state_of snapshot.now) on.now) }
    ensures restated { IfOk result (IsRestated old.now.run) }
    ensures moves { moves.new ≤ moves.old + cost_again old.now.run (laid (state_of snapshot.now) on.now) (ends_at (arc_value prog.now) (laid (state_of snapshot.now) on.now)) }
    ensures rises { moves.old ≤ moves.new }
{
    let base = corrected(snapshot, prog, on)?;
    let out = restate_marks(&old.run, &base, &old.on, on, moves)?;
    let (tally, _touches) = out;
    Ok(tally)
}

/// Whether neither of both lists has a mark.
fn are_empty(first: &Marks, second: &Marks) -> bool
    ensures value { result ≡ (is_unlaid first.now && is_unlaid second.now) }
    ensures first { IsTrue result → first.now ≡ [] }
    ensures second { IsTrue result → second.now ≡ [] }
{
    first.len() == 0 && second.len() == 0
}

/// The tally of a program on the snapshot with the marks laid on it, by an older one where there is one. Where both ran on the
/// snapshot itself, it is the older one.
fn tally_on<L>(
    prog: &Arc<Planned>,
    snapshot: &Database,
    prior: Option<&LeafTally>,
    on: Marks,
    moves: &mut Moves<L>,
) -> Result<LeafTally, NoMemory>
    requires marks { FitMarks (state_of snapshot.now) on }
    requires fits { Fits (state_of snapshot.now) (arc_value prog.now) }
    requires indexes { HasIndexes snapshot.now (arc_value prog.now) }
    requires prior { IfSome prior (λ old. IsPriorOf (arc_value prog.now) (state_of snapshot.now) old.now) }
    ensures run { IfOk result (IsRunOn (arc_value prog.now) (state_of snapshot.now) on) }
    ensures restated { IfOk result (λ tally. IfSome prior.entry (λ old. IsRestatedFrom old.now tally)) }
    ensures moves { moves.new ≤ moves.old + run_bound (option_map (λ old. old.now) prior.entry) (arc_value prog.now) (state_of snapshot.now) on }
    ensures rises { moves.old ≤ moves.new }
{
    match prior {
        None => {
            let run = begun(prog, snapshot, &on, moves)?;
            Ok(LeafTally { run, on })
        }
        Some(old) => {
            if are_empty(&old.on, &on) {
                let tally = old.share()?;
                return Ok(tally);
            }
            let run = restated(prog, snapshot, old, &on, moves)?;
            Ok(LeafTally { run, on })
        }
    }
}

impl BatchWork {
    /// The work of a batch of these programs on this snapshot. It makes the indexes that they need and the snapshot lacks.
    pub fn new<R: Threads + Sync>(
        rt: &R,
        alloc: Global,
        db: &Database,
        progs: &[Arc<Planned>],
    ) -> Result<BatchWork, NoMemory>
        requires few { length progs.now ≤ most_programs }
        requires fit { AllByRecursion (Fits (state_of db.now)) (map arc_value progs.now) }
        ensures programs { IfOk result (λ work. work.programs ≡ map arc_value progs.now) }
        ensures batches { IfOk result (λ work. work.batches ≡ map arc_value progs.now ∷ []) }
        ensures snapshot { IfOk result (λ work. state_of work.snapshot ≡ state_of db.now) }
        ensures runnable { IfOk result (λ work. AreRunnable (state_of work.snapshot) work.programs) }
        ensures leaves { IfOk result (λ work. (i : ℕ) → i < length progs.now → IsLeaf work i) }
    {
        let (programs, spans) = laid_alone(alloc, progs)?;
        let work = BatchWork::over(rt, alloc, db, programs, spans)?;
        Ok(work)
    }

    /// The work of several batches on it.
    pub fn of_line<R: Threads + Sync>(
        rt: &R,
        alloc: Global,
        db: &Database,
        batches: &[ProgList],
    ) -> Result<BatchWork, NoMemory>
        requires short { length batches.now ≤ most_segments }
        requires few { AllByRecursion (λ (programs : List (List Stmt)). length programs ≤ most_programs) (programs_of batches.now) }
        requires fit { AllByRecursion (AllByRecursion (Fits (state_of db.now))) (programs_of batches.now) }
        ensures batches { IfOk result (λ work. work.batches ≡ programs_of batches.now) }
        ensures snapshot { IfOk result (λ work. state_of work.snapshot ≡ state_of db.now) }
        ensures runnable { IfOk result (λ work. IsSnapshot (state_of work.snapshot)) }
        ensures leaves { IfOk result (λ work. (s i : ℕ) → i < length (batch_at (programs_of batches.now) s) → IsLeaf work (256 * s + i)) }
    {
        let (programs, spans) = laid_out(alloc, batches)?;
        let work = BatchWork::over(rt, alloc, db, programs, spans)?;
        Ok(work)
    }

    /// The work of programs that are handed over, and stand so.
    fn over<R: Threads + Sync>(
        rt: &R,
        alloc: Global,
        db: &Database,
        programs: ProgList,
        spans: Vec<Span>,
    ) -> Result<BatchWork, NoMemory>
        requires fit { AllByRecursion (Fits (state_of db.now)) (map arc_value programs.items) }
        requires within { AreWithin spans.items 2048 }
        ensures programs { IfOk result (λ work. work.programs ≡ map arc_value programs.items) }
        ensures batches { IfOk result (λ work. work.batches ≡ parted spans.items (map arc_value programs.items)) }
        ensures snapshot { IfOk result (λ work. state_of work.snapshot ≡ state_of db.now) }
        ensures runnable { IfOk result (λ work. AreRunnable (state_of work.snapshot) work.programs) }
    {
        db.look_over();
        let snapshot = all_indexed(rt, db, programs.as_slice())?;
        let ties = ties_of(alloc, programs.as_slice())?;
        Ok(BatchWork {
            snapshot,
            programs,
            spans,
            early: Vec::new(alloc),
            ties,
        })
    }

    /// The same work, of which those programs were run before that so many workers are to run together.
    pub(crate) fn begin_early<R: Threads + Wait + Sync>(
        self,
        rt: &R,
        alloc: Global,
        workers: u32,
    ) -> Result<BatchWork, NoMemory>
        requires workers { (1 ≤ workers) × (workers ≤ most_workers) }
        ensures programs { IfOk result (λ work. work.programs ≡ self.programs) }
        ensures batches { IfOk result (λ work. work.batches ≡ self.batches) }
        ensures snapshot { IfOk result (λ work. work.snapshot ≡ self.snapshot) }
    {
        let BatchWork {
            snapshot,
            programs,
            spans,
            early: _,
            ties,
        } = self;
        let early = all_early(
            rt,
            alloc,
            &snapshot,
            programs.as_slice(),
            ties.as_slice(),
            workers,
        )?;
        Ok(BatchWork {
            snapshot,
            programs,
            spans,
            early,
            ties,
        })
    }

    /// Which programs before the leaf's have a bearing on it, if there is such a leaf. No clause speaks of it.
    fn ties_at(&self, leaf: u32) -> Option<Ties> {
        if !has_segment(&self.spans, leaf) {
            return None;
        }
        self.ties.get(place_of(&self.spans, leaf) as usize).copied()
    }

    /// The snapshot with its indexes.
    pub fn snapshot(&self) -> &Database
        ensures { result.now ≡ self.now.snapshot }
    {
        &self.snapshot
    }
}

impl LeafWork for BatchWork {
    ghost use Rattle.lt_model.specs.Fits.{IsMarkOf};
    ghost use Rattle.lt_model.proofs.Composition.{AreMarks-and_then};
    ghost use Rattle.lt_delta.proofs.Composes.{each_after};
    ghost use Rattle.lt_base.specs.Tables.{state_of};
    ghost use Rattle.lt_batch.specs.LeafRun.{StandsFor};
    ghost use Rattle.lt_batch.specs.Priors.{leaf_bound};
    ghost use Rattle.lt_batch.specs.Work.{IsLeaf, FitsBatch, batch_does};

    type Tally = LeafTally;

    ghost has = { IsLeaf };

    ghost fits = { FitsBatch };

    ghost does = { batch_does };

    ghost stands_for = { StandsFor };

    ghost bound = { leaf_bound };

    ghost fits_marks = { λ work marks fit. fit.1 };

    ghost empty_fits = { λ work. (tt, tt) };

    ghost then_fits = { λ work a b fit more. (each_after (IsMarkOf (state_of work.snapshot)) a b fit.0 more.0, AreMarks-and_then a b fit.1) };

    ghost does_fits = { λ work leaf correction is_leaf fit. is_leaf.fit correction fit };

    fn work<L>(
        &self,
        leaf: u32,
        prior: Option<&LeafTally>,
        correction: &Marks,
        moves: &mut Moves<L>,
    ) -> Result<LeafTally, NoMemory>
        requires leaf { IsLeaf self.now leaf }
        requires correction { FitsBatch self.now correction.now }
        requires prior { IfSome prior (λ old. (c : MarksView) × FitsBatch self.now c × StandsFor self.now old.now leaf c) }
        ensures stands { IfOk result (λ tally. StandsFor self.now tally leaf correction.now) }
        ensures moves { IfSome (leaf_bound self.now (option_map (λ old. old.now) prior.entry) leaf correction.now) (λ most. moves.new ≤ moves.old + most) }
        ensures rises { moves.old ≤ moves.new }
        ensures restated { IfOk result (λ tally. IfSome prior.entry (λ old. IsRestatedFrom old.now tally)) }
        ensures early { IfOk result (λ tally. option_map (λ old. old.now) prior.entry ≡ None → IfSome (early_at self.now.early leaf) (λ old. IsRestatedFrom old tally)) }
    {
        let place = place_of(&self.spans, leaf);
        let prog = &self.programs[place as usize];
        let on = marks_to_lay(prog, correction)?;
        let helper = helper_in(&self.early, prior, place as usize);
        let tally = tally_on(prog, &self.snapshot, helper, on, moves)?;
        Ok(tally)
    }

    fn effect<'a>(&self, tally: &'a LeafTally) -> &'a Marks {
        tally.effect()
    }

    fn weight(&self, tally: &LeafTally) -> usize {
        weight_of(&tally.run)
    }

    fn is_tied(&self, leaf: u32, tally: &LeafTally) -> bool {
        match self.ties_at(leaf) {
            Some(ties) => is_tied(ties, tally),
            None => false,
        }
    }

    fn is_free(&self, leaf: u32) -> bool {
        match self.ties_at(leaf) {
            Some(ties) => ties.is_free(),
            None => false,
        }
    }
}
