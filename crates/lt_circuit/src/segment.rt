//! A segment of a line: the tables of its tree, and the Pass behind it, which hands on to the next segment.
#![tactic(auto)]

ghost use Rattle.std.specs.Prelude.{◌≡◌, ◌≢◌, ℕ, ◌+◌, ◌*◌, ◌<◌, ◌≤◌, List, [], ◌∷◌, Some, None, IfOk, slice_set};
ghost use Rattle.lt_face.specs.Limits.{most_programs, most_workers};
ghost use Rattle.lt_model.specs.declared.mark.Mark.{Mark as MarkType};
ghost use Rattle.lt_model.specs.Marks.{and_then};
ghost use Rattle.lt_net.specs.declared.job.JobName.TheVariants.{Leaf, Merge, Correct};
ghost use Rattle.lt_net.specs.declared.job.JobState.TheVariants.{Running};
ghost use Rattle.lt_net.specs.Net.{Claim, Correction, Effect, abandoned, claimed, finished, opening, read};
ghost use Rattle.lt_net.specs.Tree.{circuit_net, right_in, tree_of};
ghost use Rattle.lt_net.specs.Codes.{code_of, codes_over};
ghost use Rattle.lt_net.specs.Row.{given_root, pass_closed, pass_inputs, passing_net};
ghost use Rattle.lt_circuit.specs.declared.cells.Held.{Held as HeldType};
ghost use Rattle.lt_circuit.specs.Board.{inputs_list, standing, state_of};
ghost use Rattle.lt_circuit.specs.Segment.{SegmentView, after_change, first_pass, is_read, pass_given, pass_stored, segment_state};

use crate::board::Board;
use crate::board::store::{ended, is_change, woken};
use crate::cells::{Held, Inputs, Stood};
use crate::tree::node_of;
use lt_delta::Marks;
use lt_face::NoMemory;
use lt_net::{JobName, JobState};
use std::alloc::Global;
use std::marker::Model;

/// A tree's tables and the state of its Pass. `on` says that another segment stands behind it: else there is no Pass.
#[derive(Drop)]
pub struct Segment {
    board: Board,
    pass: JobState,
    on: bool,
}

impl Model for Segment {
    ghost Value = { SegmentView };

    ghost view = { λ g. record { board = g.board; pass = g.pass; on = g.on } };
}

/// A Pass is to be done at the opening, where there is one.
fn first_pass(on: bool) -> JobState
    ensures { result ≡ first_pass on }
{
    if on {
        JobState::Pending
    } else {
        JobState::Clean
    }
}

/// What a Pass waits for, where there is one, after a cell that it reads has changed or not.
fn after_change(pass: JobState, on: bool, changed: bool) -> JobState
    ensures { result ≡ after_change pass on changed }
{
    if on {
        if changed { woken(pass) } else { pass }
    } else {
        pass
    }
}

/// Whether there is a Pass and it reads the node's effect: the root's.
fn is_read(on: bool, node: u32) -> bool
    ensures { result ≡ is_read on node }
{
    if on { node == 0 } else { false }
}

impl Segment {
    /// The opening over so many leaves.
    pub fn opening(alloc: Global, leaves: u32, on: bool) -> Result<Segment, NoMemory>
        requires { leaves ≤ most_programs }
        ensures leaves { IfOk result (λ g. g.board.leaves ≡ leaves) }
        ensures on { IfOk result (λ g. g.on ≡ on) }
        ensures free { IfOk result (λ g. standing g.board.claims ≡ 0) }
        ensures state { IfOk result (λ g. (effect : ℕ → List MarkType → List MarkType) → segment_state g ≡ opening (passing_net effect leaves on)) }
    {
        let board = Board::opening(alloc, leaves)?;
        let pass = first_pass(on);
        Ok(Segment { board, pass, on })
    }

    /// The worker holds a job of the tree, on inputs that stand now.
    pub fn hold(&mut self, worker: u32, job: JobName, inputs: Inputs, prior: Option<Marks>)
        requires worker { worker < most_workers }
        requires job { code_of job < codes_over self.old.board.leaves }
        requires tree { code_of job ≢ 2047 }
        requires inputs { (effect : ℕ → List MarkType → List MarkType) →
            inputs_list inputs ≡ read (state_of self.old.board).value ((circuit_net effect (tree_of self.old.board.leaves)).inputs (code_of job)) }
        requires prior { prior ≡ (state_of self.old.board).done (code_of job) }
        ensures leaves { self.new.board.leaves ≡ self.old.board.leaves }
        ensures on { self.new.on ≡ self.old.on }
        ensures claims { (held : HeldType) × (self.new.board.claims ≡ slice_set self.old.board.claims worker (Some held)) }
        ensures state { (effect : ℕ → List MarkType → List MarkType) →
            segment_state self.new ≡ claimed (passing_net effect self.old.board.leaves self.old.on) (segment_state self.old) worker (code_of job) }
    {
        let _on = self.on;
        self.board.hold(worker, job, inputs, prior);
    }

    /// The worker gives a job of the tree up.
    pub fn abandon(&mut self, worker: u32, job: JobName) -> Option<Held>
        requires worker { worker < most_workers }
        requires job { code_of job < codes_over self.old.board.leaves }
        requires tree { code_of job ≢ 2047 }
        ensures leaves { self.new.board.leaves ≡ self.old.board.leaves }
        ensures on { self.new.on ≡ self.old.on }
        ensures claims { self.new.board.claims ≡ slice_set self.old.board.claims worker None }
        ensures state { (claim : Claim) → claim.job ≡ code_of job → segment_state self.new ≡ abandoned (segment_state self.old) worker claim }
    {
        let _on = self.on;
        self.board.abandon(worker, job)
    }

    /// The worker holds the Pass, on inputs that stand now.
    pub fn hold_pass(&mut self, worker: u32, inputs: Inputs)
        requires worker { worker < most_workers }
        requires inputs { inputs_list inputs ≡ read (state_of self.old.board).value (pass_inputs self.old.on) }
        ensures leaves { self.new.board.leaves ≡ self.old.board.leaves }
        ensures on { self.new.on ≡ self.old.on }
        ensures claims { (held : HeldType) × (self.new.board.claims ≡ slice_set self.old.board.claims worker (Some held)) }
        ensures state { (effect : ℕ → List MarkType → List MarkType) →
            segment_state self.new ≡ claimed (passing_net effect self.old.board.leaves self.old.on) (segment_state self.old) worker 2047 }
    {
        let _on = self.on;
        self.pass = JobState::Running;
        self.board.hold_pass(worker, inputs);
    }

    /// The worker gives the Pass up.
    pub fn abandon_pass(&mut self, worker: u32) -> Option<Held>
        requires worker { worker < most_workers }
        ensures leaves { self.new.board.leaves ≡ self.old.board.leaves }
        ensures on { self.new.on ≡ self.old.on }
        ensures claims { self.new.board.claims ≡ slice_set self.old.board.claims worker None }
        ensures state { (claim : Claim) → claim.job ≡ 2047 → segment_state self.new ≡ abandoned (segment_state self.old) worker claim }
    {
        let _on = self.on;
        self.pass = JobState::Pending;
        self.board.free_pass(worker)
    }

    /// The worker's Pass is done: in this segment its claim ends.
    pub fn close_pass(&mut self, worker: u32) -> Option<Held>
        requires worker { worker < most_workers }
        ensures leaves { self.new.board.leaves ≡ self.old.board.leaves }
        ensures on { self.new.on ≡ self.old.on }
        ensures claims { self.new.board.claims ≡ slice_set self.old.board.claims worker None }
        ensures state { (claim : Claim) → claim.job ≡ 2047 → segment_state self.new ≡ pass_closed (segment_state self.old) worker claim }
    {
        let _on = self.on;
        self.pass = ended(self.pass);
        self.board.free_pass(worker)
    }

    /// What the Pass waits for once the root has this correction.
    fn pass_given(&self, correction: &Marks) -> JobState
        ensures { result ≡ pass_given (state_of self.now.board) self.now.pass self.now.on correction.now }
    {
        let pass = self.pass;
        let changed = is_change(self.board.correction(0), correction);
        after_change(pass, self.on, changed)
    }

    /// The Pass before this segment gave its root's correction: its readers are woken where that is a change. It answers the marks
    /// that stood.
    pub fn give_root(&mut self, correction: Marks) -> Marks
        ensures leaves { self.new.board.leaves ≡ self.old.board.leaves }
        ensures on { self.new.on ≡ self.old.on }
        ensures claims { self.new.board.claims ≡ self.old.board.claims }
        ensures state { (effect : ℕ → List MarkType → List MarkType) →
            segment_state self.new ≡ given_root (passing_net effect self.old.board.leaves self.old.on) (segment_state self.old) correction }
    {
        let pass = self.pass_given(&correction);
        self.pass = pass;
        self.board.give_root(correction)
    }

    /// What the Pass waits for once the node has this effect.
    fn pass_stored(&self, node: u32, effect: &Marks) -> JobState
        ensures { result ≡ pass_stored (state_of self.now.board) self.now.pass self.now.on (Effect node) effect.now }
    {
        let pass = self.pass;
        let here = is_read(self.on, node);
        let changed = is_change(self.board.effect(0), effect);
        after_change(pass, here, changed)
    }

    /// The worker's Merge gave its node's effect. It answers what stood.
    pub fn finish_merge(&mut self, worker: u32, node: u32, effect: Marks) -> Stood
        requires worker { worker < most_workers }
        requires small { self.old.board.leaves ≤ most_programs }
        requires node { node + 2 < 2 * self.old.board.leaves }
        requires inner { right_in (tree_of self.old.board.leaves) node ≢ None }
        ensures leaves { self.new.board.leaves ≡ self.old.board.leaves }
        ensures on { self.new.on ≡ self.old.on }
        ensures claims { self.new.board.claims ≡ slice_set self.old.board.claims worker None }
        ensures state { (does : ℕ → List MarkType → List MarkType) (claim : Claim) (left right : List MarkType) →
            claim.job ≡ code_of (Merge node) → claim.inputs ≡ left ∷ right ∷ [] → effect ≡ and_then left right →
            segment_state self.new ≡ finished (passing_net does self.old.board.leaves self.old.on) (segment_state self.old) worker claim }
    {
        let pass = self.pass_stored(node, &effect);
        self.pass = pass;
        self.board.finish_merge(worker, node, effect)
    }

    /// The worker's leaf gave the effect of its node, on the correction that is kept. It answers what stood.
    pub fn finish_leaf(&mut self, worker: u32, leaf: u32, kept: Marks, effect: Marks) -> Stood
        requires worker { worker < most_workers }
        requires small { self.old.board.leaves ≤ most_programs }
        requires leaf { leaf < self.old.board.leaves }
        ensures leaves { self.new.board.leaves ≡ self.old.board.leaves }
        ensures on { self.new.on ≡ self.old.on }
        ensures claims { self.new.board.claims ≡ slice_set self.old.board.claims worker None }
        ensures state { (does : ℕ → List MarkType → List MarkType) (claim : Claim) →
            claim.job ≡ code_of (Leaf leaf) → claim.inputs ≡ kept ∷ [] → effect ≡ does leaf kept →
            segment_state self.new ≡ finished (passing_net does self.old.board.leaves self.old.on) (segment_state self.old) worker claim }
    {
        let leaves = self.board.leaves();
        let node = node_of(leaves, leaf);
        let pass = self.pass_stored(node, &effect);
        self.pass = pass;
        self.board.finish_leaf(worker, leaf, kept, effect)
    }

    /// The worker's Correct gave the corrections of its node's children. The root's isn't among them. It answers what stood.
    pub fn finish_correct(
        &mut self,
        worker: u32,
        node: u32,
        to_left: Marks,
        to_right: Marks,
    ) -> Stood
        requires worker { worker < most_workers }
        requires small { self.old.board.leaves ≤ most_programs }
        requires node { node + 2 < 2 * self.old.board.leaves }
        requires inner { right_in (tree_of self.old.board.leaves) node ≢ None }
        requires current { (state_of self.old.board).status (code_of (Correct node)) ≡ Running → to_left ≡ (state_of self.old.board).value (Correction node) }
        ensures leaves { self.new.board.leaves ≡ self.old.board.leaves }
        ensures on { self.new.on ≡ self.old.on }
        ensures claims { self.new.board.claims ≡ slice_set self.old.board.claims worker None }
        ensures state { (does : ℕ → List MarkType → List MarkType) (claim : Claim) (left : List MarkType) →
            claim.job ≡ code_of (Correct node) → claim.inputs ≡ to_left ∷ left ∷ [] → to_right ≡ and_then to_left left →
            segment_state self.new ≡ finished (passing_net does self.old.board.leaves self.old.on) (segment_state self.old) worker claim }
    {
        let _on = self.on;
        self.board.finish_correct(worker, node, to_left, to_right)
    }
}

mod front;
mod look;
