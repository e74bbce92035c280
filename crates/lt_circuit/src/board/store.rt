//! The steps of a finish.
#![tactic(auto)]

ghost use Rattle.std.specs.Prelude.{◌≡◌, ◌≢◌, ℕ, true, false, ◌+◌, ◌*◌, ◌<◌, List, Some, None, slice_set};
ghost use Rattle.lt_face.specs.Limits.{most_workers};
ghost use Rattle.lt_model.specs.declared.mark.Mark.{Mark as MarkType};
ghost use Rattle.lt_net.specs.Net.{Claim, Effect, Correction, woken, ended};
ghost use Rattle.lt_net.specs.Tree.{circuit_net, tree_of, halved_tree};
ghost use Rattle.lt_net.specs.Codes.{code_of, codes_over};
ghost use Rattle.lt_net.specs.declared.job.JobName.TheVariants.{Leaf};
ghost use Rattle.lt_circuit.specs.Store.{closed, stored, kept_leaf, readers_of};
ghost use Rattle.lt_circuit.specs.Board.{state_of, waked, waked_all};

use super::Board;
use crate::cells::Held;
use crate::tree::{leaf_at, parent_of, right_of};
use lt_delta::Marks;
use lt_net::{JobName, JobState};
use std::mem;

pub(crate) fn woken(state: JobState) -> JobState
    ensures { result ≡ woken state }
{
    match state {
        JobState::Clean => JobState::Pending,
        JobState::Pending => JobState::Pending,
        JobState::Running => JobState::Dirty,
        JobState::Dirty => JobState::Dirty,
    }
}

pub(crate) fn ended(state: JobState) -> JobState
    ensures { result ≡ ended state }
{
    match state {
        JobState::Clean => JobState::Clean,
        JobState::Pending => JobState::Pending,
        JobState::Running => JobState::Clean,
        JobState::Dirty => JobState::Pending,
    }
}

/// Whether these marks are others than those that stood.
pub(crate) fn is_change(old: &Marks, new: &Marks) -> bool
    ensures changed { result ≡ true → old.now ≢ new.now }
    ensures same { result ≡ false → old.now ≡ new.now }
{
    !Marks::equal(old, new)
}

impl Board {
    /// One of the job's inputs has changed.
    fn wake(&mut self, job: JobName)
        requires { code_of job < codes_over self.old.leaves }
        ensures { self.new ≡ waked self.old (code_of job) }
    {
        let _leaves = self.leaves;
        let state = self.jobs.state(job);
        self.jobs.set_state(job, woken(state));
    }

    /// The readers of a node's effect.
    fn wake_effect(&mut self, node: u32)
        requires { node + 1 < 2 * self.old.leaves }
        ensures { self.new ≡ waked_all self.old (readers_of (halved_tree self.old.leaves) (Effect node)) }
    {
        if node > 0 {
            let parent = parent_of(self.leaves, node);
            self.wake(JobName::Merge(parent));
            if node == parent + 1 {
                self.wake(JobName::Correct(parent));
            }
        }
    }

    /// The readers of a node's correction.
    fn wake_correction(&mut self, node: u32)
        requires { node + 1 < 2 * self.old.leaves }
        ensures { self.new ≡ waked_all self.old (readers_of (halved_tree self.old.leaves) (Correction node)) }
    {
        let leaves = self.leaves;
        match right_of(leaves, node) {
            Some(_right) => self.wake(JobName::Correct(node)),
            None => self.wake(JobName::Leaf(leaf_at(leaves, node))),
        }
    }

    /// The marks stand as the node's effect, and where that is a change its readers are woken. It answers the marks that stood.
    pub(crate) fn store_effect(&mut self, node: u32, marks: Marks) -> Marks
        requires { node + 1 < 2 * self.old.leaves }
        ensures leaves { self.new.leaves ≡ self.old.leaves }
        ensures claims { self.new.claims ≡ self.old.claims }
        ensures state { (effect : ℕ → List MarkType → List MarkType) →
            state_of self.new ≡ stored (circuit_net effect (tree_of self.old.leaves)) (state_of self.old) (Effect node) marks }
    {
        let changed = is_change(self.nodes.effect(node), &marks);
        let old = self.nodes.put_effect(node, marks);
        if changed {
            self.wake_effect(node);
        }
        old
    }

    /// The marks stand as the node's correction, and where that is a change its reader is woken. It answers the marks that stood.
    pub(crate) fn store_correction(&mut self, node: u32, marks: Marks) -> Marks
        requires { node + 1 < 2 * self.old.leaves }
        ensures leaves { self.new.leaves ≡ self.old.leaves }
        ensures claims { self.new.claims ≡ self.old.claims }
        ensures state { (effect : ℕ → List MarkType → List MarkType) →
            state_of self.new ≡ stored (circuit_net effect (tree_of self.old.leaves)) (state_of self.old) (Correction node) marks }
    {
        let changed = is_change(self.nodes.correction(node), &marks);
        let old = self.nodes.put_correction(node, marks);
        if changed {
            self.wake_correction(node);
        }
        old
    }

    /// The marks stand as the root's correction, and where that is a change its reader is woken. Without leaves it has none. It
    /// answers the marks that stood.
    pub(crate) fn give_root(&mut self, marks: Marks) -> Marks
        ensures leaves { self.new.leaves ≡ self.old.leaves }
        ensures claims { self.new.claims ≡ self.old.claims }
        ensures state { (effect : ℕ → List MarkType → List MarkType) →
            state_of self.new ≡ stored (circuit_net effect (tree_of self.old.leaves)) (state_of self.old) (Correction 0) marks }
    {
        if self.leaves > 0 {
            return self.store_correction(0, marks);
        }
        self.nodes.put_correction(0, marks)
    }

    /// The marks stand as the correction of an inner node's left child. Where they are `current` they are the node's own, and are
    /// compared only if the child may have others. It answers the marks that stood, or these.
    pub(crate) fn hand_left(&mut self, node: u32, marks: Marks, current: bool) -> Marks
        requires node { node + 2 < 2 * self.old.leaves }
        requires current { current ≡ true → marks ≡ (state_of self.old).value (Correction node) }
        ensures leaves { self.new.leaves ≡ self.old.leaves }
        ensures claims { self.new.claims ≡ self.old.claims }
        ensures state { (effect : ℕ → List MarkType → List MarkType) →
            state_of self.new ≡ stored (circuit_net effect (tree_of self.old.leaves)) (state_of self.old) (Correction (node + 1)) marks }
    {
        let _leaves = self.leaves;
        if !current {
            return self.store_correction(node + 1, marks);
        }
        if self.nodes.is_handed(node) {
            return marks;
        }
        let old = self.store_correction(node + 1, marks);
        self.nodes.hand(node);
        old
    }

    /// The job's claim ends, and where an input changed since, the job is to be done again. It answers what the worker held.
    pub(crate) fn close(&mut self, worker: u32, job: JobName) -> Option<Held>
        requires worker { worker < most_workers }
        requires job { code_of job < codes_over self.old.leaves }
        ensures leaves { self.new.leaves ≡ self.old.leaves }
        ensures claims { self.new.claims ≡ slice_set self.old.claims worker None }
        ensures state { (claim : Claim) → claim.job ≡ code_of job → state_of self.new ≡ closed (state_of self.old) worker claim }
    {
        let _leaves = self.leaves;
        let state = self.jobs.state(job);
        self.jobs.set_state(job, ended(state));
        self.holders.free(worker)
    }

    /// The leaf finished with this correction. It answers the one before.
    pub(crate) fn keep(&mut self, leaf: u32, correction: Marks) -> Option<Marks>
        requires { leaf < self.old.leaves }
        ensures leaves { self.new.leaves ≡ self.old.leaves }
        ensures claims { self.new.claims ≡ self.old.claims }
        ensures state { state_of self.new ≡ kept_leaf (state_of self.old) (code_of (Leaf leaf)) correction }
    {
        mem::replace(&mut self.done[leaf as usize], Some(correction))
    }
}
