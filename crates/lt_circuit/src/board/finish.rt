//! Finishes: what a job gave is stored, its claim ends, and the jobs that read what changed are woken.
#![tactic(auto)]

ghost use Rattle.std.specs.Prelude.{◌≡◌, ℕ, ◌+◌, ◌*◌, ◌-◌, ◌<◌, ◌≢◌, List, [], ◌∷◌, Some, None, slice_set};
ghost use Rattle.lt_face.specs.Limits.{most_workers};
ghost use Rattle.lt_model.specs.declared.mark.Mark.{Mark as MarkType};
ghost use Rattle.lt_model.specs.Marks.{and_then};
ghost use Rattle.lt_net.specs.Net.{Claim, Correction, finished};
ghost use Rattle.lt_net.specs.Tree.{circuit_net, tree_of, right_in};
ghost use Rattle.lt_net.specs.Codes.{code_of};
ghost use Rattle.lt_net.specs.declared.job.JobName.TheVariants.{Leaf, Merge, Correct};
ghost use Rattle.lt_net.specs.declared.job.JobState.TheVariants.{Running};
ghost use Rattle.lt_circuit.specs.Board.{state_of};

use super::Board;
use crate::cells::Stood;
use crate::tree::{node_of, right_of};
use lt_delta::Marks;
use lt_net::JobName;

impl Board {
    /// The worker's Merge gave its node's effect. It answers what stood.
    pub fn finish_merge(&mut self, worker: u32, node: u32, effect: Marks) -> Stood
        requires worker { worker < most_workers }
        requires node { node + 2 < 2 * self.old.leaves }
        requires inner { right_in (tree_of self.old.leaves) node ≢ None }
        ensures leaves { self.new.leaves ≡ self.old.leaves }
        ensures claims { self.new.claims ≡ slice_set self.old.claims worker None }
        ensures state { (does : ℕ → List MarkType → List MarkType) (claim : Claim) (left right : List MarkType) →
            claim.job ≡ code_of (Merge node) → claim.inputs ≡ left ∷ right ∷ [] → effect ≡ and_then left right →
            state_of self.new ≡ finished (circuit_net does (tree_of self.old.leaves)) (state_of self.old) worker claim }
    {
        let _leaves = self.leaves;
        let held = self.close(worker, JobName::Merge(node));
        let first = self.store_effect(node, effect);
        Stood {
            held,
            first: Some(first),
            second: None,
        }
    }

    /// The worker's leaf gave the effect of its node, on the correction that is kept. It answers what stood.
    pub fn finish_leaf(&mut self, worker: u32, leaf: u32, kept: Marks, effect: Marks) -> Stood
        requires worker { worker < most_workers }
        requires leaf { leaf < self.old.leaves }
        ensures leaves { self.new.leaves ≡ self.old.leaves }
        ensures claims { self.new.claims ≡ slice_set self.old.claims worker None }
        ensures state { (does : ℕ → List MarkType → List MarkType) (claim : Claim) →
            claim.job ≡ code_of (Leaf leaf) → claim.inputs ≡ kept ∷ [] → effect ≡ does leaf kept →
            state_of self.new ≡ finished (circuit_net does (tree_of self.old.leaves)) (state_of self.old) worker claim }
    {
        let node = node_of(self.leaves, leaf);
        let held = self.close(worker, JobName::Leaf(leaf));
        let first = self.store_effect(node, effect);
        let second = self.keep(leaf, kept);
        Stood {
            held,
            first: Some(first),
            second,
        }
    }

    /// The worker's Correct gave the corrections of its node's children. It answers what stood.
    pub fn finish_correct(
        &mut self,
        worker: u32,
        node: u32,
        to_left: Marks,
        to_right: Marks,
    ) -> Stood
        requires worker { worker < most_workers }
        requires node { node + 2 < 2 * self.old.leaves }
        requires inner { right_in (tree_of self.old.leaves) node ≢ None }
        requires current { (state_of self.old).status (code_of (Correct node)) ≡ Running → to_left ≡ (state_of self.old).value (Correction node) }
        ensures leaves { self.new.leaves ≡ self.old.leaves }
        ensures claims { self.new.claims ≡ slice_set self.old.claims worker None }
        ensures state { (does : ℕ → List MarkType → List MarkType) (claim : Claim) (left : List MarkType) →
            claim.job ≡ code_of (Correct node) → claim.inputs ≡ to_left ∷ left ∷ [] → to_right ≡ and_then to_left left →
            state_of self.new ≡ finished (circuit_net does (tree_of self.old.leaves)) (state_of self.old) worker claim }
    {
        let found = right_of(self.leaves, node);
        match found {
            Some(right) => {
                let current = self.is_running(JobName::Correct(node));
                let held = self.close(worker, JobName::Correct(node));
                let first = self.hand_left(node, to_left, current);
                let second = self.store_correction(right, to_right);
                Stood {
                    held,
                    first: Some(first),
                    second: Some(second),
                }
            }
            None => unreachable!(),
        }
    }
}
