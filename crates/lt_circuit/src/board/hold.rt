//! Claims, and those that are given up.
#![tactic(auto)]

ghost use Rattle.std.specs.Prelude.{◌≡◌, ℕ, ◌<◌, List, Some, None, slice_set};
ghost use Rattle.lt_face.specs.Limits.{most_workers};
ghost use Rattle.lt_model.specs.declared.mark.Mark.{Mark as MarkType};
ghost use Rattle.lt_net.specs.Net.{Claim, read, claimed, abandoned};
ghost use Rattle.lt_net.specs.Tree.{circuit_net, tree_of};
ghost use Rattle.lt_net.specs.Codes.{code_of, codes_over};
ghost use Rattle.lt_circuit.specs.declared.cells.Held.{Held as HeldType};
ghost use Rattle.lt_circuit.specs.Board.{inputs_list, state_of};
ghost use Rattle.lt_circuit.specs.Segment.{with_claim};

use super::Board;
use crate::cells::{Held, Inputs};
use lt_delta::Marks;
use lt_net::{JobName, JobState};

impl Board {
    /// The worker holds the job, on inputs that stand now.
    pub fn hold(&mut self, worker: u32, job: JobName, inputs: Inputs, prior: Option<Marks>)
        requires worker { worker < most_workers }
        requires job { code_of job < codes_over self.old.leaves }
        requires inputs { (effect : ℕ → List MarkType → List MarkType) →
            inputs_list inputs ≡ read (state_of self.old).value ((circuit_net effect (tree_of self.old.leaves)).inputs (code_of job)) }
        requires prior { prior ≡ (state_of self.old).done (code_of job) }
        ensures leaves { self.new.leaves ≡ self.old.leaves }
        ensures claims { (held : HeldType) × (self.new.claims ≡ slice_set self.old.claims worker (Some held)) }
        ensures state { (effect : ℕ → List MarkType → List MarkType) →
            state_of self.new ≡ claimed (circuit_net effect (tree_of self.old.leaves)) (state_of self.old) worker (code_of job) }
    {
        let _leaves = self.leaves;
        self.jobs.set_state(job, JobState::Running);
        self.holders.hold(worker, Held { job, inputs, prior });
    }

    /// The worker gives its job up: the job is Pending again. It answers what the worker held.
    pub fn abandon(&mut self, worker: u32, job: JobName) -> Option<Held>
        requires worker { worker < most_workers }
        requires job { code_of job < codes_over self.old.leaves }
        ensures leaves { self.new.leaves ≡ self.old.leaves }
        ensures claims { self.new.claims ≡ slice_set self.old.claims worker None }
        ensures state { (claim : Claim) → claim.job ≡ code_of job → state_of self.new ≡ abandoned (state_of self.old) worker claim }
    {
        let _leaves = self.leaves;
        self.jobs.set_state(job, JobState::Pending);
        self.holders.free(worker)
    }

    /// The worker holds the Pass behind the tree, on these inputs.
    pub fn hold_pass(&mut self, worker: u32, inputs: Inputs)
        requires { worker < most_workers }
        ensures leaves { self.new.leaves ≡ self.old.leaves }
        ensures claims { (held : HeldType) × (self.new.claims ≡ slice_set self.old.claims worker (Some held)) }
        ensures state { state_of self.new ≡ with_claim (state_of self.old) worker (Some (record { job = 2047; inputs = inputs_list inputs; prior = None })) }
    {
        let _leaves = self.leaves;
        let held = Held {
            job: JobName::Pass(0),
            inputs,
            prior: None,
        };
        self.holders.hold(worker, held);
    }

    /// The worker holds the Pass no more. It answers what the worker held.
    pub fn free_pass(&mut self, worker: u32) -> Option<Held>
        requires { worker < most_workers }
        ensures leaves { self.new.leaves ≡ self.old.leaves }
        ensures claims { self.new.claims ≡ slice_set self.old.claims worker None }
        ensures state { state_of self.new ≡ with_claim (state_of self.old) worker None }
    {
        let _leaves = self.leaves;
        self.holders.free(worker)
    }
}
