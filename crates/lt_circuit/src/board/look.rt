//! What the tables tell.
#![tactic(auto)]

ghost use Rattle.std.specs.Prelude.{◌≡◌, true, ◌<◌, ◌≤◌, ◌^◌, IsTrue, ◌↔◌, max};
ghost use Rattle.lt_face.specs.Limits.{most_workers};
ghost use Rattle.lt_net.specs.Codes.{code_of, codes_over, nodes_over};
ghost use Rattle.lt_net.specs.Net.{Effect, Correction};
ghost use Rattle.lt_circuit.specs.Board.{standing, state_of};
ghost use Rattle.lt_net.specs.declared.job.JobState.TheVariants.{Pending, Running};

use super::Board;
use lt_delta::Marks;
use lt_net::{JobName, JobState};

impl Board {
    /// How many leaves there are.
    pub fn leaves(&self) -> u32
        ensures { result ≡ self.now.leaves }
    {
        self.leaves
    }

    /// Whether the job is Pending. A name that is no job's of the tree isn't.
    pub fn is_pending(&self, job: JobName) -> bool
        requires { code_of job < 2 ^ 32 }
        ensures { IsTrue result ↔ ((state_of self.now).status (code_of job) ≡ Pending) }
    {
        self.jobs.is_pending(job.code())
    }

    /// Whether a worker does the job, on inputs that stand now.
    pub fn is_running(&self, job: JobName) -> bool
        requires { code_of job < codes_over self.now.leaves }
        ensures { result ≡ true → (state_of self.now).status (code_of job) ≡ Running }
    {
        let _leaves = self.leaves;
        self.jobs.state(job) == JobState::Running
    }

    /// How many claims stand.
    pub fn in_flight(&self) -> u32
        ensures count { result ≡ standing self.now.claims }
        ensures few { result ≤ most_workers }
    {
        self.holders.count()
    }

    /// The effect of a node.
    pub fn effect(&self, node: u32) -> &Marks
        requires { node < max (nodes_over self.now.leaves) 1 }
        ensures { result.now ≡ (state_of self.now).value (Effect node) }
    {
        self.nodes.effect(node)
    }

    /// The correction of a node.
    pub fn correction(&self, node: u32) -> &Marks
        requires { node < max (nodes_over self.now.leaves) 1 }
        ensures { result.now ≡ (state_of self.now).value (Correction node) }
    {
        self.nodes.correction(node)
    }
}
