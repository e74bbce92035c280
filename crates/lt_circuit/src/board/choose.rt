//! Which Pending job a worker is given.
//!
//! Worker 0 takes the first on the walk. The others take the first inner job on the walk, which is cheap and brings leaves their
//! corrections, and where none is Pending the lowest leaf. So it is where no job is due (`front`).
#![tactic(auto)]

ghost use Rattle.std.specs.Prelude.{◌≡◌, ◌≢◌, ℕ, true, false, ◌<◌, ◌≤◌, ◌^◌, None, IfSome};
ghost use Rattle.lt_net.specs.declared.job.JobState.TheVariants.{Clean, Pending};
ghost use Rattle.lt_net.specs.declared.job.JobName.TheVariants.{Leaf};
ghost use Rattle.lt_net.specs.Codes.{code_of};
ghost use Rattle.lt_circuit.specs.Board.{state_of};

use super::Board;
use lt_net::JobName;

impl Board {
    /// Whether the leaf is Pending and never ran.
    pub fn is_fresh(&self, leaf: u32) -> bool
        requires { leaf < self.now.leaves }
        ensures { result ≡ true → (state_of self.now).status (code_of (Leaf leaf)) ≡ Pending }
    {
        self.done[leaf as usize].is_none() && self.is_pending(JobName::Leaf(leaf))
    }

    /// Whether a job is Pending.
    pub fn has_pending(&self) -> bool
        ensures some { result ≡ true → (job : ℕ) × ((state_of self.now).status job ≡ Pending) }
        ensures none { result ≡ false → (job : ℕ) → (state_of self.now).status job ≢ Pending }
        ensures high { (job : ℕ) → 2047 ≤ job → (state_of self.now).status job ≡ Clean }
    {
        let _leaves = self.leaves;
        self.jobs.has_pending()
    }

    /// A Pending job for the worker, if any.
    pub fn next_pending(&mut self, worker: u32) -> Option<JobName>
        ensures same { self.new ≡ self.old }
        ensures some { IfSome result (λ job. (state_of self.old).status (code_of job) ≡ Pending) }
        ensures small { IfSome result (λ job. code_of job < 2 ^ 32) }
        ensures none { result ≡ None → (job : ℕ) → (state_of self.old).status job ≢ Pending }
        ensures high { (job : ℕ) → 2047 ≤ job → (state_of self.old).status job ≡ Clean }
    {
        let _leaves = self.leaves;
        if worker == 0 {
            return self.jobs.next_pending();
        }
        match self.jobs.next_inner() {
            Some(job) => Some(job),
            None => self.jobs.next_pending(),
        }
    }
}
