//! Which Pending job of a circuit is due for a worker.
//!
//! The front's is due (`board/front`): for others than worker 0 while worker 0 holds a job, or nobody does. Else one ahead of the front is:
//! that of the lowest leaf that never ran and hangs on none before it, or one among the next leaves, so many as are run ahead.
#![tactic(auto)]

ghost use Rattle.std.specs.Prelude.{◌≡◌, ◌<◌, ◌^◌, IfSome};
ghost use Rattle.lt_net.specs.declared.job.JobState.TheVariants.{Pending};
ghost use Rattle.lt_net.specs.Codes.{code_of};
ghost use Rattle.lt_circuit.specs.Circuit.{state};

use crate::circuit::Circuit;
use crate::work::LeafWork;
use lt_net::JobName;

impl<W: LeafWork> Circuit<W> {
    // The code of the front's job, where it is Pending and the worker may be given it.
    fn front_code(&self, worker: u32) -> Option<u32> {
        if worker == 0 || self.board.in_flight() == 0 || self.board.is_first_busy() {
            return self.board.front_code();
        }
        None
    }

    // The code of the lowest leaf's job that is free and never ran.
    fn free_code(&self) -> Option<u32> {
        match self.free_leaf() {
            Some(leaf) => Some(leaf.saturating_mul(3)),
            None => None,
        }
    }

    // The code of the job that is due for the worker. Where no leaf that may be tied to others is run ahead, the others than worker 0 first
    // take the free ones.
    fn due_code(&self, worker: u32) -> Option<u32> {
        if worker > 0 && self.ahead == 0 {
            if let Some(code) = self.free_code() {
                return Some(code);
            }
            return self.front_code(worker);
        }
        if let Some(code) = self.front_code(worker) {
            return Some(code);
        }
        if let Some(code) = self.free_code() {
            return Some(code);
        }
        let mut left = self.ahead;
        self.board.ahead_code(&mut left)
    }

    // The job that is due for the worker, if any.
    pub(crate) fn due_job(&self, worker: u32) -> Option<JobName>
        ensures some { IfSome result (λ job. (state self.now).status (code_of job) ≡ Pending) }
        ensures small { IfSome result (λ job. code_of job < 2 ^ 32) }
    {
        match self.due_code(worker) {
            Some(code) => {
                let job = JobName::of(code);
                if self.is_pending(job) {
                    return Some(job);
                }
                None
            }
            None => None,
        }
    }

    /// Whether the worker had better ask than wait for an entry of another, where so many leaves behind the front are run ahead that may
    /// be tied to others. Else some claim stands. Where none are, others than worker 0 ask for an inner job too, to give it back and go.
    pub fn is_due(&mut self, worker: u32, ahead: u32) -> bool
        ensures same { self.new ≡ self.old }
    {
        self.ahead = ahead;
        let first = self.board.next_pending(0);
        if first.is_none() || self.due_job(worker).is_some() {
            return true;
        }
        worker > 0 && ahead == 0 && self.board.has_inner()
    }
}
