//! Which Pending job of a line is due for a worker: as in a circuit (`due`), over all segments.
#![tactic(auto)]

ghost use Rattle.std.specs.Prelude.{◌≡◌, IfSome};
ghost use Rattle.lt_net.specs.declared.job.JobState.TheVariants.{Pending};
ghost use Rattle.lt_circuit.specs.Line.{line_state};

use super::Line;
use crate::work::LeafWork;

impl<W: LeafWork> Line<W> {
    // The code of the front's job, where it is Pending and the worker may be given it.
    fn front_code(&self, worker: u32) -> Option<u32> {
        if worker == 0 || self.row.in_flight() == 0 || self.row.is_first_busy() {
            return self.row.front_code();
        }
        None
    }

    // The code of the job that is due for the worker. Where no leaf that may be tied to others is run ahead, the others than worker 0 first
    // take the free ones.
    fn due_code(&self, worker: u32) -> Option<u32> {
        if worker > 0 && self.ahead == 0 {
            if let Some(code) = self.free_leaf() {
                return Some(code);
            }
            return self.front_code(worker);
        }
        if let Some(code) = self.front_code(worker) {
            return Some(code);
        }
        if let Some(code) = self.free_leaf() {
            return Some(code);
        }
        self.row.ahead_code(self.ahead)
    }

    // The code of the job that is due for the worker, if any.
    pub(super) fn due_job(&self, worker: u32) -> Option<u32>
        ensures { IfSome result (λ code. (line_state self.now).status code ≡ Pending) }
    {
        match self.due_code(worker) {
            Some(code) => {
                if self.is_pending(code) {
                    return Some(code);
                }
                None
            }
            None => None,
        }
    }

    /// Whether the worker had better ask than wait for an entry of another, where so many leaves behind the front are run ahead that may
    /// be tied to others. Else some claim stands. Where none are, others than worker 0 ask for an inner job too, to give it back and go.
    pub fn is_due(&mut self, worker: u32, ahead: u32) -> bool
        ensures same { self.new ≡ self.old }
    {
        self.ahead = ahead;
        let first = self.row.next_pending(0);
        if first.is_none() || self.due_job(worker).is_some() {
            return true;
        }
        worker > 0 && ahead == 0 && self.row.has_inner()
    }
}
