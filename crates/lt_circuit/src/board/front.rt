//! The front: the first job on the walk that is Pending or held. All before it is final, and so is what it is done on.
//!
//! A leaf that ran is given again as the front's alone. So it runs twice at most: once ahead of the front, and at it. No clause speaks of
//! this.
#![tactic(auto)]

use super::Board;

impl Board {
    /// The first place on the walk whose job is held, or one behind all.
    fn held_place(&self) -> usize {
        self.holders.first_place(&self.jobs)
    }

    /// Whether worker 0 holds a job.
    pub fn is_first_busy(&self) -> bool {
        self.holders.is_first_busy()
    }

    /// The code of the job at the front, where it is Pending.
    pub fn front_code(&self) -> Option<u32> {
        self.jobs.code_before(self.held_place())
    }

    /// The code of the job that is done ahead of the front, among the next `left` leaves, which are counted: that of the lowest leaf that
    /// never ran, and before it the inner jobs that stand before its place.
    pub fn ahead_code(&self, left: &mut u32) -> Option<u32> {
        self.jobs.code_ahead(&self.done, self.held_place(), left)
    }

    /// Whether an inner job is Pending.
    pub fn has_inner(&self) -> bool {
        self.jobs.next_inner().is_some()
    }
}
