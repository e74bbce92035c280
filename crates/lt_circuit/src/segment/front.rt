//! The front of a segment. No clause speaks of it.
#![tactic(auto)]

use super::Segment;
use lt_net::{JobState, PASS};

impl Segment {
    /// Whether no job is Pending or held.
    pub fn is_done(&self) -> bool {
        self.board.in_flight() == 0 && !self.has_pending()
    }

    /// Whether worker 0 holds a job.
    pub fn is_first_busy(&self) -> bool {
        self.board.is_first_busy()
    }

    /// The place of the job at the segment's front, where it is Pending: the Pass is the last one.
    pub fn front_place(&self) -> Option<u32> {
        let front = self.board.front_code();
        if front.is_none() && self.board.in_flight() == 0 && self.pass == JobState::Pending {
            return Some(PASS);
        }
        front
    }

    /// The place of the job of the tree that is done ahead of the front, among the next `left` leaves, which are counted.
    pub fn ahead_place(&self, left: &mut u32) -> Option<u32> {
        self.board.ahead_code(left)
    }

    /// Whether an inner job of the tree is Pending.
    pub fn has_inner(&self) -> bool {
        self.board.has_inner()
    }
}
