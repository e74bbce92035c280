//! Leaves of a line that hang on none before them.
#![tactic(auto)]

ghost use Rattle.std.specs.Prelude.{◌≡◌, ◌<◌, IfSome, length};
ghost use Rattle.lt_net.specs.declared.job.JobState.TheVariants.{Pending};
ghost use Rattle.lt_circuit.specs.Line.{line_state};
ghost use Rattle.lt_circuit.specs.Row.{most_segments};

use super::Line;
use crate::work::LeafWork;
use lt_net::{CODES, JobName};

impl<W: LeafWork> Line<W> {
    /// How many leaves all segments have.
    pub fn leaves(&self) -> u32 {
        let mut count: u32 = 0;
        for s in 0..self.row.count() {
            count = count.saturating_add(self.row.leaves(s));
        }
        count
    }

    // Whether a leaf of segment s never ran and hangs on none before it.
    fn is_free(&self, s: u32, leaf: u32) -> bool
        requires segment { (s < length self.now.row) × (s < most_segments) }
        requires leaf { leaf < 256 }
    {
        self.work.is_free(256 * s + leaf) && self.row.is_fresh(s, leaf)
    }

    // How many leaves of segment s never ran and hang on none before them.
    fn free_leaves_in(&self, s: u32) -> u32
        requires segment { (s < length self.now.row) × (s < most_segments) }
    {
        let mut count: u32 = 0;
        for leaf in 0..self.row.leaves(s) {
            if self.is_free(s, leaf) {
                count = count.saturating_add(1);
            }
        }
        count
    }

    /// How many leaves never ran and hang on none before them.
    pub fn free_leaves(&self) -> u32 {
        let mut count: u32 = 0;
        for s in 0..self.row.count() {
            count = count.saturating_add(self.free_leaves_in(s));
        }
        count
    }

    // The code of the lowest leaf of segment s that never ran, is Pending, and hangs on none before it.
    fn free_leaf_in(&self, s: u32) -> Option<u32>
        requires segment { (s < length self.now.row) × (s < most_segments) }
        ensures { IfSome result (λ code. (line_state self.now).status code ≡ Pending) }
    {
        for leaf in 0..self.row.leaves(s) {
            let code = CODES * s + JobName::Leaf(leaf).code();
            if self.is_free(s, leaf) && self.is_pending(code) {
                return Some(code);
            }
        }
        None
    }

    // The code of the lowest leaf that never ran, is Pending, and hangs on none before it.
    pub(super) fn free_leaf(&self) -> Option<u32>
        ensures { IfSome result (λ code. (line_state self.now).status code ≡ Pending) }
    {
        for s in 0..self.row.count() {
            if let Some(code) = self.free_leaf_in(s) {
                return Some(code);
            }
        }
        None
    }
}
