//! The front of a line: the first job on the walk over all segments that is Pending or held. All before it is final. No clause speaks of it.
#![tactic(auto)]

ghost use Rattle.std.specs.Prelude.{◌≤◌, ◌<◌, length};
ghost use Rattle.lt_circuit.specs.Row.{most_segments};

use super::Row;
use crate::segment::Segment;
use lt_net::CODES;

/// The first of these segments in which a job is Pending or held, or how many there are.
fn first_moved(segments: &[Segment]) -> usize
    ensures { result ≤ length segments.now }
{
    for s in 0..segments.len() {
        if !segments[s].is_done() {
            return s;
        }
    }
    segments.len()
}

/// Whether worker 0 holds a job of one of these segments.
fn is_first_busy(segments: &[Segment]) -> bool {
    for s in 0..segments.len() {
        if segments[s].is_first_busy() {
            return true;
        }
    }
    false
}

/// The code of this place in segment s.
fn code_at(s: usize, place: u32) -> u32
    requires { s < most_segments }
{
    (CODES * s as u32).saturating_add(place)
}

/// The code of the job of these segments from the first on that is done ahead, among the next `left` leaves, which are counted.
fn ahead_code(segments: &[Segment], first: usize, left: &mut u32) -> Option<u32>
    requires { length segments.now ≤ most_segments }
{
    for s in first..segments.len() {
        if let Some(place) = segments[s].ahead_place(left) {
            return Some(code_at(s, place));
        }
    }
    None
}

impl Row {
    /// Whether worker 0 holds a job.
    pub fn is_first_busy(&self) -> bool {
        is_first_busy(&self.segments)
    }

    /// The code of the job at the front, where it is Pending.
    pub fn front_code(&self) -> Option<u32> {
        let s = first_moved(&self.segments);
        if s >= self.segments.len() {
            return None;
        }
        match self.segments[s].front_place() {
            Some(place) => Some(code_at(s, place)),
            None => None,
        }
    }

    /// The code of the job that is done ahead of the front, among the next `left` leaves: that of the lowest leaf that never ran, and
    /// before it the inner jobs of its segment that stand before its place.
    pub fn ahead_code(&self, left: u32) -> Option<u32> {
        let mut left = left;
        let first = first_moved(&self.segments);
        ahead_code(&self.segments, first, &mut left)
    }

    /// Whether an inner job of the first segment that isn't done is Pending.
    pub fn has_inner(&self) -> bool {
        let s = first_moved(&self.segments);
        s < self.segments.len() && self.segments[s].has_inner()
    }
}
