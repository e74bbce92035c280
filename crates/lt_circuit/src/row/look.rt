//! What the tables of a line tell.
#![tactic(auto)]

ghost use Rattle.std.specs.Prelude.{◌≡◌, ◌≢◌, ℕ, true, false, ◌<◌, ◌≤◌, [], None, IfOk, IfSome, IsTrue, ◌↔◌, length, max};
ghost use Rattle.lt_face.specs.Limits.{most_programs};
ghost use Rattle.lt_net.specs.Codes.{nodes_over};
ghost use Rattle.lt_net.specs.Line.{line_inputs, line_job, placed};
ghost use Rattle.lt_net.specs.Net.{Effect, read};
ghost use Rattle.lt_net.specs.declared.job.JobState.TheVariants.{Pending};
ghost use Rattle.lt_circuit.specs.Board.{inputs_list};
ghost use Rattle.lt_circuit.specs.Row.{most_segments, parts, row_of, segment_at, sizes, standing_in, IsPassable};

use super::Row;
use crate::cells::Captured;
use crate::segment::Segment;
use lt_delta::Marks;
use lt_face::NoMemory;
use lt_net::{CODES, JobName, PASS};

/// How many claims stand in these segments.
fn claims_in(segments: &[Segment]) -> u32
    requires { length segments.now ≤ most_segments }
    ensures count { result ≡ standing_in segments.now }
{
    let mut count = 0;
    for s in 0..segments.len() {
        count += segments[s].in_flight();
    }
    count
}

/// The first of these segments in which a job is Pending, or how many there are.
fn first_busy(segments: &[Segment]) -> usize
    ensures within { result ≤ length segments.now }
    ensures before { (s : ℕ) → s < result → (place : ℕ) → (parts segments.now s).status place ≢ Pending }
    ensures here { result < length segments.now → (place : ℕ) × (place < 2048) × ((parts segments.now result).status place ≡ Pending) }
{
    for s in 0..segments.len() {
        if segments[s].has_pending() {
            return s;
        }
    }
    segments.len()
}

/// Whether segment s is still, and the Pass before it is Clean.
fn is_passable(segments: &[Segment], s: usize) -> bool
    requires { s < length segments.now }
    ensures { IsTrue result ↔ IsPassable segments.now s }
{
    if !segments[s].is_still() {
        return false;
    }
    if s == 0 {
        return true;
    }
    segments[s - 1].is_passed()
}

/// The first of these segments at which the front stops, or how many there are.
fn first_moving(segments: &[Segment]) -> usize
    ensures within { result ≤ length segments.now }
    ensures before { (s : ℕ) → s < result → IsPassable segments.now s }
    ensures here { result < length segments.now → IsPassable segments.now result → ⊥ }
{
    for s in 0..segments.len() {
        if !is_passable(segments, s) {
            return s;
        }
    }
    segments.len()
}

impl Row {
    /// The first segment that isn't still, or before which a Pass isn't Clean, or how many there are.
    pub fn front(&self) -> u32
        ensures within { result ≤ length self.now }
        ensures before { (s : ℕ) → s < result → IsPassable self.now s }
        ensures here { result < length self.now → IsPassable self.now result → ⊥ }
    {
        first_moving(&self.segments) as u32
    }

    /// How many segments there are.
    pub fn count(&self) -> u32
        ensures count { result ≡ length self.now }
        ensures few { result ≤ most_segments }
    {
        self.segments.len() as u32
    }

    /// How many leaves segment s has.
    pub fn leaves(&self, s: u32) -> u32
        requires { s < length self.now }
        ensures leaves { result ≡ (segment_at self.now s).board.leaves }
        ensures few { result ≤ most_programs }
    {
        self.segments[s as usize].leaves()
    }

    /// Whether the leaf of segment s is Pending and never ran.
    pub fn is_fresh(&self, s: u32, leaf: u32) -> bool
        requires { s < length self.now }
    {
        self.segments[s as usize].is_fresh(leaf)
    }

    /// How many claims stand.
    pub fn in_flight(&self) -> u32
        ensures { result ≡ standing_in self.now }
    {
        claims_in(&self.segments)
    }

    /// Whether the job of this code is Pending. A code that is no job's isn't.
    pub fn is_pending(&self, code: u32) -> bool
        ensures { IsTrue result ↔ ((row_of self.now).status code ≡ Pending) }
    {
        let s = (code / CODES) as usize;
        if s < self.segments.len() {
            return self.segments[s].is_pending(code % CODES);
        }
        false
    }

    /// Whether a job is Pending.
    pub fn has_pending(&self) -> bool
        ensures some { result ≡ true → (code : ℕ) × ((row_of self.now).status code ≡ Pending) }
        ensures none { result ≡ false → (code : ℕ) → (row_of self.now).status code ≢ Pending }
    {
        first_busy(&self.segments) < self.segments.len()
    }

    /// The code of a Pending job for the worker, if any: one of the first segment that has one.
    pub fn next_pending(&mut self, worker: u32) -> Option<u32>
        ensures same { self.new ≡ self.old }
        ensures some { IfSome result (λ code. (row_of self.old).status code ≡ Pending) }
        ensures none { result ≡ None → (code : ℕ) → (row_of self.old).status code ≢ Pending }
    {
        let s = first_busy(&self.segments);
        if s >= self.segments.len() {
            return None;
        }
        match self.segments[s].next_pending(worker) {
            Some(place) => Some(CODES * s as u32 + place),
            None => None,
        }
    }

    /// What a claim of the job of this code captures.
    pub fn capture(&self, code: u32) -> Result<Captured, NoMemory>
        requires { line_inputs (sizes self.now) (line_job code) ≢ [] }
        ensures held { IfOk result (λ captured. inputs_list captured.held ≡ read (row_of self.now).value (line_inputs (sizes self.now) (line_job code))) }
        ensures given { IfOk result (λ captured. captured.given ≡ captured.held) }
        ensures prior { IfOk result (λ captured. captured.prior ≡ (row_of self.now).done code) }
    {
        let segment = &self.segments[(code / CODES) as usize];
        let place = code % CODES;
        if place == PASS {
            return segment.capture_pass();
        }
        segment.capture(JobName::of(place))
    }

    /// The effect of a node of segment s.
    pub fn effect(&self, s: u32, node: u32) -> &Marks
        requires segment { s < length self.now }
        requires node { node < max (nodes_over (segment_at self.now s).board.leaves) 1 }
        ensures { result.now ≡ (row_of self.now).value (placed s (Effect node)) }
    {
        self.segments[s as usize].effect(node)
    }
}
