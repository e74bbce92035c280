//! What each job waits for, and the order in which those that are Pending are claimed.
#![tactic(auto)]

ghost use Rattle.std.specs.Prelude.{◌≡◌, ◌≢◌, ℕ, true, false, ◌<◌, ◌≤◌, ◌^◌, ◌↔◌, IsTrue, List, IfOk, IfSome, None, length, slice_index_or, slice_set};
ghost use Rattle.lt_face.specs.Limits.{most_programs};
ghost use Rattle.lt_net.specs.declared.job.JobState.{JobState as JobStateType};
ghost use Rattle.lt_net.specs.declared.job.JobState.TheVariants.{Clean, Pending};
ghost use Rattle.lt_net.specs.Codes.{code_of, codes_over};
ghost use Rattle.lt_circuit.specs.Board.{first_state, table};
ghost use Rattle.lt_circuit.specs.Jobs.{AreJobs};

use crate::order::{place_codes, walk};
use lt_delta::Marks;
use lt_face::NoMemory;
use lt_net::{JobName, JobState, codes_over};
use std::alloc::Global;
use std::marker::Model;

/// The jobs' states by their codes. The first in an order of all codes that is Pending is the next.
#[derive(Drop)]
pub struct Jobs {
    states: Vec<JobState>,
    order: Vec<u32>,
    places: Vec<usize>,
    // No Pending job stands before this place.
    low: usize,
}

impl Model for Jobs {
    ghost Value = { List JobStateType };

    ghost view = { λ j. j.states.items };

    ghost invariant = { λ j. AreJobs j.states.items j.order.items j.places.items j.low };
}

/// A job's state at the opening.
fn first_state(leaves: u32, job: u32) -> JobState
    ensures { result ≡ first_state leaves job }
{
    match JobName::of(job) {
        JobName::Leaf(leaf) => {
            if leaf < leaves {
                JobState::Pending
            } else {
                JobState::Clean
            }
        }
        JobName::Merge(_node) => JobState::Clean,
        JobName::Correct(_node) => JobState::Clean,
        JobName::Pass(_segment) => JobState::Clean,
    }
}

/// The states of so many jobs at the opening.
fn first_states(alloc: Global, leaves: u32, jobs: u32) -> Result<Vec<JobState>, NoMemory>
    ensures { IfOk result (λ states. states.items ≡ table (first_state leaves) jobs) }
{
    let mut states = Vec::with_capacity(alloc, jobs as usize)?;
    for job in 0..jobs {
        let state = first_state(leaves, job);
        states.push(state)?;
    }
    Ok(states)
}

/// Whether the code's job is Pending. A code that isn't in the table is no Pending job's.
fn is_pending_at(states: &[JobState], code: u32) -> bool
    ensures { IsTrue result ↔ (slice_index_or states.now code Clean ≡ Pending) }
{
    let place = code as usize;
    place < states.len() && states[place] == JobState::Pending
}

/// The first place from `low` on whose job is Pending, or the one behind all.
fn next_place(states: &[JobState], order: &[u32], low: usize) -> usize
    requires { low ≤ length order.now }
    ensures from { low ≤ result }
    ensures within { result ≤ length order.now }
    ensures before { (place : ℕ) → low ≤ place → place < result → slice_index_or states.now (slice_index_or order.now place 0) Clean ≢ Pending }
    ensures here { result < length order.now → slice_index_or states.now (slice_index_or order.now result 0) Clean ≡ Pending }
{
    for place in low..order.len() {
        if is_pending_at(states, order[place]) {
            return place;
        }
    }
    order.len()
}

/// The place below which no job is Pending, once the job at this place has the state.
fn lowered(low: usize, place: usize, state: JobState) -> usize
    ensures still { result ≤ low }
    ensures here { state ≡ Pending → result ≤ place }
{
    if state == JobState::Pending && place < low {
        place
    } else {
        low
    }
}

/// Whether the code is an inner node's job's.
fn is_inner(code: u32) -> bool {
    match JobName::of(code) {
        JobName::Leaf(_leaf) => false,
        _inner => true,
    }
}

/// The first code from the place `low` on whose job is Pending and an inner node's.
fn next_inner_code(states: &[JobState], order: &[u32], low: usize) -> Option<u32>
    ensures { IfSome result (λ code. slice_index_or states.now code Clean ≡ Pending) }
{
    for place in low..order.len() {
        let code = order[place];
        if is_inner(code) && is_pending_at(states, code) {
            return Some(code);
        }
    }
    None
}

/// Whether a Pending job of this code may be done ahead: an inner node's, or a leaf's that never ran.
fn is_first(done: &[Option<Marks>], code: u32) -> bool {
    match JobName::of(code) {
        JobName::Leaf(leaf) => (leaf as usize) < done.len() && done[leaf as usize].is_none(),
        _inner => true,
    }
}

/// The first code from the place `from` on whose job is Pending and may be done ahead. `left` leaves are passed at most, and counted.
fn ahead_code(
    states: &[JobState],
    order: &[u32],
    done: &[Option<Marks>],
    from: usize,
    left: &mut u32,
) -> Option<u32> {
    for place in from..order.len() {
        let code = order[place];
        if *left == 0 {
            return None;
        }
        if is_pending_at(states, code) && is_first(done, code) {
            return Some(code);
        }
        if !is_inner(code) {
            *left = left.saturating_sub(1);
        }
    }
    None
}

impl Jobs {
    /// The leaves' jobs are Pending, the others Clean. The order is the walk over the tree from the left.
    pub fn start(alloc: Global, leaves: u32) -> Result<Jobs, NoMemory>
        requires { leaves ≤ most_programs }
        ensures { IfOk result (λ started. started ≡ table (first_state leaves) (codes_over leaves)) }
    {
        let jobs = codes_over(leaves);
        let states = first_states(alloc, leaves, jobs)?;
        let mut order = Vec::with_capacity(alloc, jobs as usize)?;
        walk(&mut order, 0, 0, leaves)?;
        let places = place_codes(alloc, &mut order, jobs)?;
        Ok(Jobs {
            states,
            order,
            places,
            low: 0,
        })
    }

    /// How many codes there are.
    pub fn len(&self) -> usize
        ensures { result ≡ length self.now }
    {
        self.states.len()
    }

    /// The job's state.
    pub fn state(&self, job: JobName) -> JobState
        requires { code_of job < length self.now }
        ensures { result ≡ slice_index_or self.now (code_of job) Clean }
    {
        self.states[job.code() as usize]
    }

    /// Whether the job is Pending. A code that isn't in the table is no Pending job's.
    pub fn is_pending(&self, code: u32) -> bool
        ensures { IsTrue result ↔ (slice_index_or self.now code Clean ≡ Pending) }
    {
        is_pending_at(&self.states, code)
    }

    /// The job is in the state.
    pub fn set_state(&mut self, job: JobName, state: JobState)
        requires { code_of job < length self.old }
        ensures { self.new ≡ slice_set self.old (code_of job) state }
    {
        let low = self.low;
        let code = job.code() as usize;
        self.low = lowered(low, self.places[code], state);
        self.states[code] = state;
    }

    /// Whether a job is Pending.
    pub fn has_pending(&self) -> bool
        ensures some { result ≡ true → (code : ℕ) × (slice_index_or self.now code Clean ≡ Pending) }
        ensures none { result ≡ false → (code : ℕ) → slice_index_or self.now code Clean ≢ Pending }
    {
        next_place(&self.states, &self.order, self.low) < self.order.len()
    }

    /// The first in the order that is Pending and no leaf's.
    pub fn next_inner(&self) -> Option<JobName>
        ensures some { IfSome result (λ job. slice_index_or self.now (code_of job) Clean ≡ Pending) }
        ensures small { IfSome result (λ job. code_of job < 2 ^ 32) }
    {
        match next_inner_code(&self.states, &self.order, self.low) {
            Some(code) => Some(JobName::of(code)),
            None => None,
        }
    }

    /// Where a code stands in the order: behind all others, if it isn't in the table.
    pub fn place(&self, code: usize) -> usize {
        if code < self.places.len() {
            self.places[code]
        } else {
            usize::MAX
        }
    }

    /// The code of the first job in the order that is Pending, where it stands before the place.
    pub fn code_before(&self, end: usize) -> Option<u32> {
        let place = next_place(&self.states, &self.order, self.low);
        if place < end && place < self.order.len() {
            Some(self.order[place])
        } else {
            None
        }
    }

    /// The code of the first job that may be done ahead, from the place `held` on or from the first Pending one on. `left` leaves are
    /// passed at most, and counted.
    pub fn code_ahead(&self, done: &[Option<Marks>], held: usize, left: &mut u32) -> Option<u32> {
        let place = next_place(&self.states, &self.order, self.low);
        let from = if held < place { held } else { place };
        ahead_code(&self.states, &self.order, done, from, left)
    }

    /// The first in the order that is Pending.
    pub fn next_pending(&mut self) -> Option<JobName>
        ensures same { self.new ≡ self.old }
        ensures some { IfSome result (λ job. slice_index_or self.old (code_of job) Clean ≡ Pending) }
        ensures small { IfSome result (λ job. code_of job < 2 ^ 32) }
        ensures none { result ≡ None → (code : ℕ) → slice_index_or self.old code Clean ≢ Pending }
    {
        let place = next_place(&self.states, &self.order, self.low);
        self.low = place;
        if place < self.order.len() {
            Some(JobName::of(self.order[place]))
        } else {
            None
        }
    }
}
