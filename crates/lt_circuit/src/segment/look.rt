//! What the tables of a segment tell, and what claims of its jobs capture.
#![tactic(auto)]

ghost use Rattle.std.specs.Prelude.{◌≡◌, ◌≢◌, ℕ, true, false, ◌<◌, ◌≤◌, [], None, IfOk, IfSome, IsTrue, ◌↔◌, max};
ghost use Rattle.lt_face.specs.Limits.{most_workers};
ghost use Rattle.lt_net.specs.Codes.{code_of, nodes_over};
ghost use Rattle.lt_net.specs.Net.{Effect, read};
ghost use Rattle.lt_net.specs.Row.{pass_inputs};
ghost use Rattle.lt_net.specs.Tree.{inputs_of, tree_of};
ghost use Rattle.lt_net.specs.declared.job.JobState.TheVariants.{Clean, Pending};
ghost use Rattle.lt_circuit.specs.Board.{inputs_list, standing, state_of};
ghost use Rattle.lt_circuit.specs.Segment.{pass_claims, segment_state, IsStill};

use super::Segment;
use crate::cells::{Captured, Inputs};
use lt_delta::Marks;
use lt_face::NoMemory;
use lt_net::{JobName, JobState, PASS};

/// The place of a Pass that is Pending.
fn pending_pass(pass: JobState) -> Option<u32>
    ensures some { IfSome result (λ place. place ≡ 2047) }
    ensures pending { IfSome result (λ place. pass ≡ Pending) }
    ensures none { result ≡ None → pass ≢ Pending }
{
    if pass == JobState::Pending {
        return Some(PASS);
    }
    None
}

/// How many claims a Pass has.
fn pass_claims(pass: JobState) -> u32
    ensures { result ≡ pass_claims pass }
{
    match pass {
        JobState::Clean => 0,
        JobState::Pending => 0,
        JobState::Running => 1,
        JobState::Dirty => 1,
    }
}

impl Segment {
    /// How many leaves there are.
    pub fn leaves(&self) -> u32
        ensures { result ≡ self.now.board.leaves }
    {
        self.board.leaves()
    }

    /// Whether the leaf is Pending and never ran. There is none from the number of leaves on.
    pub fn is_fresh(&self, leaf: u32) -> bool {
        leaf < self.board.leaves() && self.board.is_fresh(leaf)
    }

    /// How many claims stand.
    pub fn in_flight(&self) -> u32
        ensures count { result ≡ standing self.now.board.claims }
        ensures few { result ≤ most_workers }
    {
        self.board.in_flight()
    }

    /// Whether no job of the tree is Pending, and no claim stands but the Pass's.
    pub fn is_still(&self) -> bool
        ensures { IsTrue result ↔ IsStill self.now }
    {
        let pass = self.pass;
        let claims = self.board.in_flight();
        let own = pass_claims(pass);
        if claims > own {
            return false;
        }
        !self.board.has_pending()
    }

    /// Whether the Pass is Clean.
    pub fn is_passed(&self) -> bool
        ensures { IsTrue result ↔ (self.now.pass ≡ Clean) }
    {
        self.pass == JobState::Clean
    }

    /// Whether the job of this place is Pending. A place that is no job's isn't.
    pub fn is_pending(&self, place: u32) -> bool
        ensures { IsTrue result ↔ ((segment_state self.now).status place ≡ Pending) }
    {
        let pass = self.pass;
        if place == PASS {
            return pass == JobState::Pending;
        }
        self.board.is_pending(JobName::of(place))
    }

    /// Whether a job is Pending, of the tree or the Pass.
    pub fn has_pending(&self) -> bool
        ensures some { result ≡ true → (place : ℕ) × (place < 2048) × ((segment_state self.now).status place ≡ Pending) }
        ensures none { result ≡ false → (place : ℕ) → (segment_state self.now).status place ≢ Pending }
    {
        let pass = self.pass;
        match pending_pass(pass) {
            Some(_place) => true,
            None => self.board.has_pending(),
        }
    }

    /// The place of a Pending job for the worker, if any: the Pass comes last.
    pub fn next_pending(&mut self, worker: u32) -> Option<u32>
        ensures same { self.new ≡ self.old }
        ensures some { IfSome result (λ place. (segment_state self.old).status place ≡ Pending) }
        ensures small { IfSome result (λ place. place < 2048) }
        ensures none { result ≡ None → (place : ℕ) → (segment_state self.old).status place ≢ Pending }
    {
        let pass = self.pass;
        match self.board.next_pending(worker) {
            Some(name) => Some(name.code()),
            None => pending_pass(pass),
        }
    }

    /// The effect of a node.
    pub fn effect(&self, node: u32) -> &Marks
        requires { node < max (nodes_over self.now.board.leaves) 1 }
        ensures { result.now ≡ (segment_state self.now).value (Effect node) }
    {
        self.board.effect(node)
    }

    /// What a claim of a job of the tree captures.
    pub fn capture(&self, job: JobName) -> Result<Captured, NoMemory>
        requires { inputs_of (tree_of self.now.board.leaves) job ≢ [] }
        ensures held { IfOk result (λ captured. inputs_list captured.held ≡ read (state_of self.now.board).value (inputs_of (tree_of self.now.board.leaves) job)) }
        ensures given { IfOk result (λ captured. captured.given ≡ captured.held) }
        ensures prior { IfOk result (λ captured. captured.prior ≡ (state_of self.now.board).done (code_of job)) }
    {
        self.board.capture(job)
    }

    /// What a claim of the Pass captures: the root's correction and its effect.
    pub fn capture_pass(&self) -> Result<Captured, NoMemory>
        requires { self.now.on ≡ true }
        ensures held { IfOk result (λ captured. inputs_list captured.held ≡ read (state_of self.now.board).value (pass_inputs self.now.on)) }
        ensures given { IfOk result (λ captured. captured.given ≡ captured.held) }
        ensures prior { IfOk result (λ captured. captured.prior ≡ None) }
    {
        let _on = self.on;
        let correction = self.board.correction(0).share()?;
        let effect = self.board.effect(0).share()?;
        let held = Inputs::Two(correction, effect);
        let given = held.share()?;
        Ok(Captured {
            held,
            given,
            prior: None,
        })
    }
}
