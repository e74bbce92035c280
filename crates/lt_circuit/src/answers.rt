//! What a circuit tells. It takes no memory.
ghost use Rattle.std.specs.Prelude.{true, false, ◌≡◌, ◌≢◌, ◌≤◌, ◌<◌, ◌^◌, ℕ, [], None, Some, IfSome, IsTrue, ◌↔◌, slice_index_or};
ghost use Rattle.lt_face.specs.Limits.{most_programs, most_workers};
ghost use Rattle.lt_net.specs.declared.job.JobName.TheVariants.{Leaf};
ghost use Rattle.lt_net.specs.declared.job.JobState.TheVariants.{Pending};
ghost use Rattle.lt_circuit.specs.Board.{standing};
ghost use Rattle.lt_net.specs.Net.{IsSettled, Effect};
ghost use Rattle.lt_net.specs.Tree.{leaf_value, then_all};
ghost use Rattle.lt_net.specs.Codes.{code_of};
ghost use Rattle.lt_circuit.specs.declared.task.Prior.{Prior as PriorType};
ghost use Rattle.lt_circuit.specs.Circuit.{state, AreOfWorkers, IsReplay};

use crate::circuit::Circuit;
use crate::entry::Entry;
use crate::tree::node_of;
use crate::work::LeafWork;
use lt_delta::Marks;
use lt_net::JobName;

impl<W: LeafWork> Circuit<W> {
    /// All events in their order. The circuit is their replay.
    pub fn journal(&self) -> &[Entry]
        ensures entries { result.now ≡ self.now.journal }
        ensures replay { IsReplay (W.does self.now.work) self.now.board self.now.journal }
        ensures workers { AreOfWorkers self.now.journal }
    {
        &self.journal
    }

    /// How many leaves there are.
    pub fn leaves(&self) -> u32 {
        self.board.leaves()
    }

    /// How many leaves never ran and hang on none before them.
    pub fn free_leaves(&self) -> u32 {
        let mut count: u32 = 0;
        for leaf in 0..self.board.leaves() {
            if self.work.is_free(leaf) && self.board.is_fresh(leaf) {
                count = count.saturating_add(1);
            }
        }
        count
    }

    /// How many claims stand. Where none does and no job is Pending, the circuit is settled, and only there.
    pub fn in_flight(&self) -> u32
        ensures count { result ≡ standing self.now.board.claims }
        ensures few { result ≤ most_workers }
        ensures settled { result ≡ 0 → ((j : ℕ) → (state self.now).status j ≢ Pending) → IsSettled (state self.now) }
        ensures none { IsSettled (state self.now) → result ≡ 0 }
    {
        self.board.in_flight()
    }

    /// Whether no job is Pending, Running or Dirty.
    pub fn settled(&self) -> bool
        ensures { IsTrue result ↔ IsSettled (state self.now) }
    {
        if self.in_flight() > 0 {
            return false;
        }
        !self.has_pending()
    }

    // Whether a job is Pending.
    fn has_pending(&self) -> bool
        ensures some { result ≡ true → (job : ℕ) × ((state self.now).status job ≡ Pending) }
        ensures none { result ≡ false → (job : ℕ) → (state self.now).status job ≢ Pending }
    {
        self.board.has_pending()
    }

    /// A Pending job for the worker, if any: one that is due, where there is one.
    pub(crate) fn next_pending(&mut self, worker: u32) -> Option<JobName>
        ensures same { self.new ≡ self.old }
        ensures some { IfSome result (λ job. (state self.old).status (code_of job) ≡ Pending) }
        ensures small { IfSome result (λ job. code_of job < 2 ^ 32) }
        ensures none { result ≡ None → (job : ℕ) → (state self.old).status job ≢ Pending }
    {
        if self.board.in_flight() == 0 {
            return self.board.next_pending(0);
        }
        match self.due_job(worker) {
            Some(job) => Some(job),
            None => self.board.next_pending(worker),
        }
    }

    // The lowest leaf that never ran, is Pending, and hangs on none before it.
    pub(crate) fn free_leaf(&self) -> Option<u32>
        ensures some { IfSome result (λ leaf. (state self.now).status (code_of (Leaf leaf)) ≡ Pending) }
        ensures small { IfSome result (λ leaf. leaf < most_programs) }
    {
        for leaf in 0..self.board.leaves() {
            if self.work.is_free(leaf) && self.board.is_fresh(leaf) {
                return Some(leaf);
            }
        }
        None
    }

    /// Whether the job is Pending. A name that is no job's of the circuit isn't.
    pub(crate) fn is_pending(&self, name: JobName) -> bool
        requires { code_of name < 2 ^ 32 }
        ensures { IsTrue result ↔ ((state self.now).status (code_of name) ≡ Pending) }
    {
        self.board.is_pending(name)
    }

    /// The effect of all leaves. In a settled circuit it is that of the leaves one after another.
    pub fn root_effect(&self) -> &Marks
        ensures value { result.now ≡ (state self.now).value (Effect 0) }
        ensures fits { W.fits self.now.work result.now }
        ensures serial { IsSettled (state self.now) → result.now ≡ then_all (leaf_value self.now.board.leaves (state self.now)) [] self.now.board.leaves }
    {
        self.board.effect(0)
    }

    /// The effect of a leaf. In a settled circuit it is what the leaf does on the effects of all leaves before it.
    pub fn effect(&self, leaf: u32) -> &Marks
        requires { leaf < self.now.board.leaves }
        ensures value { result.now ≡ leaf_value self.now.board.leaves (state self.now) leaf }
        ensures fits { W.fits self.now.work result.now }
        ensures serial { IsSettled (state self.now) → result.now ≡ W.does self.now.work leaf (then_all (leaf_value self.now.board.leaves (state self.now)) [] leaf) }
    {
        let leaves = self.board.leaves();
        self.board.effect(node_of(leaves, leaf))
    }

    /// The tally of a leaf of a settled circuit. It stands for the leaf on the effects of all leaves before it.
    pub fn tally(&self, leaf: u32) -> &W::Tally
        requires settled { IsSettled (state self.now) }
        requires leaf { leaf < self.now.board.leaves }
        ensures stands { W.stands_for self.now.work result.now leaf (then_all (leaf_value self.now.board.leaves (state self.now)) [] leaf) }
        ensures fits { W.fits self.now.work (then_all (leaf_value self.now.board.leaves (state self.now)) [] leaf) }
        ensures place { (prior : PriorType W.Tally) × (slice_index_or self.now.tallies leaf None ≡ Some prior) × (prior.tally ≡ result.now) }
    {
        match &self.tallies[leaf as usize] {
            Some(prior) => &prior.tally,
            None => unreachable!(),
        }
    }
}
