//! The ends of claims. They take no memory.
ghost use Rattle.std.specs.Prelude.{◌≡◌, ◌≢◌, ◌<◌, [], ◌∷◌, ◌++◌, ℕ, List, Some, None, length, slice_set};
ghost use Rattle.lt_face.specs.Limits.{most_workers};
ghost use Rattle.lt_model.specs.declared.mark.Mark.{Mark};
ghost use Rattle.lt_net.specs.Net.{Claim, abandoned, finished, read};
ghost use Rattle.lt_net.specs.Tree.{circuit_net, inputs_of, tree_of};
ghost use Rattle.lt_net.specs.Codes.{code_of};
ghost use Rattle.lt_circuit.specs.declared.entry.Event.TheVariants.{Finish, Abandon};
ghost use Rattle.lt_net.specs.declared.job.JobState.TheVariants.{Running};
ghost use Rattle.lt_circuit.specs.Board.{state_of};
ghost use Rattle.lt_circuit.specs.Circuit.{state};
ghost use Rattle.lt_circuit.specs.Job.{claim_of_job, claim_of_output, done_inputs, done_name, name_of_job, name_of_output, Gave, tallies_back, tallies_done};

use crate::board::Board;
use crate::cells::Stood;
use crate::circuit::Circuit;
use crate::entry::{Entry, Event};
use crate::job::Job;
use crate::output::Output;
use crate::task::{Done, Prior, Used, give_back};
use crate::work::LeafWork;
use std::alloc::Global;
use std::sync::Arc;

/// What the end of a claim has no more use for. Whoever shares the circuit drops it when no other waits.
#[derive(Drop)]
pub struct Spent<W: LeafWork> {
    pub(crate) work: Arc<W, Global>,
    pub(crate) stood: Stood,
    pub(crate) used: Used<W::Tally>,
}

/// What was done stands in the tables, and a leaf's tally in its place.
fn store<T: Drop>(
    board: &mut Board,
    tallies: &mut Vec<Option<Prior<T>>>,
    worker: u32,
    did: Done<T>,
) -> (Stood, Used<T>)
    requires worker { worker < most_workers }
    requires job { inputs_of (tree_of board.old.leaves) (done_name did) ≢ [] }
    requires current { (state_of board.old).status (code_of (done_name did)) ≡ Running →
        done_inputs did ≡ read (state_of board.old).value (inputs_of (tree_of board.old.leaves) (done_name did)) }
    requires tallies { length tallies.old.items ≡ board.old.leaves }
    ensures leaves { board.new.leaves ≡ board.old.leaves }
    ensures claims { board.new.claims ≡ slice_set board.old.claims worker None }
    ensures state { (does : ℕ → List Mark → List Mark) (claim : Claim) → claim.job ≡ code_of (done_name did) → claim.inputs ≡ done_inputs did → Gave does did →
        state_of board.new ≡ finished (circuit_net does (tree_of board.old.leaves)) (state_of board.old) worker claim }
    ensures tallies { tallies.new.items ≡ tallies_done did tallies.old.items }
{
    match did {
        Done::Leaf {
            leaf,
            tally,
            kept,
            prior,
            effect,
        } => {
            let stood = board.finish_leaf(worker, leaf, kept, effect);
            tallies[leaf as usize] = Some(tally);
            let used = Used {
                prior,
                first: None,
                second: None,
            };
            (stood, used)
        }
        Done::Merge {
            node,
            left,
            right,
            effect,
        } => {
            let stood = board.finish_merge(worker, node, effect);
            let used = Used {
                prior: None,
                first: Some(left),
                second: Some(right),
            };
            (stood, used)
        }
        Done::Correct {
            node,
            correction,
            left,
            to_right,
        } => {
            let stood = board.finish_correct(worker, node, correction, to_right);
            let used = Used {
                prior: None,
                first: Some(left),
                second: None,
            };
            (stood, used)
        }
        Done::Pass { .. } => unreachable!(),
    }
}

impl<W: LeafWork> Circuit<W> {
    /// The worker's job is done, and this is its output.
    pub fn finish(&mut self, worker: u32, output: Output<W>) -> Spent<W>
        requires worker { worker < most_workers }
        requires work { output.work ≡ self.old.work }
        requires claim { (state self.old).claim worker ≡ Some (claim_of_output output) }
        ensures work { self.new.work ≡ self.old.work }
        ensures leaves { self.new.board.leaves ≡ self.old.board.leaves }
        ensures state { state self.new ≡ finished (circuit_net (W.does self.old.work) (tree_of self.old.board.leaves)) (state self.old) worker (claim_of_output output) }
        ensures others { (v : ℕ) → v ≢ worker → (state self.new).claim v ≡ (state self.old).claim v }
        ensures journal { self.new.journal ≡ self.old.journal ++ record { worker = worker; job = name_of_output output; event = Finish } ∷ [] }
        ensures tallies { self.new.tallies ≡ tallies_done output.did self.old.tallies }
    {
        let _leaves = self.board.leaves();
        let Output { work, did } = output;
        let job = did.name();
        let (stood, used) = store(&mut self.board, &mut self.tallies, worker, did);
        self.journal.push_reserved(Entry {
            worker,
            job,
            event: Event::Finish,
        });
        Spent { work, stood, used }
    }

    /// The worker gives its job up, and the tally that a leaf's claim took goes back.
    pub fn abandon(&mut self, worker: u32, job: Job<W>) -> Spent<W>
        requires worker { worker < most_workers }
        requires work { job.work ≡ self.old.work }
        requires claim { (state self.old).claim worker ≡ Some (claim_of_job job) }
        ensures work { self.new.work ≡ self.old.work }
        ensures leaves { self.new.board.leaves ≡ self.old.board.leaves }
        ensures state { state self.new ≡ abandoned (state self.old) worker (claim_of_job job) }
        ensures others { (v : ℕ) → v ≢ worker → (state self.new).claim v ≡ (state self.old).claim v }
        ensures journal { self.new.journal ≡ self.old.journal ++ record { worker = worker; job = name_of_job job; event = Abandon } ∷ [] }
        ensures tallies { self.new.tallies ≡ tallies_back job.task self.old.tallies }
    {
        let _leaves = self.board.leaves();
        let Job { work, task } = job;
        let name = task.name();
        let held = self.board.abandon(worker, name);
        let used = give_back(&mut self.tallies, task);
        self.journal.push_reserved(Entry {
            worker,
            job: name,
            event: Event::Abandon,
        });
        let stood = Stood {
            held,
            first: None,
            second: None,
        };
        Spent { work, stood, used }
    }
}
