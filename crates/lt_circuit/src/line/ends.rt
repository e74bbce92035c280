//! The ends of claims of a line's jobs. They take no memory.
#![tactic(auto)]

ghost use Rattle.std.specs.Prelude.{◌≡◌, ◌≢◌, ◌<◌, ◌+◌, ◌/◌, [], ◌∷◌, ◌++◌, ℕ, List, Some, None, length};
ghost use Rattle.lt_face.specs.Limits.{most_workers};
ghost use Rattle.lt_model.specs.declared.mark.Mark.{Mark};
ghost use Rattle.lt_net.specs.Net.{Claim, abandoned, finished, read};
ghost use Rattle.lt_net.specs.Line.{line_inputs, line_job, line_net};
ghost use Rattle.lt_net.specs.Row.{HasNoOther};
ghost use Rattle.lt_net.specs.declared.job.JobName.TheVariants.{Leaf};
ghost use Rattle.lt_net.specs.declared.job.JobState.TheVariants.{Running};
ghost use Rattle.lt_circuit.specs.declared.entry.Event.TheVariants.{Finish, Abandon};
ghost use Rattle.lt_circuit.specs.Job.{done_inputs, done_name, tallies_back, tallies_done, Gave};
ghost use Rattle.lt_circuit.specs.Line.{line_state, number_code, number_segment};
ghost use Rattle.lt_circuit.specs.LineJob.{claim_of_line_job, claim_of_line_output};
ghost use Rattle.lt_circuit.specs.Row.{parts, row_of, sizes, HasChangedClaim};

use super::{Line, LineEntry};
use crate::cells::Stood;
use crate::ends::Spent;
use crate::entry::Event;
use crate::job::Job;
use crate::number::number_code;
use crate::output::Output;
use crate::row::Row;
use crate::task::{Done, Prior, Used, give_back};
use crate::work::LeafWork;

/// What was done stands in its segment's tables, a Pass's in those of the next segment, and a leaf's tally in its place.
fn store_in_line<T: Drop>(
    row: &mut Row,
    tallies: &mut Vec<Option<Prior<T>>>,
    worker: u32,
    did: Done<T>,
) -> (Stood, Used<T>)
    requires worker { worker < most_workers }
    requires job { line_inputs (sizes row.old) (line_job (number_code (done_name did))) ≢ [] }
    requires current { (row_of row.old).status (number_code (done_name did)) ≡ Running →
        done_inputs did ≡ read (row_of row.old).value (line_inputs (sizes row.old) (line_job (number_code (done_name did)))) }
    requires alone { HasNoOther (length row.old) (parts row.old) (number_segment (done_name did)) worker }
    requires tallies { (leaf : ℕ) → done_name did ≡ Leaf leaf → leaf < length tallies.old.items }
    ensures sizes { sizes row.new ≡ sizes row.old }
    ensures claims { HasChangedClaim (number_segment (done_name did)) worker None row.old row.new }
    ensures state { (does : ℕ → List Mark → List Mark) (claim : Claim) → claim.job ≡ number_code (done_name did) → claim.inputs ≡ done_inputs did → Gave does did →
        row_of row.new ≡ finished (line_net does (sizes row.old)) (row_of row.old) worker claim }
    ensures tallies { tallies.new.items ≡ tallies_done did tallies.old.items }
{
    let _segments = row.count();
    match did {
        Done::Leaf {
            leaf,
            tally,
            kept,
            prior,
            effect,
        } => {
            let stood = row.finish_leaf(leaf / 256, worker, leaf % 256, kept, effect);
            tallies[leaf as usize] = Some(tally);
            let used = Used {
                prior,
                first: None,
                second: None,
            };
            (stood, used)
        }
        Done::Merge {
            node,
            left,
            right,
            effect,
        } => {
            let stood = row.finish_merge(node / 512, worker, node % 512, effect);
            let used = Used {
                prior: None,
                first: Some(left),
                second: Some(right),
            };
            (stood, used)
        }
        Done::Correct {
            node,
            correction,
            left,
            to_right,
        } => {
            let stood = row.finish_correct(node / 512, worker, node % 512, correction, to_right);
            let used = Used {
                prior: None,
                first: Some(left),
                second: None,
            };
            (stood, used)
        }
        Done::Pass {
            segment,
            correction,
            effect,
            next,
        } => {
            let stood = row.finish_pass(segment, worker, next);
            let used = Used {
                prior: None,
                first: Some(correction),
                second: Some(effect),
            };
            (stood, used)
        }
    }
}

impl<W: LeafWork> Line<W> {
    /// The worker's job is done, and this is its output.
    pub fn finish(&mut self, worker: u32, output: Output<W>) -> Spent<W>
        requires worker { worker < most_workers }
        requires work { output.work ≡ self.old.work }
        requires claim { (line_state self.old).claim worker ≡ Some (claim_of_line_output output) }
        ensures work { self.new.work ≡ self.old.work }
        ensures sizes { sizes self.new.row ≡ sizes self.old.row }
        ensures state { line_state self.new ≡ finished (line_net (W.does self.old.work) (sizes self.old.row)) (line_state self.old) worker (claim_of_line_output output) }
        ensures others { (v : ℕ) → v ≢ worker → (line_state self.new).claim v ≡ (line_state self.old).claim v }
        ensures journal { self.new.journal ≡ self.old.journal ++ record { worker = worker; job = (claim_of_line_output output).job; event = Finish } ∷ [] }
        ensures tallies { self.new.tallies ≡ tallies_done output.did self.old.tallies }
    {
        let _segments = self.row.count();
        let Output { work, did } = output;
        let name = did.name();
        let job = number_code(name);
        let (stood, used) = store_in_line(&mut self.row, &mut self.tallies, worker, did);
        self.journal.push_reserved(LineEntry {
            worker,
            job,
            event: Event::Finish,
        });
        Spent { work, stood, used }
    }

    /// The worker gives its job up, and the tally that a leaf's claim took goes back.
    pub fn abandon(&mut self, worker: u32, job: Job<W>) -> Spent<W>
        requires worker { worker < most_workers }
        requires work { job.work ≡ self.old.work }
        requires claim { (line_state self.old).claim worker ≡ Some (claim_of_line_job job) }
        ensures work { self.new.work ≡ self.old.work }
        ensures sizes { sizes self.new.row ≡ sizes self.old.row }
        ensures state { line_state self.new ≡ abandoned (line_state self.old) worker (claim_of_line_job job) }
        ensures others { (v : ℕ) → v ≢ worker → (line_state self.new).claim v ≡ (line_state self.old).claim v }
        ensures journal { self.new.journal ≡ self.old.journal ++ record { worker = worker; job = (claim_of_line_job job).job; event = Abandon } ∷ [] }
        ensures tallies { self.new.tallies ≡ tallies_back job.task self.old.tallies }
    {
        let _segments = self.row.count();
        let Job { work, task } = job;
        let name = task.name();
        let code = number_code(name);
        let held = self.row.abandon_at(worker, code);
        let used = give_back(&mut self.tallies, task);
        self.journal.push_reserved(LineEntry {
            worker,
            job: code,
            event: Event::Abandon,
        });
        let stood = Stood {
            held,
            first: None,
            second: None,
        };
        Spent { work, stood, used }
    }
}
