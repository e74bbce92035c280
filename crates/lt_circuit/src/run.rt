//! Doing a job.
ghost use Rattle.std.specs.Prelude.{◌≡◌, ◌+◌, ◌≤◌, ◌∷◌, [], List, IfOk, IfErr, IfSome};
ghost use Rattle.std.specs.Option.{option_map};
ghost use Rattle.lt_model.specs.Marks.{and_then};
ghost use Rattle.lt_model.specs.declared.mark.Mark.{Mark};
ghost use Rattle.lt_net.specs.declared.job.JobName.TheVariants.{Leaf};
ghost use Rattle.lt_circuit.specs.Job.{IsOutput, IsPrior, claim_of_job, claim_of_output, done_inputs, done_name, done_prior, name_of_job, name_of_output, prior_correction, task_bound};
ghost use Rattle.lt_circuit.specs.LineJob.{claim_of_line_job, claim_of_line_output};
ghost use Rattle.lt_circuit.specs.declared.task.Done.TheVariants.{Merge as MergeDone, Correct as CorrectDone, Pass as PassDone};
ghost use Rattle.lt_circuit.specs.declared.task.Task.TheVariants.{Leaf as LeafTask, Merge as MergeTask, Correct as CorrectTask, Pass as PassTask};

use crate::job::Job;
use crate::output::Output;
use crate::task::{Done, Prior, Task};
use crate::work::LeafWork;
use lt_delta::Marks;
use lt_face::{Moves, NoMemory};

/// A leaf's tally, its correction once more, and its effect.
#[derive(Drop)]
struct Ran<T> {
    tally: T,
    kept: Marks,
    effect: Marks,
}

/// The tally of a leaf on the correction, with what its output has beside it.
fn run_on<W: LeafWork, L>(
    work: &W,
    leaf: u32,
    prior: Option<&W::Tally>,
    correction: &Marks,
    moves: &mut Moves<L>,
) -> Result<Ran<W::Tally>, NoMemory>
    requires leaf { W.has work.now leaf }
    requires correction { W.fits work.now correction.now }
    requires prior { IfSome prior (λ old. (c : List Mark) × W.fits work.now c × W.stands_for work.now old.now leaf c) }
    ensures stands { IfOk result (λ ran. W.stands_for work.now ran.tally leaf correction.now) }
    ensures kept { IfOk result (λ ran. ran.kept ≡ correction.now) }
    ensures effect { IfOk result (λ ran. ran.effect ≡ W.does work.now leaf correction.now) }
    ensures moves { IfSome (W.bound work.now (option_map (λ old. old.now) prior.entry) leaf correction.now) (λ most. moves.new ≤ moves.old + most) }
    ensures rises { moves.old ≤ moves.new }
{
    let tally = work.work(leaf, prior, correction, moves)?;
    let kept = correction.share()?;
    let effect = work.effect(&tally).share()?;
    Ok(Ran {
        tally,
        kept,
        effect,
    })
}

/// Runs a leaf. Where memory is refused the task is given back.
fn run_leaf<W: LeafWork, L>(
    work: &W,
    leaf: u32,
    correction: Marks,
    prior: Option<Prior<W::Tally>>,
    moves: &mut Moves<L>,
) -> Result<Done<W::Tally>, Task<W::Tally>>
    requires leaf { W.has work.now leaf }
    requires correction { W.fits work.now correction }
    requires prior { IsPrior (W.stands_for work.now) (W.fits work.now) leaf prior }
    ensures name { IfOk result (λ did. done_name did ≡ Leaf leaf) }
    ensures inputs { IfOk result (λ did. done_inputs did ≡ correction ∷ []) }
    ensures prior { IfOk result (λ did. done_prior did ≡ prior_correction prior) }
    ensures output { IfOk result (λ did. IsOutput (W.does work.now) (W.stands_for work.now) (W.fits work.now) did) }
    ensures err { IfErr result (λ task. task ≡ LeafTask leaf correction prior) }
    ensures moves { IfSome (W.bound work.now (option_map (λ p. p.tally) prior) leaf correction) (λ most. moves.new ≤ moves.old + most) }
    ensures rises { moves.old ≤ moves.new }
{
    let old = match &prior {
        Some(prior) => Some(&prior.tally),
        None => None,
    };
    let made = run_on(work, leaf, old, &correction, moves);
    match made {
        Ok(ran) => {
            let Ran {
                tally,
                kept,
                effect,
            } = ran;
            let tally = Prior { tally, correction };
            Ok(Done::Leaf {
                leaf,
                tally,
                kept,
                prior,
                effect,
            })
        }
        Err(_refused) => Err(Task::Leaf {
            leaf,
            correction,
            prior,
        }),
    }
}

/// One effect of both. Where memory is refused the task is given back.
fn merge<T>(node: u32, left: Marks, right: Marks) -> Result<Done<T>, Task<T>>
    ensures ok { IfOk result (λ did. did ≡ MergeDone node left right (and_then left right)) }
    ensures err { IfErr result (λ task. task ≡ MergeTask node left right) }
{
    match Marks::and_then(&left, &right) {
        Ok(effect) => Ok(Done::Merge {
            node,
            left,
            right,
            effect,
        }),
        Err(_refused) => Err(Task::Merge { node, left, right }),
    }
}

/// The correction of the right child. Where memory is refused the task is given back.
fn correct<T>(node: u32, correction: Marks, left: Marks) -> Result<Done<T>, Task<T>>
    ensures ok { IfOk result (λ did. did ≡ CorrectDone node correction left (and_then correction left)) }
    ensures err { IfErr result (λ task. task ≡ CorrectTask node correction left) }
{
    match Marks::and_then(&correction, &left) {
        Ok(to_right) => Ok(Done::Correct {
            node,
            correction,
            left,
            to_right,
        }),
        Err(_refused) => Err(Task::Correct {
            node,
            correction,
            left,
        }),
    }
}

/// What the next segment's root is given. Where memory is refused the task is given back.
fn pass_on<T>(segment: u32, correction: Marks, effect: Marks) -> Result<Done<T>, Task<T>>
    ensures ok { IfOk result (λ did. did ≡ PassDone segment correction effect (and_then correction effect)) }
    ensures err { IfErr result (λ task. task ≡ PassTask segment correction effect) }
{
    match Marks::and_then(&correction, &effect) {
        Ok(next) => Ok(Done::Pass {
            segment,
            correction,
            effect,
            next,
        }),
        Err(_refused) => Err(Task::Pass {
            segment,
            correction,
            effect,
        }),
    }
}

impl<W: LeafWork> Job<W> {
    /// Does the job. Where memory is refused the job is given back. A leaf's job keeps the bound of its work on moves, with
    /// the tally that was captured as prior; the others make none.
    pub fn work<L>(self, moves: &mut Moves<L>) -> Result<Output<W>, Job<W>>
        ensures work { IfOk result (λ output. output.work ≡ self.work) }
        ensures claim { IfOk result (λ output. claim_of_output output ≡ claim_of_job self) }
        ensures name { IfOk result (λ output. name_of_output output ≡ name_of_job self) }
        ensures line_claim { IfOk result (λ output. claim_of_line_output output ≡ claim_of_line_job self) }
        ensures err { IfErr result (λ job. job ≡ self) }
        ensures moves { IfSome (task_bound (W.bound self.work) self.task) (λ most. moves.new ≤ moves.old + most) }
        ensures rises { moves.old ≤ moves.new }
    {
        let Job { work, task } = self;
        let did = match task {
            Task::Leaf {
                leaf,
                correction,
                prior,
            } => run_leaf(&*work, leaf, correction, prior, moves),
            Task::Merge { node, left, right } => merge(node, left, right),
            Task::Correct {
                node,
                correction,
                left,
            } => correct(node, correction, left),
            Task::Pass {
                segment,
                correction,
                effect,
            } => pass_on(segment, correction, effect),
        };
        match did {
            Ok(did) => Ok(Output { work, did }),
            Err(task) => Err(Job { work, task }),
        }
    }
}
