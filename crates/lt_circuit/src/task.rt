//! What a job is to do, and what it did, with the inputs that it captured.
ghost use Rattle.std.specs.Prelude.{◌≡◌, ◌<◌, ℕ, length};
ghost use Rattle.lt_net.specs.declared.job.JobName.TheVariants.{Leaf};
ghost use Rattle.lt_circuit.specs.Board.{inputs_list};
ghost use Rattle.lt_circuit.specs.Job.{arity, done_name, tallies_back, tallies_left, task_from, task_name};

use crate::cells::Inputs;
use crate::work::LeafWork;
use lt_delta::Marks;
use lt_net::JobName;

/// A leaf's tally, and the correction that it is of.
#[derive(Drop)]
pub struct Prior<T> {
    pub tally: T,
    pub correction: Marks,
}

/// What a job used that stands nowhere now: a leaf's tally of before, and inputs.
#[derive(Drop)]
pub(crate) struct Used<T> {
    pub(crate) prior: Option<Prior<T>>,
    pub(crate) first: Option<Marks>,
    pub(crate) second: Option<Marks>,
}

/// What is to be done.
#[derive(Drop)]
pub enum Task<T> {
    /// The leaf on its correction.
    Leaf {
        leaf: u32,
        correction: Marks,
        prior: Option<Prior<T>>,
    },
    /// The effects of both children, one after the other.
    Merge {
        node: u32,
        left: Marks,
        right: Marks,
    },
    /// The children's corrections.
    Correct {
        node: u32,
        correction: Marks,
        left: Marks,
    },
    /// The correction of the segment's root, then its effect: the correction of the next segment's root.
    Pass {
        segment: u32,
        correction: Marks,
        effect: Marks,
    },
}

/// What was done.
#[derive(Drop)]
pub enum Done<T> {
    /// The leaf's tally on its correction, that correction once more, and the tally's marks.
    Leaf {
        leaf: u32,
        tally: Prior<T>,
        kept: Marks,
        prior: Option<Prior<T>>,
        effect: Marks,
    },
    /// The effects, one after the other.
    Merge {
        node: u32,
        left: Marks,
        right: Marks,
        effect: Marks,
    },
    /// The right child's correction. The left child has the node's.
    Correct {
        node: u32,
        correction: Marks,
        left: Marks,
        to_right: Marks,
    },
    /// What the next segment's root is given.
    Pass {
        segment: u32,
        correction: Marks,
        effect: Marks,
        next: Marks,
    },
}

impl<T> Task<T> {
    /// The job that the task is of.
    pub fn name(&self) -> JobName
        ensures { result ≡ task_name self.now }
    {
        match self {
            Task::Leaf { leaf, .. } => JobName::Leaf(*leaf),
            Task::Merge { node, .. } => JobName::Merge(*node),
            Task::Correct { node, .. } => JobName::Correct(*node),
            Task::Pass { segment, .. } => JobName::Pass(*segment),
        }
    }

    /// Whether it is a leaf's.
    pub(crate) fn is_leaf(&self) -> bool {
        match self {
            Task::Leaf { .. } => true,
            _inner => false,
        }
    }

    /// Whether it is a leaf's of this work that never ran, and on which no leaf before it has a bearing.
    pub(crate) fn is_free<W: LeafWork>(&self, work: &W) -> bool {
        match self {
            Task::Leaf { leaf, prior, .. } => prior.is_none() && work.is_free(*leaf),
            _inner => false,
        }
    }
}

impl<T> Done<T> {
    /// The job that was done.
    pub fn name(&self) -> JobName
        ensures { result ≡ done_name self.now }
    {
        match self {
            Done::Leaf { leaf, .. } => JobName::Leaf(*leaf),
            Done::Merge { node, .. } => JobName::Merge(*node),
            Done::Correct { node, .. } => JobName::Correct(*node),
            Done::Pass { segment, .. } => JobName::Pass(*segment),
        }
    }

    /// Whether it is a leaf's that had run before.
    pub(crate) fn is_again(&self) -> bool {
        match self {
            Done::Leaf { prior, .. } => prior.is_some(),
            _inner => false,
        }
    }
}

/// How dear a leaf's run was, or None of another job.
pub(crate) fn weight_of<W: LeafWork>(work: &W, did: &Done<W::Tally>) -> Option<usize> {
    match did {
        Done::Leaf { tally, .. } => Some(work.weight(&tally.tally)),
        _inner => None,
    }
}

/// Whether most of what the leaf did hangs on its correction, or None of a free leaf and of another job.
pub(crate) fn tie_of<W: LeafWork>(work: &W, did: &Done<W::Tally>) -> Option<bool> {
    match did {
        Done::Leaf { leaf, tally, .. } => {
            if work.is_free(*leaf) {
                return None;
            }
            Some(work.is_tied(*leaf, &tally.tally))
        }
        _inner => None,
    }
}

/// The task of a job on these inputs. A leaf's tally leaves its place.
pub fn take_task<T: Drop>(
    tallies: &mut Vec<Option<Prior<T>>>,
    name: JobName,
    inputs: Inputs,
) -> Task<T>
    requires leaf { (leaf : ℕ) → name ≡ Leaf leaf → leaf < length tallies.old.items }
    requires inputs { length (inputs_list inputs) ≡ arity name }
    ensures task { result ≡ task_from name inputs tallies.old.items }
    ensures tallies { tallies.new.items ≡ tallies_left name tallies.old.items }
{
    match name {
        JobName::Leaf(leaf) => match inputs {
            Inputs::One(correction) => {
                let prior = tallies[leaf as usize].take();
                Task::Leaf {
                    leaf,
                    correction,
                    prior,
                }
            }
            Inputs::Two(_first, _second) => unreachable!(),
        },
        JobName::Merge(node) => match inputs {
            Inputs::Two(left, right) => Task::Merge { node, left, right },
            Inputs::One(_first) => unreachable!(),
        },
        JobName::Correct(node) => match inputs {
            Inputs::Two(correction, left) => Task::Correct {
                node,
                correction,
                left,
            },
            Inputs::One(_first) => unreachable!(),
        },
        JobName::Pass(segment) => match inputs {
            Inputs::Two(correction, effect) => Task::Pass {
                segment,
                correction,
                effect,
            },
            Inputs::One(_first) => unreachable!(),
        },
    }
}

/// A leaf's tally goes back to its place. What the task had besides is of no more use.
pub(crate) fn give_back<T: Drop>(tallies: &mut Vec<Option<Prior<T>>>, task: Task<T>) -> Used<T>
    requires { (leaf : ℕ) → task_name task ≡ Leaf leaf → leaf < length tallies.old.items }
    ensures { tallies.new.items ≡ tallies_back task tallies.old.items }
{
    match task {
        Task::Leaf {
            leaf,
            correction,
            prior,
        } => {
            tallies[leaf as usize] = prior;
            Used {
                prior: None,
                first: Some(correction),
                second: None,
            }
        }
        Task::Merge {
            node: _node,
            left,
            right,
        } => Used {
            prior: None,
            first: Some(left),
            second: Some(right),
        },
        Task::Correct {
            node: _node,
            correction,
            left,
        } => Used {
            prior: None,
            first: Some(correction),
            second: Some(left),
        },
        Task::Pass {
            segment: _segment,
            correction,
            effect,
        } => Used {
            prior: None,
            first: Some(correction),
            second: Some(effect),
        },
    }
}
