//! A job that a worker holds.
ghost use Rattle.std.specs.Prelude.{◌≡◌, ◌<◌, ◌^◌};
ghost use Rattle.std.specs.Arc.{arc_value};
ghost use Rattle.lt_circuit.specs.Job.{JobView, IsTask, name_of_job};
ghost use Rattle.lt_circuit.specs.LineJob.{claim_of_line_job};

use crate::number::number_code;
use crate::task::Task;
use crate::work::LeafWork;
use lt_net::JobName;
use std::alloc::Global;
use std::marker::Model;
use std::sync::Arc;

/// A job, claimed from a circuit or a line of this work.
#[derive(Drop)]
pub struct Job<W: LeafWork> {
    pub(crate) work: Arc<W, Global>,
    pub(crate) task: Task<W::Tally>,
}

impl<W: LeafWork> Model for Job<W> {
    ghost Value = { JobView W W.Tally };

    ghost view = { λ j. record { work = arc_value j.work; task = j.task } };

    ghost invariant = { λ j. IsTask (W.stands_for (arc_value j.work)) (W.fits (arc_value j.work)) (W.has (arc_value j.work)) j.task };
}

impl<W: LeafWork> Job<W> {
    /// Which job it is.
    pub fn name(&self) -> JobName
        ensures { result ≡ name_of_job self.now }
    {
        self.task.name()
    }

    /// The job's code in a line: 2048 * s plus its code in the tree of segment s, or plus 2047 for the Pass behind that.
    pub fn line_code(&self) -> u32
        requires { (claim_of_line_job self.now).job < 2 ^ 32 }
        ensures { result ≡ (claim_of_line_job self.now).job }
    {
        number_code(self.task.name())
    }

    /// Whether it is a leaf's.
    pub fn is_leaf(&self) -> bool {
        self.task.is_leaf()
    }

    /// Whether it is a leaf's that never ran, and on which no leaf before it has a bearing.
    pub fn is_free(&self) -> bool {
        self.task.is_free(&*self.work)
    }
}
