//! What a job gives.
ghost use Rattle.std.specs.Arc.{arc_value};
ghost use Rattle.lt_circuit.specs.Job.{OutputView, IsOutput};

use crate::task::{Done, tie_of, weight_of};
use crate::work::LeafWork;
use std::alloc::Global;
use std::marker::Model;
use std::sync::Arc;

/// The output of a job of a circuit or a line of this work.
#[derive(Drop)]
pub struct Output<W: LeafWork> {
    pub(crate) work: Arc<W, Global>,
    pub(crate) did: Done<W::Tally>,
}

impl<W: LeafWork> Model for Output<W> {
    ghost Value = { OutputView W W.Tally };

    ghost view = { λ o. record { work = arc_value o.work; did = o.did } };

    ghost invariant = { λ o. IsOutput (W.does (arc_value o.work)) (W.stands_for (arc_value o.work)) (W.fits (arc_value o.work)) o.did };
}

impl<W: LeafWork> Output<W> {
    /// How dear a leaf's run was, or None of another job.
    pub fn weight(&self) -> Option<usize> {
        weight_of(&*self.work, &self.did)
    }

    /// Whether most of what the leaf did hangs on its correction, or None of a free leaf and of another job.
    pub fn is_tied(&self) -> Option<bool> {
        tie_of(&*self.work, &self.did)
    }

    /// Whether it is a leaf's that had run before.
    pub fn is_again(&self) -> bool {
        self.did.is_again()
    }
}
