//! Claims.
ghost use Rattle.std.specs.Prelude.{◌≡◌, ◌<◌, None, IfOk, OnErr};
ghost use Rattle.std.specs.Arc.{arc_value};
ghost use Rattle.lt_face.specs.Limits.{most_workers};
ghost use Rattle.lt_net.specs.declared.job.JobState.TheVariants.{Pending};
ghost use Rattle.lt_net.specs.Codes.{code_of};
ghost use Rattle.lt_circuit.specs.Circuit.{state};
ghost use Rattle.lt_circuit.specs.Claiming.{IsAnswer, IsClaimed, IsCoded, IsThis};
ghost use Rattle.lt_circuit.specs.Job.{name_of_job};

use crate::circuit::Circuit;
use crate::claim::{Claim, This};
use crate::entry::{Entry, Event};
use crate::job::Job;
use crate::task::take_task;
use crate::work::LeafWork;
use lt_face::NoMemory;
use lt_net::JobName;
use std::alloc::Global;
use std::sync::Arc;

/// A second owner of the work.
pub(crate) fn share_work<W: LeafWork>(work: &Arc<W, Global>) -> Result<Arc<W, Global>, NoMemory>
    ensures { IfOk result (λ second. arc_value second ≡ arc_value work.now) }
{
    let second = work.clone()?;
    Ok(second)
}

impl<W: LeafWork> Circuit<W> {
    /// Claims a Pending job. It first takes the journal's room for its own entry and its end.
    fn take(&mut self, worker: u32, name: JobName) -> Result<Job<W>, NoMemory>
        requires worker { worker < most_workers }
        requires free { (state self.old).claim worker ≡ None }
        requires pending { (state self.old).status (code_of name) ≡ Pending }
        ensures ok { IfOk result (λ job. IsClaimed (W.does self.old.work) self.old self.new worker job) }
        ensures name { IfOk result (λ job. name_of_job job ≡ name) }
        ensures err { OnErr result (self.new ≡ self.old) }
    {
        let work = share_work(&self.work)?;
        let captured = self.board.capture(name)?;
        let in_flight = self.board.in_flight();
        self.journal.reserve(in_flight as usize + 2)?;
        self.board.hold(worker, name, captured.held, captured.prior);
        let task = take_task(&mut self.tallies, name, captured.given);
        self.journal.push_reserved(Entry {
            worker,
            job: name,
            event: Event::Claim,
        });
        Ok(Job { work, task })
    }

    /// Claims a job that is Pending, if any.
    pub fn claim(&mut self, worker: u32) -> Claim<Job<W>>
        requires worker { worker < most_workers }
        requires free { (state self.old).claim worker ≡ None }
        ensures answer { IsAnswer (W.does self.old.work) self.old self.new worker result }
        ensures coded { IsCoded result }
    {
        match self.next_pending(worker) {
            Some(name) => match self.take(worker, name) {
                Ok(job) => Claim::Job(job),
                Err(_refused) => Claim::NoMemory,
            },
            None => {
                let in_flight = self.in_flight();
                if in_flight == 0 {
                    Claim::Settled
                } else {
                    Claim::Busy { in_flight }
                }
            }
        }
    }

    /// Claims the job of this code, if it is Pending.
    pub fn claim_this(&mut self, worker: u32, code: u32) -> This<Job<W>>
        requires worker { worker < most_workers }
        requires free { (state self.old).claim worker ≡ None }
        ensures { IsThis (W.does self.old.work) self.old self.new worker code result }
    {
        let name = JobName::of(code);
        if !self.is_pending(name) {
            return This::NotPending;
        }
        match self.take(worker, name) {
            Ok(job) => This::Job(job),
            Err(_refused) => This::NoMemory,
        }
    }
}
