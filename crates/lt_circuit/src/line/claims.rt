//! Claims of a line's jobs.
#![tactic(auto)]

ghost use Rattle.std.specs.Prelude.{◌≡◌, ◌<◌, ℕ, None, IfOk, OnErr, IsTrue, ◌↔◌, IfSome, ◌≢◌};
ghost use Rattle.lt_face.specs.Limits.{most_workers};
ghost use Rattle.lt_net.specs.declared.job.JobState.TheVariants.{Pending};
ghost use Rattle.lt_circuit.specs.Line.{line_state};
ghost use Rattle.lt_circuit.specs.LineClaiming.{IsLineAnswer, IsLineClaimed, IsLineCoded, IsLineThis};
ghost use Rattle.lt_circuit.specs.LineJob.{claim_of_line_job};

use super::{Line, LineEntry};
use crate::claim::{Claim, This};
use crate::claims::share_work;
use crate::entry::Event;
use crate::job::Job;
use crate::number::name_at;
use crate::task::take_task;
use crate::work::LeafWork;
use lt_face::NoMemory;

impl<W: LeafWork> Line<W> {
    /// Claims a Pending job. It first takes the journal's room for its own entry and its end.
    fn take(&mut self, worker: u32, code: u32) -> Result<Job<W>, NoMemory>
        requires worker { worker < most_workers }
        requires free { (line_state self.old).claim worker ≡ None }
        requires pending { (line_state self.old).status code ≡ Pending }
        ensures ok { IfOk result (λ job. IsLineClaimed (W.does self.old.work) self.old self.new worker job) }
        ensures code { IfOk result (λ job. (claim_of_line_job job).job ≡ code) }
        ensures err { OnErr result (self.new ≡ self.old) }
    {
        let _segments = self.row.count();
        let work = share_work(&self.work)?;
        let captured = self.row.capture(code)?;
        let in_flight = self.row.in_flight();
        self.journal.reserve(in_flight as usize + 2)?;
        self.row
            .hold_at(worker, code, captured.held, captured.prior);
        let task = take_task(&mut self.tallies, name_at(code), captured.given);
        self.journal.push_reserved(LineEntry {
            worker,
            job: code,
            event: Event::Claim,
        });
        Ok(Job { work, task })
    }

    // Whether the job of this code is Pending. A code that is no job's isn't.
    pub(crate) fn is_pending(&self, code: u32) -> bool
        ensures { IsTrue result ↔ ((line_state self.now).status code ≡ Pending) }
    {
        self.row.is_pending(code)
    }

    // The code of a Pending job for the worker, if any: one that is due, where there is one, else one of the first segment that has one, and
    // there the Pass comes last.
    fn next_pending(&mut self, worker: u32) -> Option<u32>
        ensures same { self.new ≡ self.old }
        ensures some { IfSome result (λ code. (line_state self.old).status code ≡ Pending) }
        ensures none { result ≡ None → (code : ℕ) → (line_state self.old).status code ≢ Pending }
    {
        if self.row.in_flight() == 0 {
            return self.row.next_pending(0);
        }
        match self.due_job(worker) {
            Some(code) => Some(code),
            None => self.row.next_pending(worker),
        }
    }

    /// Claims a job that is Pending, if any: one that is due for the worker, where there is one, else one of the first segment that has one,
    /// its Pass where no other job of it is Pending.
    pub fn claim(&mut self, worker: u32) -> Claim<Job<W>>
        requires worker { worker < most_workers }
        requires free { (line_state self.old).claim worker ≡ None }
        ensures answer { IsLineAnswer (W.does self.old.work) self.old self.new worker result }
        ensures coded { IsLineCoded result }
    {
        match self.next_pending(worker) {
            Some(code) => match self.take(worker, code) {
                Ok(job) => Claim::Job(job),
                Err(_refused) => Claim::NoMemory,
            },
            None => {
                let in_flight = self.in_flight();
                if in_flight == 0 {
                    Claim::Settled
                } else {
                    Claim::Busy { in_flight }
                }
            }
        }
    }

    /// Claims the job of this code, if it is Pending.
    pub fn claim_this(&mut self, worker: u32, code: u32) -> This<Job<W>>
        requires worker { worker < most_workers }
        requires free { (line_state self.old).claim worker ≡ None }
        ensures { IsLineThis (W.does self.old.work) self.old self.new worker code result }
    {
        if !self.is_pending(code) {
            return This::NotPending;
        }
        match self.take(worker, code) {
            Ok(job) => This::Job(job),
            Err(_refused) => This::NoMemory,
        }
    }
}
