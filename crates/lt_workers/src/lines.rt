//! A line as a machine that workers hand on.
ghost use Rattle.std.specs.Prelude.{◌≡◌};
ghost use Rattle.lt_circuit.specs.LineClaiming.{IsLineAnswer};
ghost use Rattle.lt_circuit.specs.LineJob.{claim_of_line_job, claim_of_line_output};
ghost use Rattle.lt_workers.specs.Machines.{line_net_of, line_stand, IsLineAbandoned, IsLineFinished};

use crate::basis::LineBasis;
use crate::machine::Machine;
use lt_circuit::{Claim, Job, LeafWork, Line, Output, Spent};
use lt_face::Moves;

impl<W: LeafWork> Machine for Line<W> {
    type Basis = LineBasis<W>;

    type Job = Job<W>;

    type Output = Output<W>;

    type Spent = Spent<W>;

    ghost net = { line_net_of W.does };

    ghost stand = { line_stand };

    ghost claim_of = { claim_of_line_job };

    ghost claim_by = { claim_of_line_output };

    ghost is_job_of = { λ b job. job.work ≡ b.work };

    ghost is_output_of = { λ b output. output.work ≡ b.work };

    ghost gives = { λ before after worker answer. IsLineAnswer (W.does before.work) before after worker answer };

    ghost stores = { IsLineFinished W.does };

    ghost takes_back = { IsLineAbandoned };

    fn entries(&self) -> u64 {
        self.journal().len() as u64
    }

    fn leaf_count(&self) -> u32 {
        self.leaves()
    }

    fn free_leaf_count(&self) -> u32 {
        self.free_leaves()
    }

    fn is_due(&mut self, worker: u32, ahead: u32) -> bool {
        Line::is_due(self, worker, ahead)
    }

    fn ask(&mut self, worker: u32) -> Claim<Job<W>> {
        let _before = self.journal();
        let _segments = self.segment_count();
        let answer = self.claim(worker);
        let _after = self.journal();
        answer
    }

    fn end(&mut self, worker: u32, output: Output<W>) -> Spent<W> {
        let _before = self.journal();
        let spent = self.finish(worker, output);
        let _after = self.journal();
        spent
    }

    fn give_up(&mut self, worker: u32, job: Job<W>) -> Spent<W> {
        let _before = self.journal();
        let spent = self.abandon(worker, job);
        let _after = self.journal();
        spent
    }

    fn code(job: &Job<W>) -> u32 {
        job.line_code()
    }

    fn is_leaf(job: &Job<W>) -> bool {
        job.is_leaf()
    }

    fn is_free(job: &Job<W>) -> bool {
        job.is_free()
    }

    fn work(job: Job<W>, moves: &mut Moves<()>) -> Result<Output<W>, Job<W>> {
        job.work(moves)
    }

    fn weight(output: &Output<W>) -> Option<usize> {
        output.weight()
    }

    fn is_tied(output: &Output<W>) -> Option<bool> {
        output.is_tied()
    }

    fn is_again(output: &Output<W>) -> bool {
        output.is_again()
    }
}
