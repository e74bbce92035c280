//! A circuit as a machine that workers hand on.
ghost use Rattle.std.specs.Prelude.{◌≡◌};
ghost use Rattle.lt_circuit.specs.Claiming.{IsAnswer};
ghost use Rattle.lt_circuit.specs.Job.{claim_of_job, claim_of_output};
ghost use Rattle.lt_workers.specs.Machines.{circuit_stand, net_of, IsAbandoned, IsFinished};

use crate::basis::Basis;
use crate::machine::Machine;
use lt_circuit::{Circuit, Claim, Job, LeafWork, Output, Spent};
use lt_face::Moves;

impl<W: LeafWork> Machine for Circuit<W> {
    type Basis = Basis<W>;

    type Job = Job<W>;

    type Output = Output<W>;

    type Spent = Spent<W>;

    ghost net = { net_of W.does };

    ghost stand = { circuit_stand };

    ghost claim_of = { claim_of_job };

    ghost claim_by = { claim_of_output };

    ghost is_job_of = { λ b job. job.work ≡ b.work };

    ghost is_output_of = { λ b output. output.work ≡ b.work };

    ghost gives = { λ before after worker answer. IsAnswer (W.does before.work) before after worker answer };

    ghost stores = { IsFinished W.does };

    ghost takes_back = { IsAbandoned };

    fn entries(&self) -> u64 {
        self.journal().len() as u64
    }

    fn leaf_count(&self) -> u32 {
        self.leaves()
    }

    fn free_leaf_count(&self) -> u32 {
        self.free_leaves()
    }

    fn is_due(&mut self, worker: u32, ahead: u32) -> bool {
        Circuit::is_due(self, worker, ahead)
    }

    fn ask(&mut self, worker: u32) -> Claim<Job<W>> {
        let _before = self.journal();
        let answer = self.claim(worker);
        let _after = self.journal();
        answer
    }

    fn end(&mut self, worker: u32, output: Output<W>) -> Spent<W> {
        let _before = self.journal();
        let spent = self.finish(worker, output);
        let _after = self.journal();
        spent
    }

    fn give_up(&mut self, worker: u32, job: Job<W>) -> Spent<W> {
        let _before = self.journal();
        let spent = self.abandon(worker, job);
        let _after = self.journal();
        spent
    }

    fn code(job: &Job<W>) -> u32 {
        job.name().code()
    }

    fn is_leaf(job: &Job<W>) -> bool {
        job.is_leaf()
    }

    fn is_free(job: &Job<W>) -> bool {
        job.is_free()
    }

    fn work(job: Job<W>, moves: &mut Moves<()>) -> Result<Output<W>, Job<W>> {
        job.work(moves)
    }

    fn weight(output: &Output<W>) -> Option<usize> {
        output.weight()
    }

    fn is_tied(output: &Output<W>) -> Option<bool> {
        output.is_tied()
    }

    fn is_again(output: &Output<W>) -> bool {
        output.is_again()
    }
}
