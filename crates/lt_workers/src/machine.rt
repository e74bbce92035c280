//! What workers settle together: a circuit, or a line.
ghost use Rattle.std.specs.Prelude.{◌≡◌, ◌<◌, ◌^◌, ℕ, Some, None, IfOk, IfErr, length};
ghost use Rattle.lt_face.specs.Limits.{most_workers};
ghost use Rattle.lt_net.specs.Net.{Net, Claim as NetClaim};
ghost use Rattle.lt_circuit.specs.declared.claim.Claim.{Claim as ClaimType};
ghost use Rattle.lt_workers.specs.Seen.{Stand, GaveUp, IsMove, IsStanding};
ghost use Rattle.lt_workers.specs.Visit.{IsGiven};

use lt_circuit::Claim;
use lt_face::Moves;

/// A machine that gives workers jobs until it is settled. It is the replay of its journal.
pub trait Machine: Drop {
    /// What it is over. No call changes that.
    type Basis;

    type Job: Drop;

    type Output: Drop;

    /// What the end of a claim has no more use for.
    type Spent: Drop;

    ghost net: { Self.Basis → Net };

    /// What it is over, its entries and its state.
    ghost stand: { Self → Stand Self.Basis };

    /// The claim that a job is of, and the one that an output is of.
    ghost claim_of: { Self.Job → NetClaim };

    ghost claim_by: { Self.Output → NetClaim };

    ghost is_job_of: { Self.Basis → Self.Job → Type 0 };

    ghost is_output_of: { Self.Basis → Self.Output → Type 0 };

    /// What the machine's own calls say of an answer, of an output that was stored, and of a job that was given up.
    ghost gives: { Self → Self → ℕ → ClaimType Self.Job → Type 0 };

    ghost stores: { Self → Self → ℕ → Self.Output → Type 0 };

    ghost takes_back: { Self → Self → ℕ → Self.Job → Type 0 };

    /// How many entries the journal has.
    fn entries(&self) -> u64
        ensures count { result ≡ length (stand self.now).pairs }
        ensures short { length (stand self.now).pairs < 2 ^ 62 }
        ensures standing { IsStanding net (stand self.now) };

    /// How many leaves there are.
    fn leaf_count(&self) -> u32;

    /// How many leaves never ran and hang on none before them.
    fn free_leaf_count(&self) -> u32;

    /// Whether the worker had better ask than wait for an entry of another, where so many leaves behind the front are run ahead that may
    /// be tied to others. Else some claim stands. Where none are, others than worker 0 ask for an inner job too, to give it back and go.
    fn is_due(&mut self, worker: u32, ahead: u32) -> bool
        ensures same { self.new ≡ self.old };

    /// The worker asks for a job.
    fn ask(&mut self, worker: u32) -> Claim<Self::Job>
        requires worker { worker < most_workers }
        requires free { (stand self.old).state.claim worker ≡ None }
        ensures moved { IsMove net worker (stand self.old) (stand self.new) }
        ensures short { length (stand self.new).pairs < 2 ^ 62 }
        ensures gives { gives self.old self.new worker result }
        ensures given { IsGiven claim_of is_job_of (stand self.new) worker result };

    /// The worker's job is done. What it answers may be dropped later.
    fn end(&mut self, worker: u32, output: Self::Output) -> Self::Spent
        requires worker { worker < most_workers }
        requires work { is_output_of (stand self.old).basis output }
        requires claim { (stand self.old).state.claim worker ≡ Some (claim_by output) }
        ensures moved { IsMove net worker (stand self.old) (stand self.new) }
        ensures short { length (stand self.new).pairs < 2 ^ 62 }
        ensures stores { stores self.old self.new worker output }
        ensures free { (stand self.new).state.claim worker ≡ None };

    /// The worker gives its job up. What it answers may be dropped later.
    fn give_up(&mut self, worker: u32, job: Self::Job) -> Self::Spent
        requires worker { worker < most_workers }
        requires work { is_job_of (stand self.old).basis job }
        requires claim { (stand self.old).state.claim worker ≡ Some (claim_of job) }
        ensures moved { IsMove net worker (stand self.old) (stand self.new) }
        ensures short { length (stand self.new).pairs < 2 ^ 62 }
        ensures takes_back { takes_back self.old self.new worker job }
        ensures gave_up { GaveUp worker (stand self.old) (stand self.new) }
        ensures free { (stand self.new).state.claim worker ≡ None };

    /// The job's code.
    fn code(job: &Self::Job) -> u32
        requires { (claim_of job.now).job < 2 ^ 32 }
        ensures { result ≡ (claim_of job.now).job };

    /// Whether it is a leaf's job.
    fn is_leaf(job: &Self::Job) -> bool;

    /// Whether it is a leaf's that never ran, and on which no leaf before it has a bearing.
    fn is_free(job: &Self::Job) -> bool;

    /// Does the job, or gives it back where memory is refused.
    fn work(job: Self::Job, moves: &mut Moves<()>) -> Result<Self::Output, Self::Job>
        ensures work { IfOk result (λ output. (b : Self.Basis) → is_job_of b job → is_output_of b output) }
        ensures claim { IfOk result (λ output. claim_by output ≡ claim_of job) }
        ensures err { IfErr result (λ same. same ≡ job) };

    /// How dear a leaf's run was, or None of another job.
    fn weight(output: &Self::Output) -> Option<usize>;

    /// Whether most of what the leaf did hangs on its correction, or None of a free leaf and of another job.
    fn is_tied(output: &Self::Output) -> Option<bool>;

    /// Whether it is a leaf's that had run before.
    fn is_again(output: &Self::Output) -> bool;
}
