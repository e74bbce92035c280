//! Entries by their codes.
ghost use Rattle.std.specs.Prelude.{◌≡◌, ◌+◌, ◌*◌, ◌<◌, ◌≤◌, IsTrue, IfNone};
ghost use Rattle.lt_face.specs.Limits.{most_programs, most_workers};
ghost use Rattle.lt_net.specs.Codes.{code_of, codes_over};
ghost use Rattle.lt_circuit.specs.Entry.{entry_code};

use crate::refusal::Flaw;
use lt_circuit::tree::right_of;
use lt_circuit::{Entry, Event, JobName};
use lt_face::limits::MOST_WORKERS;

/// The entry of a worker with this code.
pub fn entry_of(worker: u32, code: u32) -> Entry
    ensures worker { result.worker ≡ worker }
    ensures code { entry_code result ≡ code }
{
    let job = JobName::of(code / 3);
    let event = match code % 3 {
        0 => Event::Claim,
        1 => Event::Finish,
        _ => Event::Abandon,
    };
    Entry { worker, job, event }
}

/// Whether the tree over so many programs has this inner node.
fn is_inner(programs: u32, node: u32) -> bool
    requires { programs ≤ most_programs }
    ensures { IsTrue result → node + 1 < 2 * programs }
{
    0 < programs && node < 2 * programs - 1 && right_of(programs, node).is_some()
}

/// Whether a batch of so many programs has the job.
fn has_job(programs: u32, job: JobName) -> bool
    requires { programs ≤ most_programs }
    ensures { IsTrue result → code_of job < codes_over programs }
{
    match job {
        JobName::Leaf(leaf) => leaf < programs,
        JobName::Merge(node) => is_inner(programs, node),
        JobName::Correct(node) => is_inner(programs, node),
        JobName::Pass(_segment) => false,
    }
}

/// What is wrong with an entry of a batch of so many programs, if anything is.
pub fn flaw_of(programs: u32, entry: &Entry) -> Option<Flaw>
    requires { programs ≤ most_programs }
    ensures worker { IfNone result (entry.now.worker < most_workers) }
    ensures job { IfNone result (code_of entry.now.job < codes_over programs) }
{
    if entry.worker as usize >= MOST_WORKERS {
        Some(Flaw::NoWorker)
    } else if !has_job(programs, entry.job) {
        Some(Flaw::NoJob)
    } else {
        None
    }
}
