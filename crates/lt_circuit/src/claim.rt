//! What a worker is answered.

/// The answer to a worker that asks for a job.
#[derive(Drop)]
pub enum Claim<J> {
    /// A job that was Pending. The worker holds it.
    Job(J),
    /// None is Pending, and this many claims stand, at least one.
    Busy { in_flight: u32 },
    /// None is Pending and no claim stands.
    Settled,
    /// Memory was refused, and nothing changed.
    NoMemory,
}

/// The answer to a worker that asks for this job.
#[derive(Drop)]
pub enum This<J> {
    /// The job was Pending. The worker holds it.
    Job(J),
    /// The code names no job, or one that isn't Pending.
    NotPending,
    /// Memory was refused, and nothing changed.
    NoMemory,
}
