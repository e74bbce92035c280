//! What a circuit writes down of an event.
ghost use Rattle.std.specs.Prelude.{◌≡◌, ◌<◌, ◌^◌};
ghost use Rattle.lt_circuit.specs.Entry.{entry_code, kind_code};

use lt_net::{JobName, with_kind};

/// What a worker does with a job.
#[derive(Clone, Copy, PartialEq, Eq)]
pub enum Event {
    /// It takes the job.
    Claim,
    /// It has done the job.
    Finish,
    /// It gives the job up.
    Abandon,
}

impl Event {
    /// 0 for a claim, 1 for a finish, 2 for an abandon.
    pub(crate) fn kind(self) -> u32
        ensures { result ≡ kind_code self }
    {
        match self {
            Event::Claim => 0,
            Event::Finish => 1,
            Event::Abandon => 2,
        }
    }
}

/// One event: the worker, the job, and what it does with it.
#[derive(Clone, Copy, PartialEq, Eq)]
pub struct Entry {
    pub worker: u32,
    pub job: JobName,
    pub event: Event,
}

impl Entry {
    /// The entry's code: three times the job's, plus 1 for a finish and 2 for an abandon.
    pub fn code(self) -> u32
        requires { entry_code self < 2 ^ 32 }
        ensures { result ≡ entry_code self }
    {
        with_kind(self.job.code(), self.event.kind())
    }
}
