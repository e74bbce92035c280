//! How a call ends.
ghost use Rattle.std.specs.Prelude.{◌≡◌};
ghost use Rattle.lt_runs.specs.Statuses.{status_code, stopped_as};

use crate::stop::Stop;

/// How a call ended.
#[derive(Clone, Copy, Debug, PartialEq, Eq)]
pub enum Status {
    Done = 0,
    NotTaken = 1,
    Faulty = 2,
    ReadFault = 3,
    WriteFault = 4,
    NoMemory = 5,
    TooLong = 6,
    BadTrace = 7,
}

/// The exit status.
pub fn code(status: Status) -> u8
    ensures { result ≡ status_code status }
{
    status as u8
}

/// The status of a script that wasn't run to its end.
pub fn status_of(stop: Stop) -> Status
    ensures { result ≡ stopped_as stop }
{
    match stop {
        Stop::NoMemory => Status::NoMemory,
        Stop::ReadFailed => Status::ReadFault,
        Stop::WriteFailed => Status::WriteFault,
        Stop::TooLong => Status::TooLong,
    }
}
