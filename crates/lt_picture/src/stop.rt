//! Why there is no picture.
ghost use Rattle.std.specs.Prelude.{◌≡◌};
ghost use Rattle.lt_picture.specs.Stops.{status_code};
ghost use Rattle.lt_picture.specs.declared.stop.Stop.TheVariants as stops;

use crate::refusal::Refusal;
use std::alloc::{AllocError, AllocFailed};
use std::fmt;

/// Why there is no picture.
#[derive(Clone, Copy)]
pub enum Stop {
    Refused(Refusal),
    ReadFailed,
    WriteFailed,
    NoMemory,
    TooLong,
}

impl Stop {
    /// The exit status.
    pub fn status(self) -> u8
        ensures { result ≡ status_code self }
    {
        match self {
            Stop::Refused(_) => 2,
            Stop::ReadFailed => 3,
            Stop::WriteFailed => 4,
            Stop::NoMemory => 5,
            Stop::TooLong => 6,
        }
    }
}

impl fmt::Display for Stop {
    fn fmt<W: fmt::Write>(&self, f: &mut fmt::Formatter<W>) -> fmt::Result {
        match *self {
            Stop::Refused(refusal) => write!(f, "{refusal}"),
            Stop::ReadFailed => write!(f, "a read failed"),
            Stop::WriteFailed => write!(f, "a write failed"),
            Stop::NoMemory => write!(f, "out of memory"),
            Stop::TooLong => write!(f, "the input is too long"),
        }
    }
}

impl From<AllocError> for Stop {
    ghost from_gives = { λ _ stop. stop ≡ stops.NoMemory };

    fn from(_: AllocError) -> Self {
        Stop::NoMemory
    }
}

impl<T: Drop> From<AllocFailed<T>> for Stop {
    ghost from_gives = { λ _ stop. stop ≡ stops.NoMemory };

    fn from(_: AllocFailed<T>) -> Self {
        Stop::NoMemory
    }
}

impl From<Refusal> for Stop {
    ghost from_gives = { λ refusal stop. stop ≡ stops.Refused refusal };

    fn from(refusal: Refusal) -> Self {
        Stop::Refused(refusal)
    }
}
