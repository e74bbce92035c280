//! Why nothing was read.
ghost use Rattle.std.specs.Prelude.{◌≡◌};
ghost use Rattle.lt_reading.specs.Faults.{code_of};
ghost use Rattle.lt_script.specs.declared.refusal.Refusal.TheVariants.{NoMemory};
ghost use Rattle.lt_script.specs.Parsed.{cause_of};

use lt_face::memory::NoMemory;
use std::alloc::{AllocError, AllocFailed};

/// Why a token isn't allowed where it stands.
#[derive(Clone, Copy)]
pub enum Cause {
    NotAllowed,
    TooMany,
    TooLarge,
    TooFull,
}

/// Why nothing was read.
#[derive(Clone, Copy)]
pub enum Refusal {
    NoMemory,
    Fault(Cause),
}

impl From<AllocError> for Refusal {
    ghost from_gives = { λ _ e. e ≡ NoMemory };

    fn from(_: AllocError) -> Self {
        Refusal::NoMemory
    }
}

impl From<NoMemory> for Refusal {
    ghost from_gives = { λ _ e. e ≡ NoMemory };

    fn from(_: NoMemory) -> Self {
        Refusal::NoMemory
    }
}

impl<T: Drop> From<AllocFailed<T>> for Refusal {
    ghost from_gives = { λ _ e. e ≡ NoMemory };

    fn from(_: AllocFailed<T>) -> Self {
        Refusal::NoMemory
    }
}

impl Cause {
    /// The code of a fault for this cause at a token; at the end of the source it is 7.
    pub fn code(self) -> u32
        ensures { result ≡ code_of (cause_of self) }
    {
        match self {
            Cause::NotAllowed => 2,
            Cause::TooMany => 6,
            Cause::TooLarge => 3,
            Cause::TooFull => 6,
        }
    }
}
