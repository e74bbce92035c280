//! Why a script isn't run to its end.
ghost use Rattle.std.specs.Prelude.{◌≡◌};
ghost use Rattle.lt_runs.specs.declared.stop.Stop.TheVariants as stops;
ghost use Rattle.lt_runs.specs.Stops.{halted, unread};

use crate::input::InputError;
use lt_edges::Failed;
use lt_face::NoMemory;
use lt_world::halt::Halt;

/// Why a script wasn't run to its end.
#[derive(Clone, Copy, Debug, PartialEq, Eq)]
pub enum Stop {
    NoMemory,
    ReadFailed,
    WriteFailed,
    TooLong,
}

impl From<NoMemory> for Stop {
    ghost from_gives = { λ _ e. e ≡ stops.NoMemory };

    fn from(_: NoMemory) -> Stop {
        Stop::NoMemory
    }
}

// A line wasn't written.
impl From<Failed> for Stop {
    ghost from_gives = { λ _ e. e ≡ stops.WriteFailed };

    fn from(_: Failed) -> Stop {
        Stop::WriteFailed
    }
}

impl From<Halt> for Stop {
    ghost from_gives = { λ halt e. e ≡ halted halt };

    fn from(halt: Halt) -> Stop {
        match halt {
            Halt::NoMemory => Stop::NoMemory,
            Halt::Failed => Stop::WriteFailed,
        }
    }
}

impl From<InputError> for Stop {
    ghost from_gives = { λ error e. e ≡ unread error };

    fn from(error: InputError) -> Stop {
        match error {
            InputError::NoMemory => Stop::NoMemory,
            InputError::Failed => Stop::ReadFailed,
            InputError::TooLong => Stop::TooLong,
        }
    }
}
