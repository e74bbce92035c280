//! How a session ends before it was to.
use lt_edges::Failed;
use lt_face::NoMemory;
use lt_input::inputs::InputError;
use lt_world::halt::Halt;
use std::alloc::AllocFailed;
use std::fmt;

/// Why a session ended before it was to.
#[derive(Clone, Copy)]
pub enum Stop {
    NoMemory,
    ReadFailed,
    WriteFailed,
}

impl Stop {
    /// The exit status.
    pub fn status(self) -> u8 {
        match self {
            Stop::ReadFailed => 3,
            Stop::WriteFailed => 4,
            Stop::NoMemory => 5,
        }
    }
}

impl fmt::Display for Stop {
    fn fmt<W: fmt::Write>(&self, f: &mut fmt::Formatter<W>) -> fmt::Result {
        let words = match self {
            Stop::ReadFailed => "reading failed",
            Stop::WriteFailed => "writing failed",
            Stop::NoMemory => "out of memory",
        };
        write!(f, "{words}")
    }
}

impl From<Halt> for Stop {
    fn from(halt: Halt) -> Stop {
        match halt {
            Halt::NoMemory => Stop::NoMemory,
            Halt::Failed => Stop::WriteFailed,
        }
    }
}

impl From<Failed> for Stop {
    fn from(_: Failed) -> Stop {
        Stop::WriteFailed
    }
}

impl From<NoMemory> for Stop {
    fn from(_: NoMemory) -> Stop {
        Stop::NoMemory
    }
}

impl<T: Drop> From<AllocFailed<T>> for Stop {
    fn from(_: AllocFailed<T>) -> Stop {
        Stop::NoMemory
    }
}

impl From<InputError> for Stop {
    fn from(error: InputError) -> Stop {
        match error {
            InputError::NoMemory => Stop::NoMemory,
            InputError::Failed => Stop::ReadFailed,
        }
    }
}
