//! Want of memory.
use std::alloc::{AllocError, AllocFailed};

/// A growth, or a clone of an `Arc`, was refused. It is the one answer that a call with a contract may give freely.
#[derive(Clone, Copy, Debug, PartialEq, Eq)]
pub struct NoMemory;

impl From<AllocError> for NoMemory {
    fn from(_: AllocError) -> NoMemory {
        NoMemory
    }
}

impl<T: Drop> From<AllocFailed<T>> for NoMemory {
    fn from(_: AllocFailed<T>) -> NoMemory {
        NoMemory
    }
}
