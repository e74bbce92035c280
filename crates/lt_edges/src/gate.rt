//! Gates.
use std::sync::Wait;

/// Where a worker may be held up, outside its turns. It has no answer, so no result depends on it.
pub trait Gate: Sync {
    /// A worker passes before it works on the job with this code.
    fn pass<R: Wait>(&self, rt: &R, worker: u32, job: u32);

    /// Whether a worker may be held until another comes by. Then all have to be there from the start.
    fn waits(&self) -> bool {
        true
    }
}

/// A gate that holds nobody up.
#[derive(Clone, Copy, Debug)]
pub struct OpenGate;

impl Gate for OpenGate {
    fn pass<R: Wait>(&self, _rt: &R, _worker: u32, _job: u32) {}

    fn waits(&self) -> bool {
        false
    }
}
