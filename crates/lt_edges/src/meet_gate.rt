//! A gate at which two jobs meet, for tests.
use crate::gate::Gate;
use std::sync::Wait;
use std::sync::atomic::{AtomicBool, Ordering};
use std::thread::yield_now;

// How often a turn looks whether the other job has come.
const LOOKS: u32 = 100;

/// Holds the first call for one job until a call for another has come, for so many turns at most. All other calls pass.
/// What `met` answers is shown by tests: no clause can tell when a call comes.
#[derive(Drop)]
pub struct MeetGate {
    held: u32,
    awaited: u32,
    turns: u64,
    was_held: AtomicBool,
    came: AtomicBool,
    met: AtomicBool,
}

impl MeetGate {
    /// A gate that holds the first call for job `held` until a call for job `awaited` has come, or these turns are over.
    pub fn new(held: u32, awaited: u32, turns: u64) -> MeetGate {
        MeetGate {
            held,
            awaited,
            turns,
            was_held: AtomicBool::new(false),
            came: AtomicBool::new(false),
            met: AtomicBool::new(false),
        }
    }

    /// Whether the call that was held ended because the awaited one had come.
    pub fn met(&self) -> bool {
        self.met.load(Ordering::SeqCst)
    }

    // Looks for the awaited call, turn after turn, and says whether it came.
    fn await_other(&self) -> bool {
        for _ in 0..self.turns {
            for _ in 0..LOOKS {
                if self.came.load(Ordering::SeqCst) {
                    return true;
                }
            }
            yield_now();
        }
        false
    }
}

impl Gate for MeetGate {
    fn pass<R: Wait>(&self, _rt: &R, _worker: u32, job: u32) {
        if job == self.awaited {
            self.came.store(true, Ordering::SeqCst);
        }
        if job == self.held && !self.was_held.swap(true, Ordering::SeqCst) && self.await_other() {
            self.met.store(true, Ordering::SeqCst);
        }
    }
}
