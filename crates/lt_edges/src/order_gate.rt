//! A gate that jobs pass in a given order, for tests.
use crate::gate::Gate;
use lt_face::memory::NoMemory;
use std::alloc::Global;
use std::sync::Wait;
use std::sync::atomic::{AtomicBool, Ordering};
use std::thread::yield_now;

// How often a turn looks whether the jobs before have come.
const LOOKS: u32 = 100;

// A job of the order: whether a first call for it is there, and whether that call has gone through.
#[derive(Drop)]
struct Place {
    job: u32,
    called: AtomicBool,
    came: AtomicBool,
}

/// Holds the first call for each job of a list until the first calls for the jobs before it have come, for so many turns at
/// most. All other calls pass. What `passed` answers is shown by tests: no clause can tell when a call comes.
#[derive(Drop)]
pub struct OrderGate {
    places: Vec<Place>,
    turns: u64,
    was_late: AtomicBool,
}

impl OrderGate {
    /// A gate for the jobs with these codes, in this order. A code that stands in the list again has its first place.
    pub fn new(alloc: Global, codes: &[u32], turns: u64) -> Result<OrderGate, NoMemory> {
        let mut places: Vec<Place> = Vec::new(alloc);
        for job in codes {
            if !is_among(&places, *job) {
                places.push(Place {
                    job: *job,
                    called: AtomicBool::new(false),
                    came: AtomicBool::new(false),
                })?;
            }
        }
        Ok(OrderGate {
            places,
            turns,
            was_late: AtomicBool::new(false),
        })
    }

    /// Whether a first call for each job has come, each after those for the jobs before it.
    pub fn passed(&self) -> bool {
        have_come(&self.places) && !self.was_late.load(Ordering::SeqCst)
    }

    // Looks for the calls of these jobs, turn after turn, and says whether they came.
    fn await_all(&self, before: &[Place]) -> bool {
        for _ in 0..self.turns {
            for _ in 0..LOOKS {
                if have_come(before) {
                    return true;
                }
            }
            yield_now();
        }
        false
    }
}

// Whether the job has a place.
fn is_among(places: &[Place], job: u32) -> bool {
    places.iter().any(|place| place.job == job)
}

// Whether the calls for all these jobs have come.
fn have_come(places: &[Place]) -> bool {
    places.iter().all(|place| place.came.load(Ordering::SeqCst))
}

impl Gate for OrderGate {
    fn pass<R: Wait>(&self, _rt: &R, _worker: u32, job: u32) {
        for (i, place) in self.places.iter().enumerate() {
            if place.job == job && !place.called.swap(true, Ordering::SeqCst) {
                let (before, _) = self.places.split_at(i);
                if !self.await_all(before) {
                    self.was_late.store(true, Ordering::SeqCst);
                }
                place.came.store(true, Ordering::SeqCst);
            }
        }
    }
}
