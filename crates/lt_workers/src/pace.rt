//! How dear leaves are, and whether it pays to run them ahead. No clause speaks of it.
use crate::machine::Machine;
use std::sync::atomic::{AtomicU64, Ordering};

/// Leaves below this weight in the mean aren't worth to be run ahead.
const DEAR: usize = 128;

/// What may be run ahead isn't worth a thread below this weight.
const WORTH: usize = 1024;

/// How many leaves are looked at, whether they are tied to those before them.
const LOOKS: u32 = 2;

/// What is known of the leaves that one worker alone has run in their order.
#[derive(Drop)]
pub(crate) struct Pace {
    left: u32,
    ran: u32,
    weight: usize,
    loose: u32,
    tied: u32,
}

impl Pace {
    /// None of so many leaves has run.
    pub(crate) fn start(leaves: u32) -> Pace {
        Pace {
            left: leaves,
            ran: 0,
            weight: 0,
            loose: 0,
            tied: 0,
        }
    }

    /// A job is done. A leaf's tells how dear it was, and the first ones that aren't free whether they are tied to those before them.
    pub(crate) fn note<M: Machine>(&mut self, output: &M::Output) {
        let Some(weight) = M::weight(output) else {
            return;
        };
        self.ran = self.ran.saturating_add(1);
        self.left = self.left.saturating_sub(1);
        self.weight = self.weight.saturating_add(weight);
        if self.is_worth(self.left) && self.loose.saturating_add(self.tied) < LOOKS {
            self.note_tie(M::is_tied(output));
        }
    }

    // A leaf that may be tied to others is, or isn't.
    fn note_tie(&mut self, tie: Option<bool>) {
        match tie {
            None => {}
            Some(true) => {
                self.tied = self.tied.saturating_add(1);
            }
            Some(false) => {
                self.loose = self.loose.saturating_add(1);
            }
        }
    }

    /// Whether so many leaves are worth to be run ahead.
    pub(crate) fn is_worth(&self, leaves: u32) -> bool {
        let ran = self.ran as usize;
        if ran == 0 || leaves < 2 || self.weight < ran.saturating_mul(DEAR) {
            return false;
        }
        self.weight.saturating_mul(leaves as usize) >= ran.saturating_mul(WORTH)
    }

    /// Whether the leaves that are left are worth to be run ahead, though they may be tied to others.
    pub(crate) fn runs_ahead(&self) -> bool {
        self.loose > self.tied && self.is_worth(self.left)
    }
}

/// What came of leaves that ran once more, for all workers together.
#[derive(Drop)]
pub(crate) struct Luck {
    kept: AtomicU64,
    vain: AtomicU64,
}

impl Luck {
    /// Nothing ran yet.
    pub(crate) fn start() -> Luck {
        Luck {
            kept: AtomicU64::new(0),
            vain: AtomicU64::new(0),
        }
    }

    /// A job is done, in so many moves. Only a leaf's that had run before tells something: its first run was in vain, where the second made
    /// more moves than half of those that the leaf is dear.
    pub(crate) fn note<M: Machine>(&self, output: &M::Output, moves: u64) {
        if !M::is_again(output) {
            return;
        }
        let Some(weight) = M::weight(output) else {
            return;
        };
        if moves > weight as u64 / 2 {
            self.vain.fetch_add(1, Ordering::SeqCst);
        } else {
            self.kept.fetch_add(1, Ordering::SeqCst);
        }
    }

    /// Whether leaves are run ahead that may be tied to others: until one more ran in vain than were kept, and one.
    pub(crate) fn is_good(&self) -> bool {
        let kept = self.kept.load(Ordering::SeqCst);
        self.vain.load(Ordering::SeqCst) <= kept.saturating_add(1)
    }
}
