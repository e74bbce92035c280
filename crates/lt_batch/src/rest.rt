//! Programs that go by before something is tried again. No clause speaks of it.

/// So many go by the first time.
const FIRST: usize = 16;

/// So many go by at most.
const LAST: usize = 1024;

/// How many programs still go by, and how many will the next time.
#[derive(Clone, Copy)]
pub(crate) struct Rest {
    left: usize,
    next: usize,
}

impl Rest {
    /// None has to go by.
    pub(crate) fn none() -> Rest {
        Rest {
            left: 0,
            next: FIRST,
        }
    }

    /// Whether no more has to go by.
    pub(crate) fn is_over(self) -> bool {
        self.left == 0
    }

    /// One more program went by.
    pub(crate) fn pass(&mut self) {
        self.left = self.left.saturating_sub(1);
    }

    /// So many have to go by, whatever came before.
    pub(crate) fn set(&mut self, programs: usize) {
        self.left = programs;
    }

    /// Begins anew, with so many at least, and lasts twice as long the next time.
    pub(crate) fn begin(&mut self, at_least: usize) {
        self.left = self.next.max(at_least);
        self.next = self.next.saturating_mul(2).min(LAST);
    }

    /// Lasts half as long the next time.
    pub(crate) fn shorten(&mut self) {
        self.next = (self.next / 2).max(FIRST);
    }
}
