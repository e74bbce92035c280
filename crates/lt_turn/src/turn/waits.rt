//! Waits for the turn, and for entries of others. A thread that waits looks some times, and then sleeps. They tell nothing.
use super::{Seat, Turn};
use crate::story::Story;
use std::hint::spin_loop;
use std::sync::Wait;

/// How often one looks before it sleeps.
const LOOKS: u32 = 64;

impl<T: Story> Turn<T> {
    // Whether the turn is free.
    fn is_free(&self) -> bool {
        self.table.shared.peek(0) % 2 == 0
    }

    // Whether the turn is free within some looks.
    fn is_soon_free(&self) -> bool {
        for _look in 0..LOOKS {
            if self.is_free() {
                return true;
            }
            spin_loop();
        }
        false
    }

    // Waits until the turn was free.
    pub(super) fn wait_till_free<R: Wait>(&self, rt: &R) {
        if self.is_soon_free() {
            return;
        }
        let key = self.freed.prepare_wait();
        if !self.is_free() {
            key.wait(rt);
        }
    }

    // Whether there are other than so many entries.
    fn has_others(&self, left: u64) -> bool {
        self.table.shared.peek(0) / 2 != left
    }

    // Whether there are other than so many entries within some looks.
    fn has_soon_others(&self, left: u64) -> bool {
        for _look in 0..LOOKS {
            if self.has_others(left) {
                return true;
            }
            spin_loop();
        }
        false
    }

    // Waits for the next entry where there are just so many.
    fn wait_for_others<R: Wait>(&self, rt: &R, left: u64) {
        let key = self.entered.prepare_wait();
        if !self.has_others(left) {
            key.wait(rt);
        }
    }

    /// Waits until there are entries of others behind what the seat gave back. It doesn't take the turn.
    pub fn wait_for_entries<R: Wait>(&self, rt: &R, seat: &Seat<T>) {
        for _ in rt.forever() {
            if self.has_soon_others(seat.left) {
                return;
            }
            self.wait_for_others(rt, seat.left);
        }
    }

    // Tells those who wait that the turn is free, and that there are entries that the seat didn't give back before.
    pub(super) fn tell(&self, has_entries: bool) {
        self.freed.notify_one();
        if has_entries {
            self.entered.notify_all();
        }
    }
}
