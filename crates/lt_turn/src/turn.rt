//! The turn and its seats.
ghost use Rattle.std.specs.Prelude.{◌≡◌, ◌<◌, ◌≤◌, [], ◌∷◌, Some, None};
ghost use Rattle.lt_face.specs.Limits.{most_workers};

use crate::origin::Origin;
use crate::plays::Turns;
use crate::story::Story;
use crate::view::View;
use atomic_table::Table;
use crossbeam_utils::sync::EventCount;
use std::alloc::Global;

mod numbers;
mod steps;
mod waits;

/// A value that threads pass from hand to hand.
#[derive(Drop)]
pub struct Turn<T: Story> {
    table: Table<Option<T>, View<T::Opening>, Origin<T>, Turns<T>, Global>,
    /// Told each time that the turn is given back.
    freed: EventCount,
    /// Told each time that it is given back with entries that the seat didn't give back before.
    entered: EventCount,
    ghost sized: { (table.shared.table_id.words ≡ 1) × (table.shared.table_id.slots ≡ 1) },
}

type Token<T> = atomic_table::Seat<Option<T>, View<<T as Story>::Opening>>;

/// The right to take the turn as one of the workers from `first` to below `end`.
pub struct Seat<T: Story> {
    token: Token<T>,
    first: u32,
    end: u32,
    /// How many entries the value had when the seat last gave it back, or when the turn began.
    left: u64,
    ghost first_is: { token.me.0.first ≡ first },
    ghost end_is: { token.me.0.end ≡ end },
    ghost some_number: { first < end },
    ghost few: { end ≤ most_workers },
    ghost calm: { token.me.0.met ≡ None },
    ghost slot: { (token.me.0.taken ≡ None → token.me.1 ≡ []) × ((log : _) → token.me.0.taken ≡ Some log → token.me.1 ≡ (0, None) ∷ []) },
}

impl<T: Story> Drop for Seat<T> {
    fn drop(self) {
        let Self {
            token: _,
            first: _,
            end: _,
            left: _,
        } = self;
    }
}
