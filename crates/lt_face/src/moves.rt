//! `Moves`: the count that bounds on joins speak of.
ghost use Rattle.std.specs.Prelude.{◌≡◌, ℕ, ◌+◌};

use crate::count::Count;
use std::marker::{Model, PhantomData};

/// How many moves were made. Only clauses read the number. `L` tells apart counts that must not be mixed. Beside it the moves are
/// counted as the program runs, modulo 2^64, for those who ask how dear something was.
#[derive(Drop)]
pub struct Moves<L> {
    of: PhantomData<L>,
    count: Count,
    ticks: u64,
}

impl<L> Model for Moves<L> {
    ghost Value = { ℕ };

    ghost view = { λ m. m.count.number };
}

impl<L> Moves<L> {
    /// No move yet.
    pub fn new() -> Moves<L>
        ensures { result ≡ 0 }
    {
        Moves {
            of: PhantomData,
            count: Count::zero(),
            ticks: 0,
        }
    }

    /// Counts one move.
    pub fn tick(&mut self)
        ensures { self.new ≡ self.old + 1 }
    {
        self.count = Count::sum(&self.count, &Count::one());
        self.ticks = self.ticks.wrapping_add(1);
    }

    /// Counts another's moves too.
    pub fn add(&mut self, other: Moves<L>)
        ensures { self.new ≡ self.old + other }
    {
        self.count = Count::sum(&self.count, &other.count);
        self.ticks = self.ticks.wrapping_add(other.ticks);
    }

    /// About how many moves were made. No clause speaks of it.
    pub fn ticks(&self) -> u64 {
        self.ticks
    }
}
