//! A number that only clauses read. It takes no bytes, and code cannot ask for it.
ghost use Rattle.std.specs.Prelude.{◌≡◌, ℕ, ◌+◌};
ghost use Rattle.std.specs.Borrow.{ftrue};

use std::marker::Model;

/// A number that stands in clauses alone.
#[derive(Drop)]
pub struct Count {
    pub ghost number: { ℕ },
}

impl Model for Count {
    ghost also_owns = { λ _. ftrue };
}

impl Count {
    pub(crate) fn zero() -> Count
        ensures { result.number ≡ 0 }
    {
        Count {}
    }

    pub(crate) fn one() -> Count
        ensures { result.number ≡ 1 }
    {
        Count {}
    }

    pub(crate) fn sum(_a: &Count, _b: &Count) -> Count
        ensures { result.number ≡ _a.now.number + _b.now.number }
    {
        Count {}
    }
}
