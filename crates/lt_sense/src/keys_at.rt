//! Rows of which the cells are keys of a walk.
ghost use Rattle.std.specs.Prelude.{◌≡◌, ℕ, ◌<◌, ◌≤◌, length, map};
ghost use Rattle.std.specs.List.{AllByRecursion};
ghost use Rattle.lt_face.specs.Limits.{most_columns};

use lt_face::key::Key;
use lt_face::row::Row;
use std::alloc::Global;

/// The keys of a walk's levels so far.
pub trait KeysAt {
    /// The key of each level.
    ghost key: { Self → ℕ → ℕ };

    /// How many levels have one.
    ghost count: { Self → ℕ };

    /// The key of a level.
    fn key_at(&self, level: usize) -> Key
        requires { level < count self.now }
        ensures { result ≡ key self.now level };
}

/// The row that has, in each column, the key of the level that its place says.
pub fn row_of<K: KeysAt>(alloc: Global, places: &[usize], keys: &K) -> Row
    requires narrow { length places.now ≤ most_columns }
    requires there { AllByRecursion (λ l. l < K.count keys.now) places.now }
    ensures { result ≡ map (K.key keys.now) places.now }
{
    let mut row = Row::from_cells(alloc, &[]);
    for place in places {
        row.push(keys.key_at(*place));
    }
    row
}
