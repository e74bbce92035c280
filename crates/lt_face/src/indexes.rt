//! What a join reads: for a relation and an order of its columns, the rows in that order.
ghost use Rattle.std.specs.Prelude.{◌≡◌, ℕ, List, Bool, is_some, IfSome};
ghost use Rattle.lt_face.specs.State.{State, IsIndexOf};

use crate::items::Perm;
use crate::row_set::RowReads;

/// The indexes of a state: of each relation some orders of its columns, and for each the rows in that order.
pub trait Indexes {
    type Rows: RowReads;

    /// The relations, by number.
    ghost state: { Self → State };

    /// Whether a relation has an index with its columns in this order.
    ghost has_index: { Self → ℕ → List ℕ → Bool };

    /// The rows of a relation, each with its cells in the order of the columns, or None where there is no such index.
    fn index(&self, relation: u32, perm: &Perm) -> Option<&Self::Rows>
        ensures there { is_some result ≡ has_index self.now relation perm.now }
        ensures rows { IfSome result (λ found. IsIndexOf (state self.now) relation perm.now (Self.Rows.width_of found.now) (Self.Rows.rows found.now)) };
}
