//! `Entry` and `Listed`: what is asked of the entries of a list, and of a list of them. A row is the least entry.
ghost use Rattle.std.specs.Prelude.{◌≡◌, ◌<◌, ◌≤◌, ◌+◌, ℕ, Bool, true, List, [], ◌∷◌, ◌++◌, length, slice_get, IfOk, OnOk, OnErr};
ghost use Rattle.std.specs.List.{AllByRecursion};
ghost use Rattle.std.specs.Option.{option_copied};
ghost use Rattle.std.specs.Arc.{arc_value};
ghost use Rattle.lt_face.specs.Rows.{IsAscending, IsRun, has_row, first_from};
ghost use Rattle.lt_shared.specs.Entries.{joined, AreParts, IsFirst, IsPut, IsTaken, IfHalves, Shrinks};

use lt_face::{Fraction, Key, Moves, Near, NoMemory, Row};
use lt_flat::place_near;
use std::sync::Arc;

/// How a row went into an entry, or into a list of entries.
#[derive(Drop)]
pub enum Put<T> {
    /// It was there.
    Was,
    /// It is in the entry now.
    Fits,
    /// The entry is as it was. These two together, which have the row, are to stand in its place.
    Halves(T, T),
}

/// How a row went out of an entry, or out of a list of entries.
#[derive(Drop)]
pub enum Taken {
    /// It was not there.
    Missing,
    /// It is out of the entry.
    Out,
    /// It is the entry's last row. The entry is as it was, and is to go.
    Last,
}

/// An entry of an ascending list of rows. It has at least one.
pub trait Entry: Sized + Drop {
    /// The rows.
    ghost rows: { Self → List (List ℕ) };

    /// The first row.
    fn first(&self) -> &Row
        ensures { IsFirst (rows self.now) result.now };

    /// Whether the entry has the row.
    fn has(&self, row: &Row) -> bool
        requires { IsAscending (rows self.now) }
        ensures { result ≡ has_row (rows self.now) row.now };

    /// The least row that is at least `from`.
    fn row_at_least(&self, from: &Row) -> Option<&Row>
        requires { IsAscending (rows self.now) }
        ensures { option_copied result ≡ first_from (rows self.now) from.now };

    /// Rows of the first page of a list of entries: from its first row on.
    fn first_rows<'a>(entries: &'a [Self]) -> &'a [Row]
        requires { 0 < length entries.now }
        ensures some { 0 < length result.now }
        ensures first { slice_get result.now 0 ≡ slice_get (joined rows entries.now) 0 }
        ensures run { IsRun (joined rows entries.now) result.now };

    /// The least row of a list of entries that is at least the prefix and then the bound, and the rows behind it in its page. The
    /// search begins where `near` says.
    fn rows_near<'a>(entries: &'a [Self], near: &mut Near, prefix: &[Key], bound: Key) -> &'a [Row]
        requires rises { IsAscending (joined rows entries.now) }
        requires wide { AllByRecursion (λ row. length prefix.now < length row) (joined rows entries.now) }
        ensures first { slice_get result.now 0 ≡ first_from (joined rows entries.now) (prefix.now ++ bound ∷ []) }
        ensures run { IsRun (joined rows entries.now) result.now };

    /// A row about so far along the entry.
    fn row_about(&self, along: Fraction) -> &Row
        ensures { has_row (rows self.now) result.now ≡ true };

    /// Puts the same entry at the end of a list.
    fn copy_into(&self, list: &mut Vec<Self>) -> Result<(), NoMemory>
        ensures { OnOk result (list.new.items ≡ list.old.items ++ self.now ∷ []) };
}

/// An entry of a page or of a node: a list of such entries can be edited.
pub trait Listed: Entry {
    /// Whether a list of so many may be parted in two.
    ghost is_many: { ℕ → Bool };

    /// The most entries that one edit of a list of at most 64 puts into lists.
    ghost most: { ℕ };

    /// Puts a row in.
    fn put_among<L>(
        entries: &mut Arc<Vec<Self>>,
        row: &Row,
        made: &mut Moves<L>,
    ) -> Result<Put<Vec<Self>>, NoMemory>
        requires rises { IsAscending (joined Self.rows (arc_value entries.old).items) }
        requires some { 0 < length (arc_value entries.old).items }
        requires bound { length (arc_value entries.old).items ≤ 64 }
        ensures ok { IfOk result (λ put. IsPut (λ v. joined Self.rows v.items) put (joined Self.rows (arc_value entries.old).items) (joined Self.rows (arc_value entries.new).items) row.now) }
        ensures err { OnErr result (joined Self.rows (arc_value entries.new).items ≡ joined Self.rows (arc_value entries.old).items) }
        ensures some { 0 < length (arc_value entries.new).items }
        ensures bound { length (arc_value entries.new).items ≤ 64 }
        ensures many { IfOk result (λ put. IfHalves put (λ a b. is_many (length (arc_value entries.old).items) ≡ true)) }
        ensures halves { IfOk result (λ put. IfHalves put (λ a b. AreParts (length (arc_value entries.old).items) (length a.items) (length b.items))) }
        ensures made { made.new ≤ made.old + most };

    /// Takes a row out.
    fn take_among<L>(
        entries: &mut Arc<Vec<Self>>,
        row: &Row,
        made: &mut Moves<L>,
    ) -> Result<Taken, NoMemory>
        requires rises { IsAscending (joined Self.rows (arc_value entries.old).items) }
        requires some { 0 < length (arc_value entries.old).items }
        requires bound { length (arc_value entries.old).items ≤ 64 }
        ensures ok { IfOk result (λ taken. IsTaken taken (joined Self.rows (arc_value entries.old).items) (joined Self.rows (arc_value entries.new).items) row.now) }
        ensures err { OnErr result (joined Self.rows (arc_value entries.new).items ≡ joined Self.rows (arc_value entries.old).items) }
        ensures shrinks { Shrinks (arc_value entries.old).items (arc_value entries.new).items }
        ensures made { made.new ≤ made.old + most };
}

impl Entry for Row {
    ghost rows = { λ r. r ∷ [] };

    fn first(&self) -> &Row {
        self
    }

    fn has(&self, row: &Row) -> bool {
        self.cmp(row).is_eq()
    }

    fn row_at_least(&self, from: &Row) -> Option<&Row> {
        if self.cmp(from).is_lt() {
            None
        } else {
            Some(self)
        }
    }

    fn first_rows<'a>(entries: &'a [Row]) -> &'a [Row] {
        entries
    }

    fn rows_near<'a>(entries: &'a [Row], near: &mut Near, prefix: &[Key], bound: Key) -> &'a [Row] {
        let at = place_near(entries, near.at, prefix, bound);
        near.at = at;
        &entries[at..]
    }

    fn row_about(&self, _along: Fraction) -> &Row {
        self
    }

    fn copy_into(&self, list: &mut Vec<Row>) -> Result<(), NoMemory> {
        list.push(self.copy_row())?;
        Ok(())
    }
}
