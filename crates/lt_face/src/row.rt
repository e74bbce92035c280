//! Rows: short lists of cells, in lexicographic order.
ghost use Rattle.std.specs.Prelude.{◌≡◌, ◌+◌, ◌<◌, ◌≤◌, [], ◌∷◌, ◌++◌, length, slice_index, IsSome, ◌↔◌, ◌-◌, take, nat_eq, Some};
ghost use Rattle.std.specs.Option.{option_to_list};
ghost use Rattle.std.specs.Ordering.{nat_cmp};
ghost use Rattle.std.specs.Cmp.{partial_equiv_from_equiv};
ghost use Rattle.std.specs.Cmp.Lexicographic.{pointwise, slice_cmp, nat_list_eq_equiv, nat_list_cmp_total, texts_po, texts_ties};
ghost use Rattle.lt_face.specs.Limits.{most_columns};

use crate::cells::{are_equal, order};
use crate::key::Key;
use crate::limits::MOST_COLUMNS;
use std::alloc::Global;
use std::cmp::Ordering;
use std::fmt;
use std::marker::Model;

/// At most eight cells, which lie in the value itself, so that a row takes no memory. Rows are ordered by the first cell
/// that differs, and a row comes before those that it begins.
#[derive(Drop)]
pub struct Row {
    cells: [Key; MOST_COLUMNS],
    width: usize,
}

impl Model for Row {
    ghost use Rattle.std.specs.Prelude.{◌≤◌, ℕ, List, take};
    ghost use Rattle.lt_face.specs.Limits.{most_columns};

    ghost Value = { List ℕ };

    ghost view = { λ r. take r.width r.cells };

    ghost invariant = { λ r. r.width ≤ most_columns };
}

impl Row {
    /// The row of these cells. It takes nothing from the allocator.
    pub fn from_cells(_alloc: Global, cells: &[Key]) -> Row
        requires { length cells.now ≤ most_columns }
        ensures { result ≡ cells.now }
    {
        let mut all = [0; MOST_COLUMNS];
        for i in 0..cells.len() {
            all[i] = cells[i];
        }
        Row {
            cells: all,
            width: cells.len(),
        }
    }

    /// How many cells there are.
    pub fn width(&self) -> usize
        ensures value { result ≡ length self.now }
        ensures bound { result ≤ most_columns }
    {
        self.width
    }

    /// The cell in column `i`, from 0.
    pub fn cell(&self, i: usize) -> Key
        requires { i < length self.now }
        ensures { result ≡ slice_index self.now i }
    {
        self.cells()[i]
    }

    /// All cells.
    pub fn cells(&self) -> &[Key]
        ensures cells { result.now ≡ self.now }
        ensures bound { length self.now ≤ most_columns }
    {
        &self.cells[..self.width]
    }

    /// An equal row.
    pub fn copy_row(&self) -> Row
        ensures { result ≡ self.now }
    {
        Row {
            cells: self.cells,
            width: self.width,
        }
    }

    /// Adds a cell at the end. The row has fewer than eight.
    pub fn push(&mut self, cell: Key)
        requires { length self.old < most_columns }
        ensures { self.new ≡ self.old ++ cell ∷ [] }
    {
        self.cells[self.width] = cell;
        self.width += 1;
    }

    /// Takes the last cell off, where there is one.
    pub fn pop(&mut self) -> Option<Key>
        ensures cells { self.old ≡ self.new ++ option_to_list result }
        ensures some { IsSome result ↔ (0 < length self.old) }
        ensures rest { self.new ≡ take (length self.old - 1) self.old }
    {
        if self.width == 0 {
            return None;
        }
        self.width -= 1;
        Some(self.cells[self.width])
    }
}

impl PartialEq for Row {
    ghost eq = { pointwise nat_eq };

    ghost laws = { partial_equiv_from_equiv nat_list_eq_equiv };

    fn eq(&self, other: &Row) -> bool {
        are_equal(self.cells(), other.cells())
    }
}

impl Eq for Row {
    ghost laws = { nat_list_eq_equiv };
}

impl PartialOrd for Row {
    ghost partial_cmp = { λ v w. Some (slice_cmp nat_cmp v w) };

    ghost laws = { texts_po };

    fn partial_cmp(&self, other: &Row) -> Option<Ordering> {
        Some(order(self.cells(), other.cells()))
    }
}

impl Ord for Row {
    ghost cmp = { slice_cmp nat_cmp };

    ghost total = { nat_list_cmp_total };

    ghost matches_partial_cmp = { λ v w i. Some (slice_cmp nat_cmp v w) };

    ghost matches_eq = { texts_ties };

    fn cmp(&self, other: &Row) -> Ordering {
        order(self.cells(), other.cells())
    }
}

impl fmt::Debug for Row {
    fn fmt<W: fmt::Write>(&self, f: &mut fmt::Formatter<W>) -> fmt::Result {
        f.debug_list().entries(self.cells()).finish()
    }
}
