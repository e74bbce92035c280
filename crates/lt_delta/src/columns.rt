//! `Columns`: the columns of an index, and rows with their cells in this order.
ghost use Rattle.std.specs.Prelude.{◌≡◌, ◌<◌, ◌≤◌, ◌++◌, [], ◌∷◌, length};
ghost use Rattle.std.specs.List.{AllByRecursion};
ghost use Rattle.lt_face.specs.Limits.{most_columns};
ghost use Rattle.lt_face.specs.State.{permuted};

use lt_face::limits::MOST_COLUMNS;
use lt_face::row::Row;
use std::alloc::Global;
use std::marker::Model;

/// Column numbers, from 0, at most eight, which lie in the value itself. They keep the allocator of the lists beside them.
#[derive(Drop)]
pub struct Columns {
    alloc: Global,
    columns: [u32; MOST_COLUMNS],
    count: usize,
}

impl Model for Columns {
    ghost use Rattle.std.specs.Prelude.{◌≤◌, ℕ, List, take};
    ghost use Rattle.lt_face.specs.Limits.{most_columns};

    ghost Value = { List ℕ };

    ghost view = { λ c. take c.count c.columns };

    ghost invariant = { λ c. c.count ≤ most_columns };
}

impl Columns {
    /// No columns.
    pub fn new(alloc: Global) -> Columns
        ensures { result ≡ [] }
    {
        Columns {
            alloc,
            columns: [0; MOST_COLUMNS],
            count: 0,
        }
    }

    /// The columns of a list.
    pub fn from_slice(alloc: Global, columns: &[u32]) -> Columns
        requires { length columns.now ≤ most_columns }
        ensures { result ≡ columns.now }
    {
        let mut all = [0; MOST_COLUMNS];
        for i in 0..columns.len() {
            all[i] = columns[i];
        }
        Columns {
            alloc,
            columns: all,
            count: columns.len(),
        }
    }

    /// One more column. There are fewer than eight.
    pub fn push(&mut self, column: u32)
        requires { length self.old < most_columns }
        ensures { self.new ≡ self.old ++ column ∷ [] }
    {
        self.columns[self.count] = column;
        self.count += 1;
    }

    /// The same columns.
    pub fn copy(&self) -> Columns
        ensures { result ≡ self.now }
    {
        Columns {
            alloc: self.alloc,
            columns: self.columns,
            count: self.count,
        }
    }

    /// The columns in order.
    pub fn as_slice(&self) -> &[u32]
        ensures { result.now ≡ self.now }
    {
        &self.columns[..self.count]
    }

    /// How many columns there are.
    pub fn len(&self) -> usize
        ensures { result ≡ length self.now }
    {
        self.count
    }

    /// What the lists beside the columns take their memory from.
    pub fn allocator(&self) -> Global {
        self.alloc
    }
}

/// The row's cells in the order of the columns.
pub fn permuted_row(alloc: Global, columns: &[u32], row: &Row) -> Row
    requires few { length columns.now ≤ most_columns }
    requires within { AllByRecursion (λ c. c < length row.now) columns.now }
    ensures { result ≡ permuted columns.now row.now }
{
    let mut cells = Row::from_cells(alloc, &[]);
    for column in columns {
        cells.push(row.cell(*column as usize));
    }
    cells
}
