//! Rows that were read of a table, in the order in which they go into a relation.
use lt_face::NoMemory;
use lt_face::key::Key;
use std::alloc::Global;

/// Rows of so many cells each, and the order in which they go in.
#[derive(Drop)]
pub struct TableRows {
    cells: Vec<Key>,
    width: usize,
    // Whether the first two columns are key columns, or only the first.
    pairs: bool,
    // The first key cells of each row, and its number.
    order: Vec<(Key, Key, usize)>,
}

impl TableRows {
    /// No rows, for a relation of so many columns, of which so many are key columns.
    pub fn new(alloc: Global, width: usize, keys: u32) -> TableRows {
        TableRows {
            cells: Vec::new(alloc),
            width,
            pairs: keys > 1,
            order: Vec::new(alloc),
        }
    }

    /// How many rows there are.
    pub fn len(&self) -> usize {
        self.order.len()
    }

    /// Takes a row more.
    pub fn add(&mut self, cells: &[Key]) -> Result<(), NoMemory> {
        let first = cells.first().copied().unwrap_or(0);
        let second = if self.pairs {
            cells.get(1).copied().unwrap_or(0)
        } else {
            0
        };
        self.cells.extend_from_slice(cells)?;
        self.order.push((first, second, self.order.len()))?;
        Ok(())
    }

    /// Orders the rows by their first cells, as a set of rows has them: then each of its pages is written once, and not again by
    /// each batch. Rows of one key stay in the order of the table, so that the last of them is the one that is kept.
    pub fn sort(&mut self) -> Result<(), NoMemory> {
        self.order.sort()?;
        Ok(())
    }

    /// The row that goes in as this one, from 0.
    pub fn row(&self, place: usize) -> &[Key] {
        let number = match self.order.get(place) {
            Some(row) => row.2,
            None => self.order.len(),
        };
        let start = number.saturating_mul(self.width);
        let (_, behind) = self.cells.as_slice().split_at(start.min(self.cells.len()));
        let (row, _) = behind.split_at(self.width.min(behind.len()));
        row
    }
}
