//! `FlatRows`, and what it does as a set of rows.
ghost use Rattle.std.specs.Prelude.{◌≡◌, fold, IfOk};
ghost use Rattle.lt_face.specs.Rows.{IsRowSet, with_row};
ghost use Rattle.lt_flat.specs.Flat.{kept};

use crate::list::{place_from, place_near, row_along, search};
use crate::merging::{remaining, united};
use crate::shelf::Shelf;
use lt_face::{Fraction, Key, Near, NoMemory, Row, RowList, RowReads, RowSet};
use std::alloc::Global;
use std::marker::Model;

/// A set of rows: a sorted vector that sets may share, or none where there are no rows. An edit of a set that is its
/// vector's only owner is made in place, and costs a move of the rows behind it; any other copies the vector first.
#[derive(Drop)]
pub struct FlatRows {
    width: usize,
    rows: Shelf,
}

impl Model for FlatRows {
    ghost use Rattle.std.specs.Prelude.{◌≤◌};
    ghost use Rattle.lt_face.specs.Limits.{most_columns};
    ghost use Rattle.lt_face.specs.Rows.{IsRowSet};
    ghost use Rattle.lt_face.specs.State.{Relation};

    ghost Value = { Relation };

    ghost view = { λ s. record { width = s.width; rows = s.rows } };

    ghost invariant = { λ s. (s.width ≤ most_columns) × IsRowSet s.width s.rows };
}

impl FlatRows {
    /// The rows, ascending.
    pub fn as_slice(&self) -> &[Row]
        ensures rows { result.now ≡ self.now.rows }
        ensures is_set { IsRowSet self.now.width self.now.rows }
    {
        self.rows.as_slice()
    }

    /// The rows that one of the two has, or both. Where one has none, the other's vector is shared.
    pub fn union(&self, more: &FlatRows) -> Result<FlatRows, NoMemory>
        requires { more.now.width ≡ self.now.width }
        ensures rows { IfOk result (λ set. set.rows ≡ fold with_row self.now.rows more.now.rows) }
        ensures width { IfOk result (λ set. set.width ≡ self.now.width) }
    {
        let _rows = more.as_slice();
        if self.len() == 0 {
            let same = more.share()?;
            return Ok(same);
        }
        if more.len() == 0 {
            let same = self.share()?;
            return Ok(same);
        }
        let rows = united(
            self.rows.allocator(),
            self.rows.as_slice(),
            more.rows.as_slice(),
        )?;
        let rows = Shelf::of(rows)?;
        Ok(FlatRows {
            width: self.width,
            rows,
        })
    }

    /// The rows that the other lacks. Where that has none, the vector is shared.
    pub fn difference(&self, less: &FlatRows) -> Result<FlatRows, NoMemory>
        ensures rows { IfOk result (λ set. set.rows ≡ kept self.now.rows less.now.rows) }
        ensures width { IfOk result (λ set. set.width ≡ self.now.width) }
    {
        if less.len() == 0 {
            let same = self.share()?;
            return Ok(same);
        }
        let rows = remaining(
            self.rows.allocator(),
            self.rows.as_slice(),
            less.rows.as_slice(),
        )?;
        let rows = Shelf::of(rows)?;
        Ok(FlatRows {
            width: self.width,
            rows,
        })
    }
}

impl RowReads for FlatRows {
    ghost rows = { λ s. s.rows };

    ghost width_of = { λ s. s.width };

    fn width(&self) -> usize {
        self.width
    }

    fn len(&self) -> usize {
        self.rows.as_slice().len()
    }

    fn has(&self, row: &Row) -> bool {
        search(self.rows.as_slice(), row).is_ok()
    }

    fn row_at_least(&self, from: &Row) -> Option<&Row> {
        let rows = self.rows.as_slice();
        rows.get(place_from(rows, from))
    }

    fn rows_near(&self, near: &mut Near, prefix: &[Key], bound: Key) -> &[Row] {
        let rows = self.rows.as_slice();
        let place = place_near(rows, near.at, prefix, bound);
        near.at = place;
        &rows[place..]
    }

    fn row_about(&self, along: Fraction) -> Option<&Row> {
        row_along(self.rows.as_slice(), along)
    }
}

impl RowSet for FlatRows {
    fn empty(alloc: Global, width: usize) -> Result<FlatRows, NoMemory> {
        Ok(FlatRows {
            width,
            rows: Shelf::empty(alloc),
        })
    }

    fn from_sorted(width: usize, rows: RowList) -> Result<FlatRows, NoMemory> {
        let rows = Shelf::of(rows.into_vec())?;
        Ok(FlatRows { width, rows })
    }

    fn insert(&mut self, row: Row) -> Result<bool, NoMemory> {
        match search(self.rows.as_slice(), &row) {
            Ok(_) => Ok(false),
            Err(at) => {
                self.rows.insert(at, row)?;
                Ok(true)
            }
        }
    }

    fn remove(&mut self, row: &Row) -> Result<bool, NoMemory> {
        match search(self.rows.as_slice(), row) {
            Ok(at) => {
                self.rows.remove(at)?;
                Ok(true)
            }
            Err(_) => Ok(false),
        }
    }

    fn share(&self) -> Result<FlatRows, NoMemory> {
        let rows = self.rows.share()?;
        Ok(FlatRows {
            width: self.width,
            rows,
        })
    }
}
