//! `SharedOver`: rows in pages with edits laid over them.
ghost use Rattle.std.specs.Prelude.{◌≡◌, IfOk, OnOk};
ghost use Rattle.lt_face.specs.Rows.{IsRow, IsRowSet};
ghost use Rattle.lt_over.specs.Edits.{edited, is_change};
ghost use Rattle.lt_over.specs.Overlaid.{overlaid};

use crate::layer::Layer;
use crate::over::Over;
use lt_face::{Fraction, Key, Near, NoMemory, Row, RowList, RowReads, RowSet};
use lt_shared::SharedRows;
use std::alloc::Global;
use std::marker::Model;

/// Rows in pages with edits over them, made in place: a few that stay there until they are many, or those that marks make at once.
#[derive(Drop)]
pub struct SharedOver {
    set: Over<SharedRows>,
}

impl Model for SharedOver {
    ghost use Rattle.lt_face.specs.State.{Relation};

    ghost Value = { Relation };

    ghost view = { λ s. s.set };
}

impl SharedOver {
    /// Puts a row in, or takes it out, in place: what other sets have, too, is copied once. Answers whether that changed the set. After
    /// want of memory the rows may be either.
    pub fn edit(&mut self, row: &Row, plus: bool) -> Result<bool, NoMemory>
        requires { IsRow self.old.width row.now }
        ensures rows { OnOk result (self.new.rows ≡ edited self.old.rows row.now plus) }
        ensures changed { IfOk result (λ changed. changed ≡ is_change self.old.rows row.now plus) }
        ensures width { self.new.width ≡ self.old.width }
    {
        self.set.edit(row, plus)
    }

    /// The set without some rows, and then with others, each list ascending, laid over its pages at once.
    pub fn laid(&self, gone: RowList, come: RowList) -> Result<SharedOver, NoMemory>
        requires gone { IsRowSet self.now.width gone }
        requires come { IsRowSet self.now.width come }
        ensures rows { IfOk result (λ set. set.rows ≡ overlaid self.now.rows gone come) }
        ensures width { IfOk result (λ set. set.width ≡ self.now.width) }
    {
        let layer = Layer::new(self.set.width(), gone, come)?;
        let set = self.set.laid_by(&layer)?;
        Ok(SharedOver { set })
    }
}

impl RowReads for SharedOver {
    ghost rows = { λ s. s.rows };

    ghost width_of = { λ s. s.width };

    fn width(&self) -> usize {
        self.set.width()
    }

    fn len(&self) -> usize {
        self.set.len()
    }

    fn has(&self, row: &Row) -> bool {
        self.set.has(row)
    }

    fn row_at_least(&self, from: &Row) -> Option<&Row> {
        self.set.row_at_least(from)
    }

    #[inline(always)]
    fn rows_near(&self, near: &mut Near, prefix: &[Key], bound: Key) -> &[Row] {
        self.set.rows_near(near, prefix, bound)
    }

    fn row_about(&self, along: Fraction) -> Option<&Row> {
        self.set.row_about(along)
    }
}

impl RowSet for SharedOver {
    fn empty(alloc: Global, width: usize) -> Result<SharedOver, NoMemory> {
        let set = Over::empty(alloc, width)?;
        Ok(SharedOver { set })
    }

    fn from_sorted(width: usize, rows: RowList) -> Result<SharedOver, NoMemory> {
        let set = Over::from_sorted(width, rows)?;
        Ok(SharedOver { set })
    }

    fn insert(&mut self, row: Row) -> Result<bool, NoMemory> {
        let new = self.set.insert(row)?;
        Ok(new)
    }

    fn remove(&mut self, row: &Row) -> Result<bool, NoMemory> {
        let there = self.set.remove(row)?;
        Ok(there)
    }

    fn share(&self) -> Result<SharedOver, NoMemory> {
        let set = self.set.share()?;
        Ok(SharedOver { set })
    }
}
