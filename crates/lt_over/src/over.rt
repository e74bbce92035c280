//! `Over`, and what it does as a set of rows.
ghost use Rattle.std.specs.Prelude.{◌≡◌, ◌≤◌, length, IfOk, OnOk, OnErr};
ghost use Rattle.lt_face.specs.Rows.{IsRow};
ghost use Rattle.lt_shared.specs.Shared.{root_rows};
ghost use Rattle.lt_over.specs.Edits.{edited, is_change};
ghost use Rattle.lt_over.specs.Layers.{under};

use crate::about::near_either;
use crate::counting::{count_lacked, count_staying};
use crate::edits::{has_over, has_room, put_row};
use crate::layer::Layer;
use crate::many::{put_all, take_all};
use crate::run::run_under;
use crate::search::least_from;
use lt_face::{Fraction, Key, Near, NoMemory, Row, RowList, RowReads, RowSet};
use lt_shared::SharedRows;
use std::alloc::Global;
use std::marker::Model;

/// A set of rows with a layer of edits laid over it, which is edited in place. Sets share the base and the edits.
#[derive(Drop)]
pub struct Over<B: RowSet> {
    base: B,
    layer: Layer,
    most: usize,
}

impl<B: RowSet> Model for Over<B> {
    ghost use Rattle.std.specs.Prelude.{◌≡◌, ◌+◌, ◌<◌, ◌≤◌, ◌^◌, length};
    ghost use Rattle.lt_face.specs.State.{Relation};
    ghost use Rattle.lt_over.specs.Layers.{under};

    ghost Value = { Relation };

    ghost view = { λ s. record { width = B.width_of s.base; rows = under (B.rows s.base) s.layer } };

    ghost invariant = { λ s.
        (s.layer.width ≡ B.width_of s.base)
        × (s.most + length s.layer.come < 2 ^ 64)
        × (length (B.rows s.base) ≤ s.most) };
}

impl<B: RowSet> Over<B> {
    /// The set with more edits laid over it, as one layer with its own.
    pub(crate) fn laid_by(&self, more: &Layer) -> Result<Over<B>, NoMemory>
        requires { more.now.width ≡ self.now.width }
        ensures rows { IfOk result (λ set. set.rows ≡ under self.now.rows more.now) }
        ensures width { IfOk result (λ set. set.width ≡ self.now.width) }
    {
        let _width = self.base.width();
        let layer = Layer::and_then(&self.layer, more)?;
        if !has_room(self.most, layer.come().len()) {
            return Err(NoMemory);
        }
        let base = self.base.share()?;
        Ok(Over {
            base,
            layer,
            most: self.most,
        })
    }
}

/// So many edits stay over pages that other sets share; where there are more, all of them are made in pages.
const FEW: usize = 16;

/// Puts a row into a set, or takes it out. Answers whether that changed the set. Want of memory changes nothing.
fn edit_set<S: RowSet>(set: &mut S, row: &Row, plus: bool) -> Result<bool, NoMemory>
    requires { IsRow (S.width_of set.old) row.now }
    ensures rows { OnOk result (S.rows set.new ≡ edited (S.rows set.old) row.now plus) }
    ensures changed { IfOk result (λ changed. changed ≡ is_change (S.rows set.old) row.now plus) }
    ensures err { OnErr result (S.rows set.new ≡ S.rows set.old) }
    ensures width { S.width_of set.new ≡ S.width_of set.old }
{
    if plus {
        let new = set.insert(row.copy_row())?;
        return Ok(new);
    }
    let there = set.remove(row)?;
    Ok(there)
}

impl Over<SharedRows> {
    /// The same rows in pages. A page is copied at its first edit; those on which no edit is laid are shared with the base.
    fn merged(&self) -> Result<SharedRows, NoMemory>
        ensures rows { IfOk result (λ set. root_rows set.nodes ≡ self.now.rows) }
        ensures width { IfOk result (λ set. set.width ≡ self.now.width) }
    {
        let _width = self.base.width();
        let _width = self.layer.width();
        let mut set = self.base.share()?;
        take_all(&mut set, self.layer.gone().as_slice())?;
        put_all(&mut set, self.layer.come().as_slice())?;
        Ok(set)
    }

    /// Makes all edits in the pages. The rows stay what they are.
    fn sink(&mut self) -> Result<(), NoMemory>
        ensures { self.new ≡ self.old }
    {
        let layer = Layer::none(self.base.allocator(), self.base.width())?;
        let base = self.merged()?;
        self.most = base.len();
        self.base = base;
        self.layer = layer;
        Ok(())
    }

    /// Makes an edit over the pages. Where the edits become many they are all made in the pages. After want of memory the rows may
    /// be either.
    fn edit_over(&mut self, row: &Row, plus: bool) -> Result<bool, NoMemory>
        requires { IsRow self.old.width row.now }
        ensures rows { OnOk result (self.new.rows ≡ edited self.old.rows row.now plus) }
        ensures changed { IfOk result (λ changed. changed ≡ is_change self.old.rows row.now plus) }
        ensures width { self.new.width ≡ self.old.width }
    {
        let few = self.layer.len() <= FEW;
        let changed = edit_set(self, row, plus)?;
        if few && self.layer.len() > FEW {
            self.sink()?;
        }
        Ok(changed)
    }

    /// Puts a row in, or takes it out. Answers whether that changed the set. It is done in the pages where they are this set's own.
    /// After want of memory the rows may be either.
    pub(crate) fn edit(&mut self, row: &Row, plus: bool) -> Result<bool, NoMemory>
        requires { IsRow self.old.width row.now }
        ensures rows { OnOk result (self.new.rows ≡ edited self.old.rows row.now plus) }
        ensures changed { IfOk result (λ changed. changed ≡ is_change self.old.rows row.now plus) }
        ensures width { self.new.width ≡ self.old.width }
    {
        if self.layer.is_bare() && self.base.is_own() {
            let changed = edit_set(&mut self.base, row, plus)?;
            self.most = self.base.len();
            return Ok(changed);
        }
        self.edit_over(row, plus)
    }
}

impl<B: RowSet> RowReads for Over<B> {
    ghost rows = { λ s. s.rows };

    ghost width_of = { λ s. s.width };

    fn width(&self) -> usize {
        let _width = self.layer.width();
        self.base.width()
    }

    /// Takes a look-up in the base for each row that is laid over it.
    fn len(&self) -> usize {
        let _width = self.base.width();
        let _width = self.layer.width();
        let gone = self.layer.gone();
        let come = self.layer.come();
        let put = count_lacked(&self.base, come.as_slice());
        let taken = count_staying(&self.base, come, gone.as_slice());
        self.base.len() + put - taken
    }

    fn has(&self, row: &Row) -> bool {
        has_over(&self.base, &self.layer, row)
    }

    fn row_at_least(&self, from: &Row) -> Option<&Row> {
        let _width = self.base.width();
        let _width = self.layer.width();
        let first = self.base.row_at_least(from);
        let more = self.layer.come().row_at_least(from);
        let mut near = Near::start();
        least_from(&self.base, &self.layer, &mut near, first, more)
    }

    #[inline(always)]
    fn rows_near(&self, near: &mut Near, prefix: &[Key], bound: Key) -> &[Row] {
        let _width = self.base.width();
        let _width = self.layer.width();
        let run = self.base.rows_near(near, prefix, bound);
        if self.layer.is_bare() {
            return run;
        }
        run_under(&self.base, &self.layer, near, run, prefix, bound)
    }

    fn row_about(&self, along: Fraction) -> Option<&Row> {
        match near_either(&self.base, self.most, self.layer.come(), along) {
            Some(row) => self.row_at_least(row),
            None => None,
        }
    }
}

impl<B: RowSet> RowSet for Over<B> {
    fn empty(alloc: Global, width: usize) -> Result<Over<B>, NoMemory> {
        let base = B::empty(alloc, width)?;
        let most = base.len();
        let layer = Layer::none(alloc, width)?;
        Ok(Over { base, layer, most })
    }

    fn from_sorted(width: usize, rows: RowList) -> Result<Over<B>, NoMemory> {
        let alloc = rows.allocator();
        let base = B::from_sorted(width, rows)?;
        let most = base.len();
        let layer = Layer::none(alloc, width)?;
        Ok(Over { base, layer, most })
    }

    fn insert(&mut self, row: Row) -> Result<bool, NoMemory> {
        let _width = self.base.width();
        if has_over(&self.base, &self.layer, &row) {
            return Ok(false);
        }
        put_row(self.most, &mut self.layer, row)?;
        Ok(true)
    }

    fn remove(&mut self, row: &Row) -> Result<bool, NoMemory> {
        let _width = self.base.width();
        let _width = self.layer.width();
        if !has_over(&self.base, &self.layer, row) {
            return Ok(false);
        }
        self.layer.take(row)?;
        Ok(true)
    }

    fn share(&self) -> Result<Over<B>, NoMemory> {
        let base = self.base.share()?;
        let layer = self.layer.share()?;
        Ok(Over {
            base,
            layer,
            most: self.most,
        })
    }
}
