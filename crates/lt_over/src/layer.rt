//! `Layer`: edits of a set of rows.
ghost use Rattle.std.specs.Prelude.{◌≡◌, ◌≤◌, [], List, length, IfOk, IsTrue, OnOk, OnErr};
ghost use Rattle.lt_face.specs.Limits.{most_columns};
ghost use Rattle.lt_face.specs.Rows.{IsAscending, IsRow, IsRowSet, has_row, with_row, without_row};
ghost use Rattle.lt_face.specs.State.{Row as RowView};
ghost use Rattle.lt_over.specs.Layers.{IsLayer, under};

use crate::edits::take_row;
use lt_face::{Items, Key, NoMemory, Row, RowList, RowReads, RowSet};
use lt_flat::FlatRows;
use std::alloc::Global;
use std::marker::Model;

/// Rows that go from a set, and then rows that come into it.
#[derive(Drop)]
pub struct Layer {
    gone: FlatRows,
    come: FlatRows,
}

impl Model for Layer {
    ghost use Rattle.std.specs.Prelude.{◌≡◌};
    ghost use Rattle.lt_over.specs.Layers.{Edits};

    ghost Value = { Edits };

    ghost view = { λ l. record { width = l.gone.width; gone = l.gone.rows; come = l.come.rows } };

    ghost invariant = { λ l. l.come.width ≡ l.gone.width };
}

impl Layer {
    /// The layer of these rows, each list ascending.
    pub(crate) fn new(width: usize, gone: RowList, come: RowList) -> Result<Layer, NoMemory>
        requires narrow { width ≤ most_columns }
        requires gone { IsRowSet width gone }
        requires come { IsRowSet width come }
        ensures { IfOk result (λ layer. layer ≡ record { width = width; gone = gone; come = come }) }
    {
        let gone = FlatRows::from_sorted(width, gone)?;
        let come = FlatRows::from_sorted(width, come)?;
        Ok(Layer { gone, come })
    }

    /// The layer that changes nothing.
    pub(crate) fn none(alloc: Global, width: usize) -> Result<Layer, NoMemory>
        requires { width ≤ most_columns }
        ensures { IfOk result (λ layer. layer ≡ record { width = width; gone = []; come = [] }) }
    {
        let layer = Layer::new(width, Items::new(alloc), Items::new(alloc))?;
        Ok(layer)
    }

    /// A second owner of the same rows.
    pub(crate) fn share(&self) -> Result<Layer, NoMemory>
        ensures { IfOk result (λ same. same ≡ self.now) }
    {
        let gone = self.gone.share()?;
        let come = self.come.share()?;
        Ok(Layer { gone, come })
    }

    /// Whether no row goes or comes.
    pub(crate) fn is_bare(&self) -> bool
        ensures gone { IsTrue result → self.now.gone ≡ [] }
        ensures come { IsTrue result → self.now.come ≡ [] }
    {
        self.gone.len() == 0 && self.come.len() == 0
    }

    /// How many rows go and come.
    pub(crate) fn len(&self) -> usize {
        self.gone.len().saturating_add(self.come.len())
    }

    /// One more row comes. Want of memory changes nothing.
    pub(crate) fn put(&mut self, row: Row) -> Result<(), NoMemory>
        requires { IsRow self.old.width row }
        ensures ok { OnOk result (self.new ≡ record { width = self.old.width; gone = self.old.gone; come = with_row self.old.come row }) }
        ensures err { OnErr result (self.new ≡ self.old) }
    {
        self.come.insert(row)?;
        Ok(())
    }

    /// One more row goes, be it one that came or not. Want of memory leaves what the layer does as it was.
    pub(crate) fn take(&mut self, row: &Row) -> Result<(), NoMemory>
        requires { IsRow self.old.width row.now }
        ensures ok { OnOk result ((rows : List RowView) → IsAscending rows → under rows self.new ≡ without_row (under rows self.old) row.now) }
        ensures err { OnErr result ((rows : List RowView) → IsAscending rows → under rows self.new ≡ under rows self.old) }
        ensures fewer { length self.new.come ≤ length self.old.come }
        ensures width { self.new.width ≡ self.old.width }
    {
        take_row(&mut self.gone, &mut self.come, row)?;
        Ok(())
    }

    /// How many cells each row has.
    pub(crate) fn width(&self) -> usize
        ensures value { result ≡ self.now.width }
        ensures is_layer { IsLayer self.now.width self.now }
    {
        let _rows = self.come.as_slice();
        let _rows = self.gone.as_slice();
        self.gone.width()
    }

    /// The rows that go.
    pub(crate) fn gone(&self) -> &FlatRows
        ensures width { result.now.width ≡ self.now.width }
        ensures rows { result.now.rows ≡ self.now.gone }
    {
        &self.gone
    }

    /// The rows that come.
    pub(crate) fn come(&self) -> &FlatRows
        ensures width { result.now.width ≡ self.now.width }
        ensures rows { result.now.rows ≡ self.now.come }
    {
        &self.come
    }

    /// Whether the row goes.
    pub(crate) fn takes(&self, row: &Row) -> bool
        ensures { result ≡ has_row self.now.gone row.now }
    {
        self.gone.has(row)
    }

    /// Whether the row comes.
    pub(crate) fn puts(&self, row: &Row) -> bool
        ensures { result ≡ has_row self.now.come row.now }
    {
        self.come.has(row)
    }

    /// One layer in place of two.
    pub(crate) fn and_then(first: &Layer, second: &Layer) -> Result<Layer, NoMemory>
        requires { second.now.width ≡ first.now.width }
        ensures width { IfOk result (λ layer. layer.width ≡ first.now.width) }
        ensures rows { IfOk result (λ layer. (rows : List RowView) → IsAscending rows → under rows layer ≡ under (under rows first.now) second.now) }
    {
        let gone = first.gone.union(&second.gone)?;
        let left = first.come.difference(&second.gone)?;
        let come = left.union(&second.come)?;
        Ok(Layer { gone, come })
    }
}
