//! `Shelf`: rows of a set in a sorted vector that sets may share.
ghost use Rattle.std.specs.Prelude.{◌≡◌, ◌<◌, ◌≤◌, [], length, option_map, IfOk, OnOk, OnErr};
ghost use Rattle.std.specs.Arc.{arc_value};
ghost use Rattle.std.specs.List.{insert, remove};
ghost use Rattle.lt_flat.specs.Flat.{on_shelf};

use crate::list::{insert_at, remove_at};
use lt_face::{NoMemory, Row};
use std::alloc::Global;
use std::marker::Model;
use std::sync::Arc;

/// Rows in a vector behind an `Arc`. There is no vector where there are no rows, so that these take no memory.
#[derive(Drop)]
pub(crate) struct Shelf {
    alloc: Global,
    rows: Option<Arc<Vec<Row>>>,
}

impl Model for Shelf {
    ghost use Rattle.std.specs.Prelude.{List, option_map};
    ghost use Rattle.std.specs.Arc.{arc_value};
    ghost use Rattle.lt_face.specs.State.{Row};
    ghost use Rattle.lt_flat.specs.Flat.{on_shelf};

    ghost Value = { List Row };

    ghost view = { λ s. on_shelf (option_map arc_value s.rows) };
}

/// Puts a row in at a place, with a vector of its own where it is the first.
fn put(
    alloc: Global,
    shelf: &mut Option<Arc<Vec<Row>>>,
    at: usize,
    row: Row,
) -> Result<(), NoMemory>
    requires { at ≤ length (on_shelf (option_map arc_value shelf.old)) }
    ensures ok { OnOk result (on_shelf (option_map arc_value shelf.new) ≡ insert (on_shelf (option_map arc_value shelf.old)) at row) }
    ensures err { OnErr result (on_shelf (option_map arc_value shelf.new) ≡ on_shelf (option_map arc_value shelf.old)) }
{
    match shelf {
        Some(rows) => {
            insert_at(rows, at, row)?;
            Ok(())
        }
        None => {
            let mut rows = Vec::with_capacity(alloc, 1)?;
            rows.push(row)?;
            let rows = Arc::new(alloc, rows)?;
            *shelf = Some(rows);
            Ok(())
        }
    }
}

impl Shelf {
    /// No rows.
    pub(crate) fn empty(alloc: Global) -> Shelf
        ensures { result ≡ [] }
    {
        Shelf { alloc, rows: None }
    }

    /// The rows of a vector.
    pub(crate) fn of(rows: Vec<Row>) -> Result<Shelf, NoMemory>
        ensures { IfOk result (λ shelf. shelf ≡ rows.items) }
    {
        let alloc = *rows.allocator();
        if rows.is_empty() {
            return Ok(Shelf { alloc, rows: None });
        }
        let rows = Arc::new(alloc, rows)?;
        Ok(Shelf {
            alloc,
            rows: Some(rows),
        })
    }

    /// The rows in order.
    #[inline]
    pub(crate) fn as_slice(&self) -> &[Row]
        ensures { result.now ≡ self.now }
    {
        match &self.rows {
            Some(rows) => rows,
            None => &[],
        }
    }

    /// Where the rows' memory comes from.
    pub(crate) fn allocator(&self) -> Global {
        self.alloc
    }

    /// A second owner of the same rows.
    pub(crate) fn share(&self) -> Result<Shelf, NoMemory>
        ensures { IfOk result (λ same. same ≡ self.now) }
    {
        match &self.rows {
            Some(rows) => {
                let rows = rows.clone()?;
                Ok(Shelf {
                    alloc: self.alloc,
                    rows: Some(rows),
                })
            }
            None => Ok(Shelf {
                alloc: self.alloc,
                rows: None,
            }),
        }
    }

    /// Puts a row in at a place: in a copy, where the rows have another owner.
    pub(crate) fn insert(&mut self, at: usize, row: Row) -> Result<(), NoMemory>
        requires { at ≤ length self.old }
        ensures ok { OnOk result (self.new ≡ insert self.old at row) }
        ensures err { OnErr result (self.new ≡ self.old) }
    {
        put(self.alloc, &mut self.rows, at, row)?;
        Ok(())
    }

    /// Takes the row at a place out: of a copy, where the rows have another owner.
    pub(crate) fn remove(&mut self, at: usize) -> Result<(), NoMemory>
        requires { at < length self.old }
        ensures ok { OnOk result (self.new ≡ remove self.old at) }
        ensures err { OnErr result (self.new ≡ self.old) }
    {
        match &mut self.rows {
            Some(rows) => {
                remove_at(rows, at)?;
                Ok(())
            }
            None => Ok(()),
        }
    }
}
