//! `SharedRows`, and what it does as a set of rows.
ghost use Rattle.std.specs.Prelude.{◌≡◌, ◌≤◌, ◌+◌, ◌/◌, length, not, IfOk, OnOk, OnErr};
ghost use Rattle.std.specs.Arc.{arc_value};
ghost use Rattle.lt_face.specs.Limits.{most_columns};
ghost use Rattle.lt_face.specs.Rows.{IsRow, IsRowSet, has_row, with_row, without_row};
ghost use Rattle.lt_shared.specs.Shared.{root_rows, IsGrown};

use crate::building::nodes_of;
use crate::entry::Entry;
use crate::level::Node;
use crate::root::{put_in, take_from};
use crate::search::{has_among, least_among, row_along};
use lt_face::{Fraction, Key, Moves, Near, NoMemory, Row, RowList, RowReads, RowSet};
use std::alloc::Global;
use std::marker::Model;
use std::sync::Arc;

/// A set of rows in three levels of lists: a root of nodes, a node of 1 to 64 pages, a page of 1 to 64 rows. Sets share
/// what they have in common: an edit copies the root's list, one node and one page (or halves of it), where they have another owner.
#[derive(Drop)]
pub struct SharedRows {
    width: usize,
    count: usize,
    nodes: Arc<Vec<Node>>,
}

impl Model for SharedRows {
    ghost use Rattle.std.specs.Prelude.{◌≡◌, ◌≤◌, length};
    ghost use Rattle.std.specs.Arc.{arc_value};
    ghost use Rattle.lt_face.specs.Limits.{most_columns};
    ghost use Rattle.lt_face.specs.Rows.{IsRowSet};
    ghost use Rattle.lt_shared.specs.Shared.{SharedView, root_rows};

    ghost Value = { SharedView };

    ghost view = { λ s. record { width = s.width; nodes = (arc_value s.nodes).items } };

    ghost invariant = { λ s. (s.width ≤ most_columns) × IsRowSet s.width (root_rows (arc_value s.nodes).items) × (s.count ≡ length (root_rows (arc_value s.nodes).items)) };
}

/// Whether the list has one owner.
fn has_one_owner(list: &mut Arc<Vec<Node>>) -> bool
    ensures { arc_value list.new ≡ arc_value list.old }
{
    match Arc::get_mut(list) {
        Some(_own) => true,
        None => false,
    }
}

impl SharedRows {
    /// How many nodes the root has.
    pub fn nodes(&self) -> usize
        ensures { result ≡ length self.now.nodes }
    {
        self.nodes.len()
    }

    /// What the set takes its memory from.
    pub fn allocator(&self) -> Global {
        *self.nodes.allocator()
    }

    /// Whether no other set has the root's list, so that an edit is made in it. No clause speaks of it.
    pub fn is_own(&mut self) -> bool
        ensures { self.new ≡ self.old }
    {
        has_one_owner(&mut self.nodes)
    }

    /// Adds a row, and answers whether it was new. `made` counts the entries that are put into lists.
    pub fn put<L>(&mut self, row: Row, made: &mut Moves<L>) -> Result<bool, NoMemory>
        requires { IsRow self.old.width row }
        ensures ok { OnOk result (root_rows self.new.nodes ≡ with_row (root_rows self.old.nodes) row) }
        ensures new { IfOk result (λ new. new ≡ not (has_row (root_rows self.old.nodes) row)) }
        ensures err { OnErr result (root_rows self.new.nodes ≡ root_rows self.old.nodes) }
        ensures width { self.new.width ≡ self.old.width }
        ensures made { made.new ≤ made.old + length self.old.nodes + 132 }
        ensures grows { IsGrown self.old.nodes self.new.nodes }
    {
        let count = match self.count.checked_add(1) {
            Some(count) => count,
            None => return Err(NoMemory),
        };
        let new = put_in(&mut self.nodes, &row, made)?;
        if new {
            self.count = count;
        }
        Ok(new)
    }

    /// Removes a row, and answers whether it was there. `made` counts the entries that are put into lists.
    pub fn take_out<L>(&mut self, row: &Row, made: &mut Moves<L>) -> Result<bool, NoMemory>
        ensures ok { OnOk result (root_rows self.new.nodes ≡ without_row (root_rows self.old.nodes) row.now) }
        ensures there { IfOk result (λ there. there ≡ has_row (root_rows self.old.nodes) row.now) }
        ensures err { OnErr result (root_rows self.new.nodes ≡ root_rows self.old.nodes) }
        ensures width { self.new.width ≡ self.old.width }
        ensures made { made.new ≤ made.old + length self.old.nodes + 132 }
        ensures shrinks { length self.new.nodes ≤ length self.old.nodes }
    {
        let there = take_from(&mut self.nodes, row, made)?;
        if there {
            self.count = self.count.saturating_sub(1);
        }
        Ok(there)
    }
}

impl RowReads for SharedRows {
    ghost rows = { λ s. root_rows s.nodes };

    ghost width_of = { λ s. s.width };

    fn width(&self) -> usize {
        self.width
    }

    fn len(&self) -> usize {
        self.count
    }

    fn has(&self, row: &Row) -> bool {
        has_among(&self.nodes, row)
    }

    fn row_at_least(&self, from: &Row) -> Option<&Row> {
        least_among(&self.nodes, from)
    }

    fn rows_near(&self, near: &mut Near, prefix: &[Key], bound: Key) -> &[Row] {
        Node::rows_near(&self.nodes, near, prefix, bound)
    }

    fn row_about(&self, along: Fraction) -> Option<&Row> {
        if self.nodes.is_empty() {
            return None;
        }
        let row = row_along(&self.nodes, along);
        Some(row)
    }
}

impl RowSet for SharedRows {
    fn empty(alloc: Global, width: usize) -> Result<SharedRows, NoMemory> {
        let nodes = Arc::new(alloc, Vec::new(alloc))?;
        Ok(SharedRows {
            width,
            count: 0,
            nodes,
        })
    }

    /// The set of these rows. Its pages are full, and its nodes too, but for the last.
    fn from_sorted(width: usize, rows: RowList) -> Result<SharedRows, NoMemory>
        requires narrow { width ≤ most_columns }
        requires sorted { IsRowSet width rows }
        ensures rows { IfOk result (λ set. root_rows set.nodes ≡ rows) }
        ensures width { IfOk result (λ set. set.width ≡ width) }
        ensures nodes { IfOk result (λ set. length set.nodes ≡ (length rows + 4095) / 4096) }
    {
        let alloc = rows.allocator();
        let count = rows.len();
        let nodes = nodes_of(alloc, rows.into_vec())?;
        let nodes = Arc::new(alloc, nodes)?;
        Ok(SharedRows {
            width,
            count,
            nodes,
        })
    }

    fn insert(&mut self, row: Row) -> Result<bool, NoMemory> {
        let mut made = Moves::<()>::new();
        let new = self.put(row, &mut made)?;
        Ok(new)
    }

    fn remove(&mut self, row: &Row) -> Result<bool, NoMemory> {
        let mut made = Moves::<()>::new();
        let there = self.take_out(row, &mut made)?;
        Ok(there)
    }

    fn share(&self) -> Result<SharedRows, NoMemory> {
        let nodes = self.nodes.clone()?;
        Ok(SharedRows {
            width: self.width,
            count: self.count,
            nodes,
        })
    }
}
