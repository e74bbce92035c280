//! A row looked up among the ranges of an index that stand in order, by halves. A step compares the row with one range.
ghost use Rattle.std.specs.Prelude.{◌≡◌, ◌<◌, ◌≤◌, ◌+◌, ◌^◌, ℕ, [], length, OnOk};
ghost use Rattle.lt_face.specs.Lists.{AreInOrder};
ghost use Rattle.lt_sense.specs.Apart.{stands, still_in, IsApart};
ghost use Rattle.lt_sense.specs.Held.{held};
ghost use Rattle.lt_sense.specs.Spans.{have, stills, ranges_of, HaveSameRows, IsOfSame, IsSpans};

use crate::covering::cells_in;
use crate::pieces::cells_of;
use crate::spans::{Span, Spans};
use lt_face::key::Key;
use lt_face::memory::NoMemory;
use lt_face::moves::Moves;
use lt_face::row::Row;
use std::cmp::Ordering;

/// How the rows that begin with the prefix, with a next cell from `lo` to below `hi`, stand to a row of these cells.
fn stands_to(prefix: &[Key], lo: Key, hi: Key, cells: &[Key]) -> Ordering
    ensures { result ≡ stands prefix.now lo hi cells.now }
{
    for i in 0..prefix.len() {
        if i >= cells.len() {
            return Ordering::Greater;
        }
        let cell = cells[i];
        if prefix[i] < cell {
            return Ordering::Less;
        }
        if cell < prefix[i] {
            return Ordering::Greater;
        }
    }
    if cells.len() <= prefix.len() {
        return Ordering::Greater;
    }
    let next = cells[prefix.len()];
    if next < lo {
        return Ordering::Greater;
    }
    if next < hi {
        return Ordering::Equal;
    }
    Ordering::Less
}

impl Spans {
    /// Nothing grows any more: all rows are in ranges that are kept.
    pub(crate) fn close(&mut self) -> Result<(), NoMemory>
        requires sound { IsSpans self.old }
        ensures sound { IsSpans self.new }
        ensures same { IsOfSame self.old self.new }
        ensures rows { HaveSameRows (ranges_of self.new) (ranges_of self.old) }
        ensures kept { OnOk result (HaveSameRows (stills self.new) (ranges_of self.old)) }
        ensures ended { OnOk result ((self.new.at ≡ []) × (self.new.hi ≤ self.new.lo)) }
        ensures few { held self.new ≤ held self.old }
    {
        self.rise_to(0)?;
        self.keep(0, self.lo, self.hi)?;
        self.lo = 0;
        self.hi = 0;
        Ok(())
    }

    /// How a range stands to a row of these cells.
    fn span_stands(&self, span: Span, cells: &Row) -> Ordering
        requires sound { IsSpans self.now }
        requires there { span.run < length self.now.runs.items }
        ensures { result ≡ stands (still_in self.now span).prefix span.lo span.hi cells.now }
    {
        let run = self.runs[span.run];
        let prefix = cells_of(&self.cells, run);
        stands_to(prefix, span.lo, span.hi, cells.cells())
    }

    /// Whether one of those that don't grow has the row, where they stand in order.
    pub(crate) fn has_ordered<L>(&self, row: &Row, steps: &mut Moves<L>) -> bool
        requires sound { IsSpans self.now }
        requires ordered { AreInOrder IsApart (stills self.now) }
        ensures value { result ≡ have (stills self.now) self.now.relation row.now }
        ensures steps { (d : ℕ) → length self.now.ranges.items < 2 ^ d → steps.new ≤ steps.old + d }
    {
        let cells = cells_in(*self.cells.allocator(), self.columns.as_slice(), row);
        let mut low = 0;
        let mut high = self.ranges.len();
        'halves: while low < high {
            let half = (high - low) / 2;
            let middle = low + half;
            steps.tick();
            let place = self.span_stands(self.ranges[middle], &cells);
            match place {
                Ordering::Less => low = middle + 1,
                Ordering::Equal => return true,
                Ordering::Greater => high = middle,
            }
        }
        false
    }
}
