//! Ranges of the rows of one index: under a prefix of cells all rows, met or absent, whose next cell lies from one key to below
//! another. What lies below a key and was gone over as a whole is that key in a range of the prefix above.
ghost use Rattle.std.specs.Prelude.{◌≡◌, ◌<◌, ◌≤◌, ◌+◌, ◌-◌, ◌∷◌, ◌++◌, [], true, length, take, slice_get, slice_index, nat_lt, if◌then◌else◌, IfOk, OnOk, OnErr};
ghost use Rattle.lt_face.specs.Keys.{end_key};
ghost use Rattle.lt_face.specs.Limits.{most_columns};
ghost use Rattle.lt_sense.specs.Held.{held};
ghost use Rattle.lt_sense.specs.Spans.{HaveSameRows, HaveAlso, prefix_in, under, stills, ranges_of, IsSpans, IsOfSame, GrowAlike};

use crate::pieces::{Piece, cells_of};
use lt_face::items::Perm;
use lt_face::key::{END, Gap, Key};
use lt_face::memory::NoMemory;
use lt_face::row::Row;
use std::alloc::Global;

/// A range under the prefix of a run.
#[derive(Clone, Copy)]
pub struct Span {
    pub run: usize,
    pub lo: Key,
    pub hi: Key,
}

/// The ranges of one index, as they are gathered: each prefix on the way to where the walk stands has a range that grows.
#[derive(Drop)]
pub struct Spans {
    pub relation: u32,
    pub columns: Perm,
    /// Where the walk stands.
    pub at: Row,
    /// The range that grows there. It is empty where `lo` is `hi`.
    pub lo: Key,
    pub hi: Key,
    /// The ranges that grow under the prefixes above, the shortest first.
    pub above: Vec<Gap>,
    /// The cells of the runs' prefixes.
    pub cells: Vec<Key>,
    pub runs: Vec<Piece>,
    /// The ranges that don't grow any more.
    pub ranges: Vec<Span>,
}

/// Whether this cell stands at this place.
fn has_at(prefix: &[Key], i: usize, cell: Key) -> bool
    ensures within { result ≡ true → i < length prefix.now }
    ensures there { result ≡ true → slice_index prefix.now i ≡ cell }
{
    i < prefix.len() && prefix[i] == cell
}

impl Spans {
    /// None yet, of the rows of this relation with its columns in this order.
    pub(crate) fn new(alloc: Global, relation: u32, columns: Perm) -> Spans
        requires { length columns ≤ most_columns }
        ensures sound { IsSpans result }
        ensures none { HaveSameRows (ranges_of result) [] }
        ensures relation { result.relation ≡ relation }
        ensures columns { result.columns ≡ columns }
        ensures few { held result ≡ 0 }
    {
        Spans {
            relation,
            columns,
            at: Row::from_cells(alloc, &[]),
            lo: 0,
            hi: 0,
            above: Vec::new(alloc),
            cells: Vec::new(alloc),
            runs: Vec::new(alloc),
            ranges: Vec::new(alloc),
        }
    }

    /// Whether the last run is of the first cells of where the walk stands.
    fn is_last_run(&self, depth: usize) -> bool
        requires sound { IsSpans self.now }
        requires within { depth ≤ length self.now.at }
        ensures run { result ≡ true → prefix_in self.now.cells.items (slice_get self.now.runs.items (length self.now.runs.items - 1)) ≡ take depth self.now.at }
        ensures some { result ≡ true → 0 < length self.now.runs.items }
    {
        let count = self.runs.len();
        if count == 0 {
            return false;
        }
        cells_of(&self.cells, self.runs[count - 1]) == &self.at.cells()[..depth]
    }

    /// The run of the first cells of where the walk stands: the last one, where it is of them.
    fn run_for(&mut self, depth: usize) -> Result<usize, NoMemory>
        requires sound { IsSpans self.old }
        requires within { depth ≤ length self.old.at }
        ensures sound { IsSpans self.new }
        ensures alike { GrowAlike self.old self.new }
        ensures stills { stills self.new ≡ stills self.old }
        ensures ranges { self.new.ranges.items ≡ self.old.ranges.items }
        ensures run { IfOk result (λ run. prefix_in self.new.cells.items (slice_get self.new.runs.items run) ≡ take depth self.new.at) }
        ensures there { IfOk result (λ run. run < length self.new.runs.items) }
    {
        let count = self.runs.len();
        if self.is_last_run(depth) {
            return Ok(count - 1);
        }
        let start = self.cells.len();
        self.cells.extend_from_slice(&self.at.cells()[..depth])?;
        self.runs.push(Piece {
            start,
            width: depth,
        })?;
        Ok(count)
    }

    /// Keeps a range under the first cells of where the walk stands. What grows stays as it was.
    pub(crate) fn keep(&mut self, depth: usize, lo: Key, hi: Key) -> Result<(), NoMemory>
        requires sound { IsSpans self.old }
        requires within { depth ≤ length self.old.at }
        ensures sound { IsSpans self.new }
        ensures alike { GrowAlike self.old self.new }
        ensures kept { OnOk result (HaveAlso (stills self.old) (stills self.new) (under self.old (take depth self.old.at) lo hi)) }
        ensures err { OnErr result (stills self.new ≡ stills self.old) }
        ensures few { OnOk result (length self.new.ranges.items ≤ length self.old.ranges.items + (if nat_lt lo hi then 1 else 0)) }
        ensures left { OnErr result (self.new.ranges.items ≡ self.old.ranges.items) }
    {
        if hi <= lo {
            return Ok(());
        }
        let run = self.run_for(depth)?;
        self.ranges.push(Span { run, lo, hi })?;
        Ok(())
    }

    /// Keeps a range that grows above where the walk stands. An empty one stands in its place.
    fn settle_at(&mut self, depth: usize) -> Result<(), NoMemory>
        requires sound { IsSpans self.old }
        requires within { depth < length self.old.at }
        ensures sound { IsSpans self.new }
        ensures same { IsOfSame self.old self.new }
        ensures at { self.new.at ≡ self.old.at }
        ensures here { (self.new.lo ≡ self.old.lo) × (self.new.hi ≡ self.old.hi) }
        ensures rows { HaveSameRows (ranges_of self.new) (ranges_of self.old) }
        ensures few { held self.new ≤ held self.old }
    {
        let gap = self.above[depth];
        if gap.hi <= gap.lo {
            return Ok(());
        }
        self.keep(depth, gap.lo, gap.hi)?;
        self.above[depth] = Gap {
            lo: gap.hi,
            hi: gap.hi,
        };
        Ok(())
    }

    /// Keeps the first ranges that grow above where the walk stands, before one is kept that lies behind them.
    fn settle(&mut self, count: usize) -> Result<(), NoMemory>
        requires sound { IsSpans self.old }
        requires within { count ≤ length self.old.at }
        ensures sound { IsSpans self.new }
        ensures same { IsOfSame self.old self.new }
        ensures at { self.new.at ≡ self.old.at }
        ensures here { (self.new.lo ≡ self.old.lo) × (self.new.hi ≡ self.old.hi) }
        ensures rows { HaveSameRows (ranges_of self.new) (ranges_of self.old) }
        ensures few { held self.new ≤ held self.old }
    {
        for depth in 0..count {
            self.settle_at(depth)?;
        }
        Ok(())
    }

    /// Keeps the range that grows where the walk stands, and another one begins.
    fn begin(&mut self, lo: Key, hi: Key) -> Result<(), NoMemory>
        requires sound { IsSpans self.old }
        requires some { lo < hi }
        ensures sound { IsSpans self.new }
        ensures same { IsOfSame self.old self.new }
        ensures at { self.new.at ≡ self.old.at }
        ensures grown { OnOk result (HaveAlso (ranges_of self.old) (ranges_of self.new) (under self.old self.old.at lo hi)) }
        ensures err { OnErr result (HaveSameRows (ranges_of self.new) (ranges_of self.old)) }
        ensures few { OnOk result (held self.new ≤ held self.old + 1) }
        ensures left { OnErr result (held self.new ≤ held self.old) }
    {
        let depth = self.at.width();
        self.keep(depth, self.lo, self.hi)?;
        self.lo = lo;
        self.hi = hi;
        Ok(())
    }

    /// Adds rows to the range that grows where the walk stands; where they don't adjoin it, it is kept and another one begins.
    pub(crate) fn grow(&mut self, lo: Key, hi: Key) -> Result<(), NoMemory>
        requires sound { IsSpans self.old }
        requires some { lo < hi }
        ensures sound { IsSpans self.new }
        ensures same { IsOfSame self.old self.new }
        ensures at { self.new.at ≡ self.old.at }
        ensures grown { OnOk result (HaveAlso (ranges_of self.old) (ranges_of self.new) (under self.old self.old.at lo hi)) }
        ensures err { OnErr result (HaveSameRows (ranges_of self.new) (ranges_of self.old)) }
        ensures few { OnOk result (held self.new ≤ held self.old + 1) }
        ensures left { OnErr result (held self.new ≤ held self.old) }
    {
        if self.hi == lo {
            self.hi = hi;
            return Ok(());
        }
        if self.lo <= lo && hi <= self.hi {
            return Ok(());
        }
        if self.hi <= self.lo {
            return self.begin(lo, hi);
        }
        let depth = self.at.width();
        self.settle(depth)?;
        self.begin(lo, hi)
    }

    /// Whether all below the last cell of where the walk stands was gone over, and a key is to say so.
    fn is_whole(&self) -> bool
        ensures below { result ≡ true → 0 < length self.now.at }
        ensures above { result ≡ true → length self.now.at < length self.now.columns }
        ensures all { result ≡ true → (self.now.lo ≡ 0) × (self.now.hi ≡ end_key) }
        ensures key { result ≡ true → slice_index self.now.at (length self.now.at - 1) < end_key }
    {
        let depth = self.at.width();
        if depth == 0 || depth >= self.columns.len() {
            return false;
        }
        self.lo == 0 && self.hi == END && self.at.cell(depth - 1) < END
    }

    /// Goes back up from the last cell, all below which was gone over: it goes into the range above.
    fn fold(&mut self) -> Result<(), NoMemory>
        requires sound { IsSpans self.old }
        requires below { 0 < length self.old.at }
        requires above { length self.old.at < length self.old.columns }
        requires all { (self.old.lo ≡ 0) × (self.old.hi ≡ end_key) }
        requires key { slice_index self.old.at (length self.old.at - 1) < end_key }
        ensures sound { IsSpans self.new }
        ensures same { IsOfSame self.old self.new }
        ensures at { OnOk result (self.new.at ≡ take (length self.old.at - 1) self.old.at) }
        ensures rows { HaveSameRows (ranges_of self.new) (ranges_of self.old) }
        ensures few { held self.new ≤ held self.old }
    {
        let depth = self.at.width();
        let key = self.at.cell(depth - 1);
        let gap = self.above[depth - 1];
        let mut lo = gap.lo;
        if gap.hi != key {
            self.keep(depth - 1, gap.lo, gap.hi)?;
            lo = key;
        }
        self.above.pop();
        self.at.pop();
        self.lo = lo;
        self.hi = key + 1;
        Ok(())
    }

    /// The same, where a range that is kept then stands behind those that were.
    fn rise_whole(&mut self) -> Result<(), NoMemory>
        requires sound { IsSpans self.old }
        requires below { 0 < length self.old.at }
        requires above { length self.old.at < length self.old.columns }
        requires all { (self.old.lo ≡ 0) × (self.old.hi ≡ end_key) }
        requires key { slice_index self.old.at (length self.old.at - 1) < end_key }
        ensures sound { IsSpans self.new }
        ensures same { IsOfSame self.old self.new }
        ensures at { OnOk result (self.new.at ≡ take (length self.old.at - 1) self.old.at) }
        ensures rows { HaveSameRows (ranges_of self.new) (ranges_of self.old) }
        ensures few { held self.new ≤ held self.old }
    {
        let depth = self.at.width();
        let gap = self.above[depth - 1];
        if gap.hi == self.at.cell(depth - 1) {
            return self.fold();
        }
        self.settle(depth - 1)?;
        self.fold()
    }

    /// Goes back up from the last cell; the range that grew below it is kept.
    fn step_up(&mut self) -> Result<(), NoMemory>
        requires sound { IsSpans self.old }
        requires below { 0 < length self.old.at }
        ensures sound { IsSpans self.new }
        ensures same { IsOfSame self.old self.new }
        ensures at { OnOk result (self.new.at ≡ take (length self.old.at - 1) self.old.at) }
        ensures rows { HaveSameRows (ranges_of self.new) (ranges_of self.old) }
        ensures few { held self.new ≤ held self.old }
    {
        let depth = self.at.width();
        let gap = self.above[depth - 1];
        self.keep(depth, self.lo, self.hi)?;
        self.above.pop();
        self.at.pop();
        self.lo = gap.lo;
        self.hi = gap.hi;
        Ok(())
    }

    /// Goes back up from the last cell.
    fn rise(&mut self) -> Result<(), NoMemory>
        requires sound { IsSpans self.old }
        requires below { 0 < length self.old.at }
        ensures sound { IsSpans self.new }
        ensures same { IsOfSame self.old self.new }
        ensures at { OnOk result (self.new.at ≡ take (length self.old.at - 1) self.old.at) }
        ensures rows { HaveSameRows (ranges_of self.new) (ranges_of self.old) }
        ensures few { held self.new ≤ held self.old }
    {
        if self.is_whole() {
            return self.rise_whole();
        }
        if self.hi <= self.lo {
            return self.step_up();
        }
        let depth = self.at.width();
        self.settle(depth)?;
        self.step_up()
    }

    /// Goes below a key.
    fn sink(&mut self, key: Key) -> Result<(), NoMemory>
        requires sound { IsSpans self.old }
        requires room { length self.old.at < most_columns }
        ensures sound { IsSpans self.new }
        ensures same { IsOfSame self.old self.new }
        ensures at { OnOk result (self.new.at ≡ self.old.at ++ key ∷ []) }
        ensures rows { HaveSameRows (ranges_of self.new) (ranges_of self.old) }
        ensures few { held self.new ≤ held self.old }
    {
        self.above.push(Gap {
            lo: self.lo,
            hi: self.hi,
        })?;
        self.at.push(key);
        self.lo = 0;
        self.hi = 0;
        Ok(())
    }

    /// How many cells of the prefix the walk goes on with.
    fn shared(&self, prefix: &[Key]) -> usize
        ensures here { result ≤ length self.now.at }
        ensures there { result ≤ length prefix.now }
        ensures same { take result self.now.at ≡ take result prefix.now }
    {
        let width = self.at.width();
        for i in 0..width {
            if !has_at(prefix, i, self.at.cell(i)) {
                return i;
            }
        }
        width
    }

    /// Goes back up to where as many cells are left.
    pub(crate) fn rise_to(&mut self, depth: usize) -> Result<(), NoMemory>
        requires sound { IsSpans self.old }
        requires within { depth ≤ length self.old.at }
        ensures sound { IsSpans self.new }
        ensures same { IsOfSame self.old self.new }
        ensures at { OnOk result (self.new.at ≡ take depth self.old.at) }
        ensures rows { HaveSameRows (ranges_of self.new) (ranges_of self.old) }
        ensures few { held self.new ≤ held self.old }
    {
        for _ in depth..self.at.width() {
            self.rise()?;
        }
        Ok(())
    }

    /// Goes down to a prefix, of which it has as many cells.
    fn sink_to(&mut self, prefix: &[Key], depth: usize) -> Result<(), NoMemory>
        requires sound { IsSpans self.old }
        requires narrow { length prefix.now ≤ most_columns }
        requires within { depth ≤ length prefix.now }
        requires at { self.old.at ≡ take depth prefix.now }
        ensures sound { IsSpans self.new }
        ensures same { IsOfSame self.old self.new }
        ensures at { OnOk result (self.new.at ≡ prefix.now) }
        ensures rows { HaveSameRows (ranges_of self.new) (ranges_of self.old) }
        ensures few { held self.new ≤ held self.old }
    {
        for i in depth..prefix.len() {
            self.sink(prefix[i])?;
        }
        Ok(())
    }

    /// Adds the rows that begin with the prefix and whose next cell lies from `lo` to below `hi`. Want of memory leaves all rows as
    /// they were.
    pub(crate) fn add(&mut self, prefix: &[Key], lo: Key, hi: Key) -> Result<(), NoMemory>
        requires sound { IsSpans self.old }
        requires narrow { length prefix.now ≤ most_columns }
        requires some { lo < hi }
        ensures sound { IsSpans self.new }
        ensures same { IsOfSame self.old self.new }
        ensures added { OnOk result (HaveAlso (ranges_of self.old) (ranges_of self.new) (under self.old prefix.now lo hi)) }
        ensures err { OnErr result (HaveSameRows (ranges_of self.new) (ranges_of self.old)) }
        ensures few { OnOk result (held self.new ≤ held self.old + 1) }
        ensures left { OnErr result (held self.new ≤ held self.old) }
    {
        let depth = self.shared(prefix);
        self.rise_to(depth)?;
        self.sink_to(prefix, depth)?;
        self.grow(lo, hi)
    }
}
