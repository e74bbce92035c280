//! A list of 1 to 64 entries that may have several owners: a page is one of rows, a node one of pages.
ghost use Rattle.std.specs.Prelude.{◌≡◌, ◌<◌, ◌≤◌, ◌+◌, ◌==◌, ◌++◌, ◌∷◌, [], true, false, length, take, drop, slice_get, IfOk, OnErr};
ghost use Rattle.std.specs.List.{AllByRecursion};
ghost use Rattle.lt_face.specs.Rows.{IsAscending, IsRun};
ghost use Rattle.lt_shared.specs.Entries.{joined, AreAllBelow, AreNoneBelow, IfHalves, IsFirst, IsNear, IsOrNext, IsPut, IsTaken};

use crate::edit::{put_below, take_below};
use crate::entry::{Entry, Listed, Put, Taken};
use crate::search::{has_among, least_among, row_along};
use lt_face::{Fraction, Key, Moves, Near, NoMemory, Row};
use lt_flat::is_below;
use std::alloc::Global;
use std::marker::Model;
use std::sync::Arc;

/// How many entries a list has at most.
pub const LIMIT: usize = 64;

/// A list of 1 to 64 entries.
#[derive(Drop)]
pub struct Level<T: Entry> {
    entries: Arc<Vec<T>>,
}

/// Rows.
pub type Page = Level<Row>;

/// Pages.
pub type Node = Level<Page>;

impl<T: Entry> Model for Level<T> {
    ghost use Rattle.std.specs.Prelude.{List, ◌<◌, ◌≤◌, length};
    ghost use Rattle.std.specs.Arc.{arc_value};

    ghost Value = { List T };

    ghost view = { λ s. (arc_value s.entries).items };

    ghost invariant = { λ s. (0 < length (arc_value s.entries).items) × (length (arc_value s.entries).items ≤ 64) };
}

impl<T: Entry> Level<T> {
    /// The level of these entries.
    pub fn of(alloc: Global, entries: Vec<T>) -> Result<Level<T>, NoMemory>
        requires some { 0 < length entries.items }
        requires bound { length entries.items ≤ 64 }
        ensures { IfOk result (λ level. level ≡ entries.items) }
    {
        let entries = Arc::new(alloc, entries)?;
        Ok(Level { entries })
    }

    /// The entries.
    pub fn entries(&self) -> &[T]
        ensures entries { result.now ≡ self.now }
        ensures some { 0 < length self.now }
    {
        &self.entries
    }

    /// A second owner of the same entries.
    pub fn share(&self) -> Result<Level<T>, NoMemory>
        ensures { IfOk result (λ level. level ≡ self.now) }
    {
        let entries = self.entries.clone()?;
        Ok(Level { entries })
    }

    /// The first row of the first entry.
    fn first_row(&self) -> &Row
        ensures { IsFirst (joined T.rows self.now) result.now }
    {
        let entry = &self.entries[0];
        entry.first()
    }
}

impl<T: Listed> Level<T> {
    /// Puts a row in.
    pub fn put<L>(&mut self, row: &Row, made: &mut Moves<L>) -> Result<Put<Level<T>>, NoMemory>
        requires { IsAscending (joined T.rows self.old) }
        ensures ok { IfOk result (λ put. IsPut (λ level. joined T.rows level) put (joined T.rows self.old) (joined T.rows self.new) row.now) }
        ensures err { OnErr result (joined T.rows self.new ≡ joined T.rows self.old) }
        ensures full { IfOk result (λ put. IfHalves put (λ a b. T.is_many (length self.old) ≡ true)) }
        ensures made { made.new ≤ made.old + T.most }
    {
        let alloc = *self.entries.allocator();
        let put = T::put_among(&mut self.entries, row, made)?;
        match put {
            Put::Was => Ok(Put::Was),
            Put::Fits => Ok(Put::Fits),
            Put::Halves(a, b) => {
                let first = Level::of(alloc, a)?;
                let second = Level::of(alloc, b)?;
                Ok(Put::Halves(first, second))
            }
        }
    }

    /// Takes a row out.
    pub fn take_out<L>(&mut self, row: &Row, made: &mut Moves<L>) -> Result<Taken, NoMemory>
        requires { IsAscending (joined T.rows self.old) }
        ensures ok { IfOk result (λ taken. IsTaken taken (joined T.rows self.old) (joined T.rows self.new) row.now) }
        ensures err { OnErr result (joined T.rows self.new ≡ joined T.rows self.old) }
        ensures made { made.new ≤ made.old + T.most }
    {
        let taken = T::take_among(&mut self.entries, row, made)?;
        Ok(taken)
    }
}

/// Whether the entries before this place lie below the prefix and then the bound: there is none, or the entry there begins below
/// it. Else no row from there on does.
fn is_behind<T: Entry>(entries: &[Level<T>], at: usize, prefix: &[Key], bound: Key) -> bool
    requires rises { IsAscending (joined (λ level. joined T.rows level) entries.now) }
    requires wide { AllByRecursion (λ row. length prefix.now < length row) (joined (λ level. joined T.rows level) entries.now) }
    requires within { at < length entries.now }
    ensures below { result ≡ true → AreAllBelow (prefix.now ++ bound ∷ []) (joined (λ level. joined T.rows level) (take at entries.now)) }
    ensures above { result ≡ false → (0 < at) × AreNoneBelow (prefix.now ++ bound ∷ []) (joined (λ level. joined T.rows level) (drop at entries.now)) }
{
    if at == 0 {
        return true;
    }
    let entry = &entries[at];
    is_below(entry.first_row(), prefix, bound)
}

/// The place of the entry in which the least row that is at least the prefix and then the bound lies, or behind which it begins,
/// where it is known to lie from `low` to `high`.
fn place_between<T: Entry>(
    entries: &[Level<T>],
    mut low: usize,
    mut high: usize,
    prefix: &[Key],
    bound: Key,
) -> usize
    requires rises { IsAscending (joined (λ level. joined T.rows level) entries.now) }
    requires wide { AllByRecursion (λ row. length prefix.now < length row) (joined (λ level. joined T.rows level) entries.now) }
    requires order { low < high }
    requires within { high ≤ length entries.now }
    requires below { AreAllBelow (prefix.now ++ bound ∷ []) (joined (λ level. joined T.rows level) (take low entries.now)) }
    requires above { AreNoneBelow (prefix.now ++ bound ∷ []) (joined (λ level. joined T.rows level) (drop high entries.now)) }
    ensures { IsNear (λ level. joined T.rows level) entries.now (prefix.now ++ bound ∷ []) result }
{
    while high - low > 1 {
        let middle = low + (high - low) / 2;
        if is_behind(entries, middle, prefix, bound) {
            low = middle;
        } else {
            high = middle;
        }
    }
    low
}

/// The place of the entry in which the least row that is at least the prefix and then the bound lies, or behind which it begins,
/// sought from a hint on by strides that double.
fn place_near<T: Entry>(entries: &[Level<T>], hint: usize, prefix: &[Key], bound: Key) -> usize
    requires rises { IsAscending (joined (λ level. joined T.rows level) entries.now) }
    requires wide { AllByRecursion (λ row. length prefix.now < length row) (joined (λ level. joined T.rows level) entries.now) }
    requires some { 0 < length entries.now }
    ensures { IsNear (λ level. joined T.rows level) entries.now (prefix.now ++ bound ∷ []) result }
{
    let all = entries.len();
    let at = hint.min(all - 1);
    if !is_behind(entries, at, prefix, bound) {
        return place_between(entries, 0, at, prefix, bound);
    }
    let mut low = at;
    let mut stride = 1;
    while stride < all - low {
        let next = low + stride;
        if !is_behind(entries, next, prefix, bound) {
            return place_between(entries, low, next, prefix, bound);
        }
        low = next;
        stride *= 2;
    }
    place_between(entries, low, all, prefix, bound)
}

/// What a search in one entry found, else the first rows of the next entry.
fn or_next<'a, T: Entry>(entries: &'a [Level<T>], at: usize, found: &'a [Row]) -> &'a [Row]
    requires within { at < length entries.now }
    requires run { IsRun (joined (λ level. joined T.rows level) entries.now) found.now }
    ensures first { IsOrNext (λ level. joined T.rows level) entries.now at (slice_get found.now 0) (slice_get result.now 0) }
    ensures run { IsRun (joined (λ level. joined T.rows level) entries.now) result.now }
{
    if !found.is_empty() {
        return found;
    }
    if entries.len() - 1 <= at {
        return found;
    }
    let entry = &entries[at + 1];
    T::first_rows(entry.entries())
}

/// The places in the lists of one entry, of the places in a list of entries.
#[inline]
fn below(near: &Near) -> Near {
    Near {
        list: near.list / 64,
        at: near.list % 64,
    }
}

/// The places in the lists of the entry at a place: behind all, where another was searched last.
#[inline]
fn below_at(near: &Near, at: usize) -> Near {
    if at == near.at {
        return below(near);
    }
    Near {
        list: 0,
        at: usize::MAX,
    }
}

/// These places as one number.
#[inline]
fn above(lower: &Near) -> usize {
    lower.list.wrapping_mul(64).wrapping_add(lower.at)
}

impl<T: Entry> Entry for Level<T> {
    ghost rows = { λ s. joined T.rows s };

    fn first(&self) -> &Row {
        self.first_row()
    }

    fn has(&self, row: &Row) -> bool {
        has_among(&self.entries, row)
    }

    fn row_at_least(&self, from: &Row) -> Option<&Row> {
        least_among(&self.entries, from)
    }

    fn first_rows<'a>(entries: &'a [Level<T>]) -> &'a [Row] {
        let entry = &entries[0];
        T::first_rows(entry.entries())
    }

    /// `near.at` is the place in this list, and `near.list` has the places in the lists below it, in digits of 64.
    fn rows_near<'a>(
        entries: &'a [Level<T>],
        near: &mut Near,
        prefix: &[Key],
        bound: Key,
    ) -> &'a [Row] {
        if entries.is_empty() {
            return &[];
        }
        let at = place_near(entries, near.at, prefix, bound);
        let mut lower = below_at(near, at);
        let entry = &entries[at];
        let found = T::rows_near(entry.entries(), &mut lower, prefix, bound);
        near.list = above(&lower);
        near.at = at;
        or_next(entries, at, found)
    }

    fn row_about(&self, along: Fraction) -> &Row {
        row_along(&self.entries, along)
    }

    fn copy_into(&self, list: &mut Vec<Level<T>>) -> Result<(), NoMemory> {
        let same = self.share()?;
        list.push(same)?;
        Ok(())
    }
}

impl<T: Listed> Listed for Level<T> {
    ghost is_many = { λ n. n == 64 };

    ghost most = { 65 + T.most };

    fn put_among<L>(
        entries: &mut Arc<Vec<Level<T>>>,
        row: &Row,
        made: &mut Moves<L>,
    ) -> Result<Put<Vec<Level<T>>>, NoMemory> {
        let put = put_below(entries, row, LIMIT, made)?;
        Ok(put)
    }

    fn take_among<L>(
        entries: &mut Arc<Vec<Level<T>>>,
        row: &Row,
        made: &mut Moves<L>,
    ) -> Result<Taken, NoMemory> {
        let taken = take_below(entries, row, made)?;
        Ok(taken)
    }
}
