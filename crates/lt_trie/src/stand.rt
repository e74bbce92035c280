//! Places among rows of a set that follow one another, and the moves within one level. A move reads the rows at hand, and searches the
//! set only past these.
ghost use Rattle.std.specs.Prelude.{◌≡◌, ◌≢◌, ◌<◌, ◌≤◌, ◌+◌, [], ◌∷◌, ◌++◌, length, take, slice_index_or};
ghost use Rattle.std.specs.List.{AllByRecursion};
ghost use Rattle.lt_face.specs.Keys.{end_key};
ghost use Rattle.lt_trie.specs.Stand.{cell_at, IsCut, IsStand, IsLanded};

use crate::run::{cell_in, count_under, place_behind};
use lt_face::{END, Key, Near, Row, RowReads};

/// A place among rows of the set that follow one another and begin with one prefix: that of the first of them.
#[derive(Clone, Copy)]
pub(crate) struct Stand<'a> {
    pub run: &'a [Row],
    /// Behind the last row with the first row's key, where that is known, and else 0.
    pub end: usize,
    /// Whether the set has no row with the prefix behind these.
    pub is_whole: bool,
}

/// A place, and where the last search of the set ended.
#[derive(Clone, Copy)]
pub(crate) struct Place<'a> {
    pub stand: Stand<'a>,
    pub near: Near,
}

/// Nowhere.
#[inline]
pub(crate) fn nowhere<'a>() -> Stand<'a> {
    Stand {
        run: &[],
        end: 0,
        is_whole: true,
    }
}

/// The cells before a column and the cell in it, of the row at the place.
#[inline(always)]
pub(crate) fn cells_at<'a>(stand: &Stand<'a>, column: usize) -> (&'a [Key], Key)
    requires { column < length (slice_index_or stand.now.run.now 0 []) }
    ensures prefix { result.0.now ≡ take column (slice_index_or stand.now.run.now 0 []) }
    ensures key { result.1 ≡ cell_at stand.now.run.now 0 column }
{
    let run = stand.run;
    let cells = run[0].cells();
    (&cells[..column], cells[column])
}

/// Goes to the least key at or above the bound by a search of the set.
pub(crate) fn land<'a, R: RowReads>(
    rows: &'a R,
    place: &mut Place<'a>,
    prefix: &[Key],
    bound: Key,
) -> Key
    requires { length prefix.now < R.width_of rows.now }
    ensures { IsLanded (R.rows rows.now) prefix.now bound result place.new.stand.run.now place.new.stand.end place.new.stand.is_whole }
{
    let _ = rows.width();
    let run = rows.rows_near(&mut place.near, prefix, bound);
    let count = count_under(run, prefix);
    place.stand.run = &run[..count];
    place.stand.end = 0;
    place.stand.is_whole = count < run.len();
    if count == 0 {
        return END;
    }
    cell_in(&run[0], prefix.len())
}

/// Goes to the least key at or above the bound, which no row at hand has.
fn go_past<'a, R: RowReads>(rows: &'a R, place: &mut Place<'a>, prefix: &[Key], bound: Key) -> Key
    requires deep { length prefix.now < R.width_of rows.now }
    requires stand { IsStand (R.rows rows.now) prefix.now (cell_at place.old.stand.run.now 0 (length prefix.now)) place.old.stand.run.now place.old.stand.end place.old.stand.is_whole }
    requires above { cell_at place.old.stand.run.now 0 (length prefix.now) < bound }
    requires cut { IsCut place.old.stand.run.now (length prefix.now) bound (length place.old.stand.run.now) }
    ensures { IsLanded (R.rows rows.now) prefix.now bound result place.new.stand.run.now place.new.stand.end place.new.stand.is_whole }
{
    let _ = rows.width();
    if place.stand.is_whole {
        return END;
    }
    land(rows, place, prefix, bound)
}

/// Goes to the least key at or above the bound, which is behind the row at a place.
fn go_far<'a, R: RowReads>(
    rows: &'a R,
    place: &mut Place<'a>,
    prefix: &[Key],
    last: usize,
    bound: Key,
) -> Key
    requires deep { length prefix.now < R.width_of rows.now }
    requires stand { IsStand (R.rows rows.now) prefix.now (cell_at place.old.stand.run.now 0 (length prefix.now)) place.old.stand.run.now place.old.stand.end place.old.stand.is_whole }
    requires above { cell_at place.old.stand.run.now 0 (length prefix.now) < bound }
    requires within { last < length place.old.stand.run.now }
    requires below { cell_at place.old.stand.run.now last (length prefix.now) < bound }
    ensures { IsLanded (R.rows rows.now) prefix.now bound result place.new.stand.run.now place.new.stand.end place.new.stand.is_whole }
{
    let _ = rows.width();
    let run = place.stand.run;
    let at = place_behind(run, last, prefix.len(), bound);
    if run.len() <= at {
        return go_past(rows, place, prefix, bound);
    }
    place.stand.run = &run[at..];
    place.stand.end = 0;
    cell_in(&run[at], prefix.len())
}

/// The first row that is not known to have the first row's key.
#[inline(always)]
fn next_place(stand: &Stand) -> usize
    ensures one { stand.now.end ≡ 0 → result ≡ 1 }
    ensures end { 0 < stand.now.end → result ≡ stand.now.end }
{
    if stand.end == 0 { 1 } else { stand.end }
}

/// Goes to the least key at or above the bound, which is above the key: to that of the next row with another key, or further.
#[inline(always)]
pub(crate) fn go_on<'a, R: RowReads>(
    rows: &'a R,
    place: &mut Place<'a>,
    prefix: &[Key],
    bound: Key,
) -> Key
    requires deep { length prefix.now < R.width_of rows.now }
    requires stand { IsStand (R.rows rows.now) prefix.now (cell_at place.old.stand.run.now 0 (length prefix.now)) place.old.stand.run.now place.old.stand.end place.old.stand.is_whole }
    requires above { cell_at place.old.stand.run.now 0 (length prefix.now) < bound }
    ensures { IsLanded (R.rows rows.now) prefix.now bound result place.new.stand.run.now place.new.stand.end place.new.stand.is_whole }
{
    let _ = rows.width();
    let run = place.stand.run;
    let next = next_place(&place.stand);
    if run.len() <= next {
        return go_past(rows, place, prefix, bound);
    }
    let key = cell_in(&run[next], prefix.len());
    if key < bound {
        return go_far(rows, place, prefix, next, bound);
    }
    place.stand.run = &run[next..];
    place.stand.end = 0;
    key
}

/// Finds the end of the rows with the key, where it is not known.
#[inline]
pub(crate) fn find_end<'a, R: RowReads>(rows: &R, place: &mut Place<'a>, prefix: &[Key], key: Key)
    requires deep { length prefix.now < R.width_of rows.now }
    requires not_ended { key ≢ end_key }
    requires stand { IsStand (R.rows rows.now) prefix.now key place.old.stand.run.now place.old.stand.end place.old.stand.is_whole }
    ensures known { 0 < place.new.stand.end }
    ensures stand { IsStand (R.rows rows.now) prefix.now key place.new.stand.run.now place.new.stand.end place.new.stand.is_whole }
{
    let _ = rows.width();
    if place.stand.end == 0 {
        place.stand.end = place_behind(place.stand.run, 0, prefix.len(), key + 1);
    }
}

/// The place of the first key below a key whose end is known.
#[inline]
pub(crate) fn below<'a, R: RowReads>(
    rows: &R,
    prefix: &[Key],
    stand: &Stand<'a>,
    key: Key,
) -> Stand<'a>
    requires deep { length prefix.now + 1 < R.width_of rows.now }
    requires known { 0 < stand.now.end }
    requires stand { IsStand (R.rows rows.now) prefix.now key stand.now.run.now stand.now.end stand.now.is_whole }
    ensures { IsStand (R.rows rows.now) (prefix.now ++ key ∷ []) (cell_at stand.now.run.now 0 (length prefix.now + 1)) result.run.now result.end result.is_whole }
{
    let _ = rows.width();
    Stand {
        run: &stand.run[..stand.end],
        end: 0,
        is_whole: stand.end < stand.run.len() || stand.is_whole,
    }
}
