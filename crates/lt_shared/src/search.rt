//! Where a row lies in a list of entries.
ghost use Rattle.std.specs.Prelude.{◌≡◌, ◌<◌, true, length};
ghost use Rattle.std.specs.Option.{option_copied};
ghost use Rattle.lt_face.specs.Rows.{IsAscending, has_row, first_from};
ghost use Rattle.lt_shared.specs.Entries.{joined, IsPlace, IsOrNext};

use crate::entry::Entry;
use lt_face::{Fraction, Row};

/// The place of the last entry whose first row is at most the row, or of the first entry.
pub fn place<T: Entry>(entries: &[T], row: &Row) -> usize
    requires rises { IsAscending (joined T.rows entries.now) }
    requires some { 0 < length entries.now }
    ensures { IsPlace T.rows entries.now row.now result }
{
    let mut low = 0;
    let mut high = entries.len();
    while low < high {
        let middle = low + (high - low) / 2;
        let entry = &entries[middle];
        if entry.first().cmp(row).is_gt() {
            high = middle;
        } else {
            low = middle + 1;
        }
    }
    low.saturating_sub(1)
}

/// The same, where the last entry is tried first.
pub fn place_behind<T: Entry>(entries: &[T], row: &Row) -> usize
    requires rises { IsAscending (joined T.rows entries.now) }
    requires some { 0 < length entries.now }
    ensures { IsPlace T.rows entries.now row.now result }
{
    let last = entries.len() - 1;
    let entry = &entries[last];
    if entry.first().cmp(row).is_gt() {
        return place(entries, row);
    }
    last
}

/// Whether some entry has the row.
pub fn has_among<T: Entry>(entries: &[T], row: &Row) -> bool
    requires { IsAscending (joined T.rows entries.now) }
    ensures { result ≡ has_row (joined T.rows entries.now) row.now }
{
    if entries.is_empty() {
        return false;
    }
    let at = place(entries, row);
    let entry = &entries[at];
    entry.has(row)
}

/// What a search in one entry found, else the first row of the next entry.
fn or_next<'a, T: Entry>(entries: &'a [T], at: usize, found: Option<&'a Row>) -> Option<&'a Row>
    requires { at < length entries.now }
    ensures { IsOrNext T.rows entries.now at (option_copied found.entry) (option_copied result) }
{
    match found {
        Some(row) => Some(row),
        None => {
            if entries.len() - 1 <= at {
                return None;
            }
            let entry = &entries[at + 1];
            Some(entry.first())
        }
    }
}

/// The least row of the entries that is at least `from`.
pub fn least_among<'a, T: Entry>(entries: &'a [T], from: &Row) -> Option<&'a Row>
    requires { IsAscending (joined T.rows entries.now) }
    ensures { option_copied result ≡ first_from (joined T.rows entries.now) from.now }
{
    if entries.is_empty() {
        return None;
    }
    let at = place(entries, from);
    let entry = &entries[at];
    or_next(entries, at, entry.row_at_least(from))
}

/// A row about so far along the entries, where each has about as many rows: the one that is so far along the entry in which
/// that place lies.
pub fn row_along<'a, T: Entry>(entries: &'a [T], along: Fraction) -> &'a Row
    requires { 0 < length entries.now }
    ensures { has_row (joined T.rows entries.now) result.now ≡ true }
{
    let entry = &entries[along.place(entries.len())];
    entry.row_about(along.rest(entries.len()))
}
