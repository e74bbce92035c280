//! What changed rows that a part's sense covers touch: the statement, and of one that is kept by slices some keys.
ghost use Rattle.std.specs.Prelude.{◌≡◌, ◌<◌, ◌+◌, true, length, IfOk, IfSome, IfNone, Some};
ghost use Rattle.std.specs.Ordering.{is_lt};
ghost use Rattle.lt_face.specs.Limits.{most_statements};
ghost use Rattle.lt_face.specs.State.{State};
ghost use Rattle.lt_model.specs.Fits.{FitMarks};
ghost use Rattle.lt_model.specs.Marks.{laid};
ghost use Rattle.lt_base.specs.Tables.{state_of};
ghost use Rattle.lt_query.specs.Lists.{IsRising};
ghost use Rattle.lt_sense.specs.Done.{AreAskable};
ghost use Rattle.lt_sense.specs.Kept.{Sense};
ghost use Rattle.lt_sense.specs.Sense.{covers, AgreeWhereCovered, IsTight};
ghost use Rattle.lt_sense.specs.Spans.{AreBelowEnd};
ghost use Rattle.lt_program.specs.Tally.{sense_of};
ghost use Rattle.lt_restate.specs.Bases.{AreRowsOf, IsBase, IsRowOf};
ghost use Rattle.lt_restate.specs.Changes.{touched_on};
ghost use Rattle.lt_restate.specs.Covered.{AreCoveredChanges, IsFirstAt};
ghost use Rattle.lt_restate.specs.Spots.{IsOwnGap, IsSpotOf};
ghost use Rattle.lt_restate.specs.Touches.{IsTouchOn, change_cmp};

use crate::touch::{Spot, Touch};
use lt_delta::Marks;
use lt_face::items::{Changes, Items};
use lt_face::key::Key;
use lt_face::memory::NoMemory;
use lt_face::row::Row;
use lt_join::touched_keys;
use lt_program::{Part, Tally};
use std::alloc::Global;
use std::cmp::Ordering;

/// Whether the row of the one comes before that of the other, by relation and row.
fn is_before(one: &(u32, Row), other: &(u32, Row)) -> bool
    ensures { result ≡ is_lt (change_cmp one.now other.now) }
{
    match one.0.cmp(&other.0) {
        Ordering::Less => true,
        Ordering::Equal => one.1.cmp(&other.1).is_lt(),
        Ordering::Greater => false,
    }
}

/// The place of the row that comes first.
fn first_place(changes: &[(u32, Row)]) -> usize
    requires { 0 < length changes.now }
    ensures within { result < length changes.now }
    ensures first { IsFirstAt changes.now result }
{
    let mut place = 0;
    for i in 1..changes.len() {
        if is_before(&changes[i], &changes[place]) {
            place = i;
        }
    }
    place
}

/// The least gap in which the row lies, in its own order of columns: its cells but the last, and the last.
fn own_gap(row: &Row) -> Spot
    requires some { 0 < length row.now }
    requires below { AreBelowEnd row.now }
    ensures { IsOwnGap row.now result }
{
    let mut prefix = row.copy_row();
    match prefix.pop() {
        Some(cell) => Spot::Gap {
            prefix,
            lo: cell,
            hi: cell + 1,
        },
        None => Spot::Hit,
    }
}

/// What covers the row in a sense that is tight on the old tally's base with these marks, and that covers it.
fn spot_of(old: &Tally, past: &Marks, relation: u32, row: &Row) -> Spot
    requires fits { FitMarks (state_of old.now.base) past.now }
    requires base { IsBase (state_of old.now.base) }
    requires row { IsRowOf (state_of old.now.base) relation row.now }
    ensures { (sense : Sense) → IsTight sense (laid (state_of old.now.base) past.now) → covers sense relation row.now ≡ true → IsSpotOf sense (laid (state_of old.now.base) past.now) relation row.now result }
{
    if old.base().has_with(past, relation, row) {
        return Spot::Hit;
    }
    own_gap(row)
}

/// What touches a statement with so many before it, whose old part this is, where these are the changed rows that the part's
/// sense covers: its state before was that of the old tally's base with these marks.
pub(crate) fn touch_of(
    old: &Tally,
    past: &Marks,
    place: usize,
    part: &Part,
    changes: &Changes,
) -> Option<Touch>
    requires few { place < most_statements }
    requires fits { FitMarks (state_of old.now.base) past.now }
    requires base { IsBase (state_of old.now.base) }
    requires rows { AreRowsOf (state_of old.now.base) changes.now }
    requires tight { IsTight (sense_of part.now) (laid (state_of old.now.base) past.now) }
    ensures none { IfNone result ((t : State) → AreCoveredChanges (sense_of part.now) (laid (state_of old.now.base) past.now) t changes.now → AgreeWhereCovered (sense_of part.now) (laid (state_of old.now.base) past.now) t) }
    ensures some { IfSome result (λ touch. (t : State) → AreCoveredChanges (sense_of part.now) (laid (state_of old.now.base) past.now) t changes.now → IsTouchOn place part.now (laid (state_of old.now.base) past.now) t touch) }
{
    let rows = changes.as_slice();
    if rows.len() == 0 {
        return None;
    }
    let first = &rows[first_place(rows)];
    Some(Touch {
        statement: place as u32 + 1,
        relation: first.0,
        row: first.1.copy_row(),
        spot: spot_of(old, past, first.0, &first.1),
    })
}

/// The keys of a part that is kept by slices that changed rows touch, ascending, where these are the changed rows that its sense
/// covers. No move is made.
pub(crate) fn keys_touched(
    alloc: Global,
    part: &Part,
    changes: &Changes,
) -> Result<Items<Key>, NoMemory>
    requires by_key { part.now.by_key ≡ true }
    requires askable { AreAskable (sense_of part.now) changes.now }
    ensures ascending { IfOk result IsRising }
    ensures keys { IfOk result (λ keys. (s t : State) → AreCoveredChanges (sense_of part.now) s t changes.now → keys ≡ touched_on part.now s t) }
{
    let Some(found) = part.slices() else {
        return Ok(Items::new(alloc));
    };
    let keys = touched_keys(alloc, found, changes)?;
    Ok(keys)
}
