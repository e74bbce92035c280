//! The restatement of a program.
ghost use Rattle.std.specs.Prelude.{◌≡◌, ◌<◌, ◌≤◌, ◌+◌, ◌⊎◌, ◌∷◌, ◌++◌, ℕ, [], true, false, length, slice_get, Some, IfOk, OnOk};
ghost use Rattle.lt_face.specs.Limits.{most_statements};
ghost use Rattle.lt_face.specs.Lists.{IsIn};
ghost use Rattle.lt_face.specs.State.{Row as RowView, AgreeOn};
ghost use Rattle.lt_model.specs.Fits.{Fits};
ghost use Rattle.lt_base.specs.Tables.{state_of};
ghost use Rattle.lt_sense.specs.Sense.{AgreeWhereCovered};
ghost use Rattle.lt_program.specs.Part.{Part as PartType};
ghost use Rattle.lt_program.specs.Tally.{HasIndexes, IsOneMore, ends_at, has_ended, sense_of, is_next_sliced};
ghost use Rattle.lt_restate.specs.Bases.{AreRowsOf, widths};
ghost use Rattle.lt_restate.specs.Covered.{AreCoveredChanges};
ghost use Rattle.lt_restate.specs.Touches.{IsTouchOn, IsRestatement, before, cost_again, cost_at};
ghost use Rattle.lt_restate.specs.Walked.{IsUnderWay, is_named};

use crate::changed::named_rows;
use crate::covered::covered_changes;
use crate::touch::{Touch, Touches};
use crate::touched::{keys_touched, touch_of};
use crate::walk::Walk;
use lt_base::Database;
use lt_delta::Marks;
use lt_face::items::{Changes, Items};
use lt_face::memory::NoMemory;
use lt_face::moves::Moves;
use lt_program::{SharedPart, Tally};
use std::alloc::Global;

/// Before the first statement.
fn begun(
    alloc: Global,
    _old: &Tally,
    _new: &Tally,
    _old_on: &Marks,
    _new_on: &Marks,
) -> Result<Walk, NoMemory>
    requires few { length _old.now.program ≤ most_statements }
    requires program { _new.now.program ≡ _old.now.program }
    requires none { _new.now.parts ≡ [] }
    requires relations { widths (state_of _new.now.base) ≡ widths (state_of _old.now.base) }
    requires bases { (relation : ℕ) (row : RowView) → (AgreeOn (state_of _old.now.base) (state_of _new.now.base) relation row) ⊎ ((is_named _old_on.now relation row ≡ true) ⊎ (is_named _new_on.now relation row ≡ true)) }
    ensures under_way { IfOk result (IsUnderWay _old.now _new.now _old_on.now _new_on.now) }
    ensures none { IfOk result (λ walk. walk.touches ≡ []) }
{
    let _old_parts = _old.parts();
    let _new_parts = _new.parts();
    _old.base().look_over();
    _new.base().look_over();
    Ok(Walk {
        past: Marks::empty(alloc)?,
        touches: Items::new(alloc),
    })
}

/// The next statement, which nothing touches.
fn keep_next(
    old: &Tally,
    new: &mut Tally,
    _old_on: &Marks,
    _new_on: &Marks,
    walk: &mut Walk,
) -> Result<(), NoMemory>
    requires going { has_ended new.old ≡ false }
    requires under_way { IsUnderWay old.now new.old _old_on.now _new_on.now walk.old }
    requires below { length new.old.parts < length old.now.parts }
    requires agree { (part : PartType) → slice_get old.now.parts (length new.old.parts) ≡ Some part → AgreeWhereCovered (sense_of part) (before (length new.old.parts) old.now) (before (length new.old.parts) new.old) }
    ensures under_way { OnOk result (IsUnderWay old.now new.new _old_on.now _new_on.now walk.new) }
    ensures one { OnOk result (IsOneMore new.old new.new) }
    ensures touches { OnOk result (walk.new.touches ≡ walk.old.touches) }
{
    let place = new.evaluated();
    let past = old.marks_after(place, &walk.past)?;
    new.keep(old)?;
    walk.past = past;
    Ok(())
}

/// The next statement, which this touches, evaluated as a whole.
fn evaluate_whole<L>(
    old: &Tally,
    new: &mut Tally,
    _old_on: &Marks,
    _new_on: &Marks,
    walk: &mut Walk,
    _part: &SharedPart,
    touch: Touch,
    moves: &mut Moves<L>,
) -> Result<(), NoMemory>
    requires going { has_ended new.old ≡ false }
    requires under_way { IsUnderWay old.now new.old _old_on.now _new_on.now walk.old }
    requires part { slice_get old.now.parts (length new.old.parts) ≡ Some _part.now }
    requires touch { IsTouchOn (length new.old.parts) _part.now (before (length new.old.parts) old.now) (before (length new.old.parts) new.old) touch }
    requires whole { is_next_sliced new.old ≡ false }
    ensures under_way { OnOk result (IsUnderWay old.now new.new _old_on.now _new_on.now walk.new) }
    ensures one { OnOk result (IsOneMore new.old new.new) }
    ensures touches { OnOk result (walk.new.touches ≡ walk.old.touches ++ touch ∷ []) }
    ensures moves { moves.new ≤ moves.old + cost_at old.now (state_of new.old.base) (length new.old.parts) }
    ensures rises { moves.old ≤ moves.new }
{
    let place = new.evaluated();
    let past = old.marks_after(place, &walk.past)?;
    new.evaluate(moves)?;
    walk.touches.push(touch)?;
    walk.past = past;
    Ok(())
}

/// The next statement, which this touches and which is kept by slices: the slices of the keys that these changed rows touch are
/// joined again.
fn mend_next<L>(
    old: &Tally,
    new: &mut Tally,
    _old_on: &Marks,
    _new_on: &Marks,
    walk: &mut Walk,
    part: &SharedPart,
    touch: Touch,
    changes: &Changes,
    moves: &mut Moves<L>,
) -> Result<(), NoMemory>
    requires going { has_ended new.old ≡ false }
    requires under_way { IsUnderWay old.now new.old _old_on.now _new_on.now walk.old }
    requires part { slice_get old.now.parts (length new.old.parts) ≡ Some part.now }
    requires touch { IsTouchOn (length new.old.parts) part.now (before (length new.old.parts) old.now) (before (length new.old.parts) new.old) touch }
    requires changes { AreCoveredChanges (sense_of part.now) (before (length new.old.parts) old.now) (before (length new.old.parts) new.old) changes.now }
    requires rows { AreRowsOf (state_of old.now.base) changes.now }
    requires sliced { is_next_sliced new.old ≡ true }
    ensures under_way { OnOk result (IsUnderWay old.now new.new _old_on.now _new_on.now walk.new) }
    ensures one { OnOk result (IsOneMore new.old new.new) }
    ensures touches { OnOk result (walk.new.touches ≡ walk.old.touches ++ touch ∷ []) }
    ensures moves { moves.new ≤ moves.old + cost_at old.now (state_of new.old.base) (length new.old.parts) }
    ensures rises { moves.old ≤ moves.new }
{
    let place = new.evaluated();
    let past = old.marks_after(place, &walk.past)?;
    let keys = keys_touched(old.program().allocator(), part.part(), changes)?;
    new.mend(old, &keys, moves)?;
    walk.touches.push(touch)?;
    walk.past = past;
    Ok(())
}

/// The next statement, which this touches.
fn evaluate_again<L>(
    old: &Tally,
    new: &mut Tally,
    old_on: &Marks,
    new_on: &Marks,
    walk: &mut Walk,
    part: &SharedPart,
    touch: Touch,
    changes: &Changes,
    moves: &mut Moves<L>,
) -> Result<(), NoMemory>
    requires going { has_ended new.old ≡ false }
    requires under_way { IsUnderWay old.now new.old old_on.now new_on.now walk.old }
    requires part { slice_get old.now.parts (length new.old.parts) ≡ Some part.now }
    requires touch { IsTouchOn (length new.old.parts) part.now (before (length new.old.parts) old.now) (before (length new.old.parts) new.old) touch }
    requires changes { AreCoveredChanges (sense_of part.now) (before (length new.old.parts) old.now) (before (length new.old.parts) new.old) changes.now }
    requires rows { AreRowsOf (state_of old.now.base) changes.now }
    ensures under_way { OnOk result (IsUnderWay old.now new.new old_on.now new_on.now walk.new) }
    ensures one { OnOk result (IsOneMore new.old new.new) }
    ensures touches { OnOk result (walk.new.touches ≡ walk.old.touches ++ touch ∷ []) }
    ensures moves { moves.new ≤ moves.old + cost_at old.now (state_of new.old.base) (length new.old.parts) }
    ensures rises { moves.old ≤ moves.new }
{
    if new.is_next_sliced() {
        mend_next(old, new, old_on, new_on, walk, part, touch, changes, moves)?;
        Ok(())
    } else {
        evaluate_whole(old, new, old_on, new_on, walk, part, touch, moves)?;
        Ok(())
    }
}

/// The changed rows that the next statement's old part covers.
fn next_changes(
    old: &Tally,
    new: &Tally,
    old_on: &Marks,
    new_on: &Marks,
    walk: &Walk,
    part: &SharedPart,
) -> Result<Changes, NoMemory>
    requires under_way { IsUnderWay old.now new.now old_on.now new_on.now walk.now }
    requires part { slice_get old.now.parts (length new.now.parts) ≡ Some part.now }
    ensures changes { IfOk result (AreCoveredChanges (sense_of part.now) (before (length new.now.parts) old.now) (before (length new.now.parts) new.now)) }
    ensures rows { IfOk result (AreRowsOf (state_of old.now.base)) }
{
    let changes = covered_changes(old, &walk.past, new, old_on, new_on, part.part())?;
    Ok(changes)
}

/// The next statement.
fn step<L>(
    old: &Tally,
    new: &mut Tally,
    old_on: &Marks,
    new_on: &Marks,
    walk: &mut Walk,
    moves: &mut Moves<L>,
) -> Result<(), NoMemory>
    requires going { has_ended new.old ≡ false }
    requires under_way { IsUnderWay old.now new.old old_on.now new_on.now walk.old }
    ensures under_way { OnOk result (IsUnderWay old.now new.new old_on.now new_on.now walk.new) }
    ensures one { OnOk result (IsOneMore new.old new.new) }
    ensures moves { moves.new ≤ moves.old + cost_at old.now (state_of new.old.base) (length new.old.parts) }
    ensures rises { moves.old ≤ moves.new }
    ensures quiet { OnOk result (walk.new.touches ≡ [] → walk.old.touches ≡ []) }
    ensures still { OnOk result (walk.new.touches ≡ [] → length new.old.parts < length old.now.parts → moves.new ≤ moves.old) }
{
    let place = new.evaluated();
    if place >= old.evaluated() {
        new.evaluate(moves)?;
        return Ok(());
    }
    let part = &old.parts()[place];
    let changes = next_changes(old, new, old_on, new_on, walk, part)?;
    match touch_of(old, &walk.past, place, part.part(), &changes) {
        None => {
            keep_next(old, new, old_on, new_on, walk)?;
            Ok(())
        }
        Some(touch) => {
            evaluate_again(old, new, old_on, new_on, walk, part, touch, &changes, moves)?;
            Ok(())
        }
    }
}

/// The run of the old tally's program on another state of the same relations, which has the indexes that the program needs. Each
/// row on which the old tally's base and that state don't agree has a mark, of whatever sign, in one of two lists: where both are
/// one snapshot with marks laid on it, those marks. A statement that the old tally evaluated is evaluated again only where a row that its old sense
/// covers changed, as its touch tells: of one that is kept by slices the slices of the touched keys are joined again, and any
/// other is evaluated as a whole. One that the old tally didn't reach is evaluated for the first time; the others keep their
/// parts. `moves` rises by at most what these joins may take, also where memory is refused, and never falls.
pub fn restate_marks<L>(
    old: &Tally,
    next: &Database,
    old_on: &Marks,
    new_on: &Marks,
    moves: &mut Moves<L>,
) -> Result<(Tally, Touches), NoMemory>
    requires ended { has_ended old.now ≡ true }
    requires fits { Fits (state_of next.now) old.now.program }
    requires indexes { HasIndexes next.now old.now.program }
    requires relations { widths (state_of next.now) ≡ widths (state_of old.now.base) }
    requires marked { (relation : ℕ) (row : RowView) → (AgreeOn (state_of old.now.base) (state_of next.now) relation row) ⊎ ((is_named old_on.now relation row ≡ true) ⊎ (is_named new_on.now relation row ≡ true)) }
    ensures restated { IfOk result (λ out. IsRestatement old.now next.now out.0 out.1) }
    ensures still { IfOk result (λ out. out.1 ≡ [] → moves.new ≤ moves.old) }
    ensures moves { moves.new ≤ moves.old + cost_again old.now (state_of next.now) (ends_at old.now.program (state_of next.now)) }
    ensures rises { moves.old ≤ moves.new }
{
    let alloc = old.program().allocator();
    let mut new = Tally::begin(old.program(), next)?;
    let mut walk = begun(alloc, old, &new, old_on, new_on)?;
    'statements: while !new.ended() {
        step(old, &mut new, old_on, new_on, &mut walk, moves)?;
    }
    let Walk { past: _, touches } = walk;
    Ok((new, touches))
}

/// As `restate_marks`, where `named` has, in any order, every row on which the old tally's base and the state don't agree.
pub fn restate<L>(
    old: &Tally,
    next: &Database,
    named: &Changes,
    moves: &mut Moves<L>,
) -> Result<(Tally, Touches), NoMemory>
    requires ended { has_ended old.now ≡ true }
    requires fits { Fits (state_of next.now) old.now.program }
    requires indexes { HasIndexes next.now old.now.program }
    requires relations { widths (state_of next.now) ≡ widths (state_of old.now.base) }
    requires named { (relation : ℕ) (row : RowView) → (AgreeOn (state_of old.now.base) (state_of next.now) relation row) ⊎ IsIn (relation, row) named.now }
    ensures restated { IfOk result (λ out. IsRestatement old.now next.now out.0 out.1) }
    ensures still { IfOk result (λ out. out.1 ≡ [] → moves.new ≤ moves.old) }
    ensures moves { moves.new ≤ moves.old + cost_again old.now (state_of next.now) (ends_at old.now.program (state_of next.now)) }
    ensures rises { moves.old ≤ moves.new }
{
    let alloc = named.allocator();
    let marks = named_rows(alloc, named)?;
    let none = Marks::empty(alloc)?;
    let out = restate_marks(old, next, &marks, &none, moves)?;
    Ok(out)
}
