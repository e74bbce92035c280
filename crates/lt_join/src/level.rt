//! One level of a walk: the iterators of the atoms that hold it are opened there, and joined by a leapfrog.
ghost use Rattle.std.specs.Prelude.{◌≡◌, ◌≢◌, ◌+◌, ◌<◌, ◌≤◌, ◌^◌, ◌++◌, ◌⊎◌, ℕ, [], ◌∷◌, true, false, List, length, map, slice_get, Some, IfOk};
ghost use Rattle.std.specs.List.{AllByRecursion};
ghost use Rattle.lt_face.specs.Keys.{end_key};
ghost use Rattle.lt_face.specs.Lists.{IsIn};
ghost use Rattle.lt_leap.specs.Places.{ArePlaces};
ghost use Rattle.lt_leap.specs.Potential.{join_cost};
ghost use Rattle.lt_query.specs.declared.plans.Level.{Level as LevelView};
ghost use Rattle.lt_query.specs.Holding.{atoms_at_level};
ghost use Rattle.lt_sense.specs.Sense.{IsTight};
ghost use Rattle.lt_join.specs.AtomIter.{AtomView, atom_keys};
ghost use Rattle.lt_join.specs.Cost.{iterators_at};
ghost use Rattle.lt_join.specs.Explored.{Fits};
ghost use Rattle.lt_join.specs.Holders.{IsUsable, atoms_at};
ghost use Rattle.lt_join.specs.Known.{IsKnown};
ghost use Rattle.lt_join.specs.Level.{AreAtomsAt, AreOpened, AreSensed, HasGone, HoldsAt, IsLevelAt, IsOpenedFrom, RiseFrom, heres_of, is_lone, left_at, lists_of};
ghost use Rattle.lt_join.specs.Lone.{IsAsked, IsLeftBy};
ghost use Rattle.lt_join.specs.Narrowed.{Leaves};
ghost use Rattle.lt_join.specs.Values.{values_in};
ghost use Rattle.lt_join.specs.Walked.{at};

use crate::atom_iter::AtomIter;
use crate::narrowing::KeyRange;
use crate::path::Path;
use crate::values::Values;
use crate::way::Way;
use lt_face::indexes::Indexes;
use lt_face::key::{END, Key};
use lt_face::key_iter::KeyIter;
use lt_face::memory::NoMemory;
use lt_face::moves::Moves;
use lt_face::row_set::RowReads;
use lt_leap::{Meeting, Passing, meet, meet_from};
use lt_query::Level;
use lt_sense::{Sensed, Senses};

/// Which keys the pins and ties of a level leave.
#[derive(Clone, Copy, Drop)]
pub enum Asked {
    Any,
    One(Key),
    None,
}

/// What was asked, and that it is this key.
#[inline]
fn and_key(asked: Asked, key: Key) -> Asked
    ensures { (before : List ℕ) → IsLeftBy before asked → IsLeftBy (before ++ key ∷ []) result }
{
    match asked {
        Asked::Any => Asked::One(key),
        Asked::One(other) => if other == key { asked } else { Asked::None },
        Asked::None => Asked::None,
    }
}

/// What pins leave.
#[inline]
fn asked_by(pins: &[Key]) -> Asked
    ensures { IsLeftBy pins.now result }
{
    let mut asked = Asked::Any;
    for pin in pins {
        asked = and_key(asked, *pin);
    }
    asked
}

/// What was asked, and that it is the key of each tied level.
#[inline]
fn and_ties(asked: Asked, levels: &[Level], ties: &[usize], values: &Values, _keys: &Path) -> Asked
    requires known { IsKnown levels.now _keys.now (values_in values.now.cells) }
    requires within { length _keys.now ≤ length levels.now }
    requires ties { AllByRecursion (λ m. m < length _keys.now) ties.now }
    ensures { (before : List ℕ) → IsLeftBy before asked → IsLeftBy (before ++ map (at _keys.now) ties.now) result }
{
    let mut asked = asked;
    for tie in ties {
        asked = and_key(asked, values.cell(levels[*tie].term));
    }
    asked
}

/// What the pins and ties of a level leave.
#[inline]
fn asked_of(levels: &[Level], level: &Level, values: &Values, keys: &Path) -> Asked
    requires known { IsKnown levels.now keys.now (values_in values.now.cells) }
    requires within { length keys.now ≤ length levels.now }
    requires ties { AllByRecursion (λ m. m < length keys.now) level.now.ties }
    ensures { IsAsked level.now (at keys.now) result }
{
    let asked = asked_by(level.pins.as_slice());
    and_ties(asked, levels, level.ties.as_slice(), values, keys)
}

/// Brings the iterators at these places, which were opened, back to where they stood.
#[inline]
pub(crate) fn close<'a, R: RowReads>(iters: &mut [AtomIter<'a, R>], places: &[usize])
    requires places { ArePlaces places.now (length iters.old) }
    requires opened { (above : List AtomView) × AreOpened places.now above iters.old }
    ensures { (above : List AtomView) → AreOpened places.now above iters.old → iters.new ≡ above }
{
    for place in places {
        iters[*place].up();
    }
}

/// Opens the iterators that hold the level below the keys, one after another, each at its first key from where the one before
/// stands. Answers where the last one stands; at `END` all are back where they stood.
fn open_rising<'a, I: Indexes, S: Senses, L>(
    way: &Way<'a, I>,
    iters: &mut [AtomIter<'a, I::Rows>],
    keys: &Path,
    from: Key,
    sense: &mut Sensed<S>,
    moves: &mut Moves<L>,
) -> Result<Key, NoMemory>
    requires iters { AreAtomsAt way.now.plan way.now.state keys.now iters.old }
    requires tight { IsTight sense.old way.now.state }
    ensures sensed { IfOk result (λ key. AreSensed way.now.plan way.now.state keys.now sense.old sense.new from key moves.old moves.new) }
    ensures opened { IfOk result (λ key. key ≢ end_key → AreOpened (atoms_at_level way.now.plan.guides (length keys.now)) iters.old iters.new) }
    ensures rising { IfOk result (λ key. key ≢ end_key → RiseFrom from (lists_of iters.new (atoms_at_level way.now.plan.guides (length keys.now))) (heres_of iters.new (atoms_at_level way.now.plan.guides (length keys.now)))) }
    ensures last { IfOk result (λ key. key ≢ end_key → AllByRecursion (λ here. here ≤ key) (heres_of iters.new (atoms_at_level way.now.plan.guides (length keys.now)))) }
    ensures closed { IfOk result (λ key. key ≡ end_key → iters.new ≡ iters.old) }
    ensures each { IfOk result (λ key. key ≢ end_key → moves.new ≡ moves.old + length (atoms_at_level way.now.plan.guides (length keys.now))) }
    // also where memory is refused
    ensures within { moves.new ≤ moves.old + length (atoms_at_level way.now.plan.guides (length keys.now)) }
    ensures moves { moves.old ≤ moves.new }
{
    let places = way.plan.guides.at_level(keys.len());
    let mut key = from;
    for i in 0..places.len() {
        let place = places[i];
        let gap = iters[place].open_at(key, moves);
        sense.pass(place, &iters[place], gap)?;
        key = gap.hi;
        if key == END {
            close(iters, &places[..i + 1]);
            return Ok(END);
        }
    }
    Ok(key)
}

/// Opens the iterator at this place where a level with one key is opened, and brings it to the key or past it. Answers where it stands.
#[inline]
fn open_lone<'a, I: Indexes, S: Senses, L>(
    _way: &Way<'a, I>,
    iter: &mut AtomIter<'a, I::Rows>,
    place: usize,
    _keys: &Path,
    key: Key,
    sense: &mut Sensed<S>,
    moves: &mut Moves<L>,
) -> Result<Key, NoMemory>
    requires holds { HoldsAt _way.now.plan _way.now.state _keys.now iter.old }
    requires tight { IsTight sense.old _way.now.state }
    requires bound { key < 2 ^ 120 }
    ensures opened { IfOk result (λ here. IsOpenedFrom iter.old iter.new) }
    ensures stands { IfOk result (λ here. iter.new.trie.here ≡ here) }
    ensures reaches { IfOk result (λ here. key ≤ here) }
    ensures there { IfOk result (λ here. here ≡ key → IsIn key (atom_keys iter.new)) }
    ensures sensed { IfOk result (λ here. AreSensed _way.now.plan _way.now.state _keys.now sense.old sense.new key here moves.old moves.new) }
    ensures each { IfOk result (λ _. moves.old + 1 ≤ moves.new) }
    // also where memory is refused
    ensures within { moves.new ≤ moves.old + 2 }
    ensures moves { moves.old ≤ moves.new }
{
    let gap = iter.open_at(S::opens_at(key), moves);
    sense.pass(place, iter, gap)?;
    if gap.hi >= key {
        return Ok(gap.hi);
    }
    let gap = iter.seek(key, moves);
    sense.pass(place, iter, gap)?;
    Ok(gap.hi)
}

/// Opens the iterators that hold the level below the keys at the one key that it may have. Answers whether all have it; if not, all are
/// back where they stood.
fn open_at_key<'a, I: Indexes, S: Senses, L>(
    way: &Way<'a, I>,
    iters: &mut [AtomIter<'a, I::Rows>],
    keys: &Path,
    key: Key,
    sense: &mut Sensed<S>,
    moves: &mut Moves<L>,
) -> Result<bool, NoMemory>
    requires iters { AreAtomsAt way.now.plan way.now.state keys.now iters.old }
    requires tight { IsTight sense.old way.now.state }
    requires bound { key < 2 ^ 120 }
    ensures sensed { IfOk result (λ all. AreSensed way.now.plan way.now.state keys.now sense.old sense.new key key moves.old moves.new) }
    ensures lacks { IfOk result (λ all. all ≢ true → AreSensed way.now.plan way.now.state keys.now sense.old sense.new key (key + 1) moves.old moves.new) }
    ensures opened { IfOk result (λ all. all ≡ true → AreOpened (atoms_at_level way.now.plan.guides (length keys.now)) iters.old iters.new) }
    ensures at_key { IfOk result (λ all. all ≡ true → AllByRecursion (λ here. here ≡ key) (heres_of iters.new (atoms_at_level way.now.plan.guides (length keys.now)))) }
    ensures there { IfOk result (λ all. all ≡ true → AllByRecursion (λ keys. IsIn key keys) (lists_of iters.new (atoms_at_level way.now.plan.guides (length keys.now)))) }
    ensures each { IfOk result (λ all. all ≡ true → moves.old + length (atoms_at_level way.now.plan.guides (length keys.now)) ≤ moves.new) }
    ensures closed { IfOk result (λ all. all ≢ true → iters.new ≡ iters.old) }
    // also where memory is refused
    ensures within { moves.new ≤ moves.old + length (atoms_at_level way.now.plan.guides (length keys.now)) + length (atoms_at_level way.now.plan.guides (length keys.now)) }
    ensures moves { moves.old ≤ moves.new }
{
    let places = way.plan.guides.at_level(keys.len());
    for i in 0..places.len() {
        let place = places[i];
        let here = open_lone(way, &mut iters[place], place, keys, key, sense, moves)?;
        if here != key {
            close(iters, &places[..i + 1]);
            return Ok(false);
        }
    }
    Ok(true)
}

/// The level has no key, or none any more.
#[inline]
fn ended() -> Meeting
    ensures key { result.key ≡ end_key }
{
    Meeting { key: END, turn: 0 }
}

/// Opens the level below the keys, where it has neither pin nor tie, and goes to its first key at or above the bound, or to `END`. What
/// lies before the range may be left out, and what lies behind it is.
#[inline]
fn open_joined<'a, I: Indexes, S: Senses, L>(
    way: &Way<'a, I>,
    iters: &mut [AtomIter<'a, I::Rows>],
    keys: &Path,
    from: Key,
    range: KeyRange,
    sense: &mut Sensed<S>,
    moves: &mut Moves<L>,
) -> Result<Meeting, NoMemory>
    requires iters { AreAtomsAt way.now.plan way.now.state keys.now iters.old }
    requires held { 0 < length (atoms_at way.now.plan.guides (length keys.now)) }
    requires leaves { Leaves way.now.body way.now.plan.levels keys.now range }
    requires tight { IsTight sense.old way.now.state }
    requires bound { from ≤ 2 ^ 120 }
    requires low { range.lo ≤ 2 ^ 120 }
    ensures gone { IfOk result (λ met. (level : LevelView) → is_lone level ≡ false
        → HasGone way.now.body way.now.plan way.now.state sense.old sense.new keys.now level (atoms_at_level way.now.plan.guides (length keys.now)) iters.old iters.new from
        (moves.old + join_cost (iterators_at way.now.state way.now.plan.guides level (length keys.now) (at keys.now))) moves.old moves.new met.key met.turn) }
    // also where memory is refused
    ensures within { (level : LevelView) → is_lone level ≡ false
        → moves.new ≤ moves.old + join_cost (iterators_at way.now.state way.now.plan.guides level (length keys.now) (at keys.now)) }
    ensures moves { moves.old ≤ moves.new }
{
    let places = way.plan.guides.at_level(keys.len());
    let begin = later(from, S::opens_at(range.lo));
    let greatest = open_rising(way, iters, keys, begin, sense, moves)?;
    if greatest == END {
        return Ok(ended());
    }
    let met = meet(iters, places, 0, range.hi, sense, moves)?;
    if met.key >= range.hi {
        close(iters, places);
        return Ok(ended());
    }
    Ok(met)
}

/// The later of two keys.
#[inline]
fn later(a: Key, b: Key) -> Key
    ensures first { a ≤ result }
    ensures second { b ≤ result }
    ensures one { (result ≡ a) ⊎ (result ≡ b) }
{
    if a < b { b } else { a }
}

/// Opens the level below the keys, and goes to its first key at or above the bound, or to `END`. What lies before the range may be left
/// out, and what lies behind it is.
pub(crate) fn open<'a, I: Indexes, S: Senses, L>(
    way: &Way<'a, I>,
    iters: &mut [AtomIter<'a, I::Rows>],
    keys: &Path,
    from: Key,
    range: KeyRange,
    values: &Values,
    sense: &mut Sensed<S>,
    moves: &mut Moves<L>,
) -> Result<Meeting, NoMemory>
    requires iters { AreAtomsAt way.now.plan way.now.state keys.now iters.old }
    requires known { IsKnown way.now.plan.levels keys.now (values_in values.now.cells) }
    requires usable { (level : LevelView) × (slice_get way.now.plan.levels (length keys.now) ≡ Some level) × IsUsable way.now.plan.guides level keys.now }
    requires leaves { Leaves way.now.body way.now.plan.levels keys.now range }
    requires tight { IsTight sense.old way.now.state }
    requires bound { from ≤ 2 ^ 120 }
    requires low { range.lo ≤ 2 ^ 120 }
    ensures gone { IfOk result (λ met. (level : LevelView) → slice_get way.now.plan.levels (length keys.now) ≡ Some level
        → HasGone way.now.body way.now.plan way.now.state sense.old sense.new keys.now level (atoms_at_level way.now.plan.guides (length keys.now)) iters.old iters.new from
        (moves.old + join_cost (iterators_at way.now.state way.now.plan.guides level (length keys.now) (at keys.now))) moves.old moves.new met.key met.turn) }
    // also where memory is refused
    ensures within { (level : LevelView) → slice_get way.now.plan.levels (length keys.now) ≡ Some level
        → moves.new ≤ moves.old + join_cost (iterators_at way.now.state way.now.plan.guides level (length keys.now) (at keys.now)) }
    ensures moves { moves.old ≤ moves.new }
{
    let levels = way.plan.levels.as_slice();
    match asked_of(levels, &levels[keys.len()], values, keys) {
        Asked::Any => open_joined(way, iters, keys, from, range, sense, moves),
        Asked::One(key) => {
            if key < from {
                return Ok(ended());
            }
            let all = open_at_key(way, iters, keys, key, sense, moves)?;
            if all {
                return Ok(Meeting { key, turn: 0 });
            }
            Ok(ended())
        }
        Asked::None => Ok(ended()),
    }
}

/// Goes on to the level's first key at or above the bound, where it has neither pin nor tie, or to `END`. What lies behind the range is
/// left out.
#[inline]
fn go_on<'a, I: Indexes, S: Senses, L>(
    way: &Way<'a, I>,
    iters: &mut [AtomIter<'a, I::Rows>],
    keys: &Path,
    met: Meeting,
    to: Key,
    range: KeyRange,
    sense: &mut Sensed<S>,
    moves: &mut Moves<L>,
) -> Result<Meeting, NoMemory>
    requires at { (above : List AtomView) × IsLevelAt way.now.plan way.now.state keys.now (atoms_at_level way.now.plan.guides (length keys.now)) above iters.old met.key met.turn }
    requires ahead { met.key < to }
    requires bound { to ≤ 2 ^ 120 }
    requires leaves { Leaves way.now.body way.now.plan.levels keys.now range }
    requires tight { IsTight sense.old way.now.state }
    ensures gone { IfOk result (λ next. (level : LevelView) → slice_get way.now.plan.levels (length keys.now) ≡ Some level → is_lone level ≡ false → (above : List AtomView)
        → IsLevelAt way.now.plan way.now.state keys.now (atoms_at_level way.now.plan.guides (length keys.now)) above iters.old met.key met.turn
        → HasGone way.now.body way.now.plan way.now.state sense.old sense.new keys.now level (atoms_at_level way.now.plan.guides (length keys.now)) above iters.new to
        (moves.old + left_at level (atoms_at_level way.now.plan.guides (length keys.now)) iters.old met.key met.turn) moves.old moves.new next.key next.turn) }
    // also where memory is refused
    ensures within { (level : LevelView) → slice_get way.now.plan.levels (length keys.now) ≡ Some level → is_lone level ≡ false
        → moves.new ≤ moves.old + left_at level (atoms_at_level way.now.plan.guides (length keys.now)) iters.old met.key met.turn }
    ensures moves { moves.old ≤ moves.new }
{
    let places = way.plan.guides.at_level(keys.len());
    let next = meet_from(iters, places, met.turn, to, range.hi, sense, moves)?;
    if next.key >= range.hi {
        close(iters, places);
        return Ok(ended());
    }
    Ok(next)
}

/// Goes to the level's next key, or to `END`; where that lies before the range, on to the range. Where a pin or a tie sits, none can
/// follow.
pub(crate) fn next_key<'a, I: Indexes, S: Senses, L>(
    way: &Way<'a, I>,
    iters: &mut [AtomIter<'a, I::Rows>],
    keys: &Path,
    met: Meeting,
    range: KeyRange,
    sense: &mut Sensed<S>,
    moves: &mut Moves<L>,
) -> Result<Meeting, NoMemory>
    requires usable { (level : LevelView) × (slice_get way.now.plan.levels (length keys.now) ≡ Some level) × IsUsable way.now.plan.guides level keys.now }
    requires at { (above : List AtomView) × IsLevelAt way.now.plan way.now.state keys.now (atoms_at_level way.now.plan.guides (length keys.now)) above iters.old met.key met.turn }
    requires low { met.key < 2 ^ 120 }
    requires leaves { Leaves way.now.body way.now.plan.levels keys.now range }
    requires ahead { range.lo ≤ 2 ^ 120 }
    requires tight { IsTight sense.old way.now.state }
    ensures gone { IfOk result (λ next. (level : LevelView) → slice_get way.now.plan.levels (length keys.now) ≡ Some level → (above : List AtomView)
        → IsLevelAt way.now.plan way.now.state keys.now (atoms_at_level way.now.plan.guides (length keys.now)) above iters.old met.key met.turn
        → Fits level (at keys.now) met.key
        → HasGone way.now.body way.now.plan way.now.state sense.old sense.new keys.now level (atoms_at_level way.now.plan.guides (length keys.now)) above iters.new (met.key + 1)
        (moves.old + left_at level (atoms_at_level way.now.plan.guides (length keys.now)) iters.old met.key met.turn) moves.old moves.new next.key next.turn) }
    // also where memory is refused
    ensures within { (level : LevelView) → slice_get way.now.plan.levels (length keys.now) ≡ Some level
        → moves.new ≤ moves.old + left_at level (atoms_at_level way.now.plan.guides (length keys.now)) iters.old met.key met.turn }
    ensures moves { moves.old ≤ moves.new }
{
    let places = way.plan.guides.at_level(keys.len());
    let level = &way.plan.levels.as_slice()[keys.len()];
    if level.pins.len() > 0 || level.ties.len() > 0 {
        close(iters, places);
        return Ok(ended());
    }
    let next = meet_from(iters, places, met.turn, met.key + 1, range.hi, sense, moves)?;
    if next.key >= range.hi {
        close(iters, places);
        return Ok(ended());
    }
    if S::opens_at(range.lo) < range.lo && next.key < range.lo {
        return go_on(way, iters, keys, next, range.lo, range, sense, moves);
    }
    Ok(next)
}
