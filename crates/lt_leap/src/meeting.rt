//! The leapfrog join of one variable, of Veldhuizen, Leapfrog Triejoin (ICDT 2014): the keys that all of some iterators have. They
//! take turns in a ring in which their keys ascend: the one with the least key seeks the greatest, and so has it or a greater one,
//! until all stand at one key or one of them is at its end.
ghost use Rattle.std.specs.Prelude.{◌≡◌, ◌≢◌, ◌<◌, ◌≤◌, ◌+◌, ◌-◌, ◌^◌, ℕ, length, map, slice_get, IfOk, OnOk};
ghost use Rattle.std.specs.List.{AllByRecursion};
ghost use Rattle.lt_face.specs.Keys.{end_key, least_from};
ghost use Rattle.lt_face.specs.Lists.{IsIn};
ghost use Rattle.lt_face.specs.declared.key.Gap.{Gap as GapView};
ghost use Rattle.lt_leap.specs.Common.{common_keys};
ghost use Rattle.lt_leap.specs.Places.{ArePlaces, first_of, heres_at, last_of, lists_at, turned, AreToldMoves};
ghost use Rattle.lt_leap.specs.Potential.{moves_left};
ghost use Rattle.lt_leap.specs.Ring.{IsRing};
ghost use Rattle.lt_leap.specs.Search.{NonePassed};

use lt_face::key::{Gap, Key};
use lt_face::key_iter::KeyIter;
use lt_face::memory::NoMemory;
use lt_face::moves::Moves;

/// Takes the gaps that iterators pass in their moves, each with the iterator and its place in a list.
pub trait Passing<I: KeyIter> {
    /// What one has become when it took the gap of the iterator at this place, wherever that stands.
    ghost takes: { Self → ℕ → I → GapView → Self → Type 0 };

    /// Takes a gap, which may be empty. Want of memory may leave it half taken.
    fn pass(&mut self, place: usize, iter: &I, gap: Gap) -> Result<(), NoMemory>
        ensures { OnOk result (takes self.old place (I.still iter.now) gap self.new) };
}

/// Where a join stands: at a key that all its iterators have, or at one from the end on that was asked for; and whose turn is next.
#[derive(Clone, Copy, Drop)]
pub struct Meeting {
    pub key: Key,
    /// A place in the list of the iterators' places.
    pub turn: usize,
}

/// The turn behind this one.
#[inline]
fn turn_behind(turn: usize, count: usize) -> usize
    requires { turn < count }
    ensures within { result < count }
    ensures next { turn + 1 < count → result ≡ turn + 1 }
    ensures round { turn + 1 ≡ count → result ≡ 0 }
{
    let next = turn + 1;
    if next == count { 0 } else { next }
}

/// The turn before this one.
#[inline]
fn turn_before(turn: usize, count: usize) -> usize
    requires { turn < count }
    ensures within { result < count }
    ensures next { 0 < turn → result + 1 ≡ turn }
    ensures round { turn ≡ 0 → result + 1 ≡ count }
{
    if turn == 0 { count - 1 } else { turn - 1 }
}

/// Goes on, from the turn on, until the iterators of these places stand at one key or one of them at `end` or above: the least key
/// that they have in common, if that is below `end`; else one from `end` on, where they needn't stand together.
pub fn meet<I: KeyIter, P: Passing<I>, L>(
    iters: &mut [I],
    places: &[usize],
    turn: usize,
    end: Key,
    passing: &mut P,
    moves: &mut Moves<L>,
) -> Result<Meeting, NoMemory>
    requires places { ArePlaces places.now (length iters.old) }
    requires ring { IsRing (lists_at (map I.keys iters.old) places.now) (heres_at (map I.here iters.old) places.now) (turned (length places.now) turn) }
    ensures keys { map I.keys iters.new ≡ map I.keys iters.old }
    ensures still { map I.still iters.new ≡ map I.still iters.old }
    ensures others { (i : ℕ) → (IsIn i places.now → ⊥) → slice_get iters.new i ≡ slice_get iters.old i }
    ensures exact { IfOk result (λ met. (b : ℕ) → NonePassed (lists_at (map I.keys iters.old) places.now) (heres_at (map I.here iters.old) places.now) b
        → b ≤ last_of (heres_at (map I.here iters.old) places.now) (turned (length places.now) turn)
        → met.key < end → met.key ≡ least_from (common_keys (lists_at (map I.keys iters.old) places.now)) b) }
    // no key that they have in common was passed below the end
    ensures none { IfOk result (λ met. (b : ℕ) → NonePassed (lists_at (map I.keys iters.old) places.now) (heres_at (map I.here iters.old) places.now) b
        → b ≤ last_of (heres_at (map I.here iters.old) places.now) (turned (length places.now) turn)
        → end ≤ met.key → end ≤ least_from (common_keys (lists_at (map I.keys iters.old) places.now)) b) }
    ensures found { IfOk result (λ met. met.key < end → AllByRecursion (λ here. here ≡ met.key) (heres_at (map I.here iters.new) places.now)) }
    ensures ring { IfOk result (λ met. IsRing (lists_at (map I.keys iters.old) places.now) (heres_at (map I.here iters.new) places.now) (turned (length places.now) met.turn)) }
    ensures made { IfOk result (λ met. AreToldMoves P.takes (map I.still iters.old) (map I.keys iters.old) places.now (map I.here iters.old) (map I.here iters.new) passing.old passing.new
        (last_of (heres_at (map I.here iters.old) places.now) (turned (length places.now) turn)) met.key moves.old moves.new) }
    ensures left { IfOk result (λ met. (i : ℕ) → i < length places.now
        → moves.new + moves_left (lists_at (map I.keys iters.old) places.now) (heres_at (map I.here iters.new) places.now) (turned (length places.now) met.turn) i
        ≤ moves.old + moves_left (lists_at (map I.keys iters.old) places.now) (heres_at (map I.here iters.old) places.now) (turned (length places.now) turn) i) }
    // also where memory is refused
    ensures within { (i : ℕ) → i < length places.now → moves.new ≤ moves.old + moves_left (lists_at (map I.keys iters.old) places.now) (heres_at (map I.here iters.old) places.now) (turned (length places.now) turn) i }
    ensures moves { moves.old ≤ moves.new }
{
    let count = places.len();
    let before = turn_before(turn, count);
    let mut turn = turn;
    let mut greatest = iters[places[before]].key();
    let mut least = iters[places[turn]].key();
    while least != greatest && greatest < end {
        let place = places[turn];
        let iter = &mut iters[place];
        let gap = iter.seek(greatest, moves);
        passing.pass(place, iter, gap)?;
        greatest = gap.hi;
        turn = turn_behind(turn, count);
        least = iters[places[turn]].key();
    }
    Ok(Meeting {
        key: greatest,
        turn,
    })
}

/// The one whose turn it is seeks `to`, above which none stands, and all go on from there: to the least key at or above `to` that the
/// iterators of these places have in common, if that is below `end`; else to one from `end` on.
pub fn meet_from<I: KeyIter, P: Passing<I>, L>(
    iters: &mut [I],
    places: &[usize],
    turn: usize,
    to: Key,
    end: Key,
    passing: &mut P,
    moves: &mut Moves<L>,
) -> Result<Meeting, NoMemory>
    requires places { ArePlaces places.now (length iters.old) }
    requires ring { IsRing (lists_at (map I.keys iters.old) places.now) (heres_at (map I.here iters.old) places.now) (turned (length places.now) turn) }
    requires goes_on { first_of (heres_at (map I.here iters.old) places.now) (turned (length places.now) turn) ≢ end_key }
    requires ahead { AllByRecursion (λ here. here ≤ to) (heres_at (map I.here iters.old) places.now) }
    requires bound { to ≤ 2 ^ 120 }
    ensures keys { map I.keys iters.new ≡ map I.keys iters.old }
    ensures still { map I.still iters.new ≡ map I.still iters.old }
    ensures others { (i : ℕ) → (IsIn i places.now → ⊥) → slice_get iters.new i ≡ slice_get iters.old i }
    ensures exact { IfOk result (λ met. met.key < end → met.key ≡ least_from (common_keys (lists_at (map I.keys iters.old) places.now)) to) }
    ensures none { IfOk result (λ met. end ≤ met.key → end ≤ least_from (common_keys (lists_at (map I.keys iters.old) places.now)) to) }
    ensures found { IfOk result (λ met. met.key < end → AllByRecursion (λ here. here ≡ met.key) (heres_at (map I.here iters.new) places.now)) }
    ensures ring { IfOk result (λ met. IsRing (lists_at (map I.keys iters.old) places.now) (heres_at (map I.here iters.new) places.now) (turned (length places.now) met.turn)) }
    ensures made { IfOk result (λ met. AreToldMoves P.takes (map I.still iters.old) (map I.keys iters.old) places.now (map I.here iters.old) (map I.here iters.new) passing.old passing.new
        to met.key moves.old moves.new) }
    ensures left { IfOk result (λ met. first_of (heres_at (map I.here iters.old) places.now) (turned (length places.now) turn) < to → (i : ℕ) → i < length places.now
        → moves.new + moves_left (lists_at (map I.keys iters.old) places.now) (heres_at (map I.here iters.new) places.now) (turned (length places.now) met.turn) i
        ≤ moves.old + moves_left (lists_at (map I.keys iters.old) places.now) (heres_at (map I.here iters.old) places.now) (turned (length places.now) turn) i) }
    // where all stood below, each has moved
    ensures each { IfOk result (λ met. met.key < end → AllByRecursion (λ here. here < to) (heres_at (map I.here iters.old) places.now) → moves.old + length places.now ≤ moves.new) }
    // also where memory is refused
    ensures within { first_of (heres_at (map I.here iters.old) places.now) (turned (length places.now) turn) < to → (i : ℕ) → i < length places.now
        → moves.new ≤ moves.old + moves_left (lists_at (map I.keys iters.old) places.now) (heres_at (map I.here iters.old) places.now) (turned (length places.now) turn) i }
    ensures moves { moves.old ≤ moves.new }
{
    let place = places[turn];
    let iter = &mut iters[place];
    let gap = iter.seek(to, moves);
    passing.pass(place, iter, gap)?;
    meet(
        iters,
        places,
        turn_behind(turn, places.len()),
        end,
        passing,
        moves,
    )
}
