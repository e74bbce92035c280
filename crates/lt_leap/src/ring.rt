//! The ring of iterators, in which the one with the least key seeks the greatest.
ghost use Rattle.std.specs.Prelude.{◌≡◌, ◌≢◌, ◌<◌, ◌≤◌, ◌+◌, ◌^◌, ◌++◌, length, map, slice_index, slice_set, take, drop, vec_len, OnOk, OnErr, IfOk, ◌-◌, ℕ};
ghost use Rattle.lt_face.specs.Keys.{end_key, least_from};
ghost use Rattle.lt_leap.specs.Common.{common_keys};
ghost use Rattle.lt_leap.specs.Moves.{IsMove, AreMade, IsGivenUp};
ghost use Rattle.lt_leap.specs.Potential.{moves_left};
ghost use Rattle.lt_leap.specs.Ring.{keys_at, IsRing};
ghost use Rattle.lt_leap.specs.Search.{NonePassed, changed, Notes as NotesGaps};

use crate::notes::Notes;
use lt_face::key::{END, Gap, Key};
use lt_face::key_iter::KeyIter;
use lt_face::memory::NoMemory;
use lt_face::moves::Moves;

/// The first of the ring goes to its end.
fn put_last(ring: &mut Vec<u32>)
    requires { 0 < vec_len ring.old }
    ensures { ring.new.items ≡ drop 1 ring.old.items ++ take 1 ring.old.items }
{
    let first = ring[0];
    let last = ring.len() - 1;
    for i in 0..last {
        ring[i] = ring[i + 1];
    }
    ring[last] = first;
}

/// The first of the ring seeks the bound, and goes to the ring's end.
pub(crate) fn turn<I: KeyIter, L>(
    iters: &mut Vec<I>,
    ring: &mut Vec<u32>,
    to: Key,
    moves: &mut Moves<L>,
) -> Gap
    requires ring { IsRing (map I.keys iters.old.items) (map I.here iters.old.items) ring.old.items }
    requires goes_on { slice_index (map I.here iters.old.items) (slice_index ring.old.items 0) ≢ end_key }
    requires ahead { (j : ℕ) → j < vec_len iters.old → slice_index (map I.here iters.old.items) j ≤ to }
    requires bound { to ≤ 2 ^ 120 }
    ensures keys { map I.keys iters.new.items ≡ map I.keys iters.old.items }
    ensures still { map I.still iters.new.items ≡ map I.still iters.old.items }
    ensures moved { let j = slice_index ring.old.items 0 in map I.here iters.new.items ≡ slice_set (map I.here iters.old.items) j (least_from (keys_at (map I.keys iters.old.items) j) to) }
    ensures turned { ring.new.items ≡ drop 1 ring.old.items ++ take 1 ring.old.items }
    ensures ring { IsRing (map I.keys iters.new.items) (map I.here iters.new.items) ring.new.items }
    ensures is_move { IsMove (map I.keys iters.old.items) (map I.here iters.old.items) (slice_index ring.old.items 0, result) }
    ensures lo { result.lo ≡ to }
    ensures hi { result.hi ≡ least_from (keys_at (map I.keys iters.old.items) (slice_index ring.old.items 0)) to }
    ensures moves { moves.new ≡ moves.old + 1 }
{
    let place = ring[0] as usize;
    let iter = &mut iters[place];
    let gap = iter.seek(to, moves);
    put_last(ring);
    gap
}

/// The key of the iterator whose place stands at a turn of the ring.
pub(crate) fn key_at<I: KeyIter>(iters: &Vec<I>, ring: &Vec<u32>, turn: usize) -> Key
    requires turn { turn < vec_len ring.now }
    requires place { slice_index ring.now.items turn < vec_len iters.now }
    ensures { result ≡ slice_index (map I.here iters.now.items) (slice_index ring.now.items turn) }
{
    iters[ring[turn] as usize].key()
}

/// Turns the ring until all iterators stand at one key, or one of them at its end: that key, or `END`.
pub(crate) fn search<I: KeyIter, N: Notes, L>(
    iters: &mut Vec<I>,
    ring: &mut Vec<u32>,
    notes: &mut N,
    moves: &mut Moves<L>,
) -> Result<Key, NoMemory>
    requires { IsRing (map I.keys iters.old.items) (map I.here iters.old.items) ring.old.items }
    ensures ring { OnOk result (IsRing (map I.keys iters.new.items) (map I.here iters.new.items) ring.new.items) }
    ensures keys { map I.keys iters.new.items ≡ map I.keys iters.old.items }
    ensures still { map I.still iters.new.items ≡ map I.still iters.old.items }
    ensures exact { IfOk result (λ key. (b : ℕ) → NonePassed (map I.keys iters.old.items) (map I.here iters.old.items) b
        → b ≤ slice_index (map I.here iters.old.items) (slice_index ring.old.items (length ring.old.items - 1))
        → key ≡ least_from (common_keys (map I.keys iters.old.items)) b) }
    ensures found { IfOk result (λ key. key ≢ end_key → (i : ℕ) → i < vec_len iters.new → slice_index (map I.here iters.new.items) i ≡ key) }
    ensures notes { IfOk result (λ key. NotesGaps (map I.keys iters.old.items)
        (slice_index (map I.here iters.old.items) (slice_index ring.old.items (length ring.old.items - 1))) key
        (N.kept notes.old) (N.kept notes.new) (moves.new - moves.old)) }
    ensures made { OnOk result (AreMade (map I.keys iters.old.items) (map I.here iters.old.items) (map I.here iters.new.items)
        (N.kept notes.old) (N.kept notes.new) moves.old moves.new) }
    ensures given_up { OnErr result (IsGivenUp (map I.keys iters.old.items) (map I.here iters.old.items) (map I.here iters.new.items)
        (N.kept notes.old) (N.kept notes.new) moves.old moves.new) }
    ensures left { (i : ℕ) → i < vec_len iters.old → moves.new + moves_left (map I.keys iters.new.items) (map I.here iters.new.items) ring.new.items i
        ≤ moves.old + moves_left (map I.keys iters.old.items) (map I.here iters.old.items) ring.old.items i }
    ensures moved { OnOk result (changed (map I.here iters.old.items) (map I.here iters.new.items) ≤ moves.new - moves.old) }
    ensures moves { moves.old ≤ moves.new }
{
    let last = ring.len() - 1;
    let mut least = key_at(iters, ring, 0);
    let mut greatest = key_at(iters, ring, last);
    while least != greatest && greatest != END {
        let place = ring[0];
        let gap = turn(iters, ring, greatest, moves);
        notes.gap(place, gap)?;
        least = key_at(iters, ring, 0);
        greatest = key_at(iters, ring, last);
    }
    Ok(greatest)
}

/// The first of the ring seeks the bound, and then the ring is searched: the least common key from the bound on, or `END`.
pub(crate) fn advance<I: KeyIter, N: Notes, L>(
    iters: &mut Vec<I>,
    ring: &mut Vec<u32>,
    to: Key,
    notes: &mut N,
    moves: &mut Moves<L>,
) -> Result<Key, NoMemory>
    requires ring { IsRing (map I.keys iters.old.items) (map I.here iters.old.items) ring.old.items }
    requires goes_on { slice_index (map I.here iters.old.items) (slice_index ring.old.items 0) ≢ end_key }
    requires ahead { (j : ℕ) → j < vec_len iters.old → slice_index (map I.here iters.old.items) j ≤ to }
    requires bound { to ≤ 2 ^ 120 }
    ensures ring { OnOk result (IsRing (map I.keys iters.new.items) (map I.here iters.new.items) ring.new.items) }
    ensures keys { map I.keys iters.new.items ≡ map I.keys iters.old.items }
    ensures still { map I.still iters.new.items ≡ map I.still iters.old.items }
    ensures exact { IfOk result (λ key. key ≡ least_from (common_keys (map I.keys iters.old.items)) to) }
    ensures found { IfOk result (λ key. key ≢ end_key → (i : ℕ) → i < vec_len iters.new → slice_index (map I.here iters.new.items) i ≡ key) }
    ensures notes { IfOk result (λ key. NotesGaps (map I.keys iters.old.items) to key (N.kept notes.old) (N.kept notes.new) (moves.new - moves.old)) }
    ensures made { OnOk result (AreMade (map I.keys iters.old.items) (map I.here iters.old.items) (map I.here iters.new.items)
        (N.kept notes.old) (N.kept notes.new) moves.old moves.new) }
    ensures given_up { OnErr result (IsGivenUp (map I.keys iters.old.items) (map I.here iters.old.items) (map I.here iters.new.items)
        (N.kept notes.old) (N.kept notes.new) moves.old moves.new) }
    ensures left { slice_index (map I.here iters.old.items) (slice_index ring.old.items 0) < to → (i : ℕ) → i < vec_len iters.old
        → moves.new + moves_left (map I.keys iters.new.items) (map I.here iters.new.items) ring.new.items i
        ≤ moves.old + moves_left (map I.keys iters.old.items) (map I.here iters.old.items) ring.old.items i }
    ensures moved { OnOk result (changed (map I.here iters.old.items) (map I.here iters.new.items) ≤ moves.new - moves.old) }
    ensures moves { moves.old ≤ moves.new }
{
    let place = ring[0];
    let gap = turn(iters, ring, to, moves);
    notes.gap(place, gap)?;
    let key = search(iters, ring, notes, moves)?;
    Ok(key)
}
