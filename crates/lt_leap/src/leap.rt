//! `Leap`: the leapfrog join of one variable, of Veldhuizen, Leapfrog Triejoin (ICDT 2014).
ghost use Rattle.std.specs.Prelude.{◌≡◌, ◌≢◌, ◌<◌, ◌≤◌, ◌+◌, ◌-◌, ◌^◌, ◌↔◌, ℕ, List, length, map, slice_get, vec_len, IsTrue, IfOk, OnOk, OnErr, Some};
ghost use Rattle.std.specs.List.{AllByRecursion};
ghost use Rattle.lt_face.specs.Keys.{end_key, least_from};
ghost use Rattle.lt_leap.specs.Common.{common_keys};
ghost use Rattle.lt_leap.specs.Moves.{AreMade, IsGivenUp};
ghost use Rattle.lt_leap.specs.Potential.{join_cost, potential};
ghost use Rattle.lt_leap.specs.Ring.{IsFound};
ghost use Rattle.lt_leap.specs.Search.{IsGreatest, Notes as NotesGaps};

use crate::make::ring_of;
use crate::notes::Notes;
use crate::ring::{advance, search};
use lt_face::key::{END, Key};
use lt_face::key_iter::KeyIter;
use lt_face::memory::NoMemory;
use lt_face::moves::Moves;
use std::alloc::Global;
use std::marker::Model;

/// The leapfrog join of iterators over one variable: the keys that all of them have. In a ring in the order of their keys
/// the iterator with the least key seeks the greatest, until all stand at one key or one of them is at its end.
///
/// A call answers `NoMemory` where `notes` do, and `init` also where its own list can't grow. The join is then given up.
#[derive(Drop)]
pub struct Leap<I: KeyIter> {
    iters: Vec<I>,
    ring: Vec<u32>,
    key: Key,
}

impl<I: KeyIter> Model for Leap<I> {
    ghost use Rattle.std.specs.Prelude.{◌≢◌, map};
    ghost use Rattle.lt_face.specs.Keys.{end_key};
    ghost use Rattle.lt_leap.specs.Ring.{IsFound};
    ghost use Rattle.lt_leap.specs.View.{LeapView, leap_code};

    ghost Value = { LeapView I };

    ghost coded = { leap_code I.code };

    ghost view = { λ a. record { iters = a.iters.items; ring = a.ring.items; here = a.key } };

    ghost invariant = { λ a. a.key ≢ end_key → IsFound (map I.keys a.iters.items) (map I.here a.iters.items) a.ring.items a.key };
}

impl<I: KeyIter> Leap<I> {
    /// The join of iterators that each stand at their first key, or at their end, at their first common key. The opens
    /// that brought them there count in `cost` and `potential`, one for each iterator.
    pub fn init<N: Notes, L>(
        alloc: Global,
        mut iters: Vec<I>,
        notes: &mut N,
        moves: &mut Moves<L>,
    ) -> Result<Leap<I>, NoMemory>
    where
        I: Drop,
        requires some { 0 < vec_len iters }
        requires few { vec_len iters < 2 ^ 32 }
        requires first { AllByRecursion (λ iter. I.here iter ≡ least_from (I.keys iter) 0) iters.items }
        ensures keys { IfOk result (λ leap. map I.keys leap.iters ≡ map I.keys iters.items) }
        ensures still { IfOk result (λ leap. map I.still leap.iters ≡ map I.still iters.items) }
        ensures here { IfOk result (λ leap. leap.here ≡ least_from (common_keys (map I.keys iters.items)) 0) }
        ensures notes { IfOk result (λ leap. (m : ℕ) × IsGreatest (map I.here iters.items) m
            × NotesGaps (map I.keys iters.items) m leap.here (N.kept notes.old) (N.kept notes.new) (moves.new - moves.old)) }
        ensures made { IfOk result (λ leap. AreMade (map I.keys iters.items) (map I.here iters.items) (map I.here leap.iters)
            (N.kept notes.old) (N.kept notes.new) moves.old moves.new) }
        ensures given_up { OnErr result ((to : List ℕ) × IsGivenUp (map I.keys iters.items) (map I.here iters.items) to
            (N.kept notes.old) (N.kept notes.new) moves.old moves.new) }
        ensures cost { moves.new + length iters.items ≤ moves.old + join_cost (map I.keys iters.items) }
        ensures potential { IfOk result (λ leap. moves.new + potential I.keys I.here leap + length iters.items ≤ moves.old + join_cost (map I.keys iters.items)) }
        ensures moves { moves.old ≤ moves.new }
    {
        let mut ring = ring_of(alloc, &iters)?;
        let key = search(&mut iters, &mut ring, notes, moves)?;
        Ok(Leap { iters, ring, key })
    }

    /// The key found, or `END`.
    pub fn key(&self) -> Key
        ensures value { result ≡ self.now.here }
        ensures found { self.now.here ≢ end_key → IsFound (map I.keys self.now.iters) (map I.here self.now.iters) self.now.ring self.now.here }
    {
        self.key
    }

    /// Whether there is no further common key.
    pub fn at_end(&self) -> bool
        ensures { IsTrue result ↔ (self.now.here ≡ end_key) }
    {
        self.key == END
    }

    /// Goes to the next common key, or to the end.
    pub fn next<N: Notes, L>(&mut self, notes: &mut N, moves: &mut Moves<L>) -> Result<(), NoMemory>
        requires { self.old.here ≢ end_key }
        ensures keys { map I.keys self.new.iters ≡ map I.keys self.old.iters }
        ensures still { map I.still self.new.iters ≡ map I.still self.old.iters }
        ensures here { OnOk result (self.new.here ≡ least_from (common_keys (map I.keys self.old.iters)) (self.old.here + 1)) }
        ensures notes { OnOk result (NotesGaps (map I.keys self.old.iters) (self.old.here + 1) self.new.here (N.kept notes.old) (N.kept notes.new) (moves.new - moves.old)) }
        ensures made { OnOk result (AreMade (map I.keys self.old.iters) (map I.here self.old.iters) (map I.here self.new.iters)
            (N.kept notes.old) (N.kept notes.new) moves.old moves.new) }
        ensures given_up { OnErr result (IsGivenUp (map I.keys self.old.iters) (map I.here self.old.iters) (map I.here self.new.iters)
            (N.kept notes.old) (N.kept notes.new) moves.old moves.new) }
        ensures ended { OnErr result (self.new.here ≡ end_key) }
        ensures potential { moves.new + potential I.keys I.here self.new ≤ moves.old + potential I.keys I.here self.old }
        ensures moves { moves.old ≤ moves.new }
        ensures at_least { OnOk result (self.new.here ≢ end_key → moves.old + length self.old.iters ≤ moves.new) }
    {
        let to = self.key + 1;
        self.key = END;
        self.key = advance(&mut self.iters, &mut self.ring, to, notes, moves)?;
        Ok(())
    }

    /// Goes to the least common key at or above `to`, or to the end.
    pub fn seek<N: Notes, L>(
        &mut self,
        to: Key,
        notes: &mut N,
        moves: &mut Moves<L>,
    ) -> Result<(), NoMemory>
        requires not_ended { self.old.here ≢ end_key }
        requires ahead { self.old.here ≤ to }
        requires bound { to ≤ 2 ^ 120 }
        ensures keys { map I.keys self.new.iters ≡ map I.keys self.old.iters }
        ensures still { map I.still self.new.iters ≡ map I.still self.old.iters }
        ensures here { OnOk result (self.new.here ≡ least_from (common_keys (map I.keys self.old.iters)) to) }
        ensures notes { OnOk result (NotesGaps (map I.keys self.old.iters) to self.new.here (N.kept notes.old) (N.kept notes.new) (moves.new - moves.old)) }
        ensures made { OnOk result (AreMade (map I.keys self.old.iters) (map I.here self.old.iters) (map I.here self.new.iters)
            (N.kept notes.old) (N.kept notes.new) moves.old moves.new) }
        ensures given_up { OnErr result (IsGivenUp (map I.keys self.old.iters) (map I.here self.old.iters) (map I.here self.new.iters)
            (N.kept notes.old) (N.kept notes.new) moves.old moves.new) }
        ensures ended { OnErr result (self.new.here ≡ end_key) }
        ensures potential { self.old.here < to → moves.new + potential I.keys I.here self.new ≤ moves.old + potential I.keys I.here self.old }
        ensures moves { moves.old ≤ moves.new }
    {
        self.key = END;
        self.key = advance(&mut self.iters, &mut self.ring, to, notes, moves)?;
        Ok(())
    }

    /// How many iterators there are.
    pub fn len(&self) -> usize
        ensures { result ≡ length self.now.iters }
    {
        self.iters.len()
    }

    /// Iterator `i`, in the order in which they were handed in.
    pub fn iter(&self, i: usize) -> &I
        requires { i < length self.now.iters }
        ensures item { slice_get self.now.iters i ≡ Some result.now }
        ensures found { self.now.here ≢ end_key → I.here result.now ≡ self.now.here }
    {
        &self.iters[i]
    }

    /// The iterators, in the order in which they were handed in, each where it stands.
    pub fn into_iters(self) -> Vec<I>
        ensures iters { result.items ≡ self.iters }
        ensures found { self.here ≢ end_key → AllByRecursion (λ iter. I.here iter ≡ self.here) result.items }
    {
        let Leap {
            iters,
            ring: _,
            key: _,
        } = self;
        iters
    }
}
