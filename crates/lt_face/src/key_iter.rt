//! An iterator over ascending keys, which counts its moves: one level of the trie iterators of Veldhuizen, Leapfrog
//! Triejoin (ICDT 2014). A move answers the gap that it passed, from its bound to where it lands.
ghost use Rattle.std.specs.Prelude.{◌≡◌, ◌≢◌, ◌≤◌, ◌+◌, ◌^◌, ◌↔◌, ℕ, List, IsTrue};
ghost use Rattle.lt_face.specs.Keys.{IsKeyList, IsPlace, end_key, least_from};

use crate::key::{Gap, Key};
use crate::moves::Moves;

/// Ascending keys, and a place among them.
pub trait KeyIter {
    /// All keys, ascending.
    ghost keys: { Self → List ℕ };

    /// The key at the place, or `END` past the last.
    ghost here: { Self → ℕ };

    /// All of it but the place: it is put somewhere that does not depend on where it stands.
    ghost still: { Self → Self };

    /// The key at the place, or `END` past the last.
    fn key(&self) -> Key
        ensures value { result ≡ here self.now }
        ensures keys { IsKeyList (keys self.now) }
        ensures place { IsPlace (keys self.now) (here self.now) };

    /// Whether the place is past the last key.
    fn at_end(&self) -> bool
        ensures { IsTrue result ↔ (here self.now ≡ end_key) };

    /// Goes to the next key, or to the end. The bound is one above the key left behind.
    fn next<L>(&mut self, moves: &mut Moves<L>) -> Gap
        requires { here self.old ≢ end_key }
        ensures keys { keys self.new ≡ keys self.old }
        ensures still { still self.new ≡ still self.old }
        ensures here { here self.new ≡ least_from (keys self.old) (here self.old + 1) }
        ensures lo { result.lo ≡ here self.old + 1 }
        ensures hi { result.hi ≡ here self.new }
        ensures moves { moves.new ≡ moves.old + 1 };

    /// Goes to the least key that is at least `to`, or to the end. The bound is `to`, which is not below the key at the
    /// place and at most 2^120.
    fn seek<L>(&mut self, to: Key, moves: &mut Moves<L>) -> Gap
        requires not_ended { here self.old ≢ end_key }
        requires ahead { here self.old ≤ to }
        requires bound { to ≤ 2 ^ 120 }
        ensures keys { keys self.new ≡ keys self.old }
        ensures still { still self.new ≡ still self.old }
        ensures here { here self.new ≡ least_from (keys self.old) to }
        ensures lo { result.lo ≡ to }
        ensures hi { result.hi ≡ here self.new }
        ensures moves { moves.new ≡ moves.old + 1 };
}
