//! An iterator over a list of keys, which it searches from the first on.
ghost use Rattle.std.specs.Prelude.{◌≡◌, ◌+◌, IfOk, find, nat_lt, not};
ghost use Rattle.lt_face.specs.Keys.{IsKeyList, least_from};

use lt_face::{END, Gap, Key, KeyIter, Moves, NoMemory};
use std::alloc::Global;
use std::marker::Model;

/// The first key at or above the bound.
fn first_from(keys: &[Key], bound: Key) -> Option<Key>
    ensures { result ≡ find (λ key. not (nat_lt key bound)) keys.now }
{
    keys.iter().copied().find(|key| !(*key < bound))
}

/// The least of ascending keys at or above the bound, or `END`.
fn least(keys: &[Key], bound: Key) -> Key
    ensures { result ≡ least_from keys.now bound }
{
    first_from(keys, bound).unwrap_or(END)
}

/// Keys, and the one where it stands.
#[derive(Drop)]
pub struct ListIter {
    keys: Vec<Key>,
    here: Key,
}

impl Model for ListIter {
    ghost use Rattle.std.specs.Prelude.{◌≡◌, ℕ, List};
    ghost use Rattle.lt_face.specs.Keys.{IsKeyList, IsPlace};

    ghost Value = { List ℕ × ℕ };

    ghost view = { λ iter. (iter.keys.items, iter.here) };

    ghost invariant = { λ iter. IsKeyList iter.keys.items × IsPlace iter.keys.items iter.here };
}

impl ListIter {
    /// At the first of ascending keys.
    pub fn new(alloc: Global, keys: &[Key]) -> Result<ListIter, NoMemory>
        requires { IsKeyList keys.now }
        ensures { IfOk result (λ iter. iter ≡ (keys.now, least_from keys.now 0)) }
    {
        let keys = Vec::from_slice(alloc, keys)?;
        let here = least(&keys, 0);
        Ok(ListIter { keys, here })
    }

    fn go_to<L>(&mut self, bound: Key, moves: &mut Moves<L>) -> Gap
        ensures moved { self.new ≡ (self.old.0, least_from self.old.0 bound) }
        ensures lo { result.lo ≡ bound }
        ensures hi { result.hi ≡ self.new.1 }
        ensures moves { moves.new ≡ moves.old + 1 }
    {
        moves.tick();
        self.here = least(&self.keys, bound);
        Gap {
            lo: bound,
            hi: self.here,
        }
    }
}

impl KeyIter for ListIter {
    ghost keys = { λ iter. iter.0 };

    ghost here = { λ iter. iter.1 };

    ghost still = { λ iter. (iter.0, 0) };

    fn key(&self) -> Key {
        self.here
    }

    fn at_end(&self) -> bool {
        self.here == END
    }

    fn next<L>(&mut self, moves: &mut Moves<L>) -> Gap {
        self.go_to(self.here + 1, moves)
    }

    fn seek<L>(&mut self, to: Key, moves: &mut Moves<L>) -> Gap {
        self.go_to(to, moves)
    }
}
