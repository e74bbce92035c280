//! The keys of the levels above a place of a walk.
ghost use Rattle.std.specs.Prelude.{◌≡◌, ◌<◌, ◌+◌, ◌-◌, ◌^◌, ℕ, List, [], ◌∷◌, ◌++◌, length, take};
ghost use Rattle.std.specs.Borrow.{ftrue};

use lt_face::key::Key;
use std::marker::Model;

/// Keys that stand in clauses alone: code can't ask for them.
#[derive(Drop)]
pub struct ToldKeys {
    pub ghost keys: { List ℕ },
}

impl Model for ToldKeys {
    ghost also_owns = { λ _. ftrue };
}

impl ToldKeys {
    /// The keys that its caller says.
    #[inline]
    fn of() -> ToldKeys
        ghost all: { List ℕ }
        ensures { result.keys ≡ all }
    {
        ToldKeys {}
    }

    /// The same, where they depend on others and a key.
    #[inline]
    fn with(_old: &ToldKeys, _key: Key) -> ToldKeys
        ghost all: { List ℕ }
        ensures { result.keys ≡ all }
    {
        ToldKeys::of()
    }

    /// The same, where they depend on others.
    #[inline]
    fn among(_old: &ToldKeys) -> ToldKeys
        ghost all: { List ℕ }
        ensures { result.keys ≡ all }
    {
        ToldKeys::of()
    }
}

/// The keys of the levels from the first on to where a walk is. Clauses see them all; at run time there is only their number,
/// since the values of the variables have them.
#[derive(Drop)]
pub struct Path {
    depth: usize,
    told: ToldKeys,
}

impl Model for Path {
    ghost use Rattle.std.specs.Prelude.{◌≡◌, ℕ, List, length};

    ghost Value = { List ℕ };

    ghost view = { λ p. p.told.keys };

    ghost invariant = { λ p. p.depth ≡ length p.told.keys };
}

impl Path {
    /// Above the first level.
    pub fn root() -> Path
        ensures { result ≡ [] }
    {
        Path {
            depth: 0,
            told: ToldKeys::of(),
        }
    }

    /// How many levels are above.
    #[inline]
    pub fn len(&self) -> usize
        ensures { result ≡ length self.now }
    {
        self.depth
    }

    /// One level down, at this key.
    #[inline]
    pub fn push(&mut self, key: Key)
        requires { length self.old + 1 < 2 ^ 64 }
        ensures { self.new ≡ self.old ++ key ∷ [] }
    {
        self.depth += 1;
        self.told = ToldKeys::with(&self.told, key);
    }

    /// One level up.
    #[inline]
    pub fn pop(&mut self)
        requires { 0 < length self.old }
        ensures { self.new ≡ take (length self.old - 1) self.old }
    {
        self.depth -= 1;
        self.told = ToldKeys::among(&self.told);
    }
}
