//! A sense that nobody will ask.
ghost use Rattle.std.specs.Prelude.{◌≡◌};
ghost use Rattle.std.specs.Borrow.{ftrue};
ghost use Rattle.lt_sense.specs.Kept.{Sense as Kept};

use crate::keys_at::KeysAt;
use lt_face::items::Perm;
use lt_face::key::Key;
use lt_face::row::Row;
use std::marker::Model;

/// Keeps nothing, and so takes no memory: its gaps and hits stand in clauses alone, and code can't ask for them.
#[derive(Drop)]
pub struct NoSense {
    pub ghost seen: { Kept },
}

impl Model for NoSense {
    ghost also_owns = { λ _. ftrue };
}

unsafe impl Send for NoSense {}

unsafe impl Sync for NoSense {}

impl NoSense {
    /// With the gaps and hits that its caller says.
    #[inline]
    pub(crate) fn of() -> NoSense
        ghost all: { Kept }
        ensures { result.seen ≡ all }
    {
        NoSense {}
    }

    /// The same, where they depend on a gap.
    #[inline]
    pub(crate) fn with_gap(
        _old: &NoSense,
        _relation: u32,
        _perm: &Perm,
        _prefix: &[Key],
        _lo: Key,
        _hi: Key,
    ) -> NoSense
        ghost all: { Kept }
        ensures { result.seen ≡ all }
    {
        NoSense::of()
    }

    /// The same, where they depend on a hit.
    #[inline]
    pub(crate) fn with_hit(_old: &NoSense, _relation: u32, _row: &Row) -> NoSense
        ghost all: { Kept }
        ensures { result.seen ≡ all }
    {
        NoSense::of()
    }

    /// The same, where they depend on a hit by keys.
    #[inline]
    pub(crate) fn with_hit_at<K: KeysAt>(
        _old: &NoSense,
        _relation: u32,
        _places: &[usize],
        _keys: &K,
    ) -> NoSense
        ghost all: { Kept }
        ensures { result.seen ≡ all }
    {
        NoSense::of()
    }

    /// The same, where they depend on what another was given.
    #[inline]
    pub(crate) fn with_all(_old: &NoSense, _other: &NoSense) -> NoSense
        ghost all: { Kept }
        ensures { result.seen ≡ all }
    {
        NoSense::of()
    }
}
