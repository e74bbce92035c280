//! What clauses see of a sense by key.
ghost use Rattle.std.specs.Prelude.{◌≡◌};
ghost use Rattle.std.specs.Borrow.{ftrue};
ghost use Rattle.lt_sense.specs.ByKey.{ByKey};

use crate::gathering::Gathering;
use lt_face::items::Perm;
use lt_face::key::Key;
use std::marker::Model;

/// Takes no memory: its gaps and hits stand in clauses alone, and code can't ask for them.
#[derive(Drop)]
pub struct SeenByKey {
    pub ghost seen: { ByKey },
}

impl Model for SeenByKey {
    ghost also_owns = { λ _. ftrue };
}

unsafe impl Send for SeenByKey {}

unsafe impl Sync for SeenByKey {}

impl SeenByKey {
    /// With the gaps and hits that its caller says.
    #[inline]
    pub(crate) fn of() -> SeenByKey
        ghost all: { ByKey }
        ensures { result.seen ≡ all }
    {
        SeenByKey {}
    }

    /// The same, where they depend on a root gap.
    #[inline]
    pub(crate) fn with_root(
        _old: &SeenByKey,
        _relation: u32,
        _perm: &Perm,
        _lo: Key,
        _hi: Key,
    ) -> SeenByKey
        ghost all: { ByKey }
        ensures { result.seen ≡ all }
    {
        SeenByKey::of()
    }

    /// The same, where they depend on the part of a key.
    #[inline]
    pub(crate) fn with_slice(_old: &SeenByKey, _key: Key, _sense: &Gathering) -> SeenByKey
        ghost all: { ByKey }
        ensures { result.seen ≡ all }
    {
        SeenByKey::of()
    }

    /// The same, where they depend on what another has.
    #[inline]
    pub(crate) fn with_all(_old: &SeenByKey, _other: &SeenByKey) -> SeenByKey
        ghost all: { ByKey }
        ensures { result.seen ≡ all }
    {
        SeenByKey::of()
    }

    /// The same, where they depend on keys.
    #[inline]
    pub(crate) fn without(_old: &SeenByKey, _keys: &[Key]) -> SeenByKey
        ghost all: { ByKey }
        ensures { result.seen ≡ all }
    {
        SeenByKey::of()
    }
}
