//! The history of what was posted: one list, to which the poster alone adds. It exists in proofs alone; what lies in memory is a
//! word, the number of posts.

use crate::version::Version;
use logbook::{Gain, Opening, Plain, Play, Rule};

/// The rule of the history.
pub struct History;

impl Rule<Version, u64> for History {
    ghost use Rattle.std.specs.Prelude.{[]};
    ghost use base.Fml.{ftrue};
    ghost use Rattle.lt_readers.specs.History.{IsKept};

    ghost holds = { λ cells log. IsKept cells log };

    ghost first = { [] };

    ghost hinted = { λ n log. Unit {0} };

    ghost shows = { λ log. [] };

    ghost keeps = { λ names log. ftrue };

    ghost moves = { λ ask before after answer. Unit {0} };
}

/// A post trades nothing.
pub struct Nothing;

impl Gain<Version, u64> for Nothing {
    ghost use base.Fml.{ftrue};

    ghost after = { λ names about answer. ftrue };
}

/// A step that adds a version.
pub struct Add;

impl Play<Version, u64> for Add {
    ghost use Rattle.lt_readers.specs.History.{Adds};

    ghost then = { Adds };
}

/// What such a step asks for.
impl Plain<Version, Version, u64> for Add {
    ghost use Rattle.std.specs.Prelude.{None};

    ghost ask = { λ version. version };

    ghost state = { λ version. None };
}

/// The first version.
pub struct Begin;

impl Opening<Version, Version> for Begin {
    ghost use Rattle.std.specs.Prelude.{[], ◌∷◌};

    ghost log = { λ count version. version ∷ [] };
}
