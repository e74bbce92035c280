//! Why a run of items ends early.
ghost use Rattle.std.specs.Prelude.{◌≡◌};
ghost use Rattle.lt_world.specs.declared.halt.Halt.TheVariants as halts;

use lt_edges::Failed;
use lt_face::NoMemory;

/// Why an item wasn't taken.
#[derive(Clone, Copy, Debug, PartialEq, Eq)]
pub enum Halt {
    NoMemory,
    Failed,
}

impl From<NoMemory> for Halt {
    ghost from_gives = { λ _ e. e ≡ halts.NoMemory };

    fn from(_: NoMemory) -> Halt {
        Halt::NoMemory
    }
}

impl From<Failed> for Halt {
    ghost from_gives = { λ _ e. e ≡ halts.Failed };

    fn from(_: Failed) -> Halt {
        Halt::Failed
    }
}
