//! A reader.
ghost use Rattle.std.specs.Prelude.{◌≡◌};
ghost use Rattle.std.specs.Option.{ForSome};
ghost use Rattle.std.specs.Arc.{arc_value};
ghost use Rattle.left_right.specs.Sides.{view};
ghost use Rattle.lt_base.specs.Tables.{state_of};
ghost use Rattle.lt_readers.specs.Passes.{Knows};

use crate::front::Front;
use crate::pass::Pass;
use lt_base::Database;

mod querying;

/// Answers queries on a version that was posted. It holds a share of the last one that it has seen.
#[derive(Drop)]
pub struct Reader {
    /// None where no place was made for it; it then answers on what it holds.
    pub(crate) pass: Option<Pass>,
    pub(crate) front: Front,
    /// Its own share, with the indexes that its queries needed.
    pub(crate) own: Option<Database>,
    pub(crate) ghost one_history: { ForSome pass (λ p. Knows (view p.place) front.seen.book) },
    pub(crate) ghost same: { ForSome own (λ db. state_of db ≡ state_of (arc_value front.version).db) },
}
